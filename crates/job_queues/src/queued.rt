// What the trees of queues hold, and its sums.
ghost use Rattle.std.specs.Prelude.{◌≡◌};

use crate::order::comes_before;
use cta_model::Job;
use sum_trees::{Sought, Summed};

// A line that waits. The fields stand in the order that takes least memory.
#[derive(Clone, Copy)]
pub(crate) struct Queued {
    pub(crate) len: u64,
    pub(crate) born: u64,
    pub(crate) age: u64,
    pub(crate) priority: u32,
    pub(crate) job: Job,
}

// What lines make together: how many files and bytes, the least size in bytes, the highest priority, and the least age in
// seconds. Counts stand still at their greatest number. The fields stand in the order that takes least memory.
#[derive(Clone, Copy)]
pub(crate) struct Totals {
    pub(crate) bytes: u64,
    pub(crate) least: u64,
    pub(crate) age: u64,
    pub(crate) files: u32,
    pub(crate) priority: u32,
}

impl Summed for Queued {
    ghost use Rattle.job_queues.specs.Laws.{own_totals, both_totals, queued_before, totals_join, before_one_way, before_splits};

    type Sum = Totals;

    ghost before = { queued_before };

    ghost sums = { record { own = own_totals; joined = both_totals } };

    ghost joins = { totals_join };

    ghost one_way = { λ a b e. before_one_way a.job b.job e };

    ghost splits = { λ a b c e. before_splits a.job b.job c.job e };

    fn is_before(&self, other: &Self) -> bool {
        comes_before(&self.job, &other.job)
    }

    fn sum(&self) -> Totals {
        Totals {
            files: 1,
            bytes: self.len,
            least: self.len,
            priority: self.priority,
            age: self.age,
        }
    }

    fn join(first: Totals, second: Totals) -> Totals {
        Totals {
            files: first.files.saturating_add(second.files),
            bytes: first.bytes.saturating_add(second.bytes),
            least: first.least.min(second.least),
            priority: first.priority.max(second.priority),
            age: first.age.min(second.age),
        }
    }
}

impl Sought for Queued {
    ghost use Rattle.job_queues.specs.Fitting.{fits_either, some_fits};

    // So many bytes, which a file is to have at most.
    type Wanted = u64;

    ghost passes = { some_fits };

    ghost either = { fits_either };

    fn has_sought(sum: Totals, room: u64) -> bool {
        sum.least <= room
    }
}
