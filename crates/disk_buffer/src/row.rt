// What the tree of resident files holds, and its sums.
ghost use Rattle.std.specs.Prelude.{◌≡◌};
ghost use Rattle.disk_buffer.specs.Rows.{least_end};

use sum_trees::{Sought, Summed};

// A resident file: the number of its arrival, its length in bytes, the greatest end of its pins, whether it is safe on tape, and
// whether it may go at the moment that the buffer has reached. The fields stand in the order that takes least memory.
#[derive(Clone, Copy)]
pub(crate) struct Row {
    pub(crate) arrival: u64,
    pub(crate) len: u64,
    pub(crate) until: u64,
    pub(crate) file: u32,
    pub(crate) safe: bool,
    pub(crate) ready: bool,
}

// What rows make together: the bytes of those that are ready, whether one is safe and not ready, and where one is the least end
// of theirs, and whether one is ready. Bytes stand still at their greatest number.
#[derive(Clone, Copy)]
pub(crate) struct Readiness {
    pub(crate) bytes: u64,
    pub(crate) least: u64,
    pub(crate) waits: bool,
    pub(crate) ready: bool,
}

// What is sought: a row that is safe and not ready with an end up to this moment, and where ready ones are sought too, those.
#[derive(Clone, Copy)]
pub(crate) struct Wanted {
    pub(crate) at: u64,
    pub(crate) ready: bool,
}

// The least of two ends, of which each may stand for none.
fn least_end(waits: bool, least: u64, other_waits: bool, other: u64) -> u64
    ensures { result ≡ least_end waits least other_waits other }
{
    if !waits {
        return other;
    }
    if !other_waits {
        return least;
    }
    least.min(other)
}

impl Summed for Row {
    ghost use Rattle.disk_buffer.specs.Rows.{both_readiness, own_readiness, row_before};
    ghost use Rattle.disk_buffer.specs.Laws.{readiness_joins, rows_one_way, rows_split};

    type Sum = Readiness;

    ghost before = { row_before };

    ghost sums = { record { own = own_readiness; joined = both_readiness } };

    ghost joins = { readiness_joins };

    ghost one_way = { rows_one_way };

    ghost splits = { rows_split };

    fn is_before(&self, other: &Self) -> bool {
        self.arrival < other.arrival
    }

    fn sum(&self) -> Readiness {
        Readiness {
            bytes: if self.ready { self.len } else { 0 },
            least: self.until,
            waits: self.safe && !self.ready,
            ready: self.ready,
        }
    }

    fn join(first: Readiness, second: Readiness) -> Readiness {
        Readiness {
            bytes: first.bytes.saturating_add(second.bytes),
            least: least_end(first.waits, first.least, second.waits, second.least),
            waits: first.waits || second.waits,
            ready: first.ready || second.ready,
        }
    }
}

impl Sought for Row {
    ghost use Rattle.disk_buffer.specs.Rows.{has_wanted};
    ghost use Rattle.disk_buffer.specs.Laws.{either_has};

    type Wanted = Wanted;

    ghost passes = { has_wanted };

    ghost either = { either_has };

    fn has_sought(sum: Readiness, wanted: Wanted) -> bool {
        (wanted.ready && sum.ready) || (sum.waits && sum.least <= wanted.at)
    }
}
