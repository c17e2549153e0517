// What the trees of tapes hold.
ghost use Rattle.std.specs.Prelude.{◌≡◌};

use sum_trees::Summed;

// A copy, counted from 1, that has its place on a tape at this fSeq.
#[derive(Clone, Copy)]
pub(crate) struct LiveCopy {
    pub(crate) fseq: u32,
    pub(crate) file: u32,
    pub(crate) copy: u8,
}

impl Summed for LiveCopy {
    ghost use Rattle.tape_table.specs.Counts.{count_joined, counts_join, live_before, live_one_way, live_splits};

    type Sum = u32;

    ghost before = { live_before };

    ghost sums = { record { own = λ _. 1; joined = count_joined } };

    ghost joins = { counts_join };

    ghost one_way = { live_one_way };

    ghost splits = { live_splits };

    fn is_before(&self, other: &Self) -> bool {
        self.fseq < other.fseq
    }

    fn sum(&self) -> u32 {
        1
    }

    fn join(first: u32, second: u32) -> u32 {
        first.saturating_add(second)
    }
}
