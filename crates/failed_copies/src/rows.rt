// What the tree of failed copies holds.
ghost use Rattle.std.specs.Prelude.{◌≡◌};

use sum_trees::Summed;

// A copy of a file, counted from 1.
#[derive(Clone, Copy)]
pub(crate) struct FailedRow {
    pub(crate) file: u32,
    pub(crate) copy: u8,
}

impl Summed for FailedRow {
    ghost use Rattle.std.specs.Prelude.{refl};
    ghost use Rattle.job_queues.specs.Laws.{before_one_way, before_splits};
    ghost use Rattle.failed_copies.specs.Copies.{copy_of, row_before};

    type Sum = ();

    ghost before = { row_before };

    ghost sums = { record { own = λ _. tt; joined = λ _ _. tt } };

    ghost joins = { λ a b c. refl };

    ghost one_way = { λ a b e. before_one_way (copy_of a) (copy_of b) e };

    ghost splits = { λ a b c e. before_splits (copy_of a) (copy_of b) (copy_of c) e };

    fn is_before(&self, other: &Self) -> bool {
        if self.file < other.file {
            return true;
        }
        if other.file < self.file {
            return false;
        }
        self.copy < other.copy
    }

    fn sum(&self) {}

    fn join(_first: (), _second: ()) {}
}
