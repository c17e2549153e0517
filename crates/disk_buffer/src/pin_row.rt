// What the tree of pins holds.
ghost use Rattle.std.specs.Prelude.{◌≡◌};

use sum_trees::Summed;

// A pin: the file, its owner, and the moment at which it ends. The file has a wider type than it needs, so that each file has
// one behind it.
#[derive(Clone, Copy)]
pub(crate) struct PinRow {
    pub(crate) until: u64,
    pub(crate) file: u64,
    pub(crate) owner: u32,
}

impl Summed for PinRow {
    ghost use Rattle.std.specs.Prelude.{max};
    ghost use Rattle.disk_buffer.specs.PinRows.{pin_before};
    ghost use Rattle.disk_buffer.specs.Laws.{ends_join, pins_one_way, pins_split};

    type Sum = u64;

    ghost before = { pin_before };

    ghost sums = { record { own = λ p. p.until; joined = max } };

    ghost joins = { ends_join };

    ghost one_way = { pins_one_way };

    ghost splits = { pins_split };

    fn is_before(&self, other: &Self) -> bool {
        if self.file < other.file {
            return true;
        }
        if other.file < self.file {
            return false;
        }
        self.owner < other.owner
    }

    fn sum(&self) -> u64 {
        self.until
    }

    fn join(first: u64, second: u64) -> u64 {
        first.max(second)
    }
}
