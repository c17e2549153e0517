// Rows that become ready.
ghost use Rattle.std.specs.Prelude.{◌≡◌, ◌<◌, ◌≤◌, ◌^◌, length};
ghost use Rattle.part_model.specs.Held.{bytes_of};
ghost use Rattle.sum_trees.specs.Forests.{items_in};
ghost use Rattle.disk_buffer.specs.Stays.{residents, stays_of};
ghost use Rattle.disk_buffer.specs.Settling.{AreSettled, NoneWaits, ready_rows, settled};

use crate::row::{Row, Wanted};
use sum_trees::Forest;

// The row, ready.
fn settled(row: Row) -> Row
    ensures { result ≡ settled row }
{
    Row {
        arrival: row.arrival,
        len: row.len,
        until: row.until,
        file: row.file,
        safe: row.safe,
        ready: true,
    }
}

// Makes the rows ready that are safe and end up to a moment.
pub(crate) fn settle_rows(forest: &mut Forest<Row>, at: u64)
    requires { length forest.old.trees ≡ 1 }
    ensures one { length forest.new.trees ≡ 1 }
    ensures settled { AreSettled at (items_in forest.old.trees 0) (items_in forest.new.trees 0) }
    ensures none { NoneWaits at (items_in forest.new.trees 0) }
    ensures room { forest.old.room ≤ forest.new.room }
{
    let wanted = Wanted { at, ready: false };
    while let Some(row) = forest.first_passing(0, wanted) {
        forest.replace(0, settled(row));
    }
}

// The bytes of the rows that are ready.
pub(crate) fn ready_bytes(forest: &Forest<Row>) -> u64
    requires one { length forest.now.trees ≡ 1 }
    requires fits { bytes_of (residents (stays_of (items_in forest.now.trees 0))) < 2 ^ 64 }
    ensures { result ≡ bytes_of (residents (stays_of (ready_rows (items_in forest.now.trees 0)))) }
{
    match forest.sum(0) {
        None => 0,
        Some(sum) => sum.bytes,
    }
}
