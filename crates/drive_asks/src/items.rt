// Items that are put on tape.
ghost use Rattle.std.specs.Prelude.{◌≡◌, ◌≤◌, ◌<◌, ◌+◌, ◌^◌, length};
ghost use Rattle.part_model.specs.Tapes.{HaveFlushed, row_in};
ghost use Rattle.drive_asks.specs.Items.{AreOfCopies, with_fates};

use crate::fates::fate_of;
use cta_model::Item;
use job_book::JobBook;
use tape_table::TapeTable;

// Items were flushed to a tape: each gets the next fSeq there, and its copy has its place there where its job is live.
pub(crate) fn put_items(table: &mut TapeTable, book: &JobBook, tape: u32, items: &[Item])
    requires tape { tape < length table.old.value.rows }
    requires room { length items.now ≤ table.old.room }
    requires fseqs { (row_in table.old.value tape).next + length items.now < 2 ^ 32 }
    requires copies { AreOfCopies items.now }
    ensures flushed { HaveFlushed tape (with_fates book.now.value items.now) table.old.value table.new.value }
    ensures tapes { length table.new.value.rows ≡ length table.old.value.rows }
{
    for item in items {
        let _ = table.flushed(tape, *item, fate_of(book, item.job));
    }
}
