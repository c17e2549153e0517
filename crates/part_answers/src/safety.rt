// Whether a file is safe on tape.
ghost use Rattle.std.specs.Prelude.{◌≡◌, ◌≤◌};
ghost use Rattle.part_model.specs.JobRows.{book_in};
ghost use Rattle.part_model.specs.Tapes as said;

use crate::copies::{all_placed, some_whole};
use job_book::JobBook;
use tape_table::TapeTable;

// Whether one of the copies from 1 to `copies` has a live archive job.
fn some_job(book: &JobBook, file: u32, copies: u8) -> bool
    requires { copies ≤ 4 }
    ensures { result ≡ said.some_job (book_in book.now.value).archive file copies }
{
    (1..copies + 1).any(|copy| book.archive(file, copy).is_some())
}

/// Whether a file of so many copies is safe on tape: each copy has a place, one of them is on a tape that is not BROKEN, and
/// no copy has a live archive job. Its cost is the number of copies, of which a file has at most 4. CTA; the conditions are
/// this project's own.
pub fn is_safe(table: &TapeTable, book: &JobBook, file: u32, copies: u8) -> bool
    requires { copies ≤ 4 }
    ensures { result ≡ said.safe_in table.now.value (book_in book.now.value).archive file copies }
{
    if !all_placed(table, file, copies) {
        return false;
    }
    if !some_whole(table, file, copies) {
        return false;
    }
    !some_job(book, file, copies)
}
