// The entries that wait for recalls.
ghost use Rattle.std.specs.Prelude.{◌≡◌, ◌<◌, ◌^◌, ◌++◌, length, IfOk, OnOk};
ghost use Rattle.cta_model.specs.RepackItems as said;
ghost use Rattle.part_model.specs.JobRows.{book_in};
ghost use Rattle.part_moves.specs.Waiting.{with_file};

use cta_site::{NoMemory, Rows};
use job_book::JobBook;
use std::alloc::Global;

/// The entries that wait for the recall of a file, oldest first. NoMemory gives nothing. Its cost is the number of these entries. This
/// project's own.
pub fn waiting_for(alloc: Global, book: &JobBook, file: u32) -> Result<Rows<u32>, NoMemory>
    requires { length (said.waiting_for ((book_in book.now.value).recall file)) < 2 ^ 32 }
    ensures { IfOk result (λ ids. ids.items ≡ said.waiting_for ((book_in book.now.value).recall file)) }
{
    let mut ids = Rows::of(Vec::new(alloc));
    ids.reserve(book.waiting_count(file) as u32)?;
    book.waiting(file, &mut ids);
    Ok(ids)
}

// Adds these entries, each with the file, behind a list. After NoMemory some of them are added.
fn add_pairs(ids: &[u32], file: u32, out: &mut Vec<(u32, u32)>) -> Result<(), NoMemory>
    ensures { OnOk result (out.new.items ≡ out.old.items ++ with_file file ids.now) }
{
    for id in ids {
        out.push((*id, file))?;
    }
    Ok(())
}

/// Adds the entries that wait for the recall of a file, each with the file, behind a list. After NoMemory some of them are added. Its cost is
/// the number of these entries. This project's own.
pub fn add_waiters(
    alloc: Global,
    book: &JobBook,
    file: u32,
    out: &mut Vec<(u32, u32)>,
) -> Result<(), NoMemory>
    requires { length (said.waiting_for ((book_in book.now.value).recall file)) < 2 ^ 32 }
    ensures { OnOk result (out.new.items ≡ out.old.items ++ with_file file (said.waiting_for ((book_in book.now.value).recall file))) }
{
    let ids = waiting_for(alloc, book, file)?;
    add_pairs(ids.as_slice(), file, out)
}
