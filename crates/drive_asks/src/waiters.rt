// The entries that wait for recalls, and the files of requests among them.
ghost use Rattle.std.specs.Prelude.{◌≡◌, ◌<◌, ◌^◌, ◌++◌, ℕ, length, IfOk};
ghost use Rattle.cta_model.specs.RepackItems as said;
ghost use Rattle.part_model.specs.declared.space.FileEnd.TheVariants as ends;
ghost use Rattle.part_model.specs.JobRows.{book_in};
ghost use Rattle.part_model.specs.Requests as called;
ghost use Rattle.part_model.specs.Requests.{RequestsAgree};
ghost use Rattle.drive_asks.specs.Waiting.{files_in};
ghost use Rattle.part_moves.specs.Waiting.{waits_for_all, with_file};

use cta_model::Item;
use cta_site::NoMemory;
use job_book::JobBook;
use part_model::FileEnd;
use part_moves::add_waiters;
use stage_book::StageBook;
use std::alloc::Global;

// The entries that wait for the recalls of the files of items, each with the file. NoMemory gives nothing.
pub(crate) fn waiters_of(
    alloc: Global,
    book: &JobBook,
    items: &[Item],
) -> Result<Vec<(u32, u32)>, NoMemory>
    requires { (f : ℕ) → length (said.waiting_for ((book_in book.now.value).recall f)) < 2 ^ 32 }
    ensures { IfOk result (λ pairs. pairs.items ≡ waits_for_all (book_in book.now.value).recall (files_in items.now)) }
{
    let mut pairs = Vec::new(alloc);
    for item in items {
        add_waiters(alloc, book, item.job.file, &mut pairs)?;
    }
    Ok(pairs)
}

// The file is STARTED in each of these requests where it waits.
pub(crate) fn start_all(requests: &mut StageBook, pairs: &[(u32, u32)], at: u64)
    ensures { RequestsAgree requests.new (called.start_all at pairs.now requests.old) }
{
    for pair in pairs {
        requests.start(pair.0, pair.1, at);
    }
}

// The file is COMPLETED in each of these requests where it waits.
pub(crate) fn complete_all(requests: &mut StageBook, ids: &[u32], file: u32, at: u64)
    ensures { RequestsAgree requests.new (called.finish_all at (λ f. ends.Completed) (with_file file ids.now) requests.old) }
{
    for id in ids {
        requests.finish(*id, file, at, FileEnd::Completed);
    }
}
