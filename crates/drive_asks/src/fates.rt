// What becomes of the jobs of items.
ghost use Rattle.std.specs.Prelude.{◌≡◌, IfOk};
ghost use Rattle.part_laws.specs.Sessions.{fate_told, is_live_told};
ghost use Rattle.drive_asks.specs.Items.{fates_told, live_jobs};

use cta_model::{Fate, Item, Job};
use cta_site::NoMemory;
use job_book::JobBook;
use std::alloc::Global;

// Whether a job is live.
fn is_live(book: &JobBook, job: Job) -> bool
    ensures { result ≡ is_live_told book.now.value job }
{
    book.is_live(job)
}

// The fate of an item with this job.
pub(crate) fn fate_of(book: &JobBook, job: Job) -> Fate
    ensures { result ≡ fate_told book.now.value job }
{
    if is_live(book, job) {
        Fate::Done
    } else {
        Fate::Stale
    }
}

// The fates of items, in their order. NoMemory leaves nothing.
pub(crate) fn fates_of(alloc: Global, book: &JobBook, items: &[Item]) -> Result<Vec<Fate>, NoMemory>
    ensures { IfOk result (λ fates. fates.items ≡ fates_told book.now.value items.now) }
{
    let fates = items
        .iter()
        .map(|item| fate_of(book, item.job))
        .collect(alloc)?;
    Ok(fates)
}

// The jobs of items that are live, in the order of the items. NoMemory leaves nothing.
pub(crate) fn live_jobs(alloc: Global, book: &JobBook, items: &[Item]) -> Result<Vec<Job>, NoMemory>
    ensures { IfOk result (λ jobs. jobs.items ≡ live_jobs book.now.value items.now) }
{
    let jobs = items
        .iter()
        .map(|item| item.job)
        .filter(|job| is_live(book, *job))
        .collect(alloc)?;
    Ok(jobs)
}
