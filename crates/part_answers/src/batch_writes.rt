// The items of a batch that is to be written.
ghost use Rattle.std.specs.Prelude.{◌≡◌, ◌+◌, ◌<◌, ◌^◌, length, true, IfOk};
ghost use Rattle.cta_model.specs.Files.{sum_of};
ghost use Rattle.cta_model.specs.Batches.{written_items};
ghost use Rattle.cta_model.specs.History.{entry_of};
ghost use Rattle.kept_history.specs.Puts.{is_put};
ghost use Rattle.part_answers.specs.Taken.{HavePuts};

use cta_model::{Item, Job};
use cta_site::{NoMemory, Rows};
use kept_history::KeptHistory;
use std::alloc::Global;

// The item of a job, whose file has its Put.
fn item_of(history: &KeptHistory, job: Job, fseq: u32) -> Item
    requires { is_put (entry_of history.now.value job.file) ≡ true }
    ensures { result ≡ record { job = job; fseq = fseq; sum = sum_of history.now.value job.file } }
{
    Item {
        job,
        fseq,
        sum: history.sum_of(job.file),
    }
}

/// The items of jobs that are to be written, in the order of the jobs, with the fSeqs in turn from the first, and the length
/// and SHA-256 of their files, each of which has its Put. NoMemory gives nothing. Its cost is the number of jobs. CTA.
pub fn written_batch(
    alloc: Global,
    history: &KeptHistory,
    jobs: &[Job],
    first: u32,
) -> Result<Rows<Item>, NoMemory>
    requires puts { HavePuts history.now.value jobs.now }
    requires fseqs { first + length jobs.now < 2 ^ 32 }
    ensures { IfOk result (λ items. items.items ≡ written_items history.now.value first jobs.now) }
{
    let mut items = Rows::of(Vec::new(alloc));
    for at in 0..jobs.len() {
        items.reserve(1)?;
        let job = jobs[at];
        items.push(item_of(history, job, first + at as u32));
    }
    Ok(items)
}
