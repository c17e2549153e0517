// What becomes of those that wait for recalls which end.
ghost use Rattle.std.specs.Prelude.{◌≡◌, ◌<◌, ◌^◌, ◌++◌, ℕ, length, map, IfOk};
ghost use Rattle.cta_model.specs.RepackItems as said;
ghost use Rattle.cta_model.specs.declared.reports.ItemState.TheVariants as item;
ghost use Rattle.part_model.specs.JobRows.{book_in};
ghost use Rattle.part_model.specs.Repacks.{RepacksAgree, set_states};
ghost use Rattle.part_model.specs.Requests.{RequestsAgree};
ghost use Rattle.repack_book.specs.NamedRepacks.{NamesAgree, repacks_of};
ghost use Rattle.part_moves.specs.Flags.{job_files};
ghost use Rattle.fault_asks.specs.Reading.{ending_of, failed_all, pair_targets, targets_down};
ghost use Rattle.part_moves.specs.Waiting.{waits_for_all};

use crate::texts::error_of;
use cta_model::{Charge, ItemState, Job};
use cta_site::{NoMemory, Text, ValidSite};
use job_book::JobBook;
use part_model::FileEnd;
use part_moves::add_waiters;
use repack_book::RepackBook;
use stage_book::StageBook;
use std::alloc::Global;

// The greatest number of copies that a file has.
const MOST_COPIES: u8 = 4;

// An entry that waits for the recall of a file, and the error of the recall.
#[derive(Drop)]
pub(crate) struct Ending {
    pub(crate) id: u32,
    pub(crate) file: u32,
    pub(crate) error: Text,
}

/// The entries that wait for the recalls of the files of jobs, each with the file, by job and then oldest first. NoMemory gives nothing. Its
/// cost is the number of these entries. This project's own.
pub fn waiters_of(alloc: Global, book: &JobBook, jobs: &[Job]) -> Result<Vec<(u32, u32)>, NoMemory>
    requires { (f : ℕ) → length (said.waiting_for ((book_in book.now.value).recall f)) < 2 ^ 32 }
    ensures { IfOk result (λ pairs. pairs.items ≡ waits_for_all (book_in book.now.value).recall (job_files jobs.now)) }
{
    let mut pairs = Vec::new(alloc);
    for job in jobs {
        add_waiters(alloc, book, job.file, &mut pairs)?;
    }
    Ok(pairs)
}

// How an entry ends that waits for the recall of a file, which is charged once more. NoMemory gives nothing.
fn ending_for(
    alloc: Global,
    site: &ValidSite,
    book: &JobBook,
    charge: Charge,
    pair: (u32, u32),
) -> Result<Ending, NoMemory>
    ensures { IfOk result (λ ending. ending ≡ ending_of site.now (book_in book.now.value) charge pair) }
{
    let error = error_of(alloc, site, book, charge, pair.1)?;
    Ok(Ending {
        id: pair.0,
        file: pair.1,
        error,
    })
}

// How those end that wait for recalls, which are charged once more. NoMemory gives nothing.
pub(crate) fn endings_of(
    alloc: Global,
    site: &ValidSite,
    book: &JobBook,
    charge: Charge,
    pairs: &[(u32, u32)],
) -> Result<Vec<Ending>, NoMemory>
    ensures { IfOk result (λ endings. endings.items ≡ map (ending_of site.now (book_in book.now.value) charge) pairs.now) }
{
    let mut endings = Vec::new(alloc);
    for pair in pairs {
        endings.push(ending_for(alloc, site, book, charge, *pair)?)?;
    }
    Ok(endings)
}

// The items of the copies from 1 to `copies` of a file have failed in a repack, where they are live.
fn fail_items(repacks: &mut RepackBook, id: u32, file: u32, copies: u8)
    ensures repacks { RepacksAgree (repacks_of repacks.new) (set_states item.Failed (targets_down id file copies) (repacks_of repacks.old)) }
    ensures names { NamesAgree repacks.new repacks.old }
{
    for copy in (0..copies).rev() {
        repacks.set(id, file, copy + 1, ItemState::Failed);
    }
}

/// The live items of these files are FAILED in those of these entries that are repacks. It takes no memory; its cost is the number of
/// entries, each with the logarithm of the number of live items of repacks. This project's own.
pub fn fail_readers(repacks: &mut RepackBook, pairs: &[(u32, u32)])
    ensures repacks { RepacksAgree (repacks_of repacks.new) (set_states item.Failed (pair_targets pairs.now) (repacks_of repacks.old)) }
    ensures names { NamesAgree repacks.new repacks.old }
{
    for pair in pairs {
        fail_items(repacks, pair.0, pair.1, MOST_COPIES);
    }
}

// The files fail in the requests among those that wait, with their errors.
pub(crate) fn fail_requests(requests: &mut StageBook, mut endings: Vec<Ending>, at: u64)
    ensures { RequestsAgree requests.new (failed_all at endings.items requests.old) }
{
    while let Some(ending) = endings.pop() {
        let Ending { id, file, error } = ending;
        requests.finish(id, file, at, FileEnd::Failed(error));
    }
}
