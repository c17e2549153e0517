// What a TapeState takes along.
ghost use Rattle.std.specs.Prelude.{◌≡◌, ◌+◌, ◌<◌, ◌^◌, ℕ, Some, is_none, filter, length, codes, IfOk};
ghost use Rattle.cta_model.specs.declared.asks.Job.{Job};
ghost use Rattle.cta_model.specs.declared.states.Place.{Place};
ghost use Rattle.cta_model.specs.RepackItems.{waiting_for};
ghost use Rattle.part_model.specs.JobRows.{book_in};
ghost use Rattle.part_model.specs.Tapes.{place_in};
ghost use Rattle.part_moves.specs.Flags.{job_files};
ghost use Rattle.part_moves.specs.Waiting.{waits_for_all};
ghost use Rattle.tape_asks.specs.Items.{AreItemsOn};
ghost use Rattle.tape_asks.specs.Losses.{is_lost_in, recalls_in};
ghost use Rattle.part_moves.specs.Texts.{AreAll};

use crate::items::items_on;
use crate::recalls::{placeless_of, recalls_of, unclaimed_of};
use archive_parts::ArchiveParts;
use cta_model::Job;
use cta_site::{NoMemory, TapeState, Text};
use fault_asks::waiters_of;
use job_book::JobBook;
use part_moves::errors;
use std::alloc::Global;

// What a TapeState takes along: the live copies on the tape, the recalls of their files that wait in queues, the recalls that end, the
// entries that wait for these, each with the file, and an error for each of those.
#[derive(Drop)]
pub(crate) struct Found {
    pub(crate) items: Vec<Job>,
    pub(crate) moved: Vec<Job>,
    pub(crate) ended: Vec<Job>,
    pub(crate) waiters: Vec<(u32, u32)>,
    pub(crate) errors: Vec<Text>,
}

// The entries that wait for recalls which end, each with the file, and an error for each.
#[derive(Drop)]
struct Losses {
    waiters: Vec<(u32, u32)>,
    errors: Vec<Text>,
}

// The entries that wait for these recalls, each with the file, and an error for each. NoMemory gives nothing.
fn losses_of(alloc: Global, book: &JobBook, ended: &[Job]) -> Result<Losses, NoMemory>
    requires { (f : ℕ) → length (waiting_for ((book_in book.now.value).recall f)) < 2 ^ 32 }
    ensures waiters { IfOk result (λ losses. losses.waiters.items ≡ waits_for_all (book_in book.now.value).recall (job_files ended.now)) }
    ensures many { IfOk result (λ losses. length losses.errors.items ≡ length losses.waiters.items) }
    ensures same { IfOk result (λ losses. AreAll (codes "no tape is left") losses.errors.items) }
{
    let waiters = waiters_of(alloc, book, ended)?;
    let errors = errors(alloc, "no tape is left", waiters.len())?;
    Ok(Losses { waiters, errors })
}

// What a TapeState of a tape to this state takes along. NoMemory gives nothing.
pub(crate) fn find_all(
    alloc: Global,
    parts: &ArchiveParts,
    tape: u32,
    state: TapeState,
) -> Result<Found, NoMemory>
    requires fseqs { (f c : ℕ) (p : Place) → place_in parts.now.tapes.value f c ≡ Some p → p.fseq + 1 < 2 ^ 32 }
    requires waiting { (f : ℕ) → length (waiting_for ((book_in parts.now.book.value).recall f)) < 2 ^ 32 }
    ensures items { IfOk result (λ found. AreItemsOn parts.now.tapes.value tape found.items.items) }
    ensures moved { IfOk result (λ found. found.moved.items ≡ filter (λ (j : Job). is_none ((book_in parts.now.book.value).claimer j)) (recalls_in (book_in parts.now.book.value) found.items.items)) }
    ensures ended { IfOk result (λ found. found.ended.items ≡ filter (λ (j : Job). is_lost_in parts.now.tapes.value tape state j.file) (recalls_in (book_in parts.now.book.value) found.items.items)) }
    ensures waiters { IfOk result (λ found. found.waiters.items ≡ waits_for_all (book_in parts.now.book.value).recall (job_files found.ended.items)) }
    ensures many { IfOk result (λ found. length found.errors.items ≡ length found.waiters.items) }
    ensures same { IfOk result (λ found. AreAll (codes "no tape is left") found.errors.items) }
{
    let items = items_on(alloc, &parts.tapes, tape)?;
    let recalls = recalls_of(alloc, &parts.book, items.as_slice())?;
    let moved = unclaimed_of(alloc, &parts.book, recalls.as_slice())?;
    let ended = placeless_of(alloc, &parts.tapes, tape, state, recalls.as_slice())?;
    let losses = losses_of(alloc, &parts.book, ended.as_slice())?;
    let Losses { waiters, errors } = losses;
    Ok(Found {
        items,
        moved,
        ended,
        waiters,
        errors,
    })
}
