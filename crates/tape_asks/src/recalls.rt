// The recalls of the files on a tape: those that wait in a queue, and those whose files have no place left.
ghost use Rattle.std.specs.Prelude.{◌≡◌, is_none, filter, IfOk};
ghost use Rattle.cta_model.specs.declared.asks.Job.{Job};
ghost use Rattle.part_model.specs.JobRows.{book_in};
ghost use Rattle.part_model.specs.Tapes.{place_in};
ghost use Rattle.cta_model.specs.Tapes as states;
ghost use Rattle.tape_asks.specs.Losses as said;

use cta_model::Job;
use cta_site::{NoMemory, TapeState};
use job_book::JobBook;
use std::alloc::Global;
use tape_table::TapeTable;

// The live recall of a file, None where there is none.
fn recall_of(book: &JobBook, file: u32) -> Option<Job>
    ensures { result ≡ said.recall_in (book_in book.now.value) file }
{
    match book.live_recall(file) {
        Some(birth) => Some(Job {
            birth,
            file,
            copy: 0,
        }),
        None => None,
    }
}

// The live recalls of the files of items. NoMemory gives nothing.
pub(crate) fn recalls_of(alloc: Global, book: &JobBook, items: &[Job]) -> Result<Vec<Job>, NoMemory>
    ensures { IfOk result (λ recalls. recalls.items ≡ said.recalls_in (book_in book.now.value) items.now) }
{
    let recalls = items
        .iter()
        .filter_map(|item| recall_of(book, item.file))
        .collect(alloc)?;
    Ok(recalls)
}

// Of jobs those that no mount claims. NoMemory gives nothing.
pub(crate) fn unclaimed_of(
    alloc: Global,
    book: &JobBook,
    jobs: &[Job],
) -> Result<Vec<Job>, NoMemory>
    ensures { IfOk result (λ free. free.items ≡ filter (λ (j : Job). is_none ((book_in book.now.value).claimer j)) jobs.now) }
{
    let free = jobs
        .iter()
        .copied()
        .filter(|job| book.claimer(*job).is_none())
        .collect(alloc)?;
    Ok(free)
}

// Whether a copy of a file has a place on a tape that is not BROKEN, once a tape has this state.
fn is_left(tapes: &TapeTable, tape: u32, state: TapeState, file: u32, copy: u8) -> bool
    ensures { result ≡ said.is_left_on tapes.now.value tape state (place_in tapes.now.value file copy) }
{
    let Some(place) = tapes.place(file, copy) else {
        return false;
    };
    if place.tape == tape {
        return !is_broken(state);
    }
    !is_broken(tapes.row(place.tape).state)
}

// Whether a tape in this state is BROKEN.
fn is_broken(state: TapeState) -> bool
    ensures { result ≡ states.is_broken state }
{
    match state {
        TapeState::Active => false,
        TapeState::Disabled => false,
        TapeState::Broken => true,
        TapeState::Repacking => false,
    }
}

// Whether a file has no place on a tape that is not BROKEN, once a tape has this state.
fn is_lost(tapes: &TapeTable, tape: u32, state: TapeState, file: u32) -> bool
    ensures { result ≡ said.is_lost_in tapes.now.value tape state file }
{
    if is_left(tapes, tape, state, file, 1) {
        return false;
    }
    if is_left(tapes, tape, state, file, 2) {
        return false;
    }
    if is_left(tapes, tape, state, file, 3) {
        return false;
    }
    !is_left(tapes, tape, state, file, 4)
}

// Of recalls those whose files have no place on a tape that is not BROKEN, once a tape has this state. NoMemory gives nothing.
pub(crate) fn placeless_of(
    alloc: Global,
    tapes: &TapeTable,
    tape: u32,
    state: TapeState,
    jobs: &[Job],
) -> Result<Vec<Job>, NoMemory>
    ensures { IfOk result (λ lost. lost.items ≡ filter (λ (j : Job). said.is_lost_in tapes.now.value tape state j.file) jobs.now) }
{
    let lost = jobs
        .iter()
        .copied()
        .filter(|job| is_lost(tapes, tape, state, job.file))
        .collect(alloc)?;
    Ok(lost)
}
