// How the files stand that a request names.
ghost use Rattle.std.specs.Prelude.{◌≡◌, IfOk, filter, is_some};
ghost use Rattle.part_model.specs.Held.{is_held};
ghost use Rattle.part_model.specs.JobRows.{book_in};
ghost use Rattle.caller_asks.specs.Sorted.{IsSorted};
ghost use Rattle.caller_asks.specs.Wanted as said;
ghost use Rattle.caller_asks.specs.Wanted.{bears_by, claimed_by, lost_by, starts_by};

use archive_parts::ArchiveParts;
use cta_model::Job;
use cta_site::NoMemory;
use disk_buffer::DiskBuffer;
use job_book::JobBook;
use std::alloc::Global;
use tape_table::TapeTable;

// Files by how they stand: those in the buffer, those that are neither there nor on a tape, those that are STARTED at once, those with
// a live recall, and those of which a recall is born.
#[derive(Drop)]
pub(crate) struct Sorted {
    pub(crate) here: Vec<u32>,
    pub(crate) lost: Vec<u32>,
    pub(crate) started: Vec<u32>,
    pub(crate) recalled: Vec<u32>,
    pub(crate) bearing: Vec<u32>,
}

// Whether a file may be read from a tape.
fn has_source(tapes: &TapeTable, file: u32) -> bool
    ensures { result ≡ said.has_source tapes.now.value file }
{
    tapes.place_at(file, 0).is_some()
}

// Whether a Claim has named the live recall of a file.
fn is_claimed(book: &JobBook, file: u32) -> bool
    ensures { result ≡ claimed_by (book_in book.now.value) file }
{
    match book.live_recall(file) {
        Some(birth) => book.named(Job {
            birth,
            file,
            copy: 0,
        }),
        None => false,
    }
}

// Whether a file is neither in the buffer nor on a tape.
fn is_lost(buffer: &DiskBuffer, tapes: &TapeTable, file: u32) -> bool
    ensures { result ≡ lost_by buffer.now.held.value tapes.now.value file }
{
    !buffer.is_held(file) && !has_source(tapes, file)
}

// Whether a file is STARTED at once.
fn starts(buffer: &DiskBuffer, tapes: &TapeTable, book: &JobBook, file: u32) -> bool
    ensures { result ≡ starts_by buffer.now.held.value tapes.now.value (book_in book.now.value) file }
{
    buffer.is_held(file) || (has_source(tapes, file) && is_claimed(book, file))
}

// Whether a recall of a file is born.
fn bears(buffer: &DiskBuffer, tapes: &TapeTable, book: &JobBook, file: u32) -> bool
    ensures { result ≡ bears_by buffer.now.held.value tapes.now.value (book_in book.now.value) file }
{
    book.live_recall(file).is_none() && !buffer.is_held(file) && has_source(tapes, file)
}

// The files among these that the buffer holds. NoMemory gives nothing.
fn files_here(alloc: Global, buffer: &DiskBuffer, files: &[u32]) -> Result<Vec<u32>, NoMemory>
    ensures { IfOk result (λ found. found.items ≡ filter (is_held buffer.now.held.value) files.now) }
{
    let found = files
        .iter()
        .copied()
        .filter(|file| buffer.is_held(*file))
        .collect(alloc)?;
    Ok(found)
}

// The files among these that are neither in the buffer nor on a tape. NoMemory gives nothing.
fn files_lost(alloc: Global, parts: &ArchiveParts, files: &[u32]) -> Result<Vec<u32>, NoMemory>
    ensures { IfOk result (λ found. found.items ≡ filter (lost_by parts.now.buffer.held.value parts.now.tapes.value) files.now) }
{
    let found = files
        .iter()
        .copied()
        .filter(|file| is_lost(&parts.buffer, &parts.tapes, *file))
        .collect(alloc)?;
    Ok(found)
}

// The files among these that are STARTED at once. NoMemory gives nothing.
fn files_started(alloc: Global, parts: &ArchiveParts, files: &[u32]) -> Result<Vec<u32>, NoMemory>
    ensures { IfOk result (λ found. found.items ≡ filter (starts_by parts.now.buffer.held.value parts.now.tapes.value (book_in parts.now.book.value)) files.now) }
{
    let found = files
        .iter()
        .copied()
        .filter(|file| starts(&parts.buffer, &parts.tapes, &parts.book, *file))
        .collect(alloc)?;
    Ok(found)
}

// The files among these with a live recall. NoMemory gives nothing.
fn files_recalled(alloc: Global, book: &JobBook, files: &[u32]) -> Result<Vec<u32>, NoMemory>
    ensures { IfOk result (λ found. found.items ≡ filter (λ f. is_some ((book_in book.now.value).recall f)) files.now) }
{
    let found = files
        .iter()
        .copied()
        .filter(|file| book.live_recall(*file).is_some())
        .collect(alloc)?;
    Ok(found)
}

// The files among these of which a recall is born. NoMemory gives nothing.
fn files_bearing(alloc: Global, parts: &ArchiveParts, files: &[u32]) -> Result<Vec<u32>, NoMemory>
    ensures { IfOk result (λ found. found.items ≡ filter (bears_by parts.now.buffer.held.value parts.now.tapes.value (book_in parts.now.book.value)) files.now) }
{
    let found = files
        .iter()
        .copied()
        .filter(|file| bears(&parts.buffer, &parts.tapes, &parts.book, *file))
        .collect(alloc)?;
    Ok(found)
}

// Sorts files by how they stand. NoMemory gives nothing.
pub(crate) fn sort_files(
    alloc: Global,
    parts: &ArchiveParts,
    files: &[u32],
) -> Result<Sorted, NoMemory>
    ensures { IfOk result (λ sorted. IsSorted parts.now.buffer.held.value parts.now.tapes.value (book_in parts.now.book.value) files.now sorted) }
{
    let here = files_here(alloc, &parts.buffer, files)?;
    let lost = files_lost(alloc, parts, files)?;
    let started = files_started(alloc, parts, files)?;
    let recalled = files_recalled(alloc, &parts.book, files)?;
    let bearing = files_bearing(alloc, parts, files)?;
    Ok(Sorted {
        here,
        lost,
        started,
        recalled,
        bearing,
    })
}
