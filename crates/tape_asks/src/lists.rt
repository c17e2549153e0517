// The jobs that a repack bears, and the recalls that it joins.
ghost use Rattle.std.specs.Prelude.{◌≡◌, IfOk};
ghost use Rattle.std.specs.List.{filter_map};
ghost use Rattle.part_model.specs.JobRows.{book_in};
ghost use Rattle.tape_asks.specs.Lists as said;

use cta_model::Job;
use cta_site::NoMemory;
use disk_buffer::DiskBuffer;
use job_book::JobBook;
use std::alloc::Global;

// The file of an item, where its recall is live.
fn joined_if(book: &JobBook, item: Job) -> Option<u32>
    ensures { result ≡ said.joined_by (book_in book.now.value) item }
{
    if book.live_recall(item.file).is_some() {
        Some(item.file)
    } else {
        None
    }
}

// The files of items whose recalls are live. NoMemory gives nothing.
pub(crate) fn joined_of(alloc: Global, book: &JobBook, items: &[Job]) -> Result<Vec<u32>, NoMemory>
    ensures { IfOk result (λ files. files.items ≡ filter_map (said.joined_by (book_in book.now.value)) items.now) }
{
    let files = items
        .iter()
        .filter_map(|item| joined_if(book, *item))
        .collect(alloc)?;
    Ok(files)
}

// The recall of an item's file, where none is live and the file is not in the buffer, born by the entry of this number.
fn newborn_if(book: &JobBook, buffer: &DiskBuffer, number: u32, item: Job) -> Option<Job>
    ensures { result ≡ said.newborn_by buffer.now.held.value (book_in book.now.value) number item }
{
    let live = book.live_recall(item.file);
    if live.is_some() {
        return None;
    }
    if buffer.is_held(item.file) {
        return None;
    }
    Some(Job {
        birth: number,
        file: item.file,
        copy: 0,
    })
}

// The recalls of items' files of which none is live, and that are not in the buffer, born by the entry of this number. NoMemory gives
// nothing.
pub(crate) fn newborn_of(
    alloc: Global,
    book: &JobBook,
    buffer: &DiskBuffer,
    number: u32,
    items: &[Job],
) -> Result<Vec<Job>, NoMemory>
    ensures { IfOk result (λ jobs. jobs.items ≡ filter_map (said.newborn_by buffer.now.held.value (book_in book.now.value) number) items.now) }
{
    let jobs = items
        .iter()
        .filter_map(|item| newborn_if(book, buffer, number, *item))
        .collect(alloc)?;
    Ok(jobs)
}

// The archive job of an item's copy, where the file is in the buffer, born by the entry of this number.
fn written_if(buffer: &DiskBuffer, number: u32, item: Job) -> Option<Job>
    ensures { result ≡ said.written_by buffer.now.held.value number item }
{
    if !buffer.is_held(item.file) {
        return None;
    }
    Some(Job {
        birth: number,
        file: item.file,
        copy: item.copy,
    })
}

// The archive jobs of items' copies whose files are in the buffer, born by the entry of this number. NoMemory gives nothing.
pub(crate) fn written_of(
    alloc: Global,
    buffer: &DiskBuffer,
    number: u32,
    items: &[Job],
) -> Result<Vec<Job>, NoMemory>
    ensures { IfOk result (λ jobs. jobs.items ≡ filter_map (said.written_by buffer.now.held.value number) items.now) }
{
    let jobs = items
        .iter()
        .filter_map(|item| written_if(buffer, number, *item))
        .collect(alloc)?;
    Ok(jobs)
}

// These jobs once more. NoMemory gives nothing.
pub(crate) fn copy_of(alloc: Global, jobs: &[Job]) -> Result<Vec<Job>, NoMemory>
    ensures { IfOk result (λ copy. copy.items ≡ jobs.now) }
{
    let copy = jobs.iter().copied().collect(alloc)?;
    Ok(copy)
}
