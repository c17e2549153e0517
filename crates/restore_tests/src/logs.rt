// Records of a day at the site, at the moments 100 to 115.
use blob::{Blob, Sum256, sum_of};
use cta_model::{
    Actor, Answer, Ask, Direction, Entry, Fate, Fault, Item, Job, Rows, Text, Wanted, Who,
};
use cta_records::{Kept, NoMemory};
use std::alloc::Global;
use std::sync::Arc;

fn text_of(alloc: Global, text: &str) -> Result<Text, NoMemory> {
    Ok(Text::of(String::from_str(alloc, text)?))
}

/// A caller of this name.
pub fn who_of(alloc: Global, name: &str) -> Result<Who, NoMemory> {
    let requester = text_of(alloc, name)?;
    let group = text_of(alloc, "")?;
    Ok(Who { requester, group })
}

/// A list of one.
fn only<T: Drop>(alloc: Global, item: T) -> Result<Rows<T>, NoMemory> {
    let mut items = Vec::new(alloc);
    items.push(item)?;
    Ok(Rows::of(items))
}

fn none<T>(alloc: Global) -> Rows<T> {
    Rows::of(Vec::new(alloc))
}

/// A content.
pub fn blob_of(alloc: Global, bytes: &[u8]) -> Result<Arc<Blob, Global>, NoMemory> {
    let bytes = Vec::from_slice(alloc, bytes)?;
    match Blob::of(bytes) {
        Ok(blob) => Ok(Arc::new(alloc, blob)?),
        Err(_) => Err(NoMemory),
    }
}

// The record of a caller's entry.
fn by_caller(
    alloc: Global,
    at: u64,
    ask: Ask,
    answer: Answer,
    blob: Option<Arc<Blob, Global>>,
) -> Result<Kept, NoMemory> {
    let actor = Actor::Caller(who_of(alloc, "ab")?);
    let entry = Entry {
        at,
        actor,
        ask,
        answer,
    };
    Ok(Kept { entry, blob })
}

// The record of an entry of the drive.
fn by_drive(at: u64, ask: Ask, answer: Answer, blob: Option<Arc<Blob, Global>>) -> Kept {
    let actor = Actor::Drive(0);
    let entry = Entry {
        at,
        actor,
        ask,
        answer,
    };
    Kept { entry, blob }
}

// Entry 1: a Put of `hello` under `/atlas/a`.
fn put(alloc: Global) -> Result<Kept, NoMemory> {
    let who = who_of(alloc, "ab")?;
    let path = text_of(alloc, "/atlas/a")?;
    let sum = sum_of(b"hello");
    let evicted = none(alloc);
    let blob = blob_of(alloc, b"hello")?;
    let ask = Ask::Put { who, path, sum };
    by_caller(alloc, 100, ask, Answer::Stored { evicted }, Some(blob))
}

// Entries 2 and 6: the tape is mounted.
fn mounted(at: u64, mount: u32, direction: Direction) -> Kept {
    let answer = Answer::Mounted {
        mount,
        direction,
        tape: 0,
    };
    by_drive(at, Ask::Next { drive: 0 }, answer, None)
}

// The job of the first file's copy, or of its recall.
fn job_of(birth: u32, copy: u8) -> Job {
    Job {
        birth,
        file: 1,
        copy,
    }
}

fn item_of(job: Job, sum: Sum256) -> Item {
    Item { job, fseq: 1, sum }
}

// Entries 3 and 9: a Claim of the file's job.
fn claimed(alloc: Global, at: u64, mount: u32, job: Job) -> Result<Kept, NoMemory> {
    let items = only(alloc, item_of(job, sum_of(b"hello")))?;
    let evicted = none(alloc);
    let answer = Answer::Batch { items, evicted };
    Ok(by_drive(at, Ask::Claim { mount }, answer, None))
}

// Entry 4: the copy is on tape.
fn flushed(alloc: Global) -> Result<Kept, NoMemory> {
    let items = only(alloc, item_of(job_of(1, 1), sum_of(b"hello")))?;
    let fates = only(alloc, Fate::Done)?;
    let ask = Ask::Flushed { mount: 2, items };
    Ok(by_drive(110, ask, Answer::Told { fates }, None))
}

// An End of a mount.
fn ended(at: u64, mount: u32, fault: Option<Fault>) -> Kept {
    by_drive(at, Ask::End { mount, fault }, Answer::Done, None)
}

/// The record of this number, from 1, of the day.
pub fn record_of(alloc: Global, number: usize) -> Result<Kept, NoMemory> {
    match number {
        1 => put(alloc),
        2 => Ok(mounted(110, 2, Direction::Archive)),
        3 => claimed(alloc, 110, 2, job_of(1, 1)),
        4 => flushed(alloc),
        _ => Ok(ended(110, 2, None)),
    }
}

/// The first so many records of the day.
pub fn day(alloc: Global, count: usize) -> Result<Vec<Kept>, NoMemory> {
    let mut log = Vec::new(alloc);
    for number in 1..=count {
        log.push(record_of(alloc, number)?)?;
    }
    Ok(log)
}
