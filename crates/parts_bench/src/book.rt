// The book of jobs.
use crate::report::{Report, tell};
use cta_model::{Fault, Job};
use job_book::JobBook;
use std::alloc::Global;
use std::io;
use std::time::Instant;

const CALLS: [&str; 18] = [
    "job_book.reserve+born(archive)",
    "job_book.archive",
    "job_book.is_live",
    "job_book.last_birth",
    "job_book.reserve+claim",
    "job_book.claimer",
    "job_book.named",
    "job_book.has_claims",
    "job_book.reserve+charge",
    "job_book.charge_count",
    "job_book.charge_at",
    "job_book.give_back",
    "job_book.end(archive)",
    "job_book.reserve+born(recall)",
    "job_book.live_recall",
    "job_book.reserve+subscribe",
    "job_book.waiting_count",
    "job_book.unsubscribe",
];

// The job of a file for its first copy, or its recall.
fn job(file: u32, copy: u8) -> Job {
    Job {
        birth: file,
        file,
        copy,
    }
}

// Room for one more.
fn ready(book: &mut JobBook) -> bool {
    book.reserve(1).is_ok()
}

fn bear(book: &mut JobBook, job: Job) -> bool {
    if !ready(book) || book.room() == 0 {
        return false;
    }
    book.born(job);
    true
}

fn claim(book: &mut JobBook, job: Job) -> bool {
    if !ready(book) || book.room() == 0 {
        return false;
    }
    book.claim(job, job.file);
    true
}

fn charge(book: &mut JobBook, job: Job) -> bool {
    if !ready(book) || book.room() == 0 {
        return false;
    }
    if book.charge_count(job) > 9 {
        return false;
    }
    book.charge(job, 1, 2, Fault::Read);
    true
}

fn subscribe(book: &mut JobBook, file: u32) -> bool {
    if !ready(book) || book.room() == 0 {
        return false;
    }
    book.subscribe(file, 7);
    true
}

// One change for one file.
fn change(book: &mut JobBook, file: u32, at: usize) -> bool {
    match at {
        0 => bear(book, job(file, 1)),
        4 => claim(book, job(file, 1)),
        8 => charge(book, job(file, 1)),
        13 => bear(book, job(file, 0)),
        15 => subscribe(book, file),
        _ => leave(book, file, at),
    }
}

// One call that takes away.
fn leave(book: &mut JobBook, file: u32, at: usize) -> bool {
    match at {
        11 => book.give_back(job(file, 1)),
        12 => book.end(job(file, 1)),
        _ => {
            let _ = book.unsubscribe(file, 7);
        }
    }
    true
}

// One reader for one file.
fn reads(book: &JobBook, file: u32, at: usize) -> bool {
    match at {
        1 => book.archive(file, 1).is_some(),
        2 => book.is_live(job(file, 1)),
        3 => book.last_birth(file, 1).is_some(),
        5 => book.claimer(job(file, 1)).is_some(),
        6 => book.named(job(file, 1)),
        7 => book.has_claims(file),
        9 => book.charge_count(job(file, 1)) > 0,
        10 => book.charge_at(job(file, 1), 0).is_some(),
        14 => book.live_recall(file).is_some(),
        _ => book.waiting_count(file) > 0,
    }
}

fn is_reader(at: usize) -> bool {
    match at {
        0 | 4 | 8 | 11 | 12 | 13 | 15 | 17 => false,
        _ => true,
    }
}

fn read_all(book: &JobBook, files: u32, at: usize) -> u32 {
    let mut calls = 0u32;
    for file in 0..files {
        if reads(book, file, at) {
            calls = calls.wrapping_add(1);
        }
    }
    calls
}

fn change_all(book: &mut JobBook, files: u32, at: usize) -> u32 {
    for file in 0..files {
        if !change(book, file, at) {
            return file;
        }
    }
    files
}

fn row(book: &mut JobBook, files: u32, at: usize) -> u32 {
    if !is_reader(at) {
        return change_all(book, files, at);
    }
    read_all(book, files, at)
}

fn run_lines(rt: &HostRuntime, report: Report, book: &mut JobBook) -> io::Result<()> {
    for at in 0..18 {
        let start = Instant::now(rt)?;
        let calls = row(book, report.files, at);
        tell(rt, report, CALLS[at], start, calls)?;
    }
    Ok(())
}

// Prints the lines of the book.
pub fn run(rt: &HostRuntime, report: Report) -> io::Result<()> {
    let mut book = JobBook::new(rt.alloc());
    run_lines(rt, report, &mut book)
}

// Adds so many archive jobs, with room for all at once.
fn fill_all(book: &mut JobBook, files: u32) -> Option<u32> {
    if book.reserve(files).is_err() {
        return None;
    }
    Some(change_all(book, files, 0))
}

// Fills the book.
pub fn fill(alloc: Global, files: u32) -> Option<u32> {
    let mut book = JobBook::new(alloc);
    fill_all(&mut book, files)
}
