// The failed copies.
use crate::report::{Report, tell};
use cta_model::Job;
use failed_copies::FailedCopies;
use std::alloc::Global;
use std::io;
use std::time::Instant;

const CALLS: [&str; 6] = [
    "failed_copies.reserve+take+add",
    "failed_copies.first",
    "failed_copies.after",
    "failed_copies.take",
    "failed_copies.reserve+take+add(again)",
    "failed_copies.take_file",
];

// The first copy of a file.
fn copy_of(file: u32) -> Job {
    Job {
        birth: 0,
        file,
        copy: 1,
    }
}

fn add(copies: &mut FailedCopies, job: Job) -> bool {
    if copies.reserve(1).is_err() {
        return false;
    }
    let _ = copies.take(job);
    copies.add(job);
    true
}

// A number that looks thrown, below the number of files.
fn thrown(file: u32, files: u32) -> u32 {
    let at = u64::from(file).wrapping_mul(2654435761) % u64::from(files.max(1));
    at as u32
}

// One call for one file.
fn call(copies: &mut FailedCopies, file: u32, at: usize) -> bool {
    match at {
        0 | 4 => add(copies, copy_of(file)),
        1 => copies.first().is_some(),
        2 => {
            let _ = copies.after(copy_of(file));
            true
        }
        3 => {
            let _ = copies.take(copy_of(file));
            true
        }
        _ => {
            copies.take_file(file);
            true
        }
    }
}

fn row(copies: &mut FailedCopies, files: u32, at: usize) -> u32 {
    for file in 0..files {
        if !call(copies, thrown(file, files), at) {
            return file;
        }
    }
    files
}

fn run_lines(rt: &HostRuntime, report: Report, copies: &mut FailedCopies) -> io::Result<()> {
    for at in 0..6 {
        let start = Instant::now(rt)?;
        let calls = row(copies, report.files, at);
        tell(rt, report, CALLS[at], start, calls)?;
    }
    Ok(())
}

// Prints the lines of the failed copies.
pub fn run(rt: &HostRuntime, report: Report) -> io::Result<()> {
    match FailedCopies::new(rt.alloc()) {
        Ok(mut copies) => run_lines(rt, report, &mut copies),
        Err(_) => Ok(()),
    }
}

// Adds so many copies, with room for all at once.
fn fill_all(copies: &mut FailedCopies, files: u32) -> Option<u32> {
    if copies.reserve(files).is_err() {
        return None;
    }
    Some(row(copies, files, 0))
}

// Fills the list.
pub fn fill(alloc: Global, files: u32) -> Option<u32> {
    match FailedCopies::new(alloc) {
        Ok(mut copies) => fill_all(&mut copies, files),
        Err(_) => None,
    }
}
