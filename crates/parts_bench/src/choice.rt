// The choice of a mount, by candidate.
use crate::report::{Report, tell};
use cta_model::{Candidate, Direction};
use part_answers::first_of;
use std::alloc::{AllocError, Global};
use std::io;
use std::time::Instant;

// So many candidates of one priority.
fn candidates(alloc: Global, files: u32) -> Result<Vec<Candidate>, AllocError> {
    let mut list = Vec::new(alloc);
    for file in 0..files {
        list.push(Candidate {
            direction: Direction::Archive,
            key: file,
            tape: file,
            priority: 1,
            birth: file,
        })?;
    }
    Ok(list)
}

fn choose(list: &[Candidate], files: u32) -> u32 {
    match first_of(list) {
        Some(_) => files,
        None => 0,
    }
}

fn run_choice(rt: &HostRuntime, report: Report, list: &[Candidate]) -> io::Result<()> {
    let start = Instant::now(rt)?;
    let calls = choose(list, report.files);
    tell(rt, report, "mount_choice.first_of/candidates", start, calls)
}

// Prints the line of the choice.
pub fn run(rt: &HostRuntime, report: Report) -> io::Result<()> {
    let list = candidates(rt.alloc(), report.files)?;
    run_choice(rt, report, list.as_slice())
}
