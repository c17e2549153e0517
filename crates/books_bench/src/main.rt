//! `books_bench KIND FILES`: runs each call of the disk buffer, of the book of stage requests and of the book of repacks over so
//! many files. KIND `time` prints the mean nanoseconds of a call where files come by their numbers, KIND `thrown` where they come
//! in an order that looks thrown, and KIND `count` how many calls were made. `books_bench PART FILES`, where PART is `buffer`,
//! `stages` or `repacks`, fills that part alone and prints how many files it took. `bench/parts` times it.
#![tactic(auto)]

mod batch;
mod buffer;
mod paths;
mod repacks;
mod report;
mod stages;
mod words;

use crate::report::Report;
use crate::words::{Kind, Load, read_load};
use std::io;

// Runs all parts.
fn run_all(rt: &HostRuntime, report: Report) -> io::Result<()> {
    buffer::run(rt, report)?;
    stages::run(rt, report)?;
    repacks::run(rt, report)
}

// How lines are printed, or that a part is to be filled.
fn report_of(load: Load) -> Report {
    let (timed, thrown, fills) = match load.kind {
        Kind::Time => (true, false, false),
        Kind::Thrown => (true, true, false),
        Kind::Count => (false, true, false),
        _ => (false, false, true),
    };
    Report {
        timed,
        thrown,
        fills,
        files: load.files,
    }
}

fn run(rt: &HostRuntime, load: Load) -> io::Result<()> {
    let report = report_of(load);
    match load.kind {
        Kind::Buffer => buffer::run(rt, report),
        Kind::Stages => stages::run(rt, report),
        Kind::Repacks => repacks::run(rt, report),
        _ => run_all(rt, report),
    }
}

fn main(rt: HostRuntime) -> io::Result<()> {
    match read_load(&rt) {
        Some(load) => run(&rt, load),
        None => {
            eprintln!(rt; "usage: books_bench time|thrown|count|buffer|stages|repacks FILES")
        }
    }
}
