//! `parts_bench KIND FILES`: runs each call of each part of the archive over so many files. KIND `time` prints the mean
//! nanoseconds of a call, and KIND `count` how many calls were made. `parts_bench PART FILES`, where PART is `queues`,
//! `tapes`, `book` or `failed`, fills that part alone and prints how many files it took. `bench/parts` times it.
#![tactic(auto)]

mod book;
mod choice;
mod failed;
mod mounts;
mod names;
mod queues;
mod report;
mod site;
mod tapes;
mod words;

use crate::report::Report;
use crate::site::valid_site;
use crate::words::{Kind, Load, read_load};
use cta_site::ValidSite;
use std::alloc::Global;
use std::io;

// Runs all parts.
fn run_all(rt: &HostRuntime, timed: bool, files: u32, site: &ValidSite) -> io::Result<()> {
    let report = Report { timed, files };
    names::run(rt, report)?;
    tapes::run(rt, report, site)?;
    book::run(rt, report)?;
    queues::run(rt, report)?;
    mounts::run(rt, report, site)?;
    choice::run(rt, report)?;
    failed::run(rt, report)
}

// Fills one part.
fn fill(alloc: Global, part: Kind, files: u32, site: &ValidSite) -> Option<u32> {
    match part {
        Kind::Queues => queues::fill(alloc, files),
        Kind::Tapes => tapes::fill(alloc, files, site),
        Kind::Book => book::fill(alloc, files),
        _ => failed::fill(alloc, files),
    }
}

fn lacks_memory(rt: &HostRuntime) -> io::Result<()> {
    eprintln!(rt; "parts_bench: no memory")
}

// Runs all parts, or fills the one that is named.
fn run_over(rt: &HostRuntime, load: Load, site: &ValidSite) -> io::Result<()> {
    match load.kind {
        Kind::Time => run_all(rt, true, load.files, site),
        Kind::Count => run_all(rt, false, load.files, site),
        part => match fill(rt.alloc(), part, load.files, site) {
            Some(count) => println!(rt; "{count}"),
            None => lacks_memory(rt),
        },
    }
}

// The site of the bench is made here alone and lent to the parts, since a function that owns a site is dear to prove.
fn run(rt: &HostRuntime, load: Load) -> io::Result<()> {
    match valid_site(rt.alloc()) {
        Some(site) => run_over(rt, load, &site),
        None => lacks_memory(rt),
    }
}

fn main(rt: HostRuntime) -> io::Result<()> {
    match read_load(&rt) {
        Some(load) => run(&rt, load),
        None => { eprintln!(rt; "usage: parts_bench time|count|queues|tapes|book|failed FILES") }
    }
}
