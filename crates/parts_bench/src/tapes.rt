// The table of tapes.
ghost use Rattle.std.specs.Prelude.{◌≡◌};

use crate::report::{Report, tell};
use cta_model::{Fate, Item, Job, Sum256};
use cta_site::{TapeState, ValidSite};
use std::alloc::Global;
use std::io;
use std::time::Instant;
use tape_table::TapeTable;

const CALLS: [&str; 10] = [
    "tape_table.reserve+flushed",
    "tape_table.place",
    "tape_table.place_at",
    "tape_table.is_whole",
    "tape_table.row",
    "tape_table.live",
    "tape_table.next_live",
    "tape_table.claim+unclaim",
    "tape_table.set_state",
    "tape_table.drop_file",
];

// An item for the first copy of a file.
fn item(file: u32) -> Item
    ensures { result.job.copy ≡ 1 }
{
    Item {
        job: Job {
            birth: file,
            file,
            copy: 1,
        },
        fseq: 1,
        sum: Sum256 {
            len: 5,
            digest: [0; 32],
        },
    }
}

fn flush(table: &mut TapeTable, tape: u32, file: u32) -> bool {
    if table.reserve(1).is_err() {
        return false;
    }
    if tape as usize >= table.tapes() {
        return false;
    }
    if table.row(tape).next > 1000000 {
        return false;
    }
    table.flushed(tape, item(file), Fate::Done);
    true
}

fn flush_all(table: &mut TapeTable, files: u32) -> u32 {
    for file in 0..files {
        if !flush(table, file % 2, file) {
            return file;
        }
    }
    files
}

// One reader for one file.
fn reads(table: &TapeTable, file: u32, at: usize) -> bool {
    match at {
        1 => table.place(file, 1).is_some(),
        2 => table.place_at(file, 0).is_some(),
        3 => table.is_whole(file, 1),
        4 => table.row(file % 2).next > 0,
        5 => table.live(file % 2) > 0,
        _ => table.next_live(file % 2, file / 2).is_some(),
    }
}

fn read_all(table: &TapeTable, files: u32, at: usize) -> u32 {
    let mut calls = 0u32;
    for file in 0..files {
        if reads(table, file, at) {
            calls = calls.wrapping_add(1);
        }
    }
    calls
}

fn claim(table: &mut TapeTable, tape: u32) -> bool {
    if tape as usize >= table.tapes() {
        return false;
    }
    if table.row(tape).used > 1000000 {
        return false;
    }
    table.claim(tape, 9);
    table.unclaim(tape, 9);
    true
}

fn set(table: &mut TapeTable, tape: u32) -> bool {
    if tape as usize >= table.tapes() {
        return false;
    }
    table.set_state(tape, TapeState::Active);
    true
}

// One change for one file.
fn change(table: &mut TapeTable, file: u32, at: usize) -> bool {
    match at {
        7 => claim(table, file % 2),
        8 => set(table, file % 2),
        _ => {
            table.drop_file(file);
            true
        }
    }
}

fn change_all(table: &mut TapeTable, files: u32, at: usize) -> u32 {
    for file in 0..files {
        if !change(table, file, at) {
            return file;
        }
    }
    files
}

fn row(table: &mut TapeTable, files: u32, at: usize) -> u32 {
    if at == 0 {
        return flush_all(table, files);
    }
    if at < 7 {
        return read_all(table, files, at);
    }
    change_all(table, files, at)
}

fn run_lines(rt: &HostRuntime, report: Report, table: &mut TapeTable) -> io::Result<()> {
    for at in 0..10 {
        let start = Instant::now(rt)?;
        let calls = row(table, report.files, at);
        tell(rt, report, CALLS[at], start, calls)?;
    }
    Ok(())
}

// Prints the lines of the table.
pub fn run(rt: &HostRuntime, report: Report, site: &ValidSite) -> io::Result<()> {
    match TapeTable::new(rt.alloc(), site) {
        Ok(mut table) => run_lines(rt, report, &mut table),
        Err(_) => Ok(()),
    }
}

// Flushes so many files, with room for all at once.
fn fill_all(table: &mut TapeTable, files: u32) -> Option<u32> {
    if table.reserve(files).is_err() {
        return None;
    }
    Some(flush_all(table, files))
}

// Fills the table.
pub fn fill(alloc: Global, files: u32, site: &ValidSite) -> Option<u32> {
    match TapeTable::new(alloc, site) {
        Ok(mut table) => fill_all(&mut table, files),
        Err(_) => None,
    }
}
