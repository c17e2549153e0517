// The book of repacks.
use crate::paths::{count_of, path_of, paths_of};
use crate::report::{Lines, Report, file_at, lacks_memory, run_over};
use cta_model::{ItemState, Job};
use cta_site::{NoMemory, Rows, Text};
use repack_book::RepackBook;
use std::alloc::Global;
use std::io;

// The lines of repacks of a hundred items.
const HUNDREDS: [(usize, &str); 13] = [
    (0, "repack_book.add/items"),
    (1, "repack_book.knows"),
    (2, "repack_book.live"),
    (3, "repack_book.pins"),
    (4, "repack_book.reading"),
    (5, "repack_book.set(Writing)"),
    (6, "repack_book.is_writing"),
    (7, "repack_book.first_writer"),
    (8, "repack_book.next_writer"),
    (9, "repack_book.reading(none)"),
    (10, "repack_book.info/items"),
    (11, "repack_book.set(Done)"),
    (12, "repack_book.pins(none)"),
];

// Those of one repack of all items.
const WHOLE: [(usize, &str); 6] = [
    (0, "repack_book.add(all)/items"),
    (3, "repack_book.pins(all)"),
    (5, "repack_book.set(Writing,all)"),
    (6, "repack_book.is_writing(all)"),
    (10, "repack_book.info(all)/items"),
    (11, "repack_book.set(Done,all)"),
];

// A repack that comes: its number, which is its tape's too, the name of the tape, and its items with their paths.
#[derive(Drop)]
struct Coming {
    id: u32,
    vid: Text,
    items: Rows<Job>,
    paths: Rows<Text>,
}

// A book, the repacks that come, and of how many items each is.
#[derive(Drop)]
struct Repacks {
    book: RepackBook,
    coming: Vec<Coming>,
    each: u32,
}

// The items of the files of a range.
fn items_of(alloc: Global, first: u32, end: u32) -> Result<Vec<Job>, NoMemory> {
    let mut items = Vec::new(alloc);
    for file in first..end {
        items.push(Job {
            birth: file,
            file,
            copy: 1,
        })?;
    }
    Ok(items)
}

// The repack of a number, of the `each` files of its place, as many as there are.
fn coming_of(alloc: Global, id: u32, each: u32, files: u32) -> Result<Coming, NoMemory> {
    let first = id.saturating_mul(each);
    let end = first.saturating_add(each).min(files);
    let items = items_of(alloc, first, end)?;
    let vid = path_of(alloc, id)?;
    let paths = paths_of(alloc, first, end)?;
    Ok(Coming {
        id,
        vid,
        items: Rows::of(items),
        paths: Rows::of(paths),
    })
}

// The repacks of so many files, `each` in one.
fn all_coming(alloc: Global, each: u32, files: u32) -> Result<Vec<Coming>, NoMemory> {
    let mut all = Vec::new(alloc);
    for id in 0..files.div_ceil(each.max(1)) {
        all.push(coming_of(alloc, id, each, files)?)?;
    }
    Ok(all)
}

fn start(alloc: Global, each: u32, files: u32) -> Result<Repacks, NoMemory> {
    Ok(Repacks {
        coming: all_coming(alloc, each, files)?,
        book: RepackBook::new(alloc)?,
        each: each.max(1),
    })
}

// Adds a repack whose number is new.
fn add(book: &mut RepackBook, coming: Coming) -> bool {
    let Coming {
        id,
        vid,
        items,
        paths,
    } = coming;
    if book.knows(id) || items.len() != paths.len() || items.len() > 1000000000 {
        return false;
    }
    book.add(id, id, vid, items, paths).is_ok()
}

// Adds the repacks that come; how many items they have.
fn add_all(book: &mut RepackBook, all: &mut Vec<Coming>) -> u32 {
    let mut added = 0u32;
    for _ in 0..all.len() {
        let Some(coming) = all.pop() else {
            return added;
        };
        let count = count_of(coming.items.len());
        if !add(book, coming) {
            return added;
        }
        added = added.wrapping_add(count);
    }
    added
}

// One reader for one item of a repack.
fn reads(book: &RepackBook, id: u32, file: u32, at: usize) -> bool {
    match at {
        1 => book.knows(id),
        2 => book.live(id),
        3 => book.pins(id, file),
        4 => book.reading(id, file, 0).is_some(),
        6 => book.is_writing(id, file, 1),
        7 => book.first_writer(file, 1).is_some(),
        8 => book.next_writer(file, 1, id).is_none(),
        12 => !book.pins(id, file),
        _ => book.reading(id, file, 0).is_none(),
    }
}

impl Repacks {
    // One call for one file.
    fn call(&mut self, file: u32, at: usize) -> bool {
        let id = file / self.each.max(1);
        match at {
            5 => self.book.set(id, file, 1, ItemState::Writing),
            11 => self.book.set(id, file, 1, ItemState::Done),
            _ => return reads(&self.book, id, file, at),
        }
        true
    }

    fn call_all(&mut self, report: Report, at: usize) -> u32 {
        for place in 0..report.files {
            if !self.call(file_at(report, place), at) {
                return place;
            }
        }
        report.files
    }

    // What is told of each repack; how many items that is.
    fn tell_all(&self, files: u32) -> u32 {
        let mut told = 0u32;
        for id in 0..files.div_ceil(self.each.max(1)) {
            if let Ok(Some(info)) = self.book.info(id) {
                told = told.wrapping_add(count_of(info.items.len()));
            }
        }
        told
    }
}

impl Lines for Repacks {
    fn row(&mut self, report: Report, at: usize) -> u32 {
        match at {
            0 => add_all(&mut self.book, &mut self.coming),
            10 => self.tell_all(report.files),
            _ => self.call_all(report, at),
        }
    }
}

// Prints lines of repacks of so many items each, or fills the book with them.
fn run_each(
    rt: &HostRuntime,
    report: Report,
    each: u32,
    lines: &[(usize, &str)],
) -> io::Result<()> {
    match start(rt.alloc(), each, report.files) {
        Ok(mut repacks) => run_over(rt, report, &mut repacks, lines),
        Err(_) => lacks_memory(rt),
    }
}

// Prints the lines of the book, or fills it.
pub fn run(rt: &HostRuntime, report: Report) -> io::Result<()> {
    run_each(rt, report, 100, HUNDREDS.as_slice())?;
    if report.fills {
        return Ok(());
    }
    run_each(rt, report, report.files, WHOLE.as_slice())
}
