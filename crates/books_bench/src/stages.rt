// The book of stage requests.
use crate::batch::{Batch, batches};
use crate::paths::{count_of, paths_of};
use crate::report::{Lines, Report, file_at, lacks_memory, run_over};
use cta_site::{NoMemory, Text};
use part_model::FileEnd;
use stage_book::StageBook;
use std::alloc::Global;
use std::hash::RandomState;
use std::io;

// The lines of requests of ten files.
const TENS: [(usize, &str); 13] = [
    (0, "stage_book.add/files"),
    (1, "stage_book.knows"),
    (2, "stage_book.has"),
    (3, "stage_book.count"),
    (4, "stage_book.file"),
    (5, "stage_book.state"),
    (6, "stage_book.count+path"),
    (7, "stage_book.start"),
    (8, "stage_book.finish"),
    (9, "stage_book.pin_end"),
    (10, "stage_book.release"),
    (11, "stage_book.info/files"),
    (12, "stage_book.remove/files"),
];

// Those of one request of all files.
const WHOLE: [(usize, &str); 8] = [
    (0, "stage_book.add(all)/files"),
    (2, "stage_book.has(all)"),
    (7, "stage_book.start(all)"),
    (8, "stage_book.finish(all)"),
    (9, "stage_book.pin_end(all)"),
    (10, "stage_book.release(all)"),
    (11, "stage_book.info(all)/files"),
    (12, "stage_book.remove(all)/files"),
];

// A book, the requests that come, of how many files each is, and the path of each file.
#[derive(Drop)]
struct Stages {
    book: StageBook,
    coming: Vec<Batch>,
    each: u32,
    paths: Vec<Text>,
}

// The book that is only filled is asked for no path.
fn start(alloc: Global, keys: RandomState, each: u32, report: Report) -> Result<Stages, NoMemory> {
    let coming = batches(alloc, each.max(1), report.files)?;
    let asked = if report.fills { 0 } else { report.files };
    let paths = paths_of(alloc, 0, asked)?;
    Ok(Stages {
        book: StageBook::new(alloc, keys),
        coming,
        each: each.max(1),
        paths,
    })
}

// Adds the requests that come; how many files they have.
fn add_all(book: &mut StageBook, coming: &mut Vec<Batch>) -> u32 {
    let mut added = 0u32;
    for _ in 0..coming.len() {
        let Some(batch) = coming.pop() else {
            return added;
        };
        let (id, count) = (batch.id(), batch.count());
        if book.add(id, 100, batch.files()).is_err() {
            return added;
        }
        added = added.wrapping_add(count);
    }
    added
}

// One reader for a place of a request.
fn reads_place(book: &StageBook, id: u32, place: usize, at: usize) -> bool {
    match at {
        3 => book.count(id) > 0,
        4 => book.file(id, place).is_some(),
        5 => book.state(id, place).is_some(),
        _ => {
            if place >= book.count(id) {
                return false;
            }
            book.path(id, place).len() > 0
        }
    }
}

// One call for a path of a request.
fn call_path(book: &mut StageBook, id: u32, path: Option<&Text>, at: usize) -> bool {
    let Some(path) = path else {
        return false;
    };
    if at == 2 {
        return book.has(id, path.as_bytes());
    }
    book.release(id, path.as_bytes());
    true
}

// One call for one file of a request.
fn call(book: &mut StageBook, id: u32, file: u32, at: usize) -> bool {
    match at {
        1 => return book.knows(id),
        7 => book.start(id, file, 110),
        8 => book.finish(id, file, 120, FileEnd::Completed),
        _ => return book.pin_end(id, file).is_some(),
    }
    true
}

impl Stages {
    // One call for one file.
    fn call(&mut self, file: u32, at: usize) -> bool {
        let each = self.each.max(1);
        let id = file / each;
        match at {
            2 | 10 => call_path(&mut self.book, id, self.paths.get(file as usize), at),
            3 | 4 | 5 | 6 => reads_place(&self.book, id, (file % each) as usize, at),
            _ => call(&mut self.book, id, file, at),
        }
    }

    fn call_all(&mut self, report: Report, at: usize) -> u32 {
        for place in 0..report.files {
            if !self.call(file_at(report, place), at) {
                return place;
            }
        }
        report.files
    }

    // What is told of each request; how many files that is.
    fn tell_all(&self, files: u32) -> u32 {
        let mut told = 0u32;
        for id in 0..files.div_ceil(self.each.max(1)) {
            if let Ok(Some(info)) = self.book.info(id) {
                told = told.wrapping_add(count_of(info.files.len()));
            }
        }
        told
    }

    // Removes each request; how many files they had.
    fn remove_all(&mut self, files: u32) -> u32 {
        let mut gone = 0u32;
        for id in 0..files.div_ceil(self.each.max(1)) {
            gone = gone.wrapping_add(count_of(self.book.count(id)));
            self.book.remove(id);
        }
        gone
    }
}

impl Lines for Stages {
    fn row(&mut self, report: Report, at: usize) -> u32 {
        match at {
            0 => add_all(&mut self.book, &mut self.coming),
            11 => self.tell_all(report.files),
            12 => self.remove_all(report.files),
            _ => self.call_all(report, at),
        }
    }
}

// Prints lines of requests of so many files each, or fills the book with them.
fn run_each(
    rt: &HostRuntime,
    report: Report,
    each: u32,
    lines: &[(usize, &str)],
) -> io::Result<()> {
    let keys = RandomState::new(rt)?;
    match start(rt.alloc(), keys, each, report) {
        Ok(mut stages) => run_over(rt, report, &mut stages, lines),
        Err(_) => lacks_memory(rt),
    }
}

// Prints the lines of the book, or fills it.
pub fn run(rt: &HostRuntime, report: Report) -> io::Result<()> {
    run_each(rt, report, 10, TENS.as_slice())?;
    if report.fills {
        return Ok(());
    }
    run_each(rt, report, report.files, WHOLE.as_slice())
}
