// The book of stage requests.
ghost use Rattle.std.specs.Prelude.{◌≡◌, [], Some, None, is_some, option_map, IfOk, OnOk, OnErr, ◌<◌, slice_get};
ghost use Rattle.part_model.specs.Held.{kept_end};
ghost use Rattle.part_model.specs.Requests as said;
ghost use Rattle.part_model.specs.Requests.{RequestsAgree, add_request, has_path_in, pin_end_in, release, remove_request, request_in};
ghost use Rattle.stage_book.specs.Reports.{bare_info, files_of, info_in, number_of, path_of, state_of};
ghost use Rattle.stage_book.specs.Requested.{AreApart, ArePathsApart, count_of};

use crate::row::RequestRow;
use cta_model::{FileState, StageFile, StageInfo};
use cta_site::{NoMemory, Rows};
use number_map::{NumberMap, new_map};
use part_model::FileEnd;
use std::alloc::Global;
use std::hash::RandomState;
use std::marker::Model;

/// The book of stage requests. Requests and files are named by their numbers, moments are seconds since 1970. Contracts see the
/// requests by number. This project's own.
#[derive(Drop)]
pub struct StageBook {
    alloc: Global,
    keys: RandomState,
    rows: NumberMap<u32, RequestRow>,
}

impl Model for StageBook {
    ghost use Rattle.part_model.specs.Requests.{Requests};

    ghost Value = { Requests };

    ghost view = { λ b. b.rows.entries };
}

// A file of a request is STARTED where it waits.
fn start_row(rows: &mut NumberMap<u32, RequestRow>, id: u32, file: u32, at: u64)
    ensures { RequestsAgree rows.new.entries (said.start id file at rows.old.entries) }
{
    if let Some(row) = rows.get_mut(&id) {
        row.start(file, at);
    }
}

// A file of a request ends so where it waits.
fn finish_row(rows: &mut NumberMap<u32, RequestRow>, id: u32, file: u32, at: u64, end: FileEnd)
    ensures { RequestsAgree rows.new.entries (said.finish id file at end rows.old.entries) }
{
    if let Some(row) = rows.get_mut(&id) {
        row.finish(file, at, end);
    }
}

// The file of a path of a request is released.
fn release_row(rows: &mut NumberMap<u32, RequestRow>, id: u32, path: &[u8])
    ensures { RequestsAgree rows.new.entries (release id path.now rows.old.entries) }
{
    if let Some(row) = rows.get_mut(&id) {
        row.release(path);
    }
}

impl StageBook {
    /// A book of no request, whose paths are hashed with these keys. It takes no memory and constant time.
    pub fn new(alloc: Global, keys: RandomState) -> StageBook
        ensures { result ≡ [] }
    {
        StageBook {
            alloc,
            keys,
            rows: new_map(alloc),
        }
    }

    /// A request of a moment is there from then on, whatever its number named before: each file that a path named is SUBMITTED, and a
    /// path that named none is FAILED. No file and no path is named twice. NoMemory changes nothing. Its cost is the number of files and
    /// the length of their paths.
    pub fn add(&mut self, id: u32, at: u64, files: Rows<StageFile>) -> Result<(), NoMemory>
        requires apart { AreApart files.items }
        requires paths { ArePathsApart files.items }
        ensures added { OnOk result (RequestsAgree self.new (add_request id at files.items self.old)) }
        ensures unchanged { OnErr result (self.new ≡ self.old) }
    {
        let row = RequestRow::new(self.alloc, self.keys, at, files)?;
        self.rows.insert(id, row)?;
        Ok(())
    }

    /// Whether there is a request of this number. In constant time.
    pub fn knows(&self, id: u32) -> bool
        ensures { result ≡ is_some (request_in self.now id) }
    {
        self.rows.contains_key(&id)
    }

    /// Whether there is the request and it has the path. Its cost is the length of the path.
    pub fn has(&self, id: u32, path: &[u8]) -> bool
        ensures { result ≡ has_path_in self.now id path.now }
    {
        match self.rows.get(&id) {
            Some(row) => row.has(path),
            None => false,
        }
    }

    /// Until when the request pins the file, in seconds since 1970; None exactly where it does not pin it. The greatest number stands
    /// for no end. In constant time.
    pub fn pin_end(&self, id: u32, file: u32) -> Option<u64>
        ensures { result ≡ option_map kept_end (pin_end_in self.now id file) }
    {
        match self.rows.get(&id) {
            Some(row) => row.pin_end(file),
            None => None,
        }
    }

    /// The file of the request is STARTED where it waits, since this moment where it was not before. It takes no memory and constant
    /// time.
    pub fn start(&mut self, id: u32, file: u32, at: u64)
        ensures { RequestsAgree self.new (said.start id file at self.old) }
    {
        start_row(&mut self.rows, id, file, at);
    }

    /// The file of the request ends so at this moment where it waits. It takes no memory and constant time.
    pub fn finish(&mut self, id: u32, file: u32, at: u64, end: FileEnd)
        ensures { RequestsAgree self.new (said.finish id file at end self.old) }
    {
        finish_row(&mut self.rows, id, file, at, end);
    }

    /// The file of the path is released in the request. It takes no memory, and its cost is the length of the path.
    pub fn release(&mut self, id: u32, path: &[u8])
        ensures { RequestsAgree self.new (release id path.now self.old) }
    {
        release_row(&mut self.rows, id, path);
    }

    /// The request is there no more. It takes no memory, and its cost is the number of its files.
    pub fn remove(&mut self, id: u32)
        ensures { RequestsAgree self.new (remove_request id self.old) }
    {
        let _ = self.rows.remove(&id);
    }

    /// How many files the request has, 0 where there is no such request. In constant time.
    pub fn count(&self, id: u32) -> usize
        ensures { result ≡ count_of (request_in self.now id) }
    {
        match self.rows.get(&id) {
            Some(row) => row.count(),
            None => 0,
        }
    }

    /// The file at a place of the request, counted from 0; None where the request has no such place or its path named no file. In
    /// constant time.
    pub fn file(&self, id: u32, at: usize) -> Option<u32>
        ensures { result ≡ number_of (slice_get (files_of (request_in self.now id)) at) }
    {
        match self.rows.get(&id) {
            Some(row) => row.file(at),
            None => None,
        }
    }

    /// The state of the file at a place of the request, counted from 0; None exactly where the request has no such place. In constant
    /// time.
    pub fn state(&self, id: u32, at: usize) -> Option<FileState>
        ensures { result ≡ state_of (slice_get (files_of (request_in self.now id)) at) }
    {
        match self.rows.get(&id) {
            Some(row) => {
                if at < row.count() {
                    return Some(row.state(at));
                }
                None
            }
            None => None,
        }
    }

    /// The path at a place of the request, counted from 0, which has such a place. In constant time.
    pub fn path(&self, id: u32, at: usize) -> &[u8]
        requires { at < count_of (request_in self.now id) }
        ensures { result.now ≡ path_of (slice_get (files_of (request_in self.now id)) at) }
    {
        match self.rows.get(&id) {
            Some(row) => row.path(at),
            None => unreachable!(),
        }
    }

    /// What is told of the request, None exactly where there is none of this number; no file is said to be on disk. NoMemory gives
    /// nothing. Its cost is the number of its files and the length of their paths and errors.
    pub fn info(&self, id: u32) -> Result<Option<StageInfo>, NoMemory>
        ensures { IfOk result (λ told. option_map bare_info told ≡ info_in self.now id) }
    {
        match self.rows.get(&id) {
            Some(row) => {
                let info = row.info(self.alloc, id)?;
                Ok(Some(info))
            }
            None => Ok(None),
        }
    }
}
