// A stage request.
ghost use Rattle.std.specs.Prelude.{◌≡◌, ℕ, ◌<◌, Some, map, option_map, bytes_eq, IfOk, OnOk, length, slice_get};
ghost use Rattle.std.specs.List.{list_any};
ghost use Rattle.cta_model.specs.declared.states.RequestFile.{RequestFile};
ghost use Rattle.cta_model.specs.declared.states.StageFile.{StageFile};
ghost use Rattle.cta_model.specs.Pins.{stage_pins};
ghost use Rattle.cta_model.specs.Stages.{started};
ghost use Rattle.part_model.specs.Held.{kept_end};
ghost use Rattle.part_model.specs.Requests.{added_file, ended_file, first_end, released_at, turned_file};
ghost use Rattle.stage_book.specs.FileRows.{ended_at, files_in, released_in, started_at, turned_there};
ghost use Rattle.stage_book.specs.Places.{IsPlaced, noted, numbers_asked, place_in};
ghost use Rattle.stage_book.specs.Reports.{bare_info, file_told, number_of, path_of, request_told, state_of};
ghost use Rattle.stage_book.specs.Requested.{AreApart, ArePathsApart};

use crate::file_row::FileRow;
use crate::report::{greatest_finish, least_start, tell};
use cta_model::{FileState, StageFile, StageFileInfo, StageInfo};
use cta_site::{NoMemory, Rows};
use indexmap::IndexMap;
use number_map::{NumberMap, new_map};
use part_model::FileEnd;
use std::alloc::Global;
use std::hash::RandomState;
use std::marker::Model;

// The files of a request, in their order and by path. Paths are what strangers choose, so they are hashed by keys that nobody outside
// can know.
type FileRows = IndexMap<String, FileRow, RandomState>;

// A stage request: its moment, its files, and the place of each file by its number, counted from 0.
#[derive(Drop)]
pub(crate) struct RequestRow {
    moment: u64,
    rows: FileRows,
    places: NumberMap<u32, usize>,
}

impl Model for RequestRow {
    ghost use Rattle.cta_model.specs.Stages.{StageRequest};
    ghost use Rattle.stage_book.specs.FileRows.{files_in};
    ghost use Rattle.stage_book.specs.Places.{ArePlaced, numbers_in};

    ghost Value = { StageRequest };

    ghost view = { λ r. record { at = r.moment; files = files_in r.rows.entries } };

    ghost invariant = { λ r. ArePlaced r.places.entries (numbers_in (files_in r.rows.entries)) };
}

// A file is at this place from then on; nothing changes where a path named no file. NoMemory changes nothing.
fn note_place(
    places: &mut NumberMap<u32, usize>,
    file: Option<u32>,
    place: usize,
) -> Result<(), NoMemory>
    ensures { OnOk result ((q : ℕ) → place_in places.new.entries q ≡ noted file place q (place_in places.old.entries q)) }
{
    match file {
        Some(file) => {
            places.insert(file, place)?;
            Ok(())
        }
        None => Ok(()),
    }
}

// The places of the files of a new request. NoMemory gives nothing. Its cost is their number.
fn places_of(alloc: Global, files: &[StageFile]) -> Result<NumberMap<u32, usize>, NoMemory>
    ensures { IfOk result (λ places. (f : ℕ) → IsPlaced (numbers_asked files.now) f (place_in places.entries f)) }
{
    let mut places = new_map(alloc);
    for at in 0..files.len() {
        let file = files[at].file;
        note_place(&mut places, file, at)?;
    }
    Ok(places)
}

// The files of a new request of a moment. NoMemory gives nothing. Its cost is the length of the paths.
fn rows_of(
    alloc: Global,
    keys: RandomState,
    at: u64,
    files: &[StageFile],
) -> Result<FileRows, NoMemory>
    requires { ArePathsApart files.now }
    ensures { IfOk result (λ rows. files_in rows.entries ≡ map (λ (s : StageFile). added_file at s s.file) files.now) }
{
    let mut rows = IndexMap::with_hasher(alloc, keys);
    for file in files {
        let path = String::from_str(alloc, file.path.as_str())?;
        let row = FileRow::new(alloc, at, file.file, file.lifetime)?;
        rows.insert(path, row)?;
    }
    Ok(rows)
}

// The file at a place is STARTED where it waits.
fn start_at(rows: &mut FileRows, place: usize, at: u64)
    ensures { rows.new.entries ≡ turned_there (started_at at) place rows.old.entries }
{
    if let Some(row) = rows.get_index_mut(place) {
        row.start(at);
    }
}

// The file at a place ends so where it waits.
fn finish_at(rows: &mut FileRows, place: usize, at: u64, end: FileEnd)
    ensures { rows.new.entries ≡ turned_there (ended_at at end) place rows.old.entries }
{
    if let Some(row) = rows.get_index_mut(place) {
        row.finish(at, end);
    }
}

// The file of a path is released. Its cost is the length of the path.
fn release_text(rows: &mut FileRows, path: &str)
    ensures { rows.new.entries ≡ released_in path.now rows.old.entries }
{
    if let Some(row) = rows.get_mut(path) {
        row.released = true;
    }
}

// The file of these bytes as a path is released, where they are a text. Its cost is their number.
fn release_path(rows: &mut FileRows, path: &[u8])
    ensures { rows.new.entries ≡ released_in path.now rows.old.entries }
{
    match str::from_utf8(path) {
        Ok(path) => release_text(rows, path),
        Err(_) => {}
    }
}

// The path at a place, and its file.
fn entry_at(rows: &FileRows, at: usize) -> (&String, &FileRow)
    requires { at < length rows.now.entries }
    ensures { slice_get rows.now.entries at ≡ Some (result.0.now, result.1.now) }
{
    match rows.get_index(at) {
        Some(entry) => entry,
        None => unreachable!(),
    }
}

impl RequestRow {
    // A request of a moment for these files. NoMemory gives nothing. Its cost is the number of files and the length of their paths.
    pub(crate) fn new(
        alloc: Global,
        keys: RandomState,
        at: u64,
        files: Rows<StageFile>,
    ) -> Result<RequestRow, NoMemory>
        requires apart { AreApart files.items }
        requires paths { ArePathsApart files.items }
        ensures { IfOk result (λ row. row ≡ record { at = at; files = map (λ (s : StageFile). added_file at s s.file) files.items }) }
    {
        let rows = rows_of(alloc, keys, at, files.as_slice())?;
        let places = places_of(alloc, files.as_slice())?;
        Ok(RequestRow {
            moment: at,
            rows,
            places,
        })
    }

    // A file is STARTED where it waits. It takes no memory and constant time.
    pub(crate) fn start(&mut self, file: u32, at: u64)
        ensures { self.new ≡ record { at = self.old.at; files = map (turned_file file (λ s. started s at)) self.old.files } }
    {
        if let Some(place) = self.places.get(&file).copied() {
            start_at(&mut self.rows, place, at);
        }
    }

    // A file ends so where it waits. It takes no memory and constant time.
    pub(crate) fn finish(&mut self, file: u32, at: u64, end: FileEnd)
        ensures { self.new ≡ record { at = self.old.at; files = map (turned_file file (ended_file at end)) self.old.files } }
    {
        if let Some(place) = self.places.get(&file).copied() {
            finish_at(&mut self.rows, place, at, end);
        }
    }

    // The file of a path is released. It takes no memory; its cost is the length of the path.
    pub(crate) fn release(&mut self, path: &[u8])
        ensures { self.new ≡ record { at = self.old.at; files = map (released_at path.now) self.old.files } }
    {
        release_path(&mut self.rows, path);
    }

    // Whether a path is one of the request's. Its cost is the length of the path.
    pub(crate) fn has(&self, path: &[u8]) -> bool
        ensures { result ≡ list_any (λ (s : RequestFile). bytes_eq path.now s.path) self.now.files }
    {
        match str::from_utf8(path) {
            Ok(path) => self.rows.contains_key(path),
            Err(_) => false,
        }
    }

    // Until when the request pins a file, none where it does not. The greatest number stands for no end. In constant time.
    pub(crate) fn pin_end(&self, file: u32) -> Option<u64>
        ensures { (id : ℕ) → result ≡ option_map kept_end (first_end (stage_pins file id (Some self.now))) }
    {
        match self.places.get(&file).copied() {
            Some(place) => {
                let (_, row) = entry_at(&self.rows, place);
                row.pinned_until()
            }
            None => None,
        }
    }

    // The number of files.
    pub(crate) fn count(&self) -> usize
        ensures { result ≡ length self.now.files }
    {
        self.rows.len()
    }

    // The file at a place.
    pub(crate) fn file(&self, at: usize) -> Option<u32>
        ensures { result ≡ number_of (slice_get self.now.files at) }
    {
        match self.rows.get_index(at) {
            Some((_, row)) => row.file,
            None => None,
        }
    }

    // The path at a place, which has one.
    pub(crate) fn path(&self, at: usize) -> &[u8]
        requires { at < length self.now.files }
        ensures { result.now ≡ path_of (slice_get self.now.files at) }
    {
        let (path, _) = entry_at(&self.rows, at);
        path.as_str().as_bytes()
    }

    // The state of the file at a place, which has one.
    pub(crate) fn state(&self, at: usize) -> FileState
        requires { at < length self.now.files }
        ensures { state_of (slice_get self.now.files at) ≡ Some result }
    {
        let (_, row) = entry_at(&self.rows, at);
        row.state
    }

    // What is told of the file at a place, which has one. NoMemory gives nothing. Its cost is the length of its path and of its error.
    fn file_info(&self, at: usize) -> Result<StageFileInfo, NoMemory>
        requires { at < length self.now.files }
        ensures { IfOk result (λ info. slice_get (map file_told self.now.files) at ≡ Some info) }
    {
        let (path, row) = entry_at(&self.rows, at);
        tell(path, row)
    }

    // What is told of the request of this number. NoMemory gives nothing. Its cost is the number of files and the length of their paths
    // and errors.
    pub(crate) fn info(&self, alloc: Global, id: u32) -> Result<StageInfo, NoMemory>
        ensures { IfOk result (λ info. bare_info info ≡ request_told id self.now) }
    {
        let mut files = Vec::new(alloc);
        for at in 0..self.count() {
            let info = self.file_info(at)?;
            files.push(info)?;
        }
        let started_at = least_start(files.as_slice());
        let completed_at = greatest_finish(files.as_slice());
        Ok(StageInfo {
            id,
            created_at: self.moment,
            started_at,
            completed_at,
            files: Rows::of(files),
        })
    }
}
