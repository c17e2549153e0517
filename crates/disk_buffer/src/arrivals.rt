// The resident files.
ghost use Rattle.std.specs.Prelude.{◌≡◌, ◌+◌, ◌-◌, ◌<◌, ◌≤◌, ◌^◌, ◌∷◌, [], ◌++◌, ◌==◌, ℕ, Some, None, IfOk, OnOk, false, true, if◌then◌else◌, length, nat_eq, nat_le, option_map};
ghost use Rattle.std.specs.HashMap.{get, spare};
ghost use Rattle.blob.specs.Sums.{sum_of};
ghost use Rattle.part_model.specs.Held.{bytes_of, numbers, prefix_of};
ghost use Rattle.sum_trees.specs.Forests.{items_in};
ghost use Rattle.disk_buffer.specs.Stays.{AreApart, TellsRow, arrival_in, content_in, ended, flagged, going, is_there, residents, with_end, with_flag, without_file};

use crate::row::{Row, Wanted};
use crate::settling::{ready_bytes, settle_rows};
use crate::walks::{count_passing, list_passing, passing_bytes};
use blob::Blob;
use cta_site::{NoMemory, Rows};
use number_map::{NumberMap, new_map};
use std::alloc::Global;
use std::marker::Model;
use std::sync::Arc;
use sum_trees::Forest;

// What is kept of a resident file beside its row: the number of its arrival, and its content.
#[derive(Drop)]
pub(crate) struct StoredFile {
    pub(crate) arrival: u64,
    pub(crate) blob: Arc<Blob>,
}

// The resident files by arrival, with their contents. Each has the greatest end of its pins. `clock` is the moment at which rows
// are ready, `next` is the number of the next arrival, and `bytes` is what the files have together.
#[derive(Drop)]
pub(crate) struct Arrivals {
    pub(crate) forest: Forest<Row>,
    pub(crate) kept: NumberMap<u32, StoredFile>,
    pub(crate) clock: u64,
    pub(crate) next: u64,
    pub(crate) bytes: u64,
}

impl Model for Arrivals {
    ghost use Rattle.std.specs.Prelude.{◌≡◌, ◌-◌, length, min, nat_eq, option_map};
    ghost use Rattle.std.specs.HashMap.{get, spare};
    ghost use Rattle.sum_trees.specs.Forests.{items_in};
    ghost use Rattle.disk_buffer.specs.Stays.{AreKept, Arrived, stays_of};
    ghost use Rattle.disk_buffer.specs.Contents.{contents_of};

    ghost Value = { Arrived };

    ghost view = { λ a. record { stays = stays_of (items_in a.forest.trees 0); contents = contents_of a.kept.entries; room = min (min a.forest.room (spare a.kept)) (18446744073709551615 - a.next) } };

    ghost invariant = { λ a. (length a.forest.trees ≡ 1) × AreKept (items_in a.forest.trees 0) (λ f. option_map (λ k. k.arrival) (get nat_eq a.kept f)) a.clock a.next a.bytes };
}

// A row of this arrival, of which nothing else is asked.
fn row_like(arrival: u64) -> Row
    ensures { result ≡ record { arrival = arrival; len = 0; until = 0; file = 0; safe = false; ready = false } }
{
    Row {
        arrival,
        len: 0,
        until: 0,
        file: 0,
        safe: false,
        ready: false,
    }
}

// The number of a file's arrival, None exactly where it is not there.
fn arrival_of(kept: &NumberMap<u32, StoredFile>, file: u32) -> Option<u64>
    ensures { result ≡ option_map (λ k. k.arrival) (get nat_eq kept.now file) }
{
    match kept.get(&file) {
        None => None,
        Some(kept) => Some(kept.arrival),
    }
}

// The row of a file.
fn row_of(forest: &Forest<Row>, kept: &NumberMap<u32, StoredFile>, file: u32) -> Option<Row>
    requires one { length forest.now.trees ≡ 1 }
    requires apart { AreApart (items_in forest.now.trees 0) }
    requires found { (f : ℕ) → option_map (λ k. k.arrival) (get nat_eq kept.now f) ≡ arrival_in (items_in forest.now.trees 0) f }
    ensures { TellsRow file (items_in forest.now.trees 0) result }
{
    match arrival_of(kept, file) {
        None => None,
        Some(arrival) => forest.get(0, row_like(arrival)),
    }
}

// Keeps a file's content, for which there is room.
fn keep(kept: &mut NumberMap<u32, StoredFile>, file: u32, arrival: u64, blob: Arc<Blob>)
    requires { 0 < spare kept.old }
    ensures places { (f : ℕ) → option_map (λ k. k.arrival) (get nat_eq kept.new f) ≡ (if file == f then Some arrival else option_map (λ k. k.arrival) (get nat_eq kept.old f)) }
    ensures sums { (f : ℕ) → option_map (λ k. sum_of k.blob.value) (get nat_eq kept.new f) ≡ (if file == f then Some (sum_of blob.value) else option_map (λ k. sum_of k.blob.value) (get nat_eq kept.old f)) }
    ensures room { spare kept.old ≤ spare kept.new + 1 }
{
    match kept.insert(file, StoredFile { arrival, blob }) {
        Ok(_) => {}
        Err(_) => unreachable!(),
    }
}

// Drops a file's content.
fn forget(kept: &mut NumberMap<u32, StoredFile>, file: u32)
    ensures places { (f : ℕ) → option_map (λ k. k.arrival) (get nat_eq kept.new f) ≡ (if file == f then None else option_map (λ k. k.arrival) (get nat_eq kept.old f)) }
    ensures sums { (f : ℕ) → option_map (λ k. sum_of k.blob.value) (get nat_eq kept.new f) ≡ (if file == f then None else option_map (λ k. sum_of k.blob.value) (get nat_eq kept.old f)) }
    ensures room { spare kept.old ≤ spare kept.new }
{
    let _ = kept.remove(&file);
}

// The content that is kept of a file.
fn blob_of(kept: &NumberMap<u32, StoredFile>, file: u32) -> Option<&Arc<Blob>>
    ensures { option_map (λ b. sum_of b.now.value) result ≡ option_map (λ k. sum_of k.blob.value) (get nat_eq kept.now file) }
{
    match kept.get(&file) {
        None => None,
        Some(kept) => Some(&kept.blob),
    }
}

// Makes room for the contents of so many more files.
fn make_room(kept: &mut NumberMap<u32, StoredFile>, more: u32) -> Result<(), NoMemory>
    ensures places { (f : ℕ) → option_map (λ k. k.arrival) (get nat_eq kept.new f) ≡ option_map (λ k. k.arrival) (get nat_eq kept.old f) }
    ensures sums { (f : ℕ) → option_map (λ k. sum_of k.blob.value) (get nat_eq kept.new f) ≡ option_map (λ k. sum_of k.blob.value) (get nat_eq kept.old f) }
    ensures room { OnOk result (more ≤ spare kept.new) }
    ensures kept { spare kept.old ≤ spare kept.new }
{
    kept.reserve(more as usize)?;
    Ok(())
}

// A row with another end of the pins of its file.
fn ended(row: Row, until: u64, clock: u64) -> Row
    ensures { result ≡ ended until clock row }
{
    Row {
        arrival: row.arrival,
        len: row.len,
        until,
        file: row.file,
        safe: row.safe,
        ready: row.safe && until <= clock,
    }
}

// A row with another flag of its file.
fn flagged(row: Row, safe: bool, clock: u64) -> Row
    ensures { result ≡ flagged safe clock row }
{
    Row {
        arrival: row.arrival,
        len: row.len,
        until: row.until,
        file: row.file,
        safe,
        ready: safe && row.until <= clock,
    }
}

impl Arrivals {
    // No file, with no room yet. NoMemory gives nothing.
    pub(crate) fn new(alloc: Global) -> Result<Arrivals, NoMemory>
        ensures { IfOk result (λ arrivals. (arrivals.stays ≡ []) × (arrivals.contents ≡ [])) }
    {
        let forest = Forest::new(alloc, 1)?;
        Ok(Arrivals {
            forest,
            kept: new_map(alloc),
            clock: 0,
            next: 0,
            bytes: 0,
        })
    }

    // Makes room for at least this many more files, and never makes the room smaller. NoMemory changes no file; it is the answer
    // too where 2^64 arrivals would be passed.
    pub(crate) fn reserve(&mut self, more: u32) -> Result<(), NoMemory>
        ensures stays { self.new.stays ≡ self.old.stays }
        ensures contents { (f : ℕ) → content_in self.new.contents f ≡ content_in self.old.contents f }
        ensures room { OnOk result (more ≤ self.new.room) }
        ensures kept { self.old.room ≤ self.new.room }
    {
        if u64::from(more) > u64::MAX - self.next {
            return Err(NoMemory);
        }
        self.forest.reserve(more)?;
        make_room(&mut self.kept, more)
    }

    // The bytes of the files together.
    pub(crate) fn bytes(&self) -> u64
        ensures { result ≡ bytes_of (residents self.now.stays) }
    {
        self.bytes
    }

    // Whether a file is there.
    pub(crate) fn has(&self, file: u32) -> bool
        ensures { result ≡ is_there self.now.stays file }
    {
        arrival_of(&self.kept, file).is_some()
    }

    // The content of a file, None exactly where it is not there.
    pub(crate) fn blob(&self, file: u32) -> Option<&Arc<Blob>>
        ensures { option_map (λ b. sum_of b.now.value) result ≡ content_in self.now.contents file }
    {
        blob_of(&self.kept, file)
    }

    // A file comes last, with no flag.
    pub(crate) fn push(&mut self, file: u32, blob: Arc<Blob>, until: u64)
        requires room { 0 < self.old.room }
        requires lacks { is_there self.old.stays file ≡ false }
        requires fits { bytes_of (residents self.old.stays) + length blob.value < 2 ^ 64 }
        ensures stays { self.new.stays ≡ self.old.stays ++ record { file = file; len = length blob.value; safe = false; until = until } ∷ [] }
        ensures contents { (f : ℕ) → content_in self.new.contents f ≡ (if f == file then Some (sum_of blob.value) else content_in self.old.contents f) }
        ensures room { self.old.room ≤ self.new.room + 1 }
    {
        let len = blob.sum().len;
        let row = Row {
            arrival: self.next,
            len,
            until,
            file,
            safe: false,
            ready: false,
        };
        self.forest.insert(0, row);
        keep(&mut self.kept, file, self.next, blob);
        self.next += 1;
        self.bytes += len;
    }

    // A file leaves with its content, where it is there.
    pub(crate) fn remove(&mut self, file: u32)
        ensures stays { self.new.stays ≡ without_file file self.old.stays }
        ensures contents { (f : ℕ) → content_in self.new.contents f ≡ (if f == file then None else content_in self.old.contents f) }
        ensures room { self.old.room ≤ self.new.room }
    {
        let Some(row) = row_of(&self.forest, &self.kept, file) else {
            return;
        };
        let _was = self.forest.take(0, row);
        forget(&mut self.kept, file);
        self.bytes -= row.len;
    }

    // The pins of a file have another greatest end, where the file is there.
    pub(crate) fn set_end(&mut self, file: u32, until: u64)
        ensures stays { self.new.stays ≡ with_end file until self.old.stays }
        ensures contents { self.new.contents ≡ self.old.contents }
        ensures room { self.old.room ≤ self.new.room }
    {
        let Some(row) = row_of(&self.forest, &self.kept, file) else {
            return;
        };
        // Replacing the row by itself would only walk the tree again.
        if row.until == until {
            return;
        }
        self.forest.replace(0, ended(row, until, self.clock));
    }

    // A file has this flag, where it is there.
    pub(crate) fn set_flag(&mut self, file: u32, safe: bool)
        ensures stays { self.new.stays ≡ with_flag file safe self.old.stays }
        ensures contents { self.new.contents ≡ self.old.contents }
        ensures room { self.old.room ≤ self.new.room }
    {
        let Some(row) = row_of(&self.forest, &self.kept, file) else {
            return;
        };
        // Replacing the row by itself would only walk the tree again.
        if row.safe == safe {
            return;
        }
        self.forest.replace(0, flagged(row, safe, self.clock));
    }

    // The bytes of the files that may go at a moment. Its cost is constant at the moment that was reached, and behind it the
    // logarithm of the number of files for each that may go only then; before it, that for each file that may go.
    pub(crate) fn going_bytes(&self, at: u64) -> u64
        ensures { result ≡ bytes_of (going at self.now.stays) }
    {
        let _all = self.bytes();
        if at < self.clock {
            return passing_bytes(&self.forest, Wanted { at, ready: true });
        }
        let ready = ready_bytes(&self.forest);
        if at == self.clock {
            return ready;
        }
        ready + passing_bytes(&self.forest, Wanted { at, ready: false })
    }

    // Reaches a moment: the files that may go then are found at once from then on. Nothing that is told changes, and nothing at
    // all where the moment is not a later one. Its cost is the logarithm of the number of files for each that may go only then.
    pub(crate) fn settle(&mut self, at: u64)
        ensures stays { self.new.stays ≡ self.old.stays }
        ensures contents { self.new.contents ≡ self.old.contents }
        ensures room { self.old.room ≤ self.new.room }
    {
        if at <= self.clock {
            return;
        }
        settle_rows(&mut self.forest, at);
        self.clock = at;
    }

    // How many files may go at a moment, the first by arrival, that make so many bytes together, or all that may go.
    pub(crate) fn going_count(&self, at: u64, lacking: u64) -> u32
        ensures { result ≡ length (prefix_of lacking (going at self.now.stays)) }
    {
        count_passing(&self.forest, at, lacking)
    }

    // Adds these files to a list with room for them.
    pub(crate) fn list_going(&self, at: u64, lacking: u64, out: &mut Rows<u32>)
        requires { length (prefix_of lacking (going at self.now.stays)) ≤ out.old.room }
        ensures { out.new.items ≡ out.old.items ++ numbers (prefix_of lacking (going at self.now.stays)) }
    {
        list_passing(&self.forest, at, lacking, out);
    }
}
