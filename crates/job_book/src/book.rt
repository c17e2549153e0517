// The book of jobs and its readers.
ghost use Rattle.std.specs.Prelude.{◌≡◌, ◌≢◌, true, false, ℕ, ◌+◌, ◌≤◌, ◌<◌, [], ◌++◌, Some, length, OnOk, is_some, option_map, slice_get};
ghost use Rattle.cta_model.specs.declared.asks.Job.{Job};
ghost use Rattle.cta_model.specs.Recalls.{Recall};
ghost use Rattle.cta_model.specs.RepackItems.{waiting_for};
ghost use Rattle.part_model.specs.JobBook.{TellSame};
ghost use Rattle.part_model.specs.JobRows.{book_in, no_rows};
ghost use Rattle.job_book.specs.Live.{lives};

use crate::claims::Claims;
use crate::waiting::{count_waiting, tell_waiting};
use cta_model::{Charge, Fault, Job};
use cta_site::{NoMemory, Rows};
use number_map::{NumberMap, new_map};
use std::alloc::Global;
use std::marker::Model;

// What stands for a charge that is not there.
const NO_CHARGE: Charge = Charge {
    drive: 0,
    tape: 0,
    fault: Fault::Load,
};

// A live recall: the entry that bore it, and at how many places entries wait or waited for it.
#[derive(Clone, Copy)]
pub(crate) struct RecallRow {
    pub(crate) birth: u32,
    pub(crate) places: u64,
}

// A job as a key: its birth, its file and its copy.
pub(crate) type JobKey = (u32, u32, u8);

/// The book of jobs. Files, births, requests and mounts are named by their numbers. Contracts see what `JobRows` of
/// `part_model` tells, and for how many more additions there is room.
#[derive(Drop)]
pub struct JobBook {
    pub(crate) waiting: NumberMap<(u32, u64), u32>,
    pub(crate) recalls: NumberMap<u32, RecallRow>,
    pub(crate) archives: NumberMap<(u32, u8), u32>,
    pub(crate) births: NumberMap<(u32, u8), u32>,
    pub(crate) claims: Claims,
    pub(crate) counts: NumberMap<JobKey, u8>,
    pub(crate) charges: NumberMap<(JobKey, u8), Charge>,
    pub(crate) named: NumberMap<JobKey, u32>,
    pub(crate) room: u32,
    pub(crate) added: u64,
}

impl Model for JobBook {
    ghost use Rattle.std.specs.Prelude.{ℕ, ◌≤◌, ◌<◌, ◌+◌, ◌^◌};
    ghost use Rattle.std.specs.HashMap.{spare};
    ghost use Rattle.part_model.specs.Room.{Roomed};
    ghost use Rattle.part_model.specs.JobRows.{JobRows};
    ghost use Rattle.job_book.specs.Maps.{Maps, places_in, rows_of};

    ghost Value = { Roomed JobRows };

    ghost view = { λ b. record { value = rows_of (record { waiting = b.waiting.entries; recalls = b.recalls.entries; archives = b.archives.entries; births = b.births.entries; claims = b.claims.entries; counts = b.counts.entries; charges = b.charges.entries; named = b.named.entries }); room = b.room } };

    ghost invariant = { λ b. (b.room ≤ spare b.waiting) × (b.room ≤ spare b.recalls) × (b.room ≤ spare b.archives) × (b.room ≤ spare b.births) × (b.room ≤ b.claims.room) × (b.room ≤ spare b.counts) × (b.room ≤ spare b.charges) × (b.room ≤ spare b.named) × ((f : ℕ) → places_in b.recalls.entries f ≤ b.added) × (b.added + b.room < 2 ^ 64) };
}

impl JobBook {
    /// A book of no job. It takes no memory and constant time.
    pub fn new(alloc: Global) -> JobBook
        ensures { result ≡ record { value = no_rows; room = 0 } }
    {
        JobBook {
            waiting: new_map(alloc),
            recalls: new_map(alloc),
            archives: new_map(alloc),
            births: new_map(alloc),
            claims: Claims::new(alloc),
            counts: new_map(alloc),
            charges: new_map(alloc),
            named: new_map(alloc),
            room: 0,
            added: 0,
        }
    }

    /// For how many more births, subscriptions, claims and charges there is room, in constant time.
    pub fn room(&self) -> u32
        ensures { result ≡ self.now.room }
    {
        self.room
    }

    /// Whether a job lives: it is its file's live recall or its copy's live archive job. In constant time.
    pub fn is_live(&self, job: Job) -> bool
        ensures { result ≡ lives job (book_in self.now.value) }
    {
        if job.copy == 0 {
            self.live_recall(job.file) == Some(job.birth)
        } else {
            self.archive(job.file, job.copy) == Some(job.birth)
        }
    }

    /// The birth of the live recall of a file, None exactly where none is live. In constant time.
    pub fn live_recall(&self, file: u32) -> Option<u32>
        ensures { result ≡ option_map (λ (r : Recall). r.birth) ((book_in self.now.value).recall file) }
    {
        self.recalls.get(&file).map(|row| row.birth)
    }

    /// How many entries wait for the live recall of a file, 0 where none is live. Its cost is the number that waited.
    pub fn waiting_count(&self, file: u32) -> u64
        ensures { result ≡ length (waiting_for ((book_in self.now.value).recall file)) }
    {
        match self.recalls.get(&file).copied() {
            Some(row) => count_waiting(&self.waiting, file, row.places),
            None => 0,
        }
    }

    /// Adds the entries that wait for the live recall of a file, in their order, behind a list with room for them; nothing
    /// where none is live. It takes no memory, and its cost is the number that waited.
    pub fn waiting(&self, file: u32, out: &mut Rows<u32>)
        requires { length (waiting_for ((book_in self.now.value).recall file)) ≤ out.old.room }
        ensures { out.new.items ≡ out.old.items ++ waiting_for ((book_in self.now.value).recall file) }
    {
        if let Some(row) = self.recalls.get(&file).copied() {
            tell_waiting(&self.waiting, file, row.places, out);
        }
    }

    /// The birth of the live archive job of a copy, counted from 1; None exactly where none is live. In constant time.
    pub fn archive(&self, file: u32, copy: u8) -> Option<u32>
        ensures { result ≡ (book_in self.now.value).archive file copy }
    {
        self.archives.get(&(file, copy)).copied()
    }

    /// The birth of the last job that was born for a copy, where copy 0 is the recall; None exactly where none ever was. In
    /// constant time.
    pub fn last_birth(&self, file: u32, copy: u8) -> Option<u32>
        ensures { result ≡ (book_in self.now.value).last_birth file copy }
    {
        self.births.get(&(file, copy)).copied()
    }

    /// The mount that claims a job, None exactly where none does. In constant time.
    pub fn claimer(&self, job: Job) -> Option<u32>
        ensures { result ≡ (book_in self.now.value).claimer job }
    {
        self.claims.get((job.birth, job.file, job.copy))
    }

    /// Whether a mount claims any job. In constant time.
    pub fn has_claims(&self, mount: u32) -> bool
        ensures some { result ≡ true → (j : Job) × ((book_in self.now.value).claimer j ≡ Some mount) }
        ensures none { result ≡ false → (j : Job) → (book_in self.now.value).claimer j ≢ Some mount }
    {
        self.claims.has(mount)
    }

    /// How often a job was charged, in constant time.
    pub fn charge_count(&self, job: Job) -> u8
        ensures { result ≡ length ((book_in self.now.value).charges job) }
    {
        self.counts
            .get(&(job.birth, job.file, job.copy))
            .copied()
            .unwrap_or(0)
    }

    /// A charge of a job by its place from 0, oldest first; None exactly from their number on. In constant time.
    pub fn charge_at(&self, job: Job, place: u8) -> Option<Charge>
        ensures { result ≡ slice_get ((book_in self.now.value).charges job) place }
    {
        if place >= self.charge_count(job) {
            return None;
        }
        let key = (job.birth, job.file, job.copy);
        Some(
            self.charges
                .get(&(key, place))
                .copied()
                .unwrap_or(NO_CHARGE),
        )
    }

    /// Whether a Claim has ever named a job, in constant time.
    pub fn named(&self, job: Job) -> bool
        ensures { result ≡ (book_in self.now.value).named job }
    {
        self.named.contains_key(&(job.birth, job.file, job.copy))
    }
}
