// The failed copies.
ghost use Rattle.std.specs.Prelude.{◌≡◌, ◌+◌, ◌<◌, ◌≤◌, [], ◌∷◌, IfOk, OnOk, Some, false};
ghost use Rattle.cta_model.specs.Mounts.{has_copy, job_of};
ghost use Rattle.part_model.specs.Failed.{added_copies, removed_copies, removed_file};
ghost use Rattle.failed_copies.specs.Copies.{IsOfFile};
ghost use Rattle.part_model.specs.Order.{first_job, next_job};

use crate::rows::FailedRow;
use cta_model::Job;
use cta_site::NoMemory;
use std::alloc::Global;
use std::marker::Model;
use sum_trees::Forest;

/// The failed copies. Files are named by their numbers, and copies count from 1. Contracts see them as jobs with birth 0, in
/// order of file and copy, and for how many more there is room. This project's own.
#[derive(Drop)]
pub struct FailedCopies {
    forest: Forest<FailedRow>,
}

impl Model for FailedCopies {
    ghost use Rattle.std.specs.Prelude.{◌≡◌, List, length};
    ghost use Rattle.cta_model.specs.declared.asks.Job.{Job};
    ghost use Rattle.part_model.specs.Room.{Roomed};
    ghost use Rattle.sum_trees.specs.Forests.{items_in};
    ghost use Rattle.failed_copies.specs.Copies.{copies_of};

    ghost Value = { Roomed (List Job) };

    ghost view = { λ f. record { value = copies_of (items_in f.forest.trees 0); room = f.forest.room } };

    ghost invariant = { λ f. length f.forest.trees ≡ 1 };
}

// The copy of a job.
fn row_of(job: Job) -> FailedRow
    ensures { result ≡ record { file = job.file; copy = job.copy } }
{
    FailedRow {
        file: job.file,
        copy: job.copy,
    }
}

// A copy as a job.
fn job_of_row(row: FailedRow) -> Job
    ensures { result ≡ job_of 0 row.file row.copy }
{
    Job {
        birth: 0,
        file: row.file,
        copy: row.copy,
    }
}

impl FailedCopies {
    /// No failed copy, with no room yet. NoMemory gives nothing. In constant time.
    pub fn new(alloc: Global) -> Result<FailedCopies, NoMemory>
        ensures { IfOk result (λ copies. copies.value ≡ []) }
    {
        let forest = Forest::new(alloc, 1)?;
        Ok(FailedCopies { forest })
    }

    /// Makes room for at least this many more copies, and never makes the room smaller. NoMemory changes nothing. Its cost is
    /// the number of copies where it takes memory, and else constant.
    pub fn reserve(&mut self, copies: u32) -> Result<(), NoMemory>
        ensures value { self.new.value ≡ self.old.value }
        ensures room { OnOk result (copies ≤ self.new.room) }
        ensures kept { self.old.room ≤ self.new.room }
    {
        self.forest.reserve(copies)
    }

    /// Adds the copy of a job at its place, where it is not there yet. It takes no memory. Its cost is the logarithm of the
    /// number of copies.
    pub fn add(&mut self, job: Job)
        requires room { 0 < self.old.room }
        requires lacks { has_copy job.file job.copy self.old.value ≡ false }
        ensures value { self.new.value ≡ added_copies (job ∷ []) self.old.value }
        ensures room { self.old.room ≤ self.new.room + 1 }
    {
        self.forest.insert(0, row_of(job));
    }

    /// Takes the copy of a job out, and says whether it was there. It takes no memory. Its cost is the logarithm of the number
    /// of copies.
    pub fn take(&mut self, job: Job) -> bool
        ensures had { result ≡ has_copy job.file job.copy self.old.value }
        ensures value { self.new.value ≡ removed_copies (job ∷ []) self.old.value }
        ensures room { self.old.room ≤ self.new.room }
    {
        self.forest.take(0, row_of(job))
    }

    // The first failed copy of a file, None exactly where it has none.
    fn of_file(&self, file: u32) -> Option<Job>
        ensures { IsOfFile file self.now.value result }
    {
        match self.forest.from(0, FailedRow { file, copy: 0 }) {
            None => None,
            Some(next) => {
                if next.file == file {
                    Some(job_of_row(next))
                } else {
                    None
                }
            }
        }
    }

    /// Takes all copies of a file out. It takes no memory. Its cost is the logarithm of the number of copies, for each copy
    /// that leaves and once more.
    pub fn take_file(&mut self, file: u32)
        ensures value { self.new.value ≡ removed_file (Some file) self.old.value }
        ensures room { self.old.room ≤ self.new.room }
    {
        while let Some(job) = self.of_file(file) {
            let _ = self.take(job);
        }
    }

    /// The first failed copy as a job with birth 0, None exactly where there is none. Its cost is the logarithm of the number
    /// of copies.
    pub fn first(&self) -> Option<Job>
        ensures { result ≡ first_job self.now.value }
    {
        self.forest.first(0).map(job_of_row)
    }

    /// The first failed copy behind that of a job, which need not be there; None exactly where there is none. Its cost is the
    /// logarithm of the number of copies.
    pub fn after(&self, job: Job) -> Option<Job>
        ensures { result ≡ next_job (job_of 0 job.file job.copy) self.now.value }
    {
        match self.forest.after(0, row_of(job)) {
            None => None,
            Some(next) => Some(job_of_row(next)),
        }
    }
}
