// Queues of jobs by key.
ghost use Rattle.std.specs.Prelude.{◌≡◌, ◌+◌, ◌<◌, ◌≤◌, ◌^◌, ℕ, [], ◌∷◌, IfOk, OnOk, false, length};
ghost use Rattle.cta_model.specs.Mounts.{has_job};
ghost use Rattle.part_model.specs.Queues.{added, front_job, job_after, line_sums, lines_in, taken_out};
ghost use Rattle.job_queues.specs.Waiting.{AreStarted, bytes_of, jobs_of};

use crate::queued::{Queued, Totals};
use cta_model::{Job, Sums};
use cta_site::NoMemory;
use part_model::Line;
use std::alloc::Global;
use std::marker::Model;
use sum_trees::Forest;

/// Queues of jobs, by keys numbered from 0. Contracts see the lines of each key in order of birth, file and copy, and for
/// how many more there is room, under whichever keys. This project's own.
#[derive(Drop)]
pub struct JobQueues {
    pub(crate) forest: Forest<Queued>,
}

impl Model for JobQueues {
    ghost use Rattle.std.specs.Prelude.{ℕ, ◌<◌, ◌^◌};
    ghost use Rattle.part_model.specs.Room.{Roomed};
    ghost use Rattle.part_model.specs.Queues.{Queues, lines_in};
    ghost use Rattle.job_queues.specs.Waiting.{bytes_of, queues_of};

    ghost Value = { Roomed Queues };

    ghost view = { λ q. record { value = queues_of q.forest.trees; room = q.forest.room } };

    ghost invariant = { λ q. (k : ℕ) → bytes_of (lines_in (queues_of q.forest.trees) k) < 2 ^ 64 };
}

// A line of this job, of which nothing else is asked.
pub(crate) fn line_like(job: Job) -> Queued
    ensures { result.job ≡ job }
{
    Queued {
        len: 0,
        born: 0,
        age: 0,
        priority: 0,
        job,
    }
}

// The sums of a queue, of its first line and its totals.
fn sums_of(first: Queued, totals: Totals) -> Sums
    ensures { result ≡ record { files = totals.files; bytes = totals.bytes; least = totals.least; oldest = first.job; born = first.born; priority = totals.priority; age = totals.age } }
{
    Sums {
        files: totals.files,
        bytes: totals.bytes,
        least: totals.least,
        oldest: first.job,
        born: first.born,
        priority: totals.priority,
        age: totals.age,
    }
}

impl JobQueues {
    /// So many empty queues, with no room yet. NoMemory gives nothing. Its cost is the number of keys.
    pub fn new(alloc: Global, keys: u32) -> Result<JobQueues, NoMemory>
        ensures { IfOk result (λ queues. AreStarted keys queues.value) }
    {
        let forest = Forest::new(alloc, keys)?;
        Ok(JobQueues { forest })
    }

    /// Makes room for at least this many more jobs, and never makes the room smaller. NoMemory changes no line. Its cost is
    /// the number of lines where more memory is taken, and else constant.
    pub fn reserve(&mut self, jobs: u32) -> Result<(), NoMemory>
        ensures value { self.new.value ≡ self.old.value }
        ensures room { OnOk result (jobs ≤ self.new.room) }
        ensures kept { self.old.room ≤ self.new.room }
    {
        self.forest.reserve(jobs)
    }

    /// Puts a line under a key, at the place of its job, which is not there yet. It takes no memory. Its cost is the
    /// logarithm of the number of lines of the key.
    pub fn add(&mut self, key: u32, line: Line)
        requires key { key < length self.old.value }
        requires room { 0 < self.old.room }
        requires lacks { has_job line.job (jobs_of (lines_in self.old.value key)) ≡ false }
        requires fits { bytes_of (lines_in self.old.value key) + line.len < 2 ^ 64 }
        ensures lines { (k : ℕ) → lines_in self.new.value k ≡ added key line (lines_in self.old.value) k }
        ensures keys { length self.new.value ≡ length self.old.value }
        ensures room { self.old.room ≤ self.new.room + 1 }
    {
        self.forest.insert(
            key,
            Queued {
                len: line.len,
                born: line.born,
                age: line.age,
                priority: line.priority,
                job: line.job,
            },
        );
    }

    /// Takes a job out of a key, and says whether it was there. It takes no memory. Its cost is the logarithm of the number
    /// of lines of the key.
    pub fn take(&mut self, key: u32, job: Job) -> bool
        requires key { key < length self.old.value }
        ensures had { result ≡ has_job job (jobs_of (lines_in self.old.value key)) }
        ensures lines { (k : ℕ) → lines_in self.new.value k ≡ taken_out key (job ∷ []) (lines_in self.old.value) k }
        ensures keys { length self.new.value ≡ length self.old.value }
        ensures room { self.old.room ≤ self.new.room }
    {
        self.forest.take(key, line_like(job))
    }

    /// The sums of a key's lines, None exactly where it has none. Its cost is the logarithm of their number.
    pub fn sums(&self, key: u32) -> Option<Sums>
        requires key { key < length self.now.value }
        ensures { result ≡ line_sums (lines_in self.now.value key) }
    {
        match self.forest.first(key) {
            None => None,
            Some(first) => match self.forest.sum(key) {
                None => None,
                Some(totals) => Some(sums_of(first, totals)),
            },
        }
    }

    /// The first job of a key, None exactly where it has none. Its cost is the logarithm of the number of its lines.
    pub fn front(&self, key: u32) -> Option<Job>
        requires key { key < length self.now.value }
        ensures { result ≡ front_job (lines_in self.now.value key) }
    {
        match self.forest.first(key) {
            None => None,
            Some(first) => Some(first.job),
        }
    }

    /// The first job of a key behind this one, which need not be there; None exactly where there is none. Its cost is the
    /// logarithm of the number of the key's lines.
    pub fn after(&self, key: u32, job: Job) -> Option<Job>
        requires key { key < length self.now.value }
        ensures { result ≡ job_after job (lines_in self.now.value key) }
    {
        match self.forest.after(key, line_like(job)) {
            None => None,
            Some(next) => Some(next.job),
        }
    }
}
