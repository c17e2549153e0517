// What changes the book of jobs.
ghost use Rattle.std.specs.Prelude.{◌≡◌, ◌≢◌, ◌+◌, ◌<◌, ◌≤◌, ◌^◌, [], ◌∷◌, OnOk, length, is_some, is_none, not, ◌&&◌};
ghost use Rattle.part_model.specs.JobBook as said;
ghost use Rattle.part_model.specs.JobBook.{TellSame};
ghost use Rattle.part_model.specs.JobRows.{book_in};

use crate::book::{JobBook, RecallRow};
use crate::maps::{make_room, put, take_out};
use crate::waiting::{count_waiting, forget, forget_all};
use cta_model::{Charge, Fault, Job};
use cta_site::NoMemory;

impl JobBook {
    /// Makes room for at least this many more births, subscriptions, claims and charges together, and never makes the room
    /// smaller. NoMemory changes nothing that the book tells; it is answered too where 2^64 additions would be passed. Its
    /// cost is the number of jobs where it takes memory.
    pub fn reserve(&mut self, jobs: u32) -> Result<(), NoMemory>
        ensures book { TellSame (book_in self.new.value) (book_in self.old.value) }
        ensures room { OnOk result (jobs ≤ self.new.room) }
        ensures kept { self.old.room ≤ self.new.room }
    {
        make_room(&mut self.waiting, jobs)?;
        make_room(&mut self.recalls, jobs)?;
        make_room(&mut self.archives, jobs)?;
        make_room(&mut self.births, jobs)?;
        self.claims.reserve(jobs)?;
        make_room(&mut self.counts, jobs)?;
        make_room(&mut self.charges, jobs)?;
        make_room(&mut self.named, jobs)?;
        if self.room >= jobs {
            return Ok(());
        }
        if u64::from(jobs) > u64::MAX - self.added {
            return Err(NoMemory);
        }
        self.room = jobs;
        Ok(())
    }

    /// A job is born, by the entry of the number that is its birth. That of copy 0 is its file's live recall from then on, for
    /// which that entry waits; any other is its copy's live archive job. It takes no memory and constant time.
    pub fn born(&mut self, job: Job)
        requires { 0 < self.old.room }
        ensures book { TellSame (book_in self.new.value) (said.bear_jobs (job ∷ []) job.birth (book_in self.old.value)) }
        ensures room { self.old.room ≤ self.new.room + 1 }
    {
        if job.copy == 0 {
            self.bear_recall(job);
        } else {
            self.bear_archive(job);
        }
    }

    // A recall is born.
    fn bear_recall(&mut self, job: Job)
        requires room { 0 < self.old.room }
        requires recall { job.copy ≡ 0 }
        ensures book { TellSame (book_in self.new.value) (said.bear_jobs (job ∷ []) job.birth (book_in self.old.value)) }
        ensures room { self.old.room ≤ self.new.room + 1 }
    {
        put(&mut self.waiting, (job.file, 0), job.birth);
        let row = RecallRow {
            birth: job.birth,
            places: 1,
        };
        put(&mut self.recalls, job.file, row);
        put(&mut self.births, (job.file, job.copy), job.birth);
        self.room -= 1;
        self.added += 1;
    }

    // An archive job is born.
    fn bear_archive(&mut self, job: Job)
        requires room { 0 < self.old.room }
        requires archive { job.copy ≢ 0 }
        ensures book { TellSame (book_in self.new.value) (said.bear_jobs (job ∷ []) job.birth (book_in self.old.value)) }
        ensures room { self.old.room ≤ self.new.room + 1 }
    {
        put(&mut self.archives, (job.file, job.copy), job.birth);
        put(&mut self.births, (job.file, job.copy), job.birth);
        self.room -= 1;
    }

    /// An entry waits for the live recall of a file too, behind the others; where none is live, nothing changes. It takes no
    /// memory and constant time.
    pub fn subscribe(&mut self, file: u32, owner: u32)
        requires { 0 < self.old.room }
        ensures book { TellSame (book_in self.new.value) (said.subscribe_files (file ∷ []) owner (book_in self.old.value)) }
        ensures room { self.old.room ≤ self.new.room + 1 }
    {
        let Some(row) = self.recalls.get(&file).copied() else {
            return;
        };
        put(&mut self.waiting, (file, row.places), owner);
        let row = RecallRow {
            birth: row.birth,
            places: row.places + 1,
        };
        put(&mut self.recalls, file, row);
        self.room -= 1;
        self.added += 1;
    }

    /// A request waits for the live recall of a file no longer, and the recall ends where it was the last: true exactly where
    /// it was live and ended. It takes no memory, and its cost is the number of entries that waited.
    pub fn unsubscribe(&mut self, file: u32, owner: u32) -> bool
        ensures book { TellSame (book_in self.new.value) (said.drop_files (file ∷ []) owner (book_in self.old.value)) }
        ensures last { result ≡ (is_some ((book_in self.old.value).recall file) && is_none ((book_in self.new.value).recall file)) }
        ensures room { self.old.room ≤ self.new.room }
    {
        let Some(row) = self.recalls.get(&file).copied() else {
            return false;
        };
        forget(&mut self.waiting, file, row.places, owner);
        if count_waiting(&self.waiting, file, row.places) > 0 {
            return false;
        }
        take_out(&mut self.recalls, file);
        true
    }

    /// A mount claims a job, which a Claim has named from then on. It takes no memory and constant time.
    pub fn claim(&mut self, job: Job, mount: u32)
        requires { 0 < self.old.room }
        ensures book { TellSame (book_in self.new.value) (said.claim_jobs (job ∷ []) mount (book_in self.old.value)) }
        ensures room { self.old.room ≤ self.new.room + 1 }
    {
        let key = (job.birth, job.file, job.copy);
        self.claims.put(key, mount);
        put(&mut self.named, key, mount);
        self.room -= 1;
    }

    /// No mount claims a job any more, whether it has ended or not. It takes no memory and constant time.
    pub fn give_back(&mut self, job: Job)
        ensures book { TellSame (book_in self.new.value) (said.give_back_jobs (job ∷ []) (book_in self.old.value)) }
        ensures room { self.old.room ≤ self.new.room }
    {
        self.claims.take_out((job.birth, job.file, job.copy));
    }

    /// A job is charged for a fault of a drive with a tape, fewer than 255 times before. It gives the number of its charges with this
    /// one. It takes no memory and constant time.
    pub fn charge(&mut self, job: Job, drive: u32, tape: u32, fault: Fault) -> u8
        requires room { 0 < self.old.room }
        requires few { length ((book_in self.old.value).charges job) + 1 < 2 ^ 8 }
        ensures book { TellSame (book_in self.new.value) (said.charge_jobs (job ∷ []) (record { drive = drive; tape = tape; fault = fault }) (book_in self.old.value)) }
        ensures count { result ≡ length ((book_in self.old.value).charges job) + 1 }
        ensures room { self.old.room ≤ self.new.room + 1 }
    {
        let key = (job.birth, job.file, job.copy);
        let count = self.charge_count(job);
        put(
            &mut self.charges,
            (key, count),
            Charge { drive, tape, fault },
        );
        put(&mut self.counts, key, count + 1);
        self.room -= 1;
        count + 1
    }

    /// A job ends: its copy has no live job any more, whatever its birth. It takes no memory; its cost is the number of entries
    /// that waited for a recall, and constant for an archive job.
    pub fn end(&mut self, job: Job)
        ensures book { TellSame (book_in self.new.value) (said.end_jobs (job ∷ []) (book_in self.old.value)) }
        ensures room { self.old.room ≤ self.new.room }
    {
        if job.copy == 0 {
            self.end_recall(job);
        } else {
            take_out(&mut self.archives, (job.file, job.copy));
        }
    }

    // A recall ends.
    fn end_recall(&mut self, job: Job)
        requires { job.copy ≡ 0 }
        ensures book { TellSame (book_in self.new.value) (said.end_jobs (job ∷ []) (book_in self.old.value)) }
        ensures room { self.old.room ≤ self.new.room }
    {
        if let Some(row) = self.recalls.get(&job.file).copied() {
            forget_all(&mut self.waiting, job.file, row.places);
            take_out(&mut self.recalls, job.file);
        }
    }
}
