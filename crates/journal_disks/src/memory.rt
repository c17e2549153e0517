// A disk in memory that tears what wasn't synced, and fails at the calls that it is told.
ghost use Rattle.std.specs.Prelude.{◌≡◌, ◌≤◌, None, Some, IfOk, OnOk, IsErr, length, take, List, ℕ, Contains};
ghost use Rattle.std.specs.Io.{ReadsAtMost};
ghost use Rattle.outside.specs.Causes.{HasCause, next_call};
ghost use Rattle.cta_journal.specs.Disk.{written, Only, IsPossible, Follows, Torn, Cut, ReadsAt, Elapses};

use crate::events::Tear;
use crate::kept::Kept;
use crate::plan::Plan;
use cta_journal::Disk;
use outside::Failed;
use std::alloc::{AllocError, Global};

/// A disk in memory. It tells each byte, and what a crash may leave: until a sync, any bytes in the range of each write and past
/// the old end, and any length between a cut and what was there. It fails at the calls of its list; a write that is to fail may
/// have written, and a crash then leaves any bytes in its range.
#[derive(Drop)]
pub struct MemDisk {
    alloc: Global,
    kept: Kept,
    plan: Plan,
    tear: Tear,
}

impl MemDisk {
    ghost use Rattle.journal_disks.specs.Memory.{disk_bytes, disk_failing, disk_calls, disk_faults, MayLeave};

    /// A disk that holds these bytes. `failing` lists the numbers of the calls that are to fail, counted from 1 over all four, in
    /// any order; a number of no call, as 0, is never met. `tear` is how a crash tears what wasn't synced.
    pub fn new(
        alloc: Global,
        bytes: Vec<u8>,
        failing: Vec<u64>,
        tear: Tear,
    ) -> Result<MemDisk, AllocError>
        ensures bytes { IfOk result (λ d. disk_bytes d ≡ bytes.items) }
        ensures only { IfOk result (λ d. Only bytes.items (MayLeave d)) }
        ensures plan { IfOk result (λ d. (disk_failing d ≡ failing.items) × (disk_calls d ≡ 0) × (disk_faults d ≡ 0)) }
    {
        Ok(MemDisk {
            alloc,
            kept: Kept::new(alloc, bytes)?,
            plan: Plan {
                calls: 0,
                failing,
                faults: 0,
            },
            tear,
        })
    }

    /// What a read gives.
    pub fn bytes(&self) -> &[u8]
        ensures bytes { result.now ≡ disk_bytes self.now }
        ensures possible { MayLeave self.now result.now }
    {
        self.kept.bytes()
    }

    /// What a crash leaves that tears each write since the last sync that succeeded, and undoes each cut since then.
    pub fn crashed(&self) -> &[u8]
        ensures { MayLeave self.now result.now }
    {
        self.kept.torn()
    }
}

// Puts the bytes from `at` on at the front of `to`, and answers how many.
fn copied(bytes: &[u8], at: u64, to: &mut [u8]) -> usize
    ensures bound { result ≤ length to.new }
    ensures bytes { ReadsAt bytes.now at result to.new }
{
    if at >= bytes.len() as u64 {
        return 0;
    }
    let rest = &bytes[at as usize..];
    let count = to.len().min(rest.len());
    to[..count].copy_from_slice(&rest[..count]);
    count
}

impl Disk for MemDisk {
    ghost use Rattle.journal_disks.specs.Memory.{disk_bytes, disk_failing, disk_calls, disk_faults, MayLeave};
    ghost use Rattle.journal_disks.specs.Events.{LeftSince, moment_of};
    ghost use Rattle.journal_disks.specs.Past.{now_counts, only_this};

    ghost content = { λ d. Some (disk_bytes d) };

    ghost may_leave = { λ d c. MayLeave d c };

    ghost moment = { λ d. moment_of d.kept };

    ghost left_since = { λ d t c. LeftSince d.kept t c };

    ghost fault_count = { λ d. disk_faults d };

    ghost counts_now = { λ d t c le now. now_counts d.kept.first d.kept.events t c le now };

    ghost only_now = { λ d c left. only_this d.kept.first d.kept.events c left };

    fn read(&mut self, at: u64, to: &mut [u8]) -> Result<usize, Failed>
        ensures bound { ReadsAtMost result to.new }
        ensures bytes { (file : List ℕ) → Some (disk_bytes self.old) ≡ Some file → IfOk result (λ n. ReadsAt file at n to.new) }
        ensures content { Some (disk_bytes self.new) ≡ Some (disk_bytes self.old) }
        ensures crash { (c : List ℕ) → MayLeave self.new c → MayLeave self.old c }
        ensures possible { IsPossible (Some (disk_bytes self.old)) (MayLeave self.old) → IsPossible (Some (disk_bytes self.new)) (MayLeave self.new) }
        ensures time { Elapses (moment_of self.old.kept) (moment_of self.new.kept) (LeftSince self.old.kept) (LeftSince self.new.kept) (MayLeave self.new) }
        ensures cause { HasCause (disk_faults self.old) (disk_faults self.new) result }

        // The plan: a call fails where its number is listed.
        ensures planned { Contains (disk_failing self.old) (next_call (disk_calls self.old)) → IsErr result }
        ensures counted { disk_calls self.new ≡ next_call (disk_calls self.old) }
        ensures kept { disk_failing self.new ≡ disk_failing self.old }
    {
        if self.plan.fails() {
            return Err(Failed);
        }
        Ok(copied(self.kept.bytes(), at, to))
    }

    /// A write that begins past the end fails.
    fn write_at(&mut self, at: u64, piece: &[u8]) -> Result<(), Failed>
        ensures bytes { (file : List ℕ) → Some (disk_bytes self.old) ≡ Some file → at ≤ length file → OnOk result (Some (disk_bytes self.new) ≡ Some (written file at piece.now)) }
        ensures crash { (file : List ℕ) → Some (disk_bytes self.old) ≡ Some file → at ≤ length file → Follows (Torn at (length piece.now)) (MayLeave self.old) (MayLeave self.new) }
        ensures untold { Some (disk_bytes self.old) ≡ None → Some (disk_bytes self.new) ≡ None }
        ensures possible { IsPossible (Some (disk_bytes self.old)) (MayLeave self.old) → IsPossible (Some (disk_bytes self.new)) (MayLeave self.new) }
        ensures time { Elapses (moment_of self.old.kept) (moment_of self.new.kept) (LeftSince self.old.kept) (LeftSince self.new.kept) (MayLeave self.new) }
        ensures cause { HasCause (disk_faults self.old) (disk_faults self.new) result }

        // The plan: a call fails where its number is listed.
        ensures planned { Contains (disk_failing self.old) (next_call (disk_calls self.old)) → IsErr result }
        ensures counted { disk_calls self.new ≡ next_call (disk_calls self.old) }
        ensures kept { disk_failing self.new ≡ disk_failing self.old }
    {
        if self.plan.fails() {
            if at <= self.kept.bytes().len() as u64 {
                let _ = self.kept.tear(self.alloc, at as usize, piece, self.tear);
            }
            return Err(Failed);
        }
        if at > self.kept.bytes().len() as u64 {
            return Err(self.plan.fault());
        }
        if self
            .kept
            .write(self.alloc, at as usize, piece, self.tear)
            .is_err()
        {
            return Err(self.plan.fault());
        }
        Ok(())
    }

    /// A cut that would lengthen the file fails.
    fn cut(&mut self, len: u64) -> Result<(), Failed>
        ensures bytes { (file : List ℕ) → Some (disk_bytes self.old) ≡ Some file → len ≤ length file → OnOk result (Some (disk_bytes self.new) ≡ Some (take len file)) }
        ensures crash { (file : List ℕ) → Some (disk_bytes self.old) ≡ Some file → len ≤ length file → Follows (Cut len) (MayLeave self.old) (MayLeave self.new) }
        ensures untold { Some (disk_bytes self.old) ≡ None → Some (disk_bytes self.new) ≡ None }
        ensures possible { IsPossible (Some (disk_bytes self.old)) (MayLeave self.old) → IsPossible (Some (disk_bytes self.new)) (MayLeave self.new) }
        ensures time { Elapses (moment_of self.old.kept) (moment_of self.new.kept) (LeftSince self.old.kept) (LeftSince self.new.kept) (MayLeave self.new) }
        ensures cause { HasCause (disk_faults self.old) (disk_faults self.new) result }

        // The plan: a call fails where its number is listed.
        ensures planned { Contains (disk_failing self.old) (next_call (disk_calls self.old)) → IsErr result }
        ensures counted { disk_calls self.new ≡ next_call (disk_calls self.old) }
        ensures kept { disk_failing self.new ≡ disk_failing self.old }
    {
        if self.plan.fails() {
            return Err(Failed);
        }
        if len > self.kept.bytes().len() as u64 {
            return Err(self.plan.fault());
        }
        if self.kept.cut(self.alloc, len as usize).is_err() {
            return Err(self.plan.fault());
        }
        Ok(())
    }

    fn sync(&mut self) -> Result<(), Failed>
        ensures durable { (file : List ℕ) → Some (disk_bytes self.old) ≡ Some file → OnOk result (Only file (MayLeave self.new)) }
        ensures content { Some (disk_bytes self.new) ≡ Some (disk_bytes self.old) }
        ensures crash { (c : List ℕ) → MayLeave self.new c → MayLeave self.old c }
        ensures possible { IsPossible (Some (disk_bytes self.old)) (MayLeave self.old) → IsPossible (Some (disk_bytes self.new)) (MayLeave self.new) }
        ensures time { Elapses (moment_of self.old.kept) (moment_of self.new.kept) (LeftSince self.old.kept) (LeftSince self.new.kept) (MayLeave self.new) }
        ensures cause { HasCause (disk_faults self.old) (disk_faults self.new) result }

        // The plan: a call fails where its number is listed.
        ensures planned { Contains (disk_failing self.old) (next_call (disk_calls self.old)) → IsErr result }
        ensures counted { disk_calls self.new ≡ next_call (disk_calls self.old) }
        ensures kept { disk_failing self.new ≡ disk_failing self.old }
    {
        if self.plan.fails() {
            return Err(Failed);
        }
        if self.kept.sync(self.alloc).is_err() {
            return Err(self.plan.fault());
        }
        Ok(())
    }

    fn faults(&self) -> u64 {
        self.plan.faults
    }
}
