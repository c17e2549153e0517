// Records one after the other, and behind them one closed gate. It stands on the disk before anything is written behind it,
// and is opened by a write of its own once the record behind it stands on the disk.
ghost use Rattle.std.specs.Prelude.{◌≡◌, ◌++◌, [], ◌∷◌, ◌<◌, ◌≤◌, List, ℕ, All, true, false, Some, length, map, OnOk, IsErrOf};
ghost use Rattle.outside.specs.Causes.{Rose};
ghost use Rattle.cta_journal.specs.Disk.{IsPossible, LeavesOnly};
ghost use Rattle.cta_journal.specs.Log.{HasLogOrMore};
ghost use Rattle.cta_journal.specs.Standing.{StandsFor, disk_of, is_open_of, log_file};

use crate::disk::Disk;
use crate::piece::{piece_of, pieces_of};
use crate::record::Record;
use crate::steps::add;
use std::alloc::Global;

// No file of a journal gets as long.
const GREATEST_END: u64 = 1 << 62;

/// Why an append failed.
#[derive(Clone, Copy, Debug, PartialEq, Eq)]
pub enum AppendError {
    /// The disk failed. The journal is closed: it is not known whether the record stands in the file, and whoever opens the disk
    /// again finds it there whole, or not at all.
    Fault,
    /// There was no memory, the file would get 2^62 bytes long, or the value has no record. Nothing changed.
    NoMemory,
}

/// A journal over a disk, which ends with a closed gate as long as the journal is open.
#[derive(Drop)]
pub struct Journal<K: Disk> {
    pub(crate) alloc: Global,
    pub(crate) disk: K,
    // Where the closed gate stands.
    pub(crate) end: u64,
    pub(crate) is_open: bool,
}

impl<K: Disk> Journal<K> {
    /// Adds a record. At `Ok` it is on the disk.
    pub fn append<R: Record>(&mut self, kept: &R) -> Result<(), AppendError>
        requires { is_open_of self.old ≡ true }

        // From `Ok` on, each crash leaves the log with the new record.
        ensures stored { (bodies : List (List ℕ)) → StandsFor K.content K.may_leave self.old bodies
            → OnOk result (StandsFor K.content K.may_leave self.new (bodies ++ R.body kept.now ∷ [])) }
        ensures content { (bodies : List (List ℕ)) → StandsFor K.content K.may_leave self.old bodies
            → OnOk result (K.content (disk_of self.new) ≡ Some (log_file (bodies ++ R.body kept.now ∷ []))) }
        ensures fits { OnOk result (R.fits kept.now) }
        ensures known { IsErrOf result AppendError.Fault → R.fits kept.now }

        // A crash at any moment of the call leaves the log from before it, with the new record or without.
        ensures any_moment { (bodies : List (List ℕ)) → StandsFor K.content K.may_leave self.old bodies
            → LeavesOnly K.moment K.left_since (disk_of self.old) (disk_of self.new) (HasLogOrMore bodies (R.body kept.now ∷ [])) }
        ensures possible { IsPossible (K.content (disk_of self.old)) (K.may_leave (disk_of self.old))
            → IsPossible (K.content (disk_of self.new)) (K.may_leave (disk_of self.new)) }

        ensures ok { OnOk result (is_open_of self.new ≡ true) }
        ensures fault { IsErrOf result AppendError.Fault
            → Rose (K.fault_count (disk_of self.old)) (K.fault_count (disk_of self.new)) × (is_open_of self.new ≡ false) }
        ensures no_memory { IsErrOf result AppendError.NoMemory → self.new ≡ self.old }
        ensures later { K.fault_count (disk_of self.old) ≤ K.fault_count (disk_of self.new) }
    {
        let Ok(piece) = piece_of(self.alloc, kept) else {
            return Err(AppendError::NoMemory);
        };
        self.put(&piece)
    }

    /// Adds several records at the cost of one: at `Ok` all are on the disk, and a crash at any moment of the call leaves all of
    /// them or none. Of no records it makes no call of the disk.
    pub fn append_all<R: Record>(&mut self, kept: &[R]) -> Result<(), AppendError>
        requires { is_open_of self.old ≡ true }
        ensures stored { (bodies : List (List ℕ)) → StandsFor K.content K.may_leave self.old bodies
            → OnOk result (StandsFor K.content K.may_leave self.new (bodies ++ map R.body kept.now)) }
        ensures content { (bodies : List (List ℕ)) → 0 < length kept.now → StandsFor K.content K.may_leave self.old bodies
            → OnOk result (K.content (disk_of self.new) ≡ Some (log_file (bodies ++ map R.body kept.now))) }
        ensures fits { OnOk result (All R.fits kept.now) }
        ensures known { IsErrOf result AppendError.Fault → All R.fits kept.now }
        ensures any_moment { (bodies : List (List ℕ)) → StandsFor K.content K.may_leave self.old bodies
            → LeavesOnly K.moment K.left_since (disk_of self.old) (disk_of self.new) (HasLogOrMore bodies (map R.body kept.now)) }
        ensures possible { IsPossible (K.content (disk_of self.old)) (K.may_leave (disk_of self.old))
            → IsPossible (K.content (disk_of self.new)) (K.may_leave (disk_of self.new)) }
        ensures ok { OnOk result (is_open_of self.new ≡ true) }
        ensures fault { IsErrOf result AppendError.Fault
            → Rose (K.fault_count (disk_of self.old)) (K.fault_count (disk_of self.new)) × (is_open_of self.new ≡ false) }
        ensures no_memory { IsErrOf result AppendError.NoMemory → self.new ≡ self.old }
        ensures later { K.fault_count (disk_of self.old) ≤ K.fault_count (disk_of self.new) }
    {
        if kept.is_empty() {
            return Ok(());
        }
        let Ok(pieces) = pieces_of(self.alloc, kept) else {
            return Err(AppendError::NoMemory);
        };
        self.put(&pieces[1..])
    }

    // Adds records, given but for the first one's gate and with a closed gate behind them.
    fn put(&mut self, piece: &[u8]) -> Result<(), AppendError>
        requires { is_open_of self.old ≡ true }
        ensures stored { (bodies more : List (List ℕ)) → 1 ∷ piece.now ≡ log_file more → StandsFor K.content K.may_leave self.old bodies
            → OnOk result (StandsFor K.content K.may_leave self.new (bodies ++ more)) }
        ensures content { (bodies more : List (List ℕ)) → 1 ∷ piece.now ≡ log_file more → StandsFor K.content K.may_leave self.old bodies
            → OnOk result (K.content (disk_of self.new) ≡ Some (log_file (bodies ++ more))) }
        ensures any_moment { (bodies more : List (List ℕ)) → 1 ∷ piece.now ≡ log_file more → StandsFor K.content K.may_leave self.old bodies
            → LeavesOnly K.moment K.left_since (disk_of self.old) (disk_of self.new) (HasLogOrMore bodies more) }
        ensures possible { IsPossible (K.content (disk_of self.old)) (K.may_leave (disk_of self.old))
            → IsPossible (K.content (disk_of self.new)) (K.may_leave (disk_of self.new)) }
        ensures ok { OnOk result (is_open_of self.new ≡ true) }
        ensures fault { IsErrOf result AppendError.Fault
            → Rose (K.fault_count (disk_of self.old)) (K.fault_count (disk_of self.new)) × (is_open_of self.new ≡ false) }
        ensures no_memory { IsErrOf result AppendError.NoMemory → self.new ≡ self.old }
        ensures later { K.fault_count (disk_of self.old) ≤ K.fault_count (disk_of self.new) }
    {
        let len = piece.len() as u64;
        if self.end >= GREATEST_END || len >= GREATEST_END - self.end {
            return Err(AppendError::NoMemory);
        }
        let Ok(end) = add(&mut self.disk, self.end, piece) else {
            self.is_open = false;
            return Err(AppendError::Fault);
        };
        self.end = end;
        Ok(())
    }

    /// Whether it may be appended to: until an append answers Fault.
    pub fn is_open(&self) -> bool
        ensures { result ≡ is_open_of self.now }
    {
        self.is_open
    }

    /// How often its disk has failed.
    pub fn faults(&self) -> u64
        ensures { result ≡ K.fault_count (disk_of self.now) }
    {
        self.disk.faults()
    }

    /// Its disk.
    pub fn end(self) -> K
        ensures { result ≡ disk_of self }
    {
        self.disk
    }
}
