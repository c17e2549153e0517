// The opening of a disk that a crash may have left.
ghost use Rattle.std.specs.Prelude.{◌≡◌, ◌⊎◌, ◌≤◌, ◌<◌, ◌^◌, List, ℕ, All, true, None, Some, length, map, IfOk, IfErr, IsErr, IsErrOf};
ghost use Rattle.outside.specs.Causes.{Rose};
ghost use Rattle.cta_journal.specs.Disk.{IsPossible, LeavesOnly, Only};
ghost use Rattle.cta_journal.specs.Log.{HasLog, KeepsLog};
ghost use Rattle.cta_journal.specs.Damage.{IsDamaged};
ghost use Rattle.cta_journal.specs.Standing.{Stands, StandsFor, disk_of, is_open_of, opened};

use crate::disk::Disk;
use crate::journal::Journal;
use crate::reading::{LogFault, ReadFault, read_all, read_log};
use crate::record::Record;
use crate::steps::{shorten, store};
use std::alloc::Global;

/// Why a journal could not be opened.
#[derive(Clone, Copy, Debug, PartialEq, Eq)]
pub enum OpenError {
    /// The disk failed.
    Fault,
    /// The file can't be read from the open gate at this offset on: no record begins there, or a whole one that no byte follows,
    /// or 4,194,304 records came before.
    Damaged { offset: u64 },
    /// There was no memory.
    NoMemory,
}

// Syncs, and reads all the bytes.
fn read_synced<K: Disk>(alloc: Global, disk: &mut K) -> Result<Vec<u8>, ReadFault>
    ensures bytes { (file : List ℕ) → K.content disk.old ≡ Some file → IfOk result (λ v. (v.items ≡ file) × Only file (K.may_leave disk.new)) }
    ensures content { K.content disk.new ≡ K.content disk.old }
    ensures any_moment { LeavesOnly K.moment K.left_since disk.old disk.new (K.may_leave disk.old) }
    ensures possible { IsPossible (K.content disk.old) (K.may_leave disk.old) → IsPossible (K.content disk.new) (K.may_leave disk.new) }
    ensures later { K.fault_count disk.old ≤ K.fault_count disk.new }
    ensures fault { IsErrOf result ReadFault.Fault → Rose (K.fault_count disk.old) (K.fault_count disk.new) }
{
    let Ok(()) = disk.sync() else {
        return Err(ReadFault::Fault);
    };
    read_all(alloc, disk)
}

// Makes the content that was read the records in it and one closed gate. It answers where that gate stands.
fn settle<K: Disk, R: Record>(
    alloc: Global,
    disk: &mut K,
    bytes: &[u8],
) -> Result<(Vec<R>, u64), OpenError>
    ensures found { K.content disk.old ≡ Some bytes.now
        → IfOk result (λ r. HasLog bytes.now (map R.body r.0.items) × Stands K.content K.may_leave disk.new r.1 (map R.body r.0.items)) }
    ensures content { K.content disk.old ≡ Some bytes.now
        → IfOk result (λ r. K.content disk.new ≡ Some (opened bytes.now (map R.body r.0.items))) }
    ensures any_moment { K.content disk.old ≡ Some bytes.now → Only bytes.now (K.may_leave disk.old)
        → LeavesOnly K.moment K.left_since disk.old disk.new (KeepsLog bytes.now) }
    ensures untold { K.content disk.old ≡ None → K.content disk.new ≡ None }
    ensures fits { IfOk result (λ r. All R.fits r.0.items) }
    ensures possible { IsPossible (K.content disk.old) (K.may_leave disk.old) → IsPossible (K.content disk.new) (K.may_leave disk.new) }
    ensures later { K.fault_count disk.old ≤ K.fault_count disk.new }
    ensures fault { IsErrOf result OpenError.Fault → Rose (K.fault_count disk.old) (K.fault_count disk.new) }
    ensures damaged { (offset : ℕ) → IsErrOf result (OpenError.Damaged offset) → IsDamaged R.body R.fits bytes.now offset }
    ensures whole { (offset : ℕ) → IsDamaged R.body R.fits bytes.now offset → IsErr result }
{
    if bytes.len() <= 1 {
        let Ok(()) = store(disk, 0, &[0]) else {
            return Err(OpenError::Fault);
        };
        return Ok((Vec::new(alloc), 0));
    }
    let (found, end) = match read_log(alloc, bytes) {
        Ok(log) => log,
        Err(LogFault::Damaged { offset }) => return Err(OpenError::Damaged { offset }),
        Err(LogFault::NoMemory) => return Err(OpenError::NoMemory),
    };
    have_length(bytes);
    let end = end as u64;
    let Ok(()) = shorten(disk, end + 1) else {
        return Err(OpenError::Fault);
    };
    Ok((found, end))
}

// The length of a slice is below 2^64.
fn have_length(bytes: &[u8])
    ensures { length bytes.now < 2 ^ 64 }
{
    let _len = bytes.len();
}

fn open_error(fault: ReadFault) -> OpenError
    ensures fault { result ≡ OpenError.Fault → fault ≡ ReadFault.Fault }
    ensures damaged { (offset : ℕ) → result ≡ OpenError.Damaged offset → ⊥ }
{
    match fault {
        ReadFault::Fault => OpenError::Fault,
        ReadFault::NoMemory => OpenError::NoMemory,
    }
}

// Reads the log and makes the disk end with a closed gate.
fn prepare<K: Disk, R: Record>(alloc: Global, disk: &mut K) -> Result<(Vec<R>, u64), OpenError>
    ensures found { (file : List ℕ) → K.content disk.old ≡ Some file
        → IfOk result (λ r. HasLog file (map R.body r.0.items) × Stands K.content K.may_leave disk.new r.1 (map R.body r.0.items)) }
    ensures content { (file : List ℕ) → K.content disk.old ≡ Some file
        → IfOk result (λ r. K.content disk.new ≡ Some (opened file (map R.body r.0.items))) }
    ensures any_moment { (file : List ℕ) → K.content disk.old ≡ Some file
        → LeavesOnly K.moment K.left_since disk.old disk.new (λ c. K.may_leave disk.old c ⊎ KeepsLog file c) }
    ensures untold { K.content disk.old ≡ None → K.content disk.new ≡ None }
    ensures fits { IfOk result (λ r. All R.fits r.0.items) }
    ensures possible { IsPossible (K.content disk.old) (K.may_leave disk.old) → IsPossible (K.content disk.new) (K.may_leave disk.new) }
    ensures later { K.fault_count disk.old ≤ K.fault_count disk.new }
    ensures fault { IsErrOf result OpenError.Fault → Rose (K.fault_count disk.old) (K.fault_count disk.new) }
    ensures damaged { (file : List ℕ) (offset : ℕ) → K.content disk.old ≡ Some file
        → IsErrOf result (OpenError.Damaged offset) → IsDamaged R.body R.fits file offset }
    ensures whole { (file : List ℕ) (offset : ℕ) → K.content disk.old ≡ Some file → IsDamaged R.body R.fits file offset → IsErr result }
{
    let bytes = match read_synced(alloc, disk) {
        Ok(bytes) => bytes,
        Err(fault) => return Err(open_error(fault)),
    };
    settle(alloc, disk, &bytes)
}

impl<K: Disk> Journal<K> {
    /// Opens a disk that a crash may have left, and gives its records. The opening may crash too, at any moment. It takes memory
    /// for the whole file and for the records. An `Err` gives the disk back; after NoMemory and Damaged it holds what it held.
    pub fn open<R: Record>(alloc: Global, disk: K) -> Result<(Journal<K>, Vec<R>), (OpenError, K)>
        // What is read is the log of the disk, and the journal stands for it.
        ensures found { (file : List ℕ) → K.content disk ≡ Some file
            → IfOk result (λ r. HasLog file (map R.body r.1.items) × StandsFor K.content K.may_leave r.0 (map R.body r.1.items)) }
        ensures content { (file : List ℕ) → K.content disk ≡ Some file
            → IfOk result (λ r. K.content (disk_of r.0) ≡ Some (opened file (map R.body r.1.items))) }
        ensures untold { K.content disk ≡ None → IfOk result (λ r. K.content (disk_of r.0) ≡ None) }
        ensures fits { IfOk result (λ r. All R.fits r.1.items) }
        ensures open { IfOk result (λ r. is_open_of r.0 ≡ true) }

        // A crash at any moment of the call leaves what a crash before it could leave, or a content with the same log.
        ensures any_moment { (file : List ℕ) → K.content disk ≡ Some file
            → IfOk result (λ r. LeavesOnly K.moment K.left_since disk (disk_of r.0) (λ c. K.may_leave disk c ⊎ KeepsLog file c)) }
        ensures any_moment_err { (file : List ℕ) → K.content disk ≡ Some file
            → IfErr result (λ e. LeavesOnly K.moment K.left_since disk e.1 (λ c. K.may_leave disk c ⊎ KeepsLog file c)) }
        ensures possible { IsPossible (K.content disk) (K.may_leave disk)
            → IfOk result (λ r. IsPossible (K.content (disk_of r.0)) (K.may_leave (disk_of r.0))) }
        ensures possible_err { IsPossible (K.content disk) (K.may_leave disk) → IfErr result (λ e. IsPossible (K.content e.1) (K.may_leave e.1)) }

        ensures fault { IfErr result (λ e. e.0 ≡ OpenError.Fault → Rose (K.fault_count disk) (K.fault_count e.1)) }
        ensures later { IfOk result (λ r. K.fault_count disk ≤ K.fault_count (disk_of r.0)) }
        ensures later_err { IfErr result (λ e. K.fault_count disk ≤ K.fault_count e.1) }

        // Damaged is answered only of a file that is, and such a file is never opened.
        ensures damaged { (file : List ℕ) (offset : ℕ) → K.content disk ≡ Some file
            → IfErr result (λ e. e.0 ≡ OpenError.Damaged offset → IsDamaged R.body R.fits file offset) }
        ensures whole { (file : List ℕ) (offset : ℕ) → K.content disk ≡ Some file → IsDamaged R.body R.fits file offset → IsErr result }
    {
        let mut disk = disk;
        match prepare::<K, R>(alloc, &mut disk) {
            Ok((found, end)) => {
                let journal = Journal {
                    alloc,
                    disk,
                    end,
                    is_open: true,
                };
                Ok((journal, found))
            }
            Err(error) => Err((error, disk)),
        }
    }
}
