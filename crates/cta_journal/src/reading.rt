// The whole content of a disk, and the records in it.
ghost use Rattle.std.specs.Prelude.{◌≡◌, ◌⊎◌, ◌≤◌, ◌<◌, ◌^◌, ◌+◌, ◌++◌, ◌∷◌, [], List, ℕ, Bool, true, false, Some, length, map, take, All, IfOk, OnOk, OnErr, IsErrOf, IfSome, IfNone};
ghost use Rattle.outside.specs.Causes.{Rose};
ghost use Rattle.cta_journal.specs.Disk.{IsPossible, LeavesOnly, Elapses};
ghost use Rattle.cta_journal.specs.Log.{counted, records, EndsShut};
ghost use Rattle.cta_journal.specs.Records.{NoneBegins};
ghost use Rattle.cta_journal.specs.Damage.{IsDamaged, most_records};

use crate::disk::Disk;
use crate::record::{Record, RecordRead};
use std::alloc::Global;

/// Why a disk could not be read.
#[derive(Clone, Copy, Debug, PartialEq, Eq)]
pub(crate) enum ReadFault {
    Fault,
    NoMemory,
}

// The most bytes that are read at a time.
const PIECE: usize = 65536;

// Appends the next bytes of the disk to those that were read. It answers whether there were any.
fn read_piece<K: Disk>(disk: &mut K, bytes: &mut Vec<u8>) -> Result<bool, ReadFault>
    ensures more { (file : List ℕ) → K.content disk.old ≡ Some file → bytes.old.items ≡ take (length bytes.old.items) file → length bytes.old.items ≤ length file
        → IfOk result (λ more. (bytes.new.items ≡ take (length bytes.new.items) file) × (length bytes.new.items ≤ length file) × (more ≡ false → bytes.new.items ≡ file)) }
    ensures content { K.content disk.new ≡ K.content disk.old }
    ensures crash { (c : List ℕ) → K.may_leave disk.new c → K.may_leave disk.old c }
    ensures time { Elapses (K.moment disk.old) (K.moment disk.new) (K.left_since disk.old) (K.left_since disk.new) (K.may_leave disk.new) }
    ensures possible { IsPossible (K.content disk.old) (K.may_leave disk.old) → IsPossible (K.content disk.new) (K.may_leave disk.new) }
    ensures later { K.fault_count disk.old ≤ K.fault_count disk.new }
    ensures fault { IsErrOf result ReadFault.Fault → Rose (K.fault_count disk.old) (K.fault_count disk.new) }
{
    let mut place = [0u8; PIECE];
    let Ok(count) = disk.read(bytes.len() as u64, &mut place) else {
        return Err(ReadFault::Fault);
    };
    if bytes.extend_from_slice(&place[..count]).is_err() {
        return Err(ReadFault::NoMemory);
    }
    Ok(count > 0)
}

// All the bytes of the disk.
pub(crate) fn read_all<K: Disk>(alloc: Global, disk: &mut K) -> Result<Vec<u8>, ReadFault>
    ensures bytes { (file : List ℕ) → K.content disk.old ≡ Some file → IfOk result (λ v. v.items ≡ file) }
    ensures content { K.content disk.new ≡ K.content disk.old }
    ensures crash { (c : List ℕ) → K.may_leave disk.new c → K.may_leave disk.old c }
    ensures any_moment { LeavesOnly K.moment K.left_since disk.old disk.new (K.may_leave disk.old) }
    ensures possible { IsPossible (K.content disk.old) (K.may_leave disk.old) → IsPossible (K.content disk.new) (K.may_leave disk.new) }
    ensures later { K.fault_count disk.old ≤ K.fault_count disk.new }
    ensures fault { IsErrOf result ReadFault.Fault → Rose (K.fault_count disk.old) (K.fault_count disk.new) }
{
    let mut bytes = Vec::new(alloc);
    for _ in 0..u64::MAX {
        if !read_piece(disk, &mut bytes)? {
            return Ok(bytes);
        }
    }
    Err(ReadFault::NoMemory)
}

/// Why the bytes of a file gave no log.
#[derive(Clone, Copy, Debug, PartialEq, Eq)]
pub(crate) enum LogFault {
    Damaged { offset: u64 },
    NoMemory,
}

// The most records that a log may have.
const MOST_RECORDS: usize = 4194304;

/// Why no record was found at an open gate.
#[derive(Clone, Copy, Debug, PartialEq, Eq)]
enum NextFault {
    /// None begins there, or no byte stands behind it.
    Nothing,
    NoMemory,
}

// The record at an open gate, and what stands behind it.
fn next_record<R: Record>(alloc: Global, after: &[u8]) -> Result<(R, &[u8]), NextFault>
    ensures found { IfOk result (λ r. R.fits r.0 × (after.now ≡ counted (R.body r.0) ++ r.1.now) × (0 < length r.1.now)) }
    ensures nothing { IsErrOf result NextFault.Nothing → NoneBegins R.body R.fits after.now ⊎ ((last : R) × R.fits last × (after.now ≡ counted (R.body last))) }
{
    let Ok(read) = R::read_record(alloc, after) else {
        return Err(NextFault::NoMemory);
    };
    match read {
        RecordRead::Record { kept, len } => {
            let rest = &after[len as usize..];
            if rest.is_empty() {
                return Err(NextFault::Nothing);
            }
            Ok((kept, rest))
        }
        _ => Err(NextFault::Nothing),
    }
}

// The records of a file of at least two bytes, and how many bytes they take.
pub(crate) fn read_log<R: Record>(alloc: Global, bytes: &[u8]) -> Result<(Vec<R>, usize), LogFault>
    requires { 2 ≤ length bytes.now }
    ensures shut { IfOk result (λ r. EndsShut (map R.body r.0.items) bytes.now) }
    ensures end { IfOk result (λ r. r.1 ≡ length (records (map R.body r.0.items))) }
    ensures known { IfOk result (λ r. All R.fits r.0.items × (length r.0.items ≤ most_records)) }
    ensures damaged { (offset : ℕ) → IsErrOf result (LogFault.Damaged offset) → IsDamaged R.body R.fits bytes.now offset }
{
    let mut found = Vec::new(alloc);
    let mut rest = bytes;
    while let [1, after @ ..] = rest {
        if found.len() == MOST_RECORDS {
            return Err(LogFault::Damaged {
                offset: (bytes.len() - rest.len()) as u64,
            });
        }
        let (kept, behind) = match next_record::<R>(alloc, after) {
            Ok(next) => next,
            Err(NextFault::Nothing) => {
                return Err(LogFault::Damaged {
                    offset: (bytes.len() - rest.len()) as u64,
                });
            }
            Err(NextFault::NoMemory) => return Err(LogFault::NoMemory),
        };
        let Ok(()) = found.push(kept) else {
            return Err(LogFault::NoMemory);
        };
        rest = behind;
    }
    Ok((found, bytes.len() - rest.len()))
}
