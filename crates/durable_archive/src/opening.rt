// An archive is taken up again from the disk of its journal.
ghost use Rattle.std.specs.Prelude.{◌≡◌, ◌<◌, ◌≤◌, ◌^◌, [], List, ℕ, IfErr, IfOk, IsErr, Some, None, length, map};
ghost use Rattle.outside.specs.Causes.{Rose};
ghost use Rattle.cta_journal.specs.Damage.{IsDamaged};
ghost use Rattle.cta_journal.specs.Log.{HasLog};
ghost use Rattle.cta_journal.specs.Standing.{StandsFor, disk_of};
ghost use Rattle.cta_model.specs.History.{History};
ghost use Rattle.cta_records.specs.declared.kept.Kept.{Kept};
ghost use Rattle.cta_records.specs.Records.{KeptFits, body_of};
ghost use Rattle.archive_restore.specs.Logs.{IsRightLog, history_of_log};
ghost use Rattle.archive_restore.specs.Restored.{AreMediaFor};
ghost use Rattle.archive_state.specs.Shared.{AreShared};
ghost use Rattle.durable_archive.specs.declared.opening.ReopenError.TheVariants as error;
ghost use Rattle.durable_archive.specs.Opened.{IsExcused, IsRefusedFor, of_open, of_restore};
ghost use Rattle.durable_archive.specs.Records.{KeepsHistory};

use crate::logged::Logged;
use archive_restore::{RestoreError, log_is_wrong_once, restore};
use cta_journal::{Disk, Journal, OpenError};
use cta_model::Told;
use cta_records::{Kept, records_tell_apart};
use cta_site::ValidSite;
use std::alloc::Global;
use std::hash::RandomState;

/// Why no archive was taken up.
#[derive(Clone, Copy, Debug, PartialEq, Eq)]
pub enum ReopenError {
    /// The disk failed.
    Fault,
    /// The file can't be read from the open gate at this offset on.
    Damaged { offset: u64 },
    /// The record of this number, from 1, is the first that is wrong.
    Differs { entry: u32 },
    /// Out of memory.
    NoMemory,
}

fn open_error(error: OpenError) -> ReopenError
    ensures { result ≡ of_open error }
{
    match error {
        OpenError::Fault => ReopenError::Fault,
        OpenError::Damaged { offset } => ReopenError::Damaged { offset },
        OpenError::NoMemory => ReopenError::NoMemory,
    }
}

fn restore_error(error: RestoreError) -> ReopenError
    ensures { result ≡ of_restore error }
{
    match error {
        RestoreError::Differs { entry } => ReopenError::Differs { entry },
        RestoreError::NoMemory => ReopenError::NoMemory,
    }
}

/// The archive whose history the journal on a disk tells, with its journal, and each mount that is open there, in order of their numbers,
/// with its medium. There is one medium for each tape of the site, in order of their numbers, each true for the log where it tells its
/// records; paths are hashed with these keys.
///
/// Where a crash has left the records of a history, that history comes back, unless the disk fails or memory runs out. An error gives the
/// disk back, and lets the site and the media go: `Fault` comes only where the disk's count of failures rose, `Damaged` exactly where the file
/// can't be read from that offset on, but that another error may come first, `Differs` only where the record of that number is the first that is wrong. Its cost is that of
/// `Journal::open` and `restore`.
pub fn reopen<M: Told + Drop, K: Disk>(
    alloc: Global,
    site: ValidSite,
    disk: K,
    media: Vec<M>,
    keys: RandomState,
) -> Result<(Logged<M, K>, Vec<(u32, M)>), (ReopenError, K)>
    requires { (log : List Kept) → AreMediaFor M.told site log media.items }
    ensures ok { IfOk result (λ r. (r.0.archive.site ≡ site) × (r.0.closed ≡ None) × AreShared M.told r.0.archive.history media.items r.0.archive.shelf r.1.items) }
    ensures back { (file : List ℕ) (h : History) → K.content disk ≡ Some file → KeepsHistory site [] h file → length file < 2 ^ 64 → IfOk result (λ r. r.0.archive.history ≡ h) × IfErr result (λ e. IsExcused e.0) }
    ensures begun { (file : List ℕ) → K.content disk ≡ Some file → IfOk result (λ r. (log : List Kept) × HasLog file (map body_of log) × IsRightLog site log × (r.0.archive.history ≡ history_of_log log) × StandsFor K.content K.may_leave r.0.first (map body_of log)) }
    ensures wrong { (file : List ℕ) → K.content disk ≡ Some file → IfErr result (λ e. IsRefusedFor site file e.0) }
    ensures whole { (file : List ℕ) (offset : ℕ) → K.content disk ≡ Some file → IsDamaged body_of KeptFits file offset → IsErr result }
    ensures later { IfOk result (λ r. K.fault_count disk ≤ K.fault_count (disk_of r.0.first)) }
    ensures fault { IfErr result (λ e. e.0 ≡ error.Fault → Rose (K.fault_count disk) (K.fault_count e.1)) }
{
    site.keeps_rules();
    records_tell_apart();
    log_is_wrong_once();
    let (journal, log) = match Journal::open::<Kept>(alloc, disk) {
        Ok(opened) => opened,
        Err((error, disk)) => {
            drop(site);
            drop(media);
            return Err((open_error(error), disk));
        }
    };
    match restore(alloc, site, log, media, keys) {
        Ok((archive, mounts)) => Ok((Logged::new(alloc, archive, journal), mounts)),
        Err(error) => Err((restore_error(error), journal.end())),
    }
}
