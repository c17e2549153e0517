// The archive of a site is taken up from its journal.
ghost use Rattle.std.specs.Prelude.{◌≡◌, ◌≤◌, ◌⊎◌, [], List, ℕ, IfErr, IfOk, IsErr, None, Some, false};
ghost use Rattle.outside.specs.Causes.{Rose};
ghost use Rattle.cta_model.specs.Legal.{greatest_moment};
ghost use Rattle.cta_model.specs.Mounts.{open_mounts};
ghost use Rattle.cta_journal.specs.Damage.{IsDamaged};
ghost use Rattle.cta_journal.specs.Standing.{disk_of};
ghost use Rattle.cta_records.specs.declared.kept.Kept.{Kept};
ghost use Rattle.cta_records.specs.Records.{KeptFits, body_of};
ghost use Rattle.archive_opening.specs.Seen.{source_view};
ghost use Rattle.archive_opening.specs.SiteFile.{ReadsSite};
ghost use Rattle.archive_opening.specs.declared.status.Status.TheVariants as status;
ghost use Rattle.durable_opening.specs.Closing.{AreUntoldMedia, TellNoRecords};
ghost use Rattle.durable_opening.specs.Opened.{EndsOpening, EndsTakingUp, IsTakenUp, status_by};

use crate::closing::close_mounts;
use archive_opening::{Status, media_of, read_valid_site};
use cta_journal::Disk;
use cta_model::Told;
use cta_site::ValidSite;
use durable_archive::{CloseCause, Logged, ReopenError, reopen};
use media::{Bench, TapeDrive};
use outside::{Clock, Source};
use std::alloc::Global;
use std::hash::RandomState;

// The status of a journal that isn't taken up.
fn status_of(error: ReopenError) -> Status
    ensures { result ≡ status_by error }
{
    match error {
        ReopenError::Fault => Status::JournalFault,
        ReopenError::Damaged { offset } => Status::JournalDamaged { offset },
        ReopenError::Differs { entry } => Status::JournalDiffers { entry },
        ReopenError::NoMemory => Status::NoMemory,
    }
}

// Why mounts could not be closed, and the disk.
fn unclosed<M: Told + Drop, K: Disk>(logged: Logged<M, K>) -> (Status, K)
    ensures { (result.0 ≡ status.NoMemory) ⊎ ((result.0 ≡ status.JournalFault) × Rose (K.fault_count (disk_of logged.first)) (K.fault_count result.1)) }
{
    let status = match logged.closed() {
        Some(CloseCause::Disk { .. }) => Status::JournalFault,
        Some(CloseCause::Memory) => Status::NoMemory,
        None => Status::NoMemory,
    };
    (status, logged.end())
}

// The archive that the journal on a disk tells, with each mount closed that was open there.
fn taken_up<M: Told + Drop, K: Disk>(
    alloc: Global,
    site: ValidSite,
    disk: K,
    media: Vec<M>,
    at: u64,
    keys: RandomState,
) -> Result<Logged<M, K>, (Status, K)>
    requires within { at ≤ greatest_moment }
    requires media { AreUntoldMedia M.told site media.items }
    ensures site { IfOk result (λ l. l.archive.site ≡ site) }
    ensures rest { IfOk result (λ l. (l.closed ≡ None) × (open_mounts l.archive.history ≡ [])) }
    ensures log { (file : List ℕ) → K.content disk ≡ Some file → IfOk result (IsTakenUp K.content K.may_leave file) }
    ensures later { IfOk result (λ l. K.fault_count disk ≤ K.fault_count (disk_of l.first)) }
    ensures whole { (file : List ℕ) (offset : ℕ) → K.content disk ≡ Some file → IsDamaged body_of KeptFits file offset → IsErr result }
    ensures cause { IfErr result (λ e. EndsTakingUp e.0 site (K.content disk) (K.fault_count disk) (K.fault_count e.1)) }
{
    match reopen(alloc, site, disk, media, keys) {
        Ok((mut logged, mounts)) => {
            if close_mounts(alloc, &mut logged, at, mounts) {
                Ok(logged)
            } else {
                Err(unclosed(logged))
            }
        }
        Err((error, disk)) => Err((status_of(error), disk)),
    }
}

// The same with the media that a bench makes.
fn taken_up_on<K: Disk, D: TapeDrive, B: Bench<D>>(
    alloc: Global,
    site: ValidSite,
    disk: K,
    bench: &mut B,
    at: u64,
    keys: RandomState,
) -> Result<Logged<D::Medium, K>, (Status, K)>
    requires within { at ≤ greatest_moment }
    requires untold { TellNoRecords D.Medium.told }
    ensures site { IfOk result (λ l. l.archive.site ≡ site) }
    ensures rest { IfOk result (λ l. (l.closed ≡ None) × (open_mounts l.archive.history ≡ [])) }
    ensures log { (file : List ℕ) → K.content disk ≡ Some file → IfOk result (IsTakenUp K.content K.may_leave file) }
    ensures later { IfOk result (λ l. K.fault_count disk ≤ K.fault_count (disk_of l.first)) }
    ensures whole { (file : List ℕ) (offset : ℕ) → K.content disk ≡ Some file → IsDamaged body_of KeptFits file offset → IsErr result }
    ensures cause { IfErr result (λ e. EndsTakingUp e.0 site (K.content disk) (K.fault_count disk) (K.fault_count e.1)) }
    ensures tells { B.tells bench.new ≡ B.tells bench.old }
{
    match media_of(alloc, &site, bench) {
        Ok(media) => taken_up(alloc, site, disk, media, at, keys),
        Err(_) => {
            drop(site);
            Err((Status::NoMemory, disk))
        }
    }
}

/// The archive of a site, taken up from the journal on a disk, with each mount closed that was open when the last run ended: so each job that
/// it had claimed stands in its queue again, and each tape lies on the shelf. The site file is read as `read_valid_site` reads it; media come
/// from a bench, whose media tell no records; the mounts are closed at the moment that the clock tells; paths are hashed with `keys`.
///
/// Where the disk tells its content, the history is the one that the log of the file tells, none of whose records is wrong, with the entries
/// that close mounts. An error gives the disk back:
/// - `Site` and `ReadFault`, as of `read_valid_site`; no call of the disk was made.
/// - `JournalFault`: the disk's count of failures rose in this call.
/// - `JournalDamaged`: the file can't be read from the open gate at this offset on.
/// - `JournalDiffers`: the record of this number, from 1, is the first that is wrong.
/// - `NoMemory`: memory was wanted.
///
/// No other status is answered. Its cost is that of `read_valid_site`, of `reopen` and of `close_mounts`. This project's own.
pub fn open_durable<A: Source, K: Disk, D: TapeDrive, B: Bench<D>, C: Clock>(
    alloc: Global,
    site: &mut A,
    disk: K,
    bench: &mut B,
    clock: &mut C,
    keys: RandomState,
) -> Result<Logged<D::Medium, K>, (Status, K)>
    requires { TellNoRecords D.Medium.told }
    ensures site { IfOk result (λ l. ReadsSite (source_view (A.left site.old) (A.faults site.old)) (source_view (A.left site.new) (A.faults site.new)) l.archive.site) }
    ensures rest { IfOk result (λ l. (l.closed ≡ None) × (open_mounts l.archive.history ≡ [])) }
    ensures log { (file : List ℕ) → K.content disk ≡ Some file → IfOk result (IsTakenUp K.content K.may_leave file) }
    ensures later { IfOk result (λ l. K.fault_count disk ≤ K.fault_count (disk_of l.first)) }
    ensures whole { (file : List ℕ) (offset : ℕ) → K.content disk ≡ Some file → IsDamaged body_of KeptFits file offset → IsErr result }
    ensures cause { IfErr result (λ e. EndsOpening e.0 (source_view (A.left site.old) (A.faults site.old)) (source_view (A.left site.new) (A.faults site.new)) (K.content disk) (K.fault_count disk) (K.fault_count e.1)) }
    ensures tells { B.tells bench.new ≡ B.tells bench.old }
{
    match read_valid_site(alloc, site) {
        Ok(valid) => {
            let at = clock.now();
            taken_up_on(alloc, valid, disk, bench, at, keys)
        }
        Err(status) => Err((status, disk)),
    }
}
