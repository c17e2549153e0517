// The run of `cta durable`.
ghost use Rattle.std.specs.Prelude.{◌≡◌, ◌≤◌, List, ℕ, IfSome, IsErr, Some, map, string_bytes};
ghost use Rattle.archive_opening.specs.Seen.{source_view};
ghost use Rattle.archive_opening.specs.SiteFile.{ReadsSite};
ghost use Rattle.archive_opening.specs.declared.status.Status.TheVariants as status;
ghost use Rattle.cta_journal.specs.Damage.{IsDamaged};
ghost use Rattle.cta_journal.specs.Standing.{StandsFor, disk_of};
ghost use Rattle.cta_records.specs.Records.{KeptFits, body_of};
ghost use Rattle.durable_opening.specs.Closing.{TellNoRecords};
ghost use Rattle.durable_site.specs.Ending.{EndsServing, KeepsSome};
ghost use Rattle.durable_site.specs.Top.{BeginsWithLog, Ends};

use crate::serving::serve_logged;
use archive_opening::{Status, drives_of};
use cta_journal::Disk;
use cta_model::Told;
use cta_words::{WordsError, read_durable};
use durable_archive::Logged;
use durable_opening::open_durable;
use durable_server::Alarm;
use media::{Bench, TapeDrive};
use outside::{Clock, Gate, Link, Listener, Source};
use std::alloc::Global;
use std::hash::RandomState;
use std::sync::Wait;
use std::thread::Threads;

// Serves an archive with its journal, over drives that a bench makes.
fn serve_opened<
    R: Threads + Wait + Sync,
    M: Told + Send + Drop,
    D: TapeDrive<Medium = M> + Send + Drop,
    B: Bench<D>,
    J: Disk + Send + Drop,
    K: Link + Send + Drop,
    L: Listener<L = K> + Send,
    C: Clock + Copy + Send + Sync + Drop,
    G: Gate + Sync,
    N: Alarm + Sync,
>(
    rt: &R,
    alloc: Global,
    logged: Logged<M, J>,
    workers: u32,
    listener: &mut L,
    bench: &mut B,
    clock: C,
    gate: &G,
    alarm: &N,
) -> (Status, Option<J>)
    requires { workers ≤ 64 }
    ensures cause { EndsServing J.fault_count result.0 result.1 (J.fault_count (disk_of logged.first)) (L.faults listener.old) (L.faults listener.new) (L.ended listener.new) }
    ensures log { (begun : List (List ℕ)) → result.0 ≡ status.Ok → StandsFor J.content J.may_leave logged.first begun → IfSome result.1 (λ k. KeepsSome J.content logged.archive.site begun k) }
{
    let Ok(site) = logged.archive().site().copy(alloc) else {
        return (Status::NoMemory, Some(logged.end()));
    };
    match drives_of(alloc, &site, bench) {
        Ok(drives) => serve_logged(
            rt, alloc, logged, &site, drives, workers, listener, clock, gate, alarm,
        ),
        Err(_) => (Status::NoMemory, Some(logged.end())),
    }
}

/// Serves a site whose history is kept in a journal: `words` are those of the command line behind the program's name,
/// `durable SITE ADDR MEDIA WORKERS JOURNAL`; the site file comes from `site_bytes`, links from `listener`, the journal lies on `disk`, drives
/// and media come from `bench`, moments from `clock`, and `gate` tells each worker whether it goes on. Paths are hashed with `keys`.
///
/// The archive is taken up from the journal as `open_durable` does it, and then served as `serve_top` serves one, but that each entry is in the
/// journal before its call is answered. Once an append has failed, no request is answered any more: each link is let go without a reply, and
/// `alarm` is told. It is for the alarm to see to it that the listener ends and the gate tells workers to stop.
///
/// The statuses are looked at in the order in which the work meets them: words, site file, journal, listener. At the end a closed journal comes
/// first.
/// - `Ok`: the listener has ended, all was served, and the journal was open to the end. Where the disk told its content at first, it now has the
///   records of a legal history of the site, which begin with the log that it had.
/// - `Usage`: the words are of another form. Nothing was touched.
/// - `Site`, `ReadFault`: as of `read_valid_site`. No call of the disk was made.
/// - `JournalFault`: the count of failures of the disk that is given back rose in this call.
/// - `JournalDamaged`, `JournalDiffers`: as of `open_durable`.
/// - `ListenFault`: the listener's count of faults rose in this call.
/// - `NoMemory`: memory ran out for the site, the archive, the drives, the threads or an append, which closed the journal.
///
/// No other status comes. The disk is given back but where memory ran out, where it may be lost. It waits for links, at the gate and for turns at
/// the archive; its return is not promised. Its cost is that of `open_durable` and of each request and step.
pub fn durable_top<
    R: Threads + Wait + Sync,
    A: Source,
    K: Link + Send + Drop,
    L: Listener<L = K> + Send,
    J: Disk + Send + Drop,
    M: Told + Send + Drop,
    D: TapeDrive<Medium = M> + Send + Drop,
    B: Bench<D>,
    C: Clock + Copy + Send + Sync + Drop,
    G: Gate + Sync,
    N: Alarm + Sync,
>(
    rt: &R,
    alloc: Global,
    words: &[String],
    site_bytes: &mut A,
    listener: &mut L,
    disk: J,
    bench: &mut B,
    clock: C,
    gate: &G,
    alarm: &N,
    keys: RandomState,
) -> (Status, Option<J>)
    requires { TellNoRecords M.told }
    ensures cause { Ends J.fault_count result.0 result.1 (map string_bytes words.now) (source_view (A.left site_bytes.old) (A.faults site_bytes.old)) (source_view (A.left site_bytes.new) (A.faults site_bytes.new))
        (J.content disk) (J.fault_count disk) (L.faults listener.old) (L.faults listener.new) (L.ended listener.new) }
    ensures damaged { (file : List ℕ) (offset : ℕ) → J.content disk ≡ Some file → IsDamaged body_of KeptFits file offset → result.0 ≡ status.Ok → ⊥ }
    ensures log { (file : List ℕ) → J.content disk ≡ Some file → result.0 ≡ status.Ok
        → IfSome result.1 (BeginsWithLog J.content (source_view (A.left site_bytes.old) (A.faults site_bytes.old)) (source_view (A.left site_bytes.new) (A.faults site_bytes.new)) file) }
{
    let workers = match read_durable(alloc, words) {
        Ok(words) => words.workers,
        Err(WordsError::Usage) => return (Status::Usage, Some(disk)),
        Err(WordsError::NoMemory) => return (Status::NoMemory, Some(disk)),
    };
    let mut clock = clock;
    match open_durable(alloc, site_bytes, disk, bench, &mut clock, keys) {
        Ok(logged) => serve_opened(
            rt, alloc, logged, workers, listener, bench, clock, gate, alarm,
        ),
        Err((status, disk)) => (status, Some(disk)),
    }
}
