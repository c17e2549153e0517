// The Failed of a mount that reads.
ghost use Rattle.std.specs.Prelude.{◌≡◌, ◌+◌, ◌<◌, ◌≤◌, ◌^◌, ◌∷◌, ℕ, Some, length, map, IfOk, IfErr};
ghost use Rattle.cta_site.specs.Listed.{rows};
ghost use Rattle.cta_model.specs.Legal.{IsMountOf, new_entry};
ghost use Rattle.cta_model.specs.Mounts.{mount_of};
ghost use Rattle.cta_model.specs.RepackItems as said;
ghost use Rattle.cta_model.specs.declared.states.Charge.{Charge};
ghost use Rattle.cta_model.specs.declared.states.Mount.{Mount};
ghost use Rattle.archive_parts.specs.Carrying.{CanCarryOut, IsCarriedOut};
ghost use Rattle.archive_parts.specs.PartsKept.{ArePartsKept};
ghost use Rattle.part_model.specs.JobRows.{book_in};
ghost use Rattle.part_moves.specs.Flags.{job_files};
ghost use Rattle.fault_asks.specs.Failing.{jobs_ended};
ghost use Rattle.fault_asks.specs.Reading.{ending_of};
ghost use Rattle.part_moves.specs.Waiting.{waits_for_all};

use crate::charges::{ended_of, resolve};
use crate::endings::{Ending, endings_of, fail_readers, fail_requests, waiters_of};
use crate::entries::append_failed;
use crate::reads_back::queue_reads;
use crate::sizes::bytes_of;
use archive_parts::{ArchiveParts, Needs, kept_parts_move, same_parts_are_kept};
use cta_laws::{
    claimed_bytes_move, places_are_of_copies, places_are_on_site, stays_short, subscribers_wait,
};
use cta_model::{Answer, Ask, Charge, Direction, Fault, Job, Mount};
use cta_site::{NoMemory, Rows, ValidSite};
use kept_history::KeptHistory;
use part_laws::{files_fit_buffer, lines_are_small};
use part_moves::mount_at;
use site_index::SiteIndex;
use std::alloc::Global;

// The jobs that a Failed ends, the entries that wait for them, each with the file, and how it ends for those.
#[derive(Drop)]
struct Found {
    ended: Vec<Job>,
    waiters: Vec<(u32, u32)>,
    endings: Vec<Ending>,
}

// The charge for a fault of a mount.
fn charge_of(mounted: Mount, fault: Fault) -> Charge
    ensures { result ≡ record { drive = mounted.drive; tape = mounted.tape; fault = fault } }
{
    Charge {
        drive: mounted.drive,
        tape: mounted.tape,
        fault,
    }
}

// The rooms that a Failed of a mount that reads needs: one for each charge, and one for each recall that may wait again.
fn needs_of(charged: &[Job], returned: &[Job]) -> Needs
    requires { length charged.now + length returned.now ≤ 2000000000 }
    ensures jobs { result.jobs ≡ length charged.now }
    ensures reads { result.reads ≡ length charged.now + length returned.now }
{
    let many = charged.len() as u32;
    Needs {
        jobs: many,
        reads: many + returned.len() as u32,
        ..Needs::default()
    }
}

// Finds the jobs that end with their charge, and what becomes of those that wait for them. NoMemory gives nothing.
fn find_ended(
    alloc: Global,
    site: &ValidSite,
    parts: &ArchiveParts,
    charge: Charge,
    charged: &[Job],
) -> Result<Found, NoMemory>
    requires { (f : ℕ) → length (said.waiting_for ((book_in parts.now.book.value).recall f)) < 2 ^ 32 }
    ensures ended { IfOk result (λ found. found.ended.items ≡ jobs_ended site.now.limits.tries (book_in parts.now.book.value) charged.now) }
    ensures waiters { IfOk result (λ found. found.waiters.items ≡ waits_for_all (book_in parts.now.book.value).recall (job_files found.ended.items)) }
    ensures endings { IfOk result (λ found. found.endings.items ≡ map (ending_of site.now (book_in parts.now.book.value) charge) found.waiters.items) }
{
    let ended = ended_of(alloc, &parts.book, site.limits().tries, charged)?;
    let waiters = waiters_of(alloc, &parts.book, ended.as_slice())?;
    let endings = endings_of(alloc, site, &parts.book, charge, waiters.as_slice())?;
    Ok(Found {
        ended,
        waiters,
        endings,
    })
}

// Makes the calls for a Failed of an open mount that reads, and adds its entry, where there is room; these jobs end, and so it ends for those
// that wait for them.
fn carry_out(
    site: &SiteIndex,
    history: &mut KeptHistory,
    parts: &mut ArchiveParts,
    at: u64,
    mount: u32,
    mounted: Mount,
    fault: Fault,
    charged: Rows<Job>,
    returned: Rows<Job>,
    found: Found,
)
    requires carrying { CanCarryOut site.now history.old.value parts.old at (Ask.Failed mount fault (rows charged.items) (rows returned.items)) }
    requires reads { IsMountOf Direction.Retrieve (mount_of history.old.value mount) }
    requires mounted { mount_of history.old.value mount ≡ Some mounted }
    requires entry { 0 < history.old.room }
    requires charges { length charged.items ≤ parts.old.book.room }
    requires waits { length charged.items + length returned.items ≤ parts.old.recalls.room }
    requires ended { found.ended.items ≡ jobs_ended site.now.limits.tries (book_in parts.old.book.value) charged.items }
    requires waiters { found.waiters.items ≡ waits_for_all (book_in parts.old.book.value).recall (job_files found.ended.items) }
    requires endings { found.endings.items ≡ map (ending_of site.now (book_in parts.old.book.value) (record { drive = mounted.drive; tape = mounted.tape; fault = fault })) found.waiters.items }
    ensures entry { history.new.value ≡ new_entry history.old.value at (Ask.Failed mount fault (rows charged.items) (rows returned.items)) Answer.Done ∷ history.old.value }
    ensures kept { ArePartsKept site.now history.new.value parts.new }
{
    kept_parts_move();
    claimed_bytes_move();
    files_fit_buffer();
    lines_are_small();
    places_are_of_copies();
    places_are_on_site();
    let rules = site.site();
    rules.keeps_rules();
    rules.numbers_are_known();
    let now = history.moment_of(at);
    let charge = charge_of(mounted, fault);
    let fewer = charged.as_slice();
    let others = returned.as_slice();
    let Found {
        ended,
        waiters,
        endings,
    } = found;
    let bytes = bytes_of(history, fewer) + bytes_of(history, others);
    parts.buffer.unhold(bytes);
    resolve(&mut parts.book, charge, fewer, others, ended.as_slice());
    let recalls = &mut parts.recalls;
    queue_reads(rules, history, &parts.tapes, &parts.book, recalls, others);
    queue_reads(rules, history, &parts.tapes, &parts.book, recalls, fewer);
    fail_readers(&mut parts.repacks, waiters.as_slice());
    fail_requests(&mut parts.requests, endings, now);
    let drive = mounted.drive;
    append_failed(history, at, drive, mount, fault, charged, returned);
}

/// Carries out an accepted Failed of an open mount that reads, at a moment, in seconds since 1970: files of its recalls were not read, by a
/// fault of the read or by content that is not the catalogue's. The mount claims none of these jobs any more, and the bytes that were set
/// aside for them are free again. The charged ones are charged for the fault of the drive with the tape, and one whose charges reach the
/// site's `tries` ends: the files of stage requests that wait for it FAIL with what is said of its charges, and items of repacks that were
/// READING its file are FAILED. All other recalls that have not ended wait again, each at its place in the queue of a tape: a charged one
/// of its next source, and a returned one, uncharged, of the same. NoMemory gives the jobs back, and nothing that is told has changed. Its
/// cost is that of the rooms that it makes, the number of open mounts, the number of jobs, each with the logarithm of the number of lines
/// of its queue, and the number of entries that wait for recalls which end, each with the length of the error and the logarithm of the
/// number of live items of repacks. CTA; what a last try leaves is this project's own.
pub fn fail_reads(
    alloc: Global,
    site: &SiteIndex,
    history: &mut KeptHistory,
    parts: &mut ArchiveParts,
    at: u64,
    mount: u32,
    fault: Fault,
    charged: Rows<Job>,
    returned: Rows<Job>,
) -> Result<Answer, (NoMemory, Rows<Job>, Rows<Job>)>
    requires carrying { CanCarryOut site.now history.old.value parts.old at (Ask.Failed mount fault (rows charged.items) (rows returned.items)) }
    requires reads { IsMountOf Direction.Retrieve (mount_of history.old.value mount) }
    ensures carried { IsCarriedOut site.now history.old.value at (Ask.Failed mount fault (rows charged.items) (rows returned.items)) result history.new.value parts.new }
    ensures back { IfErr result (λ e. (e.1 ≡ charged) × (e.2 ≡ returned)) }
{
    same_parts_are_kept();
    stays_short();
    subscribers_wait();
    let rules = site.site();
    rules.keeps_rules();
    let needs = needs_of(charged.as_slice(), returned.as_slice());
    if let Err(error) = parts.make_room(history, needs) {
        return Err((error, charged, returned));
    }
    let mounted = mount_at(&parts.mounts, mount);
    let charge = charge_of(mounted, fault);
    let found = match find_ended(alloc, rules, parts, charge, charged.as_slice()) {
        Ok(found) => found,
        Err(error) => return Err((error, charged, returned)),
    };
    carry_out(
        site, history, parts, at, mount, mounted, fault, charged, returned, found,
    );
    Ok(Answer::Done)
}
