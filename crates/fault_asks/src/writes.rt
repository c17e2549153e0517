// The Failed of a mount that writes.
ghost use Rattle.std.specs.Prelude.{◌≡◌, ◌+◌, ◌<◌, ◌≤◌, ◌∷◌, length, IfOk, IfErr, OnOk};
ghost use Rattle.cta_site.specs.Listed.{rows};
ghost use Rattle.cta_model.specs.Legal.{IsMountOf, new_entry};
ghost use Rattle.cta_model.specs.Mounts.{mount_of};
ghost use Rattle.archive_parts.specs.Carrying.{CanCarryOut, IsCarriedOut};
ghost use Rattle.archive_parts.specs.PartsKept.{ArePartsKept};
ghost use Rattle.archive_parts.specs.Same.{TellSameParts};
ghost use Rattle.part_model.specs.JobRows.{book_in};
ghost use Rattle.fault_asks.specs.Failing.{jobs_ended};

use crate::charges::{ended_of, resolve};
use crate::entries::append_failed;
use crate::failures::add_failed;
use crate::sizes::bytes_of;
use crate::writes_back::queue_writes;
use archive_parts::{ArchiveParts, Needs, kept_parts_move, same_parts_are_kept};
use cta_model::{Answer, Ask, Charge, Direction, Fault, ItemState, Job};
use cta_site::{NoMemory, Rows};
use kept_history::KeptHistory;
use part_laws::{files_fit_buffer, lines_are_small};
use part_moves::{end_copies, mount_at, set_flags};
use site_index::SiteIndex;
use std::alloc::Global;

// The rooms that a Failed of a mount that writes needs: one for each charge, one for each job that may wait again, and one for each copy
// that may have failed.
fn needs_of(charged: &[Job], returned: &[Job]) -> Needs
    requires { length charged.now + length returned.now ≤ 2000000000 }
    ensures jobs { result.jobs ≡ length charged.now }
    ensures writes { result.writes ≡ length charged.now + length returned.now }
    ensures failed { result.failed ≡ length charged.now }
{
    let many = charged.len() as u32;
    Needs {
        jobs: many,
        writes: many + returned.len() as u32,
        failed: many,
        ..Needs::default()
    }
}

// Makes room for an entry, for charges, for jobs that wait again and for failed copies, and finds the jobs that end, where so many charges
// end a job. NoMemory changes nothing that is told.
fn make_ready(
    alloc: Global,
    tries: u8,
    history: &mut KeptHistory,
    parts: &mut ArchiveParts,
    charged: &[Job],
    returned: &[Job],
) -> Result<Vec<Job>, NoMemory>
    requires { length charged.now + length returned.now ≤ 2000000000 }
    ensures history { history.new.value ≡ history.old.value }
    ensures parts { TellSameParts parts.new parts.old }
    ensures entry { OnOk result (0 < history.new.room) }
    ensures jobs { OnOk result (length charged.now ≤ parts.new.book.room) }
    ensures writes { OnOk result (length charged.now + length returned.now ≤ parts.new.pools.room) }
    ensures failed { OnOk result (length charged.now ≤ parts.new.failed.room) }
    ensures ended { IfOk result (λ ended. ended.items ≡ jobs_ended tries (book_in parts.new.book.value) charged.now) }
{
    parts.make_room(history, needs_of(charged, returned))?;
    ended_of(alloc, &parts.book, tries, charged)
}

// Makes the calls for a Failed of an open mount that writes, and adds its entry, where there is room; these jobs end.
fn carry_out(
    site: &SiteIndex,
    history: &mut KeptHistory,
    parts: &mut ArchiveParts,
    at: u64,
    mount: u32,
    fault: Fault,
    charged: Rows<Job>,
    returned: Rows<Job>,
    ended: &[Job],
)
    requires carrying { CanCarryOut site.now history.old.value parts.old at (Ask.Failed mount fault (rows charged.items) (rows returned.items)) }
    requires writes { IsMountOf Direction.Archive (mount_of history.old.value mount) }
    requires entry { 0 < history.old.room }
    requires charges { length charged.items ≤ parts.old.book.room }
    requires waits { length charged.items + length returned.items ≤ parts.old.pools.room }
    requires failed { length charged.items ≤ parts.old.failed.room }
    requires ended { ended.now ≡ jobs_ended site.now.limits.tries (book_in parts.old.book.value) charged.items }
    ensures entry { history.new.value ≡ new_entry history.old.value at (Ask.Failed mount fault (rows charged.items) (rows returned.items)) Answer.Done ∷ history.old.value }
    ensures kept { ArePartsKept site.now history.new.value parts.new }
{
    kept_parts_move();
    files_fit_buffer();
    lines_are_small();
    let rules = site.site();
    rules.keeps_rules();
    rules.numbers_are_known();
    let mounted = mount_at(&parts.mounts, mount);
    let charge = Charge {
        drive: mounted.drive,
        tape: mounted.tape,
        fault,
    };
    let fewer = charged.as_slice();
    let others = returned.as_slice();
    let bytes = bytes_of(history, fewer) + bytes_of(history, others);
    add_failed(&mut parts.failed, &parts.tapes, ended);
    parts.tapes.unclaim(mounted.tape, bytes);
    resolve(&mut parts.book, charge, fewer, others, ended);
    queue_writes(rules, history, &parts.book, &mut parts.pools, others);
    queue_writes(rules, history, &parts.book, &mut parts.pools, fewer);
    set_flags(
        &mut parts.buffer,
        &parts.tapes,
        &parts.book,
        rules,
        history,
        fewer,
    );
    let repacks = &mut parts.repacks;
    end_copies(repacks, &mut parts.buffer, ended, ItemState::Failed);
    let drive = mounted.drive;
    append_failed(history, at, drive, mount, fault, charged, returned);
}

/// Carries out an accepted Failed of an open mount that writes, at a moment, in seconds since 1970: jobs of its items were not written,
/// by a fault of the write or of the flush. The mount claims none of these jobs any more, and their bytes are not claimed on its tape.
/// The charged ones are charged for the fault of the drive with the tape, and one whose charges reach the site's `tries` ends: its copy has
/// failed where it has no place, and items of repacks that were WRITING it are FAILED; such a repack takes its pin off a file that it pins no
/// more, and the files of charged jobs get their flags, whether they are safe on tape. All other jobs that have not ended wait again, each
/// at its place in the queue of its pool, the returned ones uncharged. NoMemory gives the jobs back, and nothing that is told has changed.
/// Its cost is that of the rooms that it makes, the number of open mounts, and the number of jobs, each with the logarithm of the number of
/// lines of its queue, of files and pins of the buffer, of failed copies, and with the repacks that are WRITING its copy. CTA; what a last
/// try leaves is this project's own.
pub fn fail_writes(
    alloc: Global,
    site: &SiteIndex,
    history: &mut KeptHistory,
    parts: &mut ArchiveParts,
    at: u64,
    mount: u32,
    fault: Fault,
    charged: Rows<Job>,
    returned: Rows<Job>,
) -> Result<Answer, (NoMemory, Rows<Job>, Rows<Job>)>
    requires carrying { CanCarryOut site.now history.old.value parts.old at (Ask.Failed mount fault (rows charged.items) (rows returned.items)) }
    requires writes { IsMountOf Direction.Archive (mount_of history.old.value mount) }
    ensures carried { IsCarriedOut site.now history.old.value at (Ask.Failed mount fault (rows charged.items) (rows returned.items)) result history.new.value parts.new }
    ensures back { IfErr result (λ e. (e.1 ≡ charged) × (e.2 ≡ returned)) }
{
    same_parts_are_kept();
    site.site().keeps_rules();
    let tries = site.site().limits().tries;
    match make_ready(
        alloc,
        tries,
        history,
        parts,
        charged.as_slice(),
        returned.as_slice(),
    ) {
        Ok(ended) => {
            carry_out(
                site,
                history,
                parts,
                at,
                mount,
                fault,
                charged,
                returned,
                ended.as_slice(),
            );
            Ok(Answer::Done)
        }
        Err(error) => Err((error, charged, returned)),
    }
}
