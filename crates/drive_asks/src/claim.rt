// The Claim of a mount that reads.
ghost use Rattle.std.specs.Prelude.{◌≡◌, ◌+◌, ◌<◌, ◌^◌, ◌∷◌, Some, length, IfErr};
ghost use Rattle.cta_site.specs.Listed.{rows};
ghost use Rattle.cta_model.specs.declared.states.Mount.{Mount};
ghost use Rattle.cta_model.specs.Bare.{bare_answer};
ghost use Rattle.cta_model.specs.Batches.{batch_of};
ghost use Rattle.cta_model.specs.History.{moment_of};
ghost use Rattle.cta_model.specs.Legal.{actor_of, IsMountOf, new_entry};
ghost use Rattle.cta_model.specs.Mounts.{mount_of};
ghost use Rattle.archive_parts.specs.Carrying.{CanCarryOut, IsCarriedOut};

use crate::finding::{Found, find_reads};
use crate::given::bytes_of;
use crate::giving::give_reads;
use archive_parts::{ArchiveParts, Needs, kept_parts_move, same_parts_are_kept};
use cta_laws::{buffer_has_room, claims_are_short, stays_short, subscribers_wait};
use cta_model::{Actor, Answer, Ask, Direction, Item};
use cta_site::{NoMemory, Rows};
use kept_history::KeptHistory;
use part_moves::{add_numbers, mount_at};
use site_index::SiteIndex;
use std::alloc::Global;

// The rooms that a Claim of a mount that reads needs beside those of its eviction: one for each job that it claims.
fn needs_of(items: &[Item]) -> Needs
    requires { length items.now < 2 ^ 32 }
    ensures jobs { result.jobs ≡ length items.now }
{
    Needs {
        jobs: items.len() as u32,
        ..Needs::default()
    }
}

// Appends the entry of the Claim.
fn append_claim(history: &mut KeptHistory, at: u64, drive: u32, mount: u32, answer: Answer)
    requires room { 0 < history.old.room }
    requires few { length history.old.value + 2 < 2 ^ 32 }
    requires by { Actor.Drive drive ≡ actor_of history.old.value (Ask.Claim mount) }
    ensures { history.new.value ≡ new_entry history.old.value at (Ask.Claim mount) (bare_answer answer) ∷ history.old.value }
{
    history.append(at, Actor::Drive(drive), Ask::Claim { mount }, answer);
}

// The answer that a batch is to be read, for which these files were evicted.
fn batch(items: Rows<Item>, evicted: Rows<u32>) -> Answer
    ensures { bare_answer result ≡ Answer.Batch (rows items.items) (rows evicted.items) }
{
    Answer::Batch { items, evicted }
}

/// Gives a batch to a mount that reads: carries out the accepted `Claim` of the mount at a moment, in seconds since 1970, where
/// `items` are the batch that it takes. Files are evicted for the bytes of the items, which are set aside in the buffer; the jobs of the
/// items leave the queue of the tape, the mount claims each of them, and they are the items of the mount's last Claim; the files of stage
/// requests that wait for them are STARTED where they were not. The answer tells what was evicted. NoMemory changes nothing, and
/// gives the items back. Its cost is that of the rooms that it makes, that of `DiskBuffer::evict`, the number of items, each with the
/// logarithm of the number of the queue's lines and with the entries that wait for its recall, and the number of open mounts. CTA; which
/// files are evicted is this project's own.
pub fn claim_reads(
    alloc: Global,
    site: &SiteIndex,
    history: &mut KeptHistory,
    parts: &mut ArchiveParts,
    at: u64,
    mount: u32,
    items: Rows<Item>,
) -> Result<Answer, (NoMemory, Rows<Item>)>
    requires carrying { CanCarryOut site.now history.old.value parts.old at (Ask.Claim mount) }
    requires reads { IsMountOf Direction.Retrieve (mount_of history.old.value mount) }
    requires batch { (x : Mount) → mount_of history.old.value mount ≡ Some x → items.items ≡ batch_of site.now history.old.value (moment_of history.old.value at) x }
    ensures carried { IsCarriedOut site.now history.old.value at (Ask.Claim mount) result history.new.value parts.new }
    ensures back { IfErr result (λ e. e.1 ≡ items) }
{
    kept_parts_move();
    same_parts_are_kept();
    stays_short();
    claims_are_short();
    buffer_has_room();
    subscribers_wait();
    site.site().keeps_rules();
    let moment = history.moment_of(at);
    let bytes = bytes_of(items.as_slice());
    let found = match find_reads(alloc, parts, moment, items.as_slice(), bytes) {
        Ok(found) => found,
        Err(error) => return Err((error, items)),
    };
    if let Err(error) = parts.make_room(history, needs_of(items.as_slice())) {
        return Err((error, items));
    }
    let Found {
        told,
        last,
        waiters,
        mut evicted,
        mut gone,
    } = found;
    let mounted = mount_at(&parts.mounts, mount);
    give_reads(
        parts,
        moment,
        mount,
        mounted.tape,
        last,
        bytes,
        waiters.as_slice(),
        &mut evicted,
    );
    add_numbers(evicted.as_slice(), &mut gone);
    append_claim(history, at, mounted.drive, mount, batch(told, gone));
    Ok(batch(items, evicted))
}
