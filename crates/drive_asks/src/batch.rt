// A batch given to a mount that writes.
ghost use Rattle.std.specs.Prelude.{◌≡◌, ◌≤◌, ◌<◌, ◌+◌, ◌^◌, [], ℕ, Some, length, IfOk, IfErr, OnOk};
ghost use Rattle.cta_site.specs.declared.site.Site.{Site};
ghost use Rattle.cta_site.specs.Listed.{rows};
ghost use Rattle.cta_site.specs.Lookups.{capacity_of, pool_of_tape};
ghost use Rattle.cta_model.specs.declared.states.Mount.{Mount};
ghost use Rattle.cta_model.specs.Bare.{bare_answer};
ghost use Rattle.cta_model.specs.Batches.{batch_of};
ghost use Rattle.cta_model.specs.History.{History, moment_of};
ghost use Rattle.cta_model.specs.Legal.{IsMountOf};
ghost use Rattle.cta_model.specs.Mounts.{item_jobs, mount_of};
ghost use Rattle.cta_model.specs.Tapes.{size_of_items};
ghost use Rattle.part_model.specs.Tapes.{row_in};
ghost use Rattle.part_laws.specs.BookCalls.{recalls_in};
ghost use Rattle.archive_parts.specs.Called.{AreKeptCalled};
ghost use Rattle.archive_parts.specs.Carrying.{CanCarryOut, IsCarriedOut};
ghost use Rattle.archive_parts.specs.PartsKept.{ArePartsKept};

use crate::given::{bytes_of, claim_jobs_of, copy_of, take_jobs};
use archive_parts::{ArchiveParts, Needs, kept_parts_move};
use cta_laws::{claims_are_short, stays_short};
use cta_model::{Actor, Answer, Ask, Direction, Item};
use cta_site::{NoMemory, Rows};
use kept_history::KeptHistory;
use part_moves::mount_at;
use site_index::SiteIndex;
use std::alloc::Global;

// The batch once more for the entry, and once more for the row of the mount.
#[derive(Drop)]
struct Copies {
    told: Rows<Item>,
    last: Rows<Item>,
}

// Makes the copies of a batch, and room for its entry and its claims. NoMemory gives nothing, and changes nothing that is told.
fn prepare(
    alloc: Global,
    history: &mut KeptHistory,
    parts: &mut ArchiveParts,
    items: &[Item],
) -> Result<Copies, NoMemory>
    requires { length items.now < 2 ^ 32 }
    ensures entries { history.new.value ≡ history.old.value }
    ensures entry_room { OnOk result (0 < history.new.room) }
    ensures kept { (site : Site) (h : History) → ArePartsKept site h parts.old → ArePartsKept site h parts.new }
    ensures room { OnOk result (length items.now ≤ parts.new.book.room) }
    ensures told { IfOk result (λ copies. copies.told ≡ rows items.now) }
    ensures last { IfOk result (λ copies. copies.last ≡ rows items.now) }
{
    let told = copy_of(alloc, items)?;
    let last = copy_of(alloc, items)?;
    let needs = Needs {
        jobs: items.len() as u32,
        ..Needs::default()
    };
    parts.make_room(history, needs)?;
    Ok(Copies { told, last })
}

// The answer that a batch is to be written.
fn batch(alloc: Global, items: Rows<Item>) -> Answer
    ensures { bare_answer result ≡ Answer.Batch (rows items.items) (rows []) }
{
    Answer::Batch {
        items,
        evicted: Rows::of(Vec::new(alloc)),
    }
}

// That the capacity of a tape is a number of 64 bits.
fn capacity_fits(site: &SiteIndex, tape: u32)
    ensures { capacity_of site.now tape < 2 ^ 64 }
{
    let _capacity = site.capacity(tape);
}

// Gives a batch to a mount of a tape: its jobs leave the queue of the tape's pool, the mount claims them, bytes of the tape are set aside for
// them, and they are the items of the mount's last Claim.
fn give_batch(site: &SiteIndex, parts: &mut ArchiveParts, mount: u32, tape: u32, last: Rows<Item>)
    requires pool { pool_of_tape site.now tape < length parts.old.pools.value }
    requires tape { tape < length parts.old.tapes.value.rows }
    requires fits { (row_in parts.old.tapes.value tape).used + size_of_items last.items < 2 ^ 64 }
    requires room { length last.items ≤ parts.old.book.room }
    ensures { (h : History) (t drive : ℕ) → ArePartsKept site.now h parts.old
        → mount_of h mount ≡ Some (record { drive = drive; direction = Direction.Archive; tape = tape }) → recalls_in (item_jobs last.items) ≡ []
        → AreKeptCalled site.now h (record { at = t; actor = Actor.Drive drive; ask = Ask.Claim mount; answer = Answer.Batch last (rows []) }) parts.old parts.new }
{
    let pool = site.pool_of_tape(tape);
    take_jobs(&mut parts.pools, pool, last.as_slice());
    claim_jobs_of(&mut parts.book, mount, last.as_slice());
    parts.tapes.claim(tape, bytes_of(last.as_slice()));
    parts.mounts.claim(mount, last);
}

/// Gives a batch to a mount that writes: carries out the accepted `Claim` of the mount at a moment, in seconds since 1970, where
/// `items` are the batch that it takes. The jobs of the items leave the queue of the tape's pool, the mount claims each of them, their
/// bytes count as used on the tape, and they are the items of the mount's last Claim. NoMemory changes nothing, and gives the items
/// back. Its cost is that of the rooms that it makes, the number of items, each with the logarithm of the number of the queue's
/// lines, and the number of open mounts. CTA.
pub fn claim_batch(
    alloc: Global,
    site: &SiteIndex,
    history: &mut KeptHistory,
    parts: &mut ArchiveParts,
    at: u64,
    mount: u32,
    items: Rows<Item>,
) -> Result<Answer, (NoMemory, Rows<Item>)>
    requires carrying { CanCarryOut site.now history.old.value parts.old at (Ask.Claim mount) }
    requires writes { IsMountOf Direction.Archive (mount_of history.old.value mount) }
    requires batch { (x : Mount) → mount_of history.old.value mount ≡ Some x → items.items ≡ batch_of site.now history.old.value (moment_of history.old.value at) x }
    ensures carried { IsCarriedOut site.now history.old.value at (Ask.Claim mount) result history.new.value parts.new }
    ensures back { IfErr result (λ e. e.1 ≡ items) }
{
    kept_parts_move();
    stays_short();
    claims_are_short();
    site.site().keeps_rules();
    let copies = match prepare(alloc, history, parts, items.as_slice()) {
        Ok(copies) => copies,
        Err(error) => return Err((error, items)),
    };
    let Copies { told, last } = copies;
    let mounted = mount_at(&parts.mounts, mount);
    history.append(
        at,
        Actor::Drive(mounted.drive),
        Ask::Claim { mount },
        batch(alloc, told),
    );
    capacity_fits(site, mounted.tape);
    give_batch(site, parts, mount, mounted.tape, last);
    Ok(batch(alloc, items))
}
