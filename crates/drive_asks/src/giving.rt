// A batch that is given to a mount that reads, where there is room.
ghost use Rattle.std.specs.Prelude.{◌≡◌, ◌≤◌, ◌<◌, ◌+◌, ◌^◌, ◌++◌, ℕ, Some, None, length, if◌then◌else◌};
ghost use Rattle.cta_site.specs.declared.site.Site.{Site};
ghost use Rattle.cta_site.specs.Listed.{rows};
ghost use Rattle.cta_model.specs.History.{History, has_number};
ghost use Rattle.cta_model.specs.Mounts.{item_jobs, mount_of};
ghost use Rattle.cta_model.specs.Recalls.{live_recall};
ghost use Rattle.cta_model.specs.Tapes.{size_of_items};
ghost use Rattle.disk_buffer.specs.Stays.{content_in};
ghost use Rattle.part_model.specs.Held.{HeldAgree, bytes_of, evict, evicted_for, hold};
ghost use Rattle.part_laws.specs.BookCalls.{recalls_in};
ghost use Rattle.archive_parts.specs.Called.{AreKeptCalled};
ghost use Rattle.archive_parts.specs.PartsKept.{ArePartsKept};
ghost use Rattle.drive_asks.specs.Waiting.{files_in};
ghost use Rattle.part_moves.specs.Waiting.{waits_for_all};

use crate::given::{claim_jobs_of, take_jobs};
use crate::waiters::start_all;
use archive_parts::ArchiveParts;
use cta_model::{Actor, Answer, Ask, Direction, Item};
use cta_site::Rows;
use disk_buffer::DiskBuffer;

// Evicts at a moment for so many bytes, and sets them aside.
fn set_aside(buffer: &mut DiskBuffer, at: u64, bytes: u64, out: &mut Rows<u32>)
    requires room { length (evicted_for buffer.old.held.value at bytes) ≤ out.old.room }
    requires fits { bytes_of buffer.old.held.value.files + buffer.old.held.value.aside + bytes < 2 ^ 64 }
    ensures out { out.new.items ≡ out.old.items ++ evicted_for buffer.old.held.value at bytes }
    ensures held { HeldAgree buffer.new.held.value (hold (evict buffer.old.held.value at bytes) bytes) }
    ensures contents { (f : ℕ) → content_in buffer.new.contents f ≡ (if has_number f (evicted_for buffer.old.held.value at bytes) then None else content_in buffer.old.contents f) }
{
    buffer.evict(at, bytes, out);
    buffer.hold(bytes);
}

// Gives a batch to a mount of a tape: files are evicted for its bytes, which are set aside, its jobs leave the queue of the tape, the
// mount claims them, the files of requests that wait for them are STARTED, and they are the items of the mount's last Claim.
pub(crate) fn give_reads(
    parts: &mut ArchiveParts,
    at: u64,
    mount: u32,
    tape: u32,
    last: Rows<Item>,
    bytes: u64,
    waiters: &[(u32, u32)],
    evicted: &mut Rows<u32>,
)
    requires tape { tape < length parts.old.recalls.value }
    requires fits { bytes_of parts.old.buffer.held.value.files + parts.old.buffer.held.value.aside + bytes < 2 ^ 64 }
    requires jobs { length last.items ≤ parts.old.book.room }
    requires room { length (evicted_for parts.old.buffer.held.value at bytes) ≤ evicted.old.room }
    ensures evicted { evicted.new.items ≡ evicted.old.items ++ evicted_for parts.old.buffer.held.value at bytes }
    ensures called { (site : Site) (h : History) (drive : ℕ) → ArePartsKept site h parts.old
        → mount_of h mount ≡ Some (record { drive = drive; direction = Direction.Retrieve; tape = tape }) → recalls_in (item_jobs last.items) ≡ files_in last.items
        → bytes ≡ size_of_items last.items → waiters.now ≡ waits_for_all (live_recall site h) (files_in last.items)
        → AreKeptCalled site h (record { at = at; actor = Actor.Drive drive; ask = Ask.Claim mount; answer = Answer.Batch last (rows (evicted_for parts.old.buffer.held.value at bytes)) }) parts.old parts.new }
{
    set_aside(&mut parts.buffer, at, bytes, evicted);
    take_jobs(&mut parts.recalls, tape, last.as_slice());
    claim_jobs_of(&mut parts.book, mount, last.as_slice());
    start_all(&mut parts.requests, waiters, at);
    parts.mounts.claim(mount, last);
}
