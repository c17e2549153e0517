// What the Claim of a mount that reads takes along.
ghost use Rattle.std.specs.Prelude.{◌≡◌, ◌≤◌, ◌<◌, ◌^◌, ◌++◌, [], ℕ, length, IfOk};
ghost use Rattle.cta_site.specs.Listed.{rows};
ghost use Rattle.cta_model.specs.RepackItems.{waiting_for};
ghost use Rattle.part_model.specs.Held.{evicted_for};
ghost use Rattle.part_model.specs.JobRows.{book_in};
ghost use Rattle.drive_asks.specs.Waiting.{files_in};
ghost use Rattle.part_moves.specs.Waiting.{waits_for_all};

use crate::given::copy_of;
use crate::waiters::waiters_of;
use archive_parts::ArchiveParts;
use cta_model::Item;
use cta_site::{NoMemory, Rows};
use part_moves::list_for;
use std::alloc::Global;

// The batch once more for the entry, and once more for the row of the mount; the entries that wait for its recalls, each with the file;
// and two empty lists with room for what is evicted, for the answer and for the entry.
#[derive(Drop)]
pub(crate) struct Found {
    pub(crate) told: Rows<Item>,
    pub(crate) last: Rows<Item>,
    pub(crate) waiters: Vec<(u32, u32)>,
    pub(crate) evicted: Rows<u32>,
    pub(crate) gone: Rows<u32>,
}

// Finds what the Claim of these items takes along, where so many bytes are to be set aside at a moment. NoMemory gives nothing.
pub(crate) fn find_reads(
    alloc: Global,
    parts: &ArchiveParts,
    at: u64,
    items: &[Item],
    bytes: u64,
) -> Result<Found, NoMemory>
    requires { (f : ℕ) → length (waiting_for ((book_in parts.now.book.value).recall f)) < 2 ^ 32 }
    ensures told { IfOk result (λ found. found.told ≡ rows items.now) }
    ensures last { IfOk result (λ found. found.last ≡ rows items.now) }
    ensures waiters { IfOk result (λ found. found.waiters.items ≡ waits_for_all (book_in parts.now.book.value).recall (files_in items.now)) }
    ensures evicted { IfOk result (λ found. found.evicted.items ≡ []) }
    ensures evicted_room { IfOk result (λ found. length (evicted_for parts.now.buffer.held.value at bytes) ≤ found.evicted.room) }
    ensures gone { IfOk result (λ found. found.gone.items ≡ []) }
    ensures gone_room { IfOk result (λ found. length (evicted_for parts.now.buffer.held.value at bytes) ≤ found.gone.room) }
{
    let count = parts.buffer.evict_count(at, bytes);
    let told = copy_of(alloc, items)?;
    let last = copy_of(alloc, items)?;
    let waiters = waiters_of(alloc, &parts.book, items)?;
    let evicted = list_for(alloc, count)?;
    let gone = list_for(alloc, count)?;
    Ok(Found {
        told,
        last,
        waiters,
        evicted,
        gone,
    })
}
