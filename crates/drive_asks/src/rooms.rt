// Room for what a Flushed adds.
ghost use Rattle.std.specs.Prelude.{◌≡◌, ◌≤◌, length, IfOk, OnOk};
ghost use Rattle.archive_parts.specs.Same.{TellSameParts};
ghost use Rattle.drive_asks.specs.Items.{fates_told, live_jobs};

use crate::fates::{fates_of, live_jobs};
use archive_parts::{ArchiveParts, Needs};
use cta_model::{Fate, Item, Job};
use cta_site::{NoMemory, Rows};
use kept_history::KeptHistory;
use std::alloc::Global;

// What a Flushed is to tell, and the jobs that it ends: the fates of its items, for its entry and for its answer, and the live jobs.
#[derive(Drop)]
pub(crate) struct Fates {
    pub(crate) kept: Rows<Fate>,
    pub(crate) told: Rows<Fate>,
    pub(crate) live: Vec<Job>,
}

// The fates of items and the live jobs among them. NoMemory leaves nothing.
fn find_fates(alloc: Global, parts: &ArchiveParts, items: &[Item]) -> Result<Fates, NoMemory>
    ensures kept { IfOk result (λ fates. fates.kept.items ≡ fates_told parts.now.book.value items.now) }
    ensures told { IfOk result (λ fates. fates.told.items ≡ fates_told parts.now.book.value items.now) }
    ensures live { IfOk result (λ fates. fates.live.items ≡ live_jobs parts.now.book.value items.now) }
{
    let kept = fates_of(alloc, &parts.book, items)?;
    let told = fates_of(alloc, &parts.book, items)?;
    let live = live_jobs(alloc, &parts.book, items)?;
    Ok(Fates {
        kept: Rows::of(kept),
        told: Rows::of(told),
        live,
    })
}

// Makes room for an entry and for the places of items, and finds their fates. NoMemory changes nothing that is told.
pub(crate) fn make_room(
    alloc: Global,
    history: &mut KeptHistory,
    parts: &mut ArchiveParts,
    items: &[Item],
) -> Result<Fates, NoMemory>
    requires { length items.now ≤ 1000 }
    ensures history { history.new.value ≡ history.old.value }
    ensures parts { TellSameParts parts.new parts.old }
    ensures entry { OnOk result (1 ≤ history.new.room) }
    ensures places { OnOk result (length items.now ≤ parts.new.tapes.room) }
    ensures kept { IfOk result (λ fates. fates.kept.items ≡ fates_told parts.new.book.value items.now) }
    ensures told { IfOk result (λ fates. fates.told.items ≡ fates_told parts.new.book.value items.now) }
    ensures live { IfOk result (λ fates. fates.live.items ≡ live_jobs parts.new.book.value items.now) }
{
    let places = items.len() as u32;
    parts.reserve(Needs {
        jobs: 0,
        writes: 0,
        reads: 0,
        files: 0,
        places,
        mounts: 0,
        failed: 0,
    })?;
    history.reserve(1)?;
    find_fates(alloc, parts, items)
}
