// The states of a repack's items.
ghost use Rattle.std.specs.Prelude.{◌≡◌, ℕ, ◌<◌, ◌^◌, ◌==◌, ◌&&◌, Some, None, true, if◌then◌else◌, IfOk, is_some, option_map, unwrap_or};
ghost use Rattle.cta_model.specs.declared.reports.ItemState.TheVariants as item;
ghost use Rattle.cta_model.specs.Mounts.{has_copy};
ghost use Rattle.cta_model.specs.Repacks.{is_live_item};
ghost use Rattle.part_model.specs.Repacks.{is_reading, is_writing};
ghost use Rattle.repack_book.specs.States.{state_at, turned_if};

use cta_model::{ItemState, Job};
use cta_site::NoMemory;
use number_map::{NumberMap, new_map};
use std::alloc::Global;

// States by file and copy.
pub(crate) type States = NumberMap<(u32, u8), ItemState>;

// Whether a state is that of a live item.
pub(crate) fn is_live(state: ItemState) -> bool
    ensures { result ≡ is_live_item state }
{
    match state {
        ItemState::Reading => true,
        ItemState::Writing => true,
        ItemState::Done => false,
        ItemState::Failed => false,
        ItemState::Gone => false,
    }
}

// Whether a state is READING.
pub(crate) fn reads(state: ItemState) -> bool
    ensures { result ≡ is_reading state }
{
    match state {
        ItemState::Reading => true,
        ItemState::Writing => false,
        ItemState::Done => false,
        ItemState::Failed => false,
        ItemState::Gone => false,
    }
}

// Whether a state is WRITING.
pub(crate) fn writes(state: ItemState) -> bool
    ensures { result ≡ is_writing state }
{
    match state {
        ItemState::Reading => false,
        ItemState::Writing => true,
        ItemState::Done => false,
        ItemState::Failed => false,
        ItemState::Gone => false,
    }
}

// A file and a copy as a key.
fn key_of(file: u32, copy: u8) -> (u32, u8)
    ensures is { result ≡ (file, copy) }
    ensures low { copy < 256 }
{
    (file, copy)
}

// The states of these copies, all READING. NoMemory gives nothing. Its cost is their number.
pub(crate) fn all_reading(alloc: Global, jobs: &[Job]) -> Result<States, NoMemory>
    ensures states { IfOk result (λ states. (f c : ℕ) → state_at states.entries f c ≡ (if has_copy f c jobs.now then Some item.Reading else None)) }
    ensures low { IfOk result (λ states. (f c : ℕ) → has_copy f c jobs.now ≡ true → c < 256) }
{
    let mut states = new_map(alloc);
    for job in jobs {
        let key = key_of(job.file, job.copy);
        states.insert(key, ItemState::Reading)?;
    }
    Ok(states)
}

// The state of a copy, GONE where it has none. In constant time.
pub(crate) fn state_of(states: &States, file: u32, copy: u8) -> ItemState
    ensures { result ≡ unwrap_or (state_at states.now.entries file copy) item.Gone }
{
    match states.get(&(file, copy)).copied() {
        Some(state) => state,
        None => ItemState::Gone,
    }
}

// A copy that has a state gets another one. In constant time.
fn write(states: &mut States, file: u32, copy: u8, state: ItemState)
    requires { is_some (state_at states.old.entries file copy) ≡ true }
    ensures { (f c : ℕ) → state_at states.new.entries f c ≡ (if file == f && copy == c then Some state else state_at states.old.entries f c) }
{
    if let Some(kept) = states.get_mut(&(file, copy)) {
        *kept = state;
    }
}

// A copy takes the state where it has one that is live. In constant time.
pub(crate) fn turn(states: &mut States, file: u32, copy: u8, state: ItemState)
    ensures { (f c : ℕ) → state_at states.new.entries f c ≡ option_map (turned_if (file == f && copy == c) state) (state_at states.old.entries f c) }
{
    if let Some(kept) = states.get(&(file, copy)).copied() {
        if is_live(kept) {
            write(states, file, copy, state);
        }
    }
}
