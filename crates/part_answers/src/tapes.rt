// The tape that a drive mounts for a queue.
ghost use Rattle.std.specs.Prelude.{◌≡◌, ◌&&◌, find, nat_lt};
ghost use Rattle.cta_model.specs.Choice.{all_tapes};
ghost use Rattle.cta_model.specs.Tapes as states;
ghost use Rattle.part_model.specs.Queues.{fits_in};
ghost use Rattle.part_model.specs.Tapes.{row_in};
ghost use Rattle.part_laws.specs.Choices.{may_read_told, may_write_told, tape_for_told, tape_of_pool_told};

use crate::seen_parts::SeenParts;
use cta_model::{Direction, Sums};
use cta_site::TapeState;
use site_index::SiteIndex;

// Whether a tape in this state may be written.
fn may_be_written(state: TapeState) -> bool
    ensures { result ≡ states.may_be_written state }
{
    match state {
        TapeState::Active => true,
        TapeState::Disabled => false,
        TapeState::Broken => false,
        TapeState::Repacking => false,
    }
}

// Whether a tape in this state may be read.
fn may_be_read(state: TapeState) -> bool
    ensures { result ≡ states.may_be_read state }
{
    match state {
        TapeState::Active => true,
        TapeState::Disabled => false,
        TapeState::Broken => false,
        TapeState::Repacking => true,
    }
}

// Whether some job of a queue with these sums fits in the room.
fn fits_in(room: u64, sums: Option<Sums>) -> bool
    ensures { result ≡ fits_in room sums }
{
    match sums {
        None => false,
        Some(sums) => sums.least <= room,
    }
}

// Whether a drive may write a pool's queue with these sums on a tape.
fn may_write(
    site: &SiteIndex,
    seen: &SeenParts,
    drive: u32,
    pool: u32,
    sums: Option<Sums>,
    tape: u32,
) -> bool
    ensures { result ≡ may_write_told site.now seen.now drive pool sums tape }
{
    if site.pool_of_tape(tape) != pool {
        return false;
    }
    let row = seen.table.row(tape);
    if !may_be_written(row.state) {
        return false;
    }
    if !site.is_in_reach(drive, tape) {
        return false;
    }
    if !seen.is_free(tape) {
        return false;
    }
    fits_in(site.capacity(tape).saturating_sub(row.used), sums)
}

// Whether a drive may read a tape's queue with these sums.
fn may_read(
    site: &SiteIndex,
    seen: &SeenParts,
    at: u64,
    drive: u32,
    sums: Option<Sums>,
    tape: u32,
) -> bool
    ensures { result ≡ may_read_told site.now seen.now at drive sums tape }
{
    if !may_be_read(seen.table.row(tape).state) {
        return false;
    }
    if !site.is_in_reach(drive, tape) {
        return false;
    }
    if !seen.is_free(tape) {
        return false;
    }
    fits_in(seen.room, sums)
}

// The first tape that is in use on which a pool's queue may be written.
fn used_tape(
    site: &SiteIndex,
    seen: &SeenParts,
    drive: u32,
    pool: u32,
    sums: Option<Sums>,
) -> Option<u32>
    ensures { result ≡ find (λ tape. nat_lt 0 (row_in seen.now.space.tapes tape).used && may_write_told site.now seen.now drive pool sums tape) (all_tapes site.now) }
{
    site.site().keeps_rules();
    let count = site.site().tapes().len() as u32;
    (0..count).find(|tape| {
        seen.table.row(*tape).used > 0 && may_write(site, seen, drive, pool, sums, *tape)
    })
}

// The first tape on which a pool's queue may be written.
fn any_tape(
    site: &SiteIndex,
    seen: &SeenParts,
    drive: u32,
    pool: u32,
    sums: Option<Sums>,
) -> Option<u32>
    ensures { result ≡ find (may_write_told site.now seen.now drive pool sums) (all_tapes site.now) }
{
    site.site().keeps_rules();
    let count = site.site().tapes().len() as u32;
    (0..count).find(|tape| may_write(site, seen, drive, pool, sums, *tape))
}

// The first tape on which a pool's queue may be written: those in use first, then by VID.
fn tape_of_pool(
    site: &SiteIndex,
    seen: &SeenParts,
    drive: u32,
    pool: u32,
    sums: Option<Sums>,
) -> Option<u32>
    ensures { result ≡ tape_of_pool_told site.now seen.now drive pool sums }
{
    match used_tape(site, seen, drive, pool, sums) {
        Some(tape) => Some(tape),
        None => any_tape(site, seen, drive, pool, sums),
    }
}

// The tape that a drive mounts for a queue with these sums, None where there is none.
pub(crate) fn tape_for(
    site: &SiteIndex,
    seen: &SeenParts,
    at: u64,
    drive: u32,
    direction: Direction,
    key: u32,
    sums: Option<Sums>,
) -> Option<u32>
    ensures { result ≡ tape_for_told site.now seen.now at drive direction key sums }
{
    match direction {
        Direction::Archive => tape_of_pool(site, seen, drive, key, sums),
        Direction::Retrieve => {
            if may_read(site, seen, at, drive, sums, key) {
                Some(key)
            } else {
                None
            }
        }
    }
}
