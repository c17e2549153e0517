// The candidates of a drive, and their first.
ghost use Rattle.std.specs.Prelude.{◌≡◌, ◌++◌, ◌<◌, ◌≤◌, length, option_to_list, IfOk, OnOk};
ghost use Rattle.std.specs.List.{flat_map, range_with_len};
ghost use Rattle.part_laws.specs.Choices.{candidate_told, candidate_with, candidates_told, choice_told, fits_told, lines_told, sums_told};

use crate::choice::first_of;
use crate::seen_parts::SeenParts;
use crate::tapes::tape_for;
use crate::warrants::{has_quota_left, is_warranted};
use cta_model::{Candidate, Direction, Sums};
use cta_site::NoMemory;
use site_index::SiteIndex;
use std::alloc::Global;

// The sums of the queue of a key, None where it is empty.
fn sums_of(seen: &SeenParts, direction: Direction, key: u32) -> Option<Sums>
    requires pools { direction ≡ Direction.Archive → key < length seen.now.pools }
    requires tapes { direction ≡ Direction.Retrieve → key < length seen.now.recalls }
    ensures { result ≡ sums_told seen.now direction key }
{
    match direction {
        Direction::Archive => seen.pools.sums(key),
        Direction::Retrieve => seen.recalls.sums(key),
    }
}

// The candidate of a key whose queue has these sums, None where the queue is not warranted or does not fit the drive.
fn candidate_with(
    site: &SiteIndex,
    seen: &SeenParts,
    at: u64,
    drive: u32,
    direction: Direction,
    key: u32,
    sums: Sums,
) -> Option<Candidate>
    ensures { option_to_list result ≡ candidate_with site.now seen.now at drive direction key (Some sums) }
{
    if !is_warranted(
        site,
        at,
        direction,
        seen.mounts.count(direction, key),
        &sums,
    ) {
        return None;
    }
    if !seen.is_idle(drive) {
        return None;
    }
    if !has_quota_left(site, seen, direction, key) {
        return None;
    }
    match tape_for(site, seen, at, drive, direction, key, Some(sums)) {
        None => None,
        Some(tape) => Some(Candidate {
            direction,
            key,
            tape,
            priority: sums.priority,
            birth: sums.oldest.birth,
        }),
    }
}

// The candidate of a key, None where its queue is not warranted or does not fit the drive.
fn candidate_of(
    site: &SiteIndex,
    seen: &SeenParts,
    at: u64,
    drive: u32,
    direction: Direction,
    key: u32,
) -> Option<Candidate>
    requires pools { direction ≡ Direction.Archive → key < length seen.now.pools }
    requires tapes { direction ≡ Direction.Retrieve → key < length seen.now.recalls }
    ensures { option_to_list result ≡ candidate_told site.now seen.now at drive direction key }
{
    match sums_of(seen, direction, key) {
        None => None,
        Some(sums) => candidate_with(site, seen, at, drive, direction, key, sums),
    }
}

// Adds a candidate, where there is one.
fn add_candidate(list: &mut Vec<Candidate>, candidate: Option<Candidate>) -> Result<(), NoMemory>
    ensures { OnOk result (list.new.items ≡ list.old.items ++ option_to_list candidate) }
{
    if let Some(candidate) = candidate {
        list.push(candidate)?;
    }
    Ok(())
}

// Adds the candidates of the keys of a direction below a number, in their order.
fn add_candidates(
    list: &mut Vec<Candidate>,
    site: &SiteIndex,
    seen: &SeenParts,
    at: u64,
    drive: u32,
    direction: Direction,
    keys: u32,
) -> Result<(), NoMemory>
    requires pools { direction ≡ Direction.Archive → keys ≤ length seen.now.pools }
    requires tapes { direction ≡ Direction.Retrieve → keys ≤ length seen.now.recalls }
    ensures { OnOk result (list.new.items ≡ list.old.items ++ flat_map (candidate_told site.now seen.now at drive direction) (range_with_len 0 keys)) }
{
    for key in 0..keys {
        add_candidate(list, candidate_of(site, seen, at, drive, direction, key))?;
    }
    Ok(())
}

// All candidates: those of the pools' queues, and then those of the tapes'. NoMemory leaves nothing.
fn candidates(
    alloc: Global,
    site: &SiteIndex,
    seen: &SeenParts,
    at: u64,
    drive: u32,
) -> Result<Vec<Candidate>, NoMemory>
    requires pools { length seen.now.pools ≡ length site.now.pools.items }
    requires tapes { length seen.now.recalls ≡ length site.now.tapes.items }
    ensures { IfOk result (λ list. list.items ≡ candidates_told site.now seen.now at drive) }
{
    site.site().keeps_rules();
    let pools = site.site().pools().len() as u32;
    let tapes = site.site().tapes().len() as u32;
    let mut list = Vec::new(alloc);
    add_candidates(&mut list, site, seen, at, drive, Direction::Archive, pools)?;
    add_candidates(&mut list, site, seen, at, drive, Direction::Retrieve, tapes)?;
    Ok(list)
}

/// What a drive of the site mounts next at a moment, in seconds since 1970: the first of all warranted queues that fit it,
/// None exactly where there is none. NoMemory answers nothing and changes nothing. Its cost is the number of pools and tapes,
/// and for each warranted pool's queue the number of tapes. CTA; thresholds, the demand of more for each open mount, and the
/// order of candidates are this project's own.
pub fn choose(
    alloc: Global,
    site: &SiteIndex,
    seen: &SeenParts,
    at: u64,
    drive: u32,
) -> Result<Option<Candidate>, NoMemory>
    requires pools { length seen.now.pools ≡ length site.now.pools.items }
    requires tapes { length seen.now.recalls ≡ length site.now.tapes.items }
    ensures { IfOk result (λ choice. choice ≡ choice_told site.now seen.now at drive) }
{
    let list = candidates(alloc, site, seen, at, drive)?;
    Ok(first_of(list.as_slice()))
}
