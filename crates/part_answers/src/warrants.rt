// Whether a queue is warranted, and whether its virtual organisation (VO) has quota left.
ghost use Rattle.std.specs.Prelude.{◌≡◌, ◌+◌, ◌*◌, Some, nat_le};
ghost use Rattle.cta_model.specs.Choice as said;
ghost use Rattle.part_laws.specs.Choices.{quota_told};

use crate::seen_parts::SeenParts;
use cta_model::{Direction, Sums};
use site_index::SiteIndex;

// Whether a number is at least the threshold, taken once and so many times more.
fn reaches(number: u64, more: usize, threshold: u64) -> bool
    ensures { result ≡ nat_le ((more + 1) * threshold) number }
{
    (more as u128 + 1) * threshold as u128 <= number as u128
}

// Whether a moment is at least so many seconds after another one.
fn is_past(born: u64, age: u64, at: u64) -> bool
    ensures { result ≡ nat_le (born + age) at }
{
    born as u128 + age as u128 <= at as u128
}

// How many bytes of a queue warrant one mount.
fn bytes_threshold(site: &SiteIndex, direction: Direction) -> u64
    ensures { result ≡ said.bytes_threshold site.now direction }
{
    let limits = site.site().limits();
    match direction {
        Direction::Archive => limits.archive_bytes,
        Direction::Retrieve => limits.retrieve_bytes,
    }
}

// How many files of a queue warrant one mount.
fn files_threshold(site: &SiteIndex, direction: Direction) -> u32
    ensures { result ≡ said.files_threshold site.now direction }
{
    let limits = site.site().limits();
    match direction {
        Direction::Archive => limits.archive_files,
        Direction::Retrieve => limits.retrieve_files,
    }
}

// Whether a queue with these sums, whose key has so many open mounts, is warranted at a moment.
pub(crate) fn is_warranted(
    site: &SiteIndex,
    at: u64,
    direction: Direction,
    mounts: usize,
    sums: &Sums,
) -> bool
    ensures { result ≡ said.is_warranted_by site.now at direction mounts (Some sums.now) }
{
    if reaches(sums.bytes, mounts, bytes_threshold(site, direction)) {
        return true;
    }
    if reaches(
        sums.files as u64,
        mounts,
        files_threshold(site, direction) as u64,
    ) {
        return true;
    }
    mounts == 0 && is_past(sums.born, sums.age, at)
}

// The VO of a key: that of the pool, or of the tape's pool.
fn vo_of_key(site: &SiteIndex, direction: Direction, key: u32) -> u32
    ensures { result ≡ said.vo_of_key site.now direction key }
{
    match direction {
        Direction::Archive => site.vo_of_pool(key),
        Direction::Retrieve => site.vo_of_pool(site.pool_of_tape(key)),
    }
}

// Whether the VO of a key has fewer open mounts in the direction than its quota.
pub(crate) fn has_quota_left(
    site: &SiteIndex,
    seen: &SeenParts,
    direction: Direction,
    key: u32,
) -> bool
    ensures { result ≡ quota_told site.now seen.now direction (said.vo_of_key site.now direction key) }
{
    let vo = vo_of_key(site, direction, key);
    seen.counts.has_room(site.site(), vo, direction)
}
