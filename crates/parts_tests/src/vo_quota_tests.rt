use crate::site::valid_site;
use cta_model::Direction;
use cta_site::{NoMemory, ValidSite};
use open_mounts::VoQuota;
use std::alloc::Global;
use std::process::Abort;
use std::test::Fail;

// What is open to the second VO, and what to the others.
fn compare(rt: &impl Abort, quota: &VoQuota, site: &ValidSite, write: bool, read: bool) {
    let second = [
        quota.has_room(site, 1, Direction::Archive),
        quota.has_room(site, 1, Direction::Retrieve),
    ];
    assert_eq!(rt; second, [write, read]);
    let others = [
        quota.has_room(site, 0, Direction::Archive),
        quota.has_room(site, 0, Direction::Retrieve),
        quota.has_room(site, 2, Direction::Archive),
    ];
    assert_eq!(rt; others, [true, false, false]);
}

// Opens a mount of the second VO where its count is as it should be, and compares the count.
fn open(rt: &impl Abort, quota: &mut VoQuota, direction: Direction, count: u32) {
    assert!(rt; quota.count(1, direction) == count && quota.knows(1) && count < 9);
    quota.open_mount(1, direction);
}

// The second VO may write with two drives and read with one: its quota fills.
fn fill(rt: &impl Abort, quota: &mut VoQuota, site: &ValidSite) {
    compare(rt, quota, site, true, true);
    open(rt, quota, Direction::Archive, 0);
    compare(rt, quota, site, true, true);
    open(rt, quota, Direction::Archive, 1);
    compare(rt, quota, site, false, true);
    open(rt, quota, Direction::Retrieve, 0);
    compare(rt, quota, site, false, false);
}

// Its quota empties.
fn empty(rt: &impl Abort, quota: &mut VoQuota, site: &ValidSite) {
    quota.end_mount(1, Direction::Archive);
    compare(rt, quota, site, true, false);
    quota.end_mount(1, Direction::Retrieve);
    quota.end_mount(1, Direction::Retrieve);
    compare(rt, quota, site, true, true);
}

// Both, where there is memory for the quota.
fn play(rt: &impl Abort, alloc: Global, site: &ValidSite) -> Result<(), NoMemory> {
    let mut quota = VoQuota::new(alloc, site)?;
    fill(rt, &mut quota, site);
    empty(rt, &mut quota, site);
    Ok(())
}

#[test]
fn a_quota_fills_and_empties(rt: HostRuntime) -> Result<(), Fail> {
    let site = valid_site(rt.alloc())?;
    let played = play(&rt, rt.alloc(), &site);
    drop(site);
    Ok(played?)
}
