use crate::site::valid_site;
use cta_model::{Direction, Item, Job, Sum256};
use cta_site::{NoMemory, Rows, SiteError};
use open_mounts::OpenMounts;
use part_model::OpenMount;
use std::alloc::Global;
use std::process::Abort;
use std::test::Fail;

// No mount on the drives of the small site.
fn no_mounts(alloc: Global) -> Result<OpenMounts, SiteError> {
    let site = valid_site(alloc)?;
    let mounts = OpenMounts::new(alloc, &site);
    drop(site);
    Ok(mounts?)
}

// One item of a batch.
fn batch(alloc: Global) -> Result<Rows<Item>, NoMemory> {
    let mut items = Rows::of(Vec::new(alloc));
    items.reserve(1)?;
    Ok(items)
}

// Opens a mount on a drive, where there is room and it is not open.
fn open(rt: &impl Abort, mounts: &mut OpenMounts, number: u32, drive: u32, direction: Direction) {
    assert!(rt; mounts.room() > 0 && mounts.find(number).is_none());
    mounts.open(OpenMount {
        number,
        drive,
        direction,
        tape: drive.saturating_add(10),
        key: 3,
        last: None,
    });
}

// How many mounts the key 3 has in each direction, and which drives have one.
fn compare(rt: &impl Abort, mounts: &OpenMounts, counts: [usize; 2], busy: [bool; 2]) {
    let counted = [
        mounts.count(Direction::Archive, 3),
        mounts.count(Direction::Retrieve, 3),
    ];
    assert_eq!(rt; counted, counts);
    assert_eq!(rt; mounts.count(Direction::Archive, 4), 0);
    assert_eq!(rt; busy_drives(mounts), busy);
    assert_eq!(rt; mounts.of_tape(11).is_some(), busy[1]);
}

// Which drives have a mount.
fn busy_drives(mounts: &OpenMounts) -> [bool; 2] {
    [mounts.of_drive(0).is_some(), mounts.of_drive(1).is_some()]
}

// Whether a mount has claimed something.
fn has_claimed(mounts: &OpenMounts, mount: u32) -> Option<bool> {
    mounts.find(mount).map(|row| row.last.is_some())
}

// A mount claims, and no other does.
fn claim(rt: &impl Abort, mounts: &mut OpenMounts, items: Rows<Item>) {
    mounts.claim(8, items);
    let claimed = [has_claimed(mounts, 5), has_claimed(mounts, 8)];
    assert_eq!(rt; claimed, [Some(false), Some(true)]);
}

// A drive goes down and comes up.
fn turn(rt: &impl Abort, mounts: &mut OpenMounts) {
    assert_eq!(rt; mounts.drives(), 2);
    mounts.set_down(1);
    assert!(rt; mounts.is_down(1) && !mounts.is_down(0));
    mounts.set_up(1);
    assert!(rt; !mounts.is_down(1));
}

// Two mounts open.
fn begin(rt: &impl Abort, mounts: &mut OpenMounts) {
    open(rt, mounts, 5, 0, Direction::Archive);
    open(rt, mounts, 8, 1, Direction::Retrieve);
    compare(rt, mounts, [1, 1], [true, true]);
}

// The first mount ends.
fn finish(rt: &impl Abort, mounts: &mut OpenMounts) {
    mounts.end(5);
    compare(rt, mounts, [0, 1], [false, true]);
    assert_eq!(rt; has_claimed(mounts, 5), None);
}

// Each call once.
fn play(rt: &impl Abort, alloc: Global, mounts: &mut OpenMounts) -> Result<(), NoMemory> {
    let items = batch(alloc)?;
    mounts.reserve(2)?;
    begin(rt, mounts);
    turn(rt, mounts);
    claim(rt, mounts, items);
    finish(rt, mounts);
    Ok(())
}

#[test]
fn mounts_open_and_end(rt: HostRuntime) -> Result<(), Fail> {
    let mut mounts = no_mounts(rt.alloc())?;
    play(&rt, rt.alloc(), &mut mounts)?;
    Ok(())
}
