// Crashes in the midst of a call and behind it.

use crate::calls::{Came, claim, kept, next, opened, put};
use crate::site::Blank;
use cta_model::{Direction, Job};
use durable_archive::{CloseCause, Logged};
use journal_disks::MemDisk;
use std::alloc::Global;
use std::hash::RandomState;
use std::random::RandomSource;
use std::test::Fail;

// What is there behind a crash.
fn found_behind<R: RandomSource>(alloc: Global, rt: &R, disk: &MemDisk) -> Option<(usize, u64)> {
    let keys = RandomState::new(rt).ok()?;
    let again = opened(alloc, keys, disk.crashed(), &[])?;
    let found = kept(&again);
    drop(again.end());
    Some(found)
}

// What came of a Put where this call of the disk fails, and what is there behind a crash.
fn put_and_crash<R: RandomSource>(
    alloc: Global,
    rt: &R,
    failing: u64,
) -> Option<(Came, (usize, u64))> {
    let keys = RandomState::new(rt).ok()?;
    let mut logged = opened(alloc, keys, &[], &[failing])?;
    let came = put(alloc, &mut logged, "/atlas/a");
    let disk = logged.end();
    let found = found_behind(alloc, rt, &disk);
    drop(disk);
    Some((came?, found?))
}

// The opening of an empty disk makes four calls: a sync, a read, a write and a sync. An append makes four more.
#[test]
fn a_crash_leaves_the_put_or_nothing(rt: HostRuntime) -> Result<(), Fail> {
    let alloc = rt.alloc();
    let closed = Came::Closed {
        cause: CloseCause::Disk { faults: 1 },
    };
    for failing in 5..=8u64 {
        assert_eq!(rt;
            put_and_crash(alloc, &rt, failing),
            Some((closed, (0, 0))),
            "{failing}"
        );
    }
    assert_eq!(rt; put_and_crash(alloc, &rt, 0), Some((Came::Added, (1, 5))));
    Ok(())
}

// What comes of two Puts where the first append fails: the second call adds nothing.
fn two_puts<R: RandomSource>(alloc: Global, rt: &R) -> Option<(Came, Came, (usize, u64))> {
    let keys = RandomState::new(rt).ok()?;
    let mut logged = opened(alloc, keys, &[], &[6])?;
    let first = put(alloc, &mut logged, "/atlas/a");
    let second = put(alloc, &mut logged, "/atlas/b");
    let found = kept(&logged);
    drop(logged.end());
    Some((first?, second?, found))
}

#[test]
fn a_closed_journal_takes_nothing_more(rt: HostRuntime) -> Result<(), Fail> {
    let closed = Came::Closed {
        cause: CloseCause::Disk { faults: 1 },
    };
    assert_eq!(rt; two_puts(rt.alloc(), &rt), Some((closed, closed, (1, 5))));
    Ok(())
}

// Whether the mount 2 is told to write the one job of the first file.
fn writes_the_file(logged: &Logged<Blank, MemDisk>) -> bool {
    let job = Job {
        birth: 1,
        file: 1,
        copy: 1,
    };
    match logged.archive().claimed(2) {
        Ok(Some((direction, jobs))) => {
            direction == Direction::Archive && jobs.as_slice() == [job].as_slice()
        }
        _ => false,
    }
}

// The same of the archive that is taken up behind a crash.
fn claimed_behind<R: RandomSource>(alloc: Global, rt: &R, disk: &MemDisk) -> Option<bool> {
    let keys = RandomState::new(rt).ok()?;
    let again = opened(alloc, keys, disk.crashed(), &[])?;
    let told = writes_the_file(&again);
    drop(again.end());
    Some(told)
}

// What is told of the mount 2 behind a Put, a Next and a Claim, where the archive was taken up again.
fn claimed_again<R: RandomSource>(alloc: Global, rt: &R) -> Option<bool> {
    let keys = RandomState::new(rt).ok()?;
    let mut logged = opened(alloc, keys, &[], &[])?;
    let first = put(alloc, &mut logged, "/atlas/a");
    let second = next(&mut logged);
    let third = claim(&mut logged, 2);
    let disk = logged.end();
    let told = claimed_behind(alloc, rt, &disk);
    drop(disk);
    let came = [first?, second?, third?];
    Some(told? && came == [Came::Added; 3])
}

#[test]
fn a_mount_keeps_its_claims_over_a_restart(rt: HostRuntime) -> Result<(), Fail> {
    assert_eq!(rt; claimed_again(rt.alloc(), &rt), Some(true));
    Ok(())
}
