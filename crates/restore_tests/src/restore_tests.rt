// Logs that are taken up, and logs that are wrong.
ghost use Rattle.std.specs.Prelude.{◌≡◌, length};

use crate::logs::{blob_of, day, who_of};
use crate::site::{media_of, site_of};
use archive_restore::{RestoreError, restore};
use cta_model::Actor;
use cta_records::Kept;
use std::alloc::Global;
use std::hash::RandomState;
use std::test::Fail;

// What came of a log: how many entries there are, and which mounts are open; or why there is no archive.
#[derive(Clone, Copy, Debug, PartialEq, Eq)]
enum Came {
    Up {
        entries: usize,
        mounts: usize,
        first: u32,
    },
    Wrong {
        entry: u32,
    },
    NoMemory,
}

#[tactic(auto, using(crate::proofs::OneTape::one_medium))]
fn taken(alloc: Global, log: Vec<Kept>, keys: RandomState) -> Option<Came> {
    let site = site_of(alloc)?;
    let media = media_of(alloc)?;
    match restore(alloc, site, log, media, keys) {
        Ok((archive, mounts)) => {
            let entries = archive.entries().len();
            let first = match mounts.first() {
                Some((number, _)) => *number,
                None => 0,
            };
            let mounts = mounts.len();
            archive.let_go();
            Some(Came::Up {
                entries,
                mounts,
                first,
            })
        }
        Err(RestoreError::Differs { entry }) => Some(Came::Wrong { entry }),
        Err(RestoreError::NoMemory) => Some(Came::NoMemory),
    }
}

// A way to make a record wrong.
#[derive(Clone, Copy, Debug)]
enum Change {
    Moment(u64),
    Nobody,
    Drive(u32),
    NoContent,
    Content,
}

fn changed(alloc: Global, kept: Kept, change: Change) -> Option<Kept> {
    let mut kept = kept;
    match change {
        Change::Moment(at) => kept.entry.at = at,
        Change::Nobody => kept.entry.actor = Actor::Caller(who_of(alloc, "").ok()?),
        Change::Drive(drive) => kept.entry.actor = Actor::Drive(drive),
        Change::NoContent => kept.blob = None,
        Change::Content => kept.blob = Some(blob_of(alloc, b"hallo").ok()?),
    }
    Some(kept)
}

// The first so many records of the day, the last of them changed.
fn changed_day(alloc: Global, count: usize, change: Change) -> Option<Vec<Kept>> {
    let mut log = day(alloc, count).ok()?;
    let last = log.pop()?;
    log.push(changed(alloc, last, change)?).ok()?;
    Some(log)
}

#[test]
fn fronts_of_a_day_are_taken_up(rt: HostRuntime) -> Result<(), Fail> {
    let alloc = rt.alloc();
    for count in 0..=5usize {
        let keys = RandomState::new(&rt)?;
        let came = day(alloc, count)
            .ok()
            .and_then(|log| taken(alloc, log, keys));
        let mounts = if count >= 2 && count <= 4 { 1 } else { 0 };
        let first = if mounts == 1 { 2 } else { 0 };
        assert_eq!(rt;
            came,
            Some(Came::Up {
                entries: count,
                mounts,
                first
            }),
            "{count}"
        );
    }
    Ok(())
}

#[test]
fn wrong_records_are_named(rt: HostRuntime) -> Result<(), Fail> {
    let alloc = rt.alloc();
    let cases = [
        (1usize, Change::Moment(253_402_300_800)),
        (1, Change::Nobody),
        (1, Change::Drive(0)),
        (1, Change::NoContent),
        (1, Change::Content),
        (2, Change::Moment(99)),
        (2, Change::Drive(1)),
        (3, Change::Content),
        (5, Change::Moment(109)),
    ];
    for (count, change) in cases {
        let keys = RandomState::new(&rt)?;
        let came = changed_day(alloc, count, change).and_then(|log| taken(alloc, log, keys));
        assert_eq!(rt;
            came,
            Some(Came::Wrong {
                entry: count as u32
            }),
            "{change:?}"
        );
    }
    Ok(())
}
