// Calls of an archive that keeps a journal on a disk in memory.
ghost use Rattle.std.specs.Prelude.{◌≡◌, length};

use crate::site::{Blank, media_of, site_of};
use archive_turns::{ArchiveBack, ArchiveCall};
use blob::Blob;
use cta_model::{Answer, Ask, Hand, Text, Who};
use durable_archive::{CloseCause, Logged, LoggedBack, ReopenError, reopen};
use journal_disks::{MemDisk, Tear};
use std::alloc::Global;
use std::hash::RandomState;
use std::sync::Arc;

/// What came of a call.
#[derive(Clone, Copy, Debug, PartialEq, Eq)]
pub enum Came {
    Added,
    Refused,
    Closed { cause: CloseCause },
    NoMemory,
}

fn text(alloc: Global, text: &str) -> Option<Text> {
    Some(Text::of(String::from_str(alloc, text).ok()?))
}

fn somebody(alloc: Global) -> Option<Who> {
    let requester = text(alloc, "ab")?;
    let group = text(alloc, "")?;
    Some(Who { requester, group })
}

fn hello(alloc: Global) -> Option<Arc<Blob, Global>> {
    let blob = Blob::of(Vec::from_slice(alloc, b"hello").ok()?).ok()?;
    Arc::new(alloc, blob).ok()
}

/// An archive that was taken up from a disk of these bytes, which fails at the calls of these numbers.
#[tactic(auto, using(crate::proofs::OneTape::one_medium))]
pub fn opened(
    alloc: Global,
    keys: RandomState,
    bytes: &[u8],
    failing: &[u64],
) -> Option<Logged<Blank, MemDisk>> {
    let bytes = Vec::from_slice(alloc, bytes).ok()?;
    let failing = Vec::from_slice(alloc, failing).ok()?;
    let disk = MemDisk::new(alloc, bytes, failing, Tear { whole: 0, fill: 7 }).ok()?;
    let media = media_of(alloc)?;
    let site = site_of(alloc)?;
    match reopen(alloc, site, disk, media, keys) {
        Ok((logged, mounts)) => {
            drop(mounts);
            Some(logged)
        }
        Err(error) => {
            drop(error);
            None
        }
    }
}

fn what_came(back: LoggedBack<Blank>) -> Came {
    match back {
        LoggedBack::Answered(ArchiveBack::Ask(Ok((answer, hand)))) => {
            drop(hand);
            match answer {
                Answer::Refused(_) | Answer::Nothing | Answer::Idle => Came::Refused,
                _ => Came::Added,
            }
        }
        LoggedBack::Answered(back) => {
            drop(back);
            Came::NoMemory
        }
        LoggedBack::Closed { cause, hand, .. } => {
            drop(hand);
            Came::Closed { cause }
        }
    }
}

/// Puts `hello` under this path.
pub fn put(alloc: Global, logged: &mut Logged<Blank, MemDisk>, path: &str) -> Option<Came> {
    let who = somebody(alloc)?;
    let path = text(alloc, path)?;
    let blob = hello(alloc)?;
    let sum = blob.sum();
    let ask = Ask::Put { who, path, sum };
    Some(what_came(logged.call(ArchiveCall::Ask {
        at: 100,
        ask,
        hand: Hand::Blob(blob),
    })))
}

/// Asks what the first drive is to mount.
pub fn next(logged: &mut Logged<Blank, MemDisk>) -> Option<Came> {
    if logged.archive().site().drives().len() < 1 {
        return None;
    }
    Some(what_came(logged.call(ArchiveCall::Ask {
        at: 110,
        ask: Ask::Next { drive: 0 },
        hand: Hand::Nothing,
    })))
}

/// Claims for a mount, where it is open.
pub fn claim(logged: &mut Logged<Blank, MemDisk>, mount: u32) -> Option<Came> {
    if logged.archive().mount(mount).is_none() {
        return None;
    }
    Some(what_came(logged.call(ArchiveCall::Ask {
        at: 110,
        ask: Ask::Claim { mount },
        hand: Hand::Nothing,
    })))
}

/// How many entries there are, and how many bytes the content of the first file has.
pub fn kept(logged: &Logged<Blank, MemDisk>) -> (usize, u64) {
    let size = match logged.archive().content(1) {
        Some(blob) => blob.sum().len,
        None => 0,
    };
    (logged.archive().entries().len(), size)
}
