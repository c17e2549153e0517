// Asks and answers as a few numbers.
use cta_model::{
    Answer, Ask, FailedCopy, Fault, Item, Job, QueueInfo, StageInfo, TapeInfo, Wanted, Who,
};

/// The place of a variant, and then some of its members in their order, 0 where there are no more: a number itself, the place of a
/// choice, the length of a text or of a list, and of a sum its length.
pub type Numbers = [u64; 5];

/// Those of a variant with one member, or with none and 0.
pub fn one(place: u64, first: u64) -> Numbers {
    [place, first, 0, 0, 0]
}

fn by_caller(place: u64, who: &Who, first: u64, second: u64) -> Numbers {
    let requester = who.requester.as_bytes().len() as u64;
    let group = who.group.as_bytes().len() as u64;
    [place, requester, group, first, second]
}

fn last_lifetime(files: &[Wanted]) -> u64 {
    match files.last() {
        Some(file) => file.lifetime.unwrap_or(0),
        None => 0,
    }
}

// Two lengths or numbers, and the fSeq and the sum of the first item.
fn with_item(place: u64, first: u64, second: u64, items: &[Item]) -> Numbers {
    match items.first() {
        Some(item) => [place, first, second, u64::from(item.fseq), item.sum.len],
        None => [place, first, second, 0, 0],
    }
}

fn recalled_numbers(mount: u32, job: &Job) -> Numbers {
    let (birth, file, copy) = (job.birth, job.file, job.copy);
    [
        9,
        u64::from(mount),
        u64::from(birth),
        u64::from(file),
        u64::from(copy),
    ]
}

fn fault_place(fault: &Fault) -> u64 {
    match fault {
        Fault::Load => 0,
        Fault::Write => 1,
        Fault::Flush => 2,
        Fault::Read => 3,
        Fault::Unload => 4,
        Fault::Mismatch { .. } => 5,
    }
}

fn failed_numbers(mount: u32, fault: &Fault, charged: usize, returned: usize) -> Numbers {
    let fault = fault_place(fault);
    [10, u64::from(mount), fault, charged as u64, returned as u64]
}

// The mount, whether there is a fault, and its place or its two sums.
fn end_numbers(mount: u32, fault: &Option<Fault>) -> Numbers {
    let mount = u64::from(mount);
    match fault {
        None => [11, mount, 0, 0, 0],
        Some(Fault::Mismatch { found, wanted }) => [11, mount, 1, found.len, wanted.len],
        Some(fault) => [11, mount, 1, fault_place(fault), 0],
    }
}

/// Those of an ask.
pub fn ask_numbers(ask: &Ask) -> Numbers {
    match ask {
        Ask::Put { who, path, sum } => by_caller(0, who, path.as_bytes().len() as u64, sum.len),
        Ask::Delete { who, path } => by_caller(1, who, path.as_bytes().len() as u64, 0),
        Ask::Stage { who, files } => {
            by_caller(2, who, files.len() as u64, last_lifetime(files.as_slice()))
        }
        Ask::Cancel { who, id, paths } => by_caller(3, who, u64::from(*id), paths.len() as u64),
        Ask::DropStage { who, id } => by_caller(4, who, u64::from(*id), 0),
        Ask::Release { who, id, paths } => by_caller(5, who, u64::from(*id), paths.len() as u64),
        Ask::Next { drive } => one(6, u64::from(*drive)),
        Ask::Claim { mount } => one(7, u64::from(*mount)),
        Ask::Flushed { mount, items } => {
            with_item(8, u64::from(*mount), items.len() as u64, items.as_slice())
        }
        Ask::Recalled { mount, job } => recalled_numbers(*mount, job),
        Ask::Failed {
            mount,
            fault,
            charged,
            returned,
        } => failed_numbers(*mount, fault, charged.len(), returned.len()),
        Ask::End { mount, fault } => end_numbers(*mount, fault),
        Ask::DriveUp { who, drive } => by_caller(12, who, u64::from(*drive), 0),
        Ask::DriveDown { who, drive } => by_caller(13, who, u64::from(*drive), 0),
        Ask::TapeState { who, tape, state } => by_caller(14, who, u64::from(*tape), *state as u64),
        Ask::Reclaim { who, tape } => by_caller(15, who, u64::from(*tape), 0),
        Ask::Repack { who, tape } => by_caller(16, who, u64::from(*tape), 0),
        Ask::Retry { who, paths } => by_caller(17, who, paths.len() as u64, 0),
    }
}

fn stored_numbers(evicted: &[u32]) -> Numbers {
    match evicted {
        [first, second] => [0, 2, u64::from(*first), u64::from(*second), 0],
        _ => one(0, evicted.len() as u64),
    }
}

fn stage_numbers(info: &StageInfo) -> Numbers {
    let started = info.started_at.unwrap_or(0);
    let completed = info.completed_at.unwrap_or(0);
    [14, u64::from(info.id), info.created_at, started, completed]
}

// The number of copies, and of the first its copy and the number of its errors.
fn failed_seen_numbers(copies: &[FailedCopy]) -> Numbers {
    let count = copies.len() as u64;
    match copies.first() {
        Some(copy) => [17, count, u64::from(copy.copy), copy.errors.len() as u64, 0],
        None => one(17, count),
    }
}

fn tape_numbers(info: &TapeInfo) -> Numbers {
    let (files, next) = (u64::from(info.files), u64::from(info.next_fseq));
    [18, info.state as u64, info.used, files, next]
}

// The number of queues, and of the first its files, its bytes and its oldest.
fn queue_numbers(queues: &[QueueInfo]) -> Numbers {
    let count = queues.len() as u64;
    match queues.first() {
        Some(queue) => [19, count, u64::from(queue.files), queue.bytes, queue.oldest],
        None => one(19, count),
    }
}

fn mounted_numbers(mount: u32, direction: u64, tape: u32) -> Numbers {
    [3, u64::from(mount), direction, u64::from(tape), 0]
}

/// Those of an answer.
pub fn answer_numbers(answer: &Answer) -> Numbers {
    match answer {
        Answer::Stored { evicted } => stored_numbers(evicted.as_slice()),
        Answer::Done => one(1, 0),
        Answer::Staged { id } => one(2, u64::from(*id)),
        Answer::Mounted {
            mount,
            direction,
            tape,
        } => mounted_numbers(*mount, *direction as u64, *tape),
        Answer::Idle => one(4, 0),
        Answer::DriveDown => one(5, 0),
        Answer::DriveBusy => one(6, 0),
        Answer::Batch { items, evicted } => {
            with_item(
                7,
                items.len() as u64,
                evicted.len() as u64,
                items.as_slice(),
            )
        }
        Answer::Nothing => one(8, 0),
        Answer::Told { fates } => one(9, fates.len() as u64),
        Answer::Arrived { fate } => one(10, *fate as u64),
        Answer::Repacking { id, items } => [11, u64::from(*id), items.len() as u64, 0, 0],
        Answer::Retried { jobs } => one(12, jobs.len() as u64),
        Answer::Bytes { sum } => one(13, sum.len),
        Answer::Stage(info) => stage_numbers(info),
        Answer::Places(places) => one(15, places.len() as u64),
        Answer::RepackSeen(info) => [16, u64::from(info.id), info.items.len() as u64, 0, 0],
        Answer::FailedSeen(copies) => failed_seen_numbers(copies.as_slice()),
        Answer::TapeSeen(info) => tape_numbers(info),
        Answer::QueuesSeen(queues) => queue_numbers(queues.as_slice()),
        Answer::Refused(refusal) => one(20, *refusal as u64),
    }
}
