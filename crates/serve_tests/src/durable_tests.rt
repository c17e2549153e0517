// A server that keeps a journal, on a disk in memory.

use crate::gate_tests::two_links;
use crate::gates::MeetingGate;
use crate::links::{ToldListener, no_calls};
use crate::site::{site_source, words_of};
use archive_opening::Status;
use cta_site::Text;
use durable_server::NoAlarm;
use durable_site::durable_top;
use file_media::FileBench;
use journal_disks::{MemDisk, Tear};
use outside::ListClock;
use std::alloc::{AllocError, Global};
use std::hash::RandomState;
use std::random::RandomSource;
use std::sync::Wait;
use std::test::Fail;
use std::thread::Threads;
use told_links::{Counts, Tally, ToldLink, link_of};

const ASK: &str =
    "POST /api/v1/archiveinfo HTTP/1.1\r\nHost: t\r\nContent-Length: 22\r\n\r\n{\"paths\":[\"/atlas/a\"]}";

const ON_DISK: &str =
    "HTTP/1.1 200 OK\r\nContent-Type: application/json\r\nContent-Length: 39\r\n\r\n[{\"locality\":\"DISK\",\"path\":\"/atlas/a\"}]";

// How often workers are told to go on.
const ASKS: u64 = 10_000;

// Serves links at moment 100, with two workers, over a disk that holds these bytes and fails at these calls: the status, and the bytes that the disk
// holds then. The drives are over a folder that isn't there, and nothing is old enough to be written.
fn served_on<R: Threads + Wait + Sync + RandomSource>(
    rt: &R,
    files: &HostRuntime,
    alloc: Global,
    links: Vec<ToldLink<'_>>,
    bytes: &[u8],
    failing: &[u64],
) -> Result<(Status, Vec<u8>), Fail> {
    let words = words_of(
        alloc,
        &["durable", "site", "host:1", "media", "2", "journal"],
    )?;
    let mut site = site_source(alloc)?;
    let disk = MemDisk::new(
        alloc,
        Vec::from_slice(alloc, bytes)?,
        Vec::from_slice(alloc, failing)?,
        Tear { whole: 0, fill: 7 },
    )?;
    let folder = Text::of(String::from_str(alloc, "/nowhere")?);
    let mut bench = FileBench::new(alloc, files, folder);
    let gate = MeetingGate::new(ASKS);
    let mut listener = ToldListener::new(links, Vec::new(alloc), no_calls(alloc)?);
    let (status, disk) = durable_top(
        rt,
        alloc,
        &words,
        &mut site,
        &mut listener,
        disk,
        &mut bench,
        ListClock::new(&[100]),
        &gate,
        &NoAlarm,
        RandomState::new(rt)?,
    );
    let kept = match &disk {
        Some(disk) => Vec::from_slice(alloc, disk.bytes())?,
        None => Vec::new(alloc),
    };
    Ok((status, kept))
}

// One link that asks where the file lies.
fn one_link(alloc: Global, tally: &Tally) -> Result<Vec<ToldLink<'_>>, AllocError> {
    let mut links = Vec::new(alloc);
    links.push(link_of(alloc, &[ASK], ON_DISK, tally)?)?;
    Ok(links)
}

#[test]
fn a_file_is_there_after_a_restart(rt: HostRuntime) -> Result<(), Fail> {
    let alloc = rt.alloc();
    let tally = Tally::new();
    let first = served_on(&rt, &rt, alloc, two_links(alloc, &tally)?, &[], &[])?;
    assert_eq!(rt; first.0, Status::Ok);
    assert_eq!(rt; first.1.len(), 107);
    let again = served_on(&rt, &rt, alloc, one_link(alloc, &tally)?, &first.1, &[])?;
    assert_eq!(rt; again, (Status::Ok, first.1));
    assert_eq!(rt; tally.counts(), Counts::all_right(3));
    Ok(())
}

// The opening of an empty disk makes four calls, so the fifth is the first of the append of the PUT.
#[test]
fn a_put_that_is_not_kept_is_not_answered(rt: HostRuntime) -> Result<(), Fail> {
    let alloc = rt.alloc();
    let tally = Tally::new();
    let (status, _kept) = served_on(&rt, &rt, alloc, two_links(alloc, &tally)?, &[], &[5])?;
    assert_eq!(rt; status, Status::JournalFault);
    let counts = tally.counts();
    assert_eq!(rt; counts.closed, 2);
    assert_eq!(rt; counts.right.saturating_add(counts.cut), 2);
    assert!(rt; counts.cut >= 1);
    Ok(())
}

// A file that is no journal: at its first gate, which is open, no record begins.
#[test]
fn a_damaged_journal_is_named_and_kept(rt: HostRuntime) -> Result<(), Fail> {
    let alloc = rt.alloc();
    let tally = Tally::new();
    let bytes = [1u8, 2, 3, 4, 5, 6, 7, 8, 9, 10];
    let ended = served_on(&rt, &rt, alloc, Vec::new(alloc), &bytes, &[])?;
    assert_eq!(rt;
        ended,
        (
            Status::JournalDamaged { offset: 0 },
            Vec::from_slice(alloc, &bytes)?
        )
    );
    assert_eq!(rt; tally.counts(), Counts::all_right(0));
    Ok(())
}
