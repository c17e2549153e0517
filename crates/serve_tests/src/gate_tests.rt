// Two links, served by two workers that meet at a gate.

use crate::gates::MeetingGate;
use crate::links::{ToldListener, no_calls};
use crate::site::served;
use archive_opening::Status;
use std::alloc::{AllocError, Global};
use std::hash::RandomState;
use std::test::Fail;
use told_links::{Counts, Tally, ToldLink, link_of};

const PUT: &str = "PUT /data/atlas/a HTTP/1.1\r\nHost: t\r\nContent-Length: 5\r\n\r\nhello";

const ASK: &str =
    "POST /api/v1/archiveinfo HTTP/1.1\r\nHost: t\r\nContent-Length: 22\r\n\r\n{\"paths\":[\"/atlas/a\"]}";

const PUT_AND_ASKED: &str =
    "HTTP/1.1 201 Created\r\nContent-Length: 0\r\n\r\nHTTP/1.1 200 OK\r\nContent-Type: application/json\r\nContent-Length: 39\r\n\r\n[{\"locality\":\"DISK\",\"path\":\"/atlas/a\"}]";

const ASK_X: &str =
    "POST /api/v1/archiveinfo HTTP/1.1\r\nHost: t\r\nContent-Length: 16\r\n\r\n{\"paths\":[\"/x\"]}";

const NO_X: &str =
    "HTTP/1.1 200 OK\r\nContent-Type: application/json\r\nContent-Length: 38\r\n\r\n[{\"error\":\"no such file\",\"path\":\"/x\"}]";

// How often workers are told to go on.
const ASKS: u64 = 10_000;

// A link that puts a file and asks where it lies, and one that asks for a file that isn't there.
pub(crate) fn two_links(alloc: Global, tally: &Tally) -> Result<Vec<ToldLink<'_>>, AllocError> {
    let mut links = Vec::new(alloc);
    links.push(link_of(alloc, &[PUT, ASK], PUT_AND_ASKED, tally)?)?;
    links.push(link_of(alloc, &[ASK_X], NO_X, tally)?)?;
    Ok(links)
}

#[test]
fn workers_serve_at_once(rt: HostRuntime) -> Result<(), Fail> {
    let alloc = rt.alloc();
    let keys = RandomState::new(&rt)?;
    let tally = Tally::new();
    let gate = MeetingGate::new(ASKS);
    let mut listener = ToldListener::new(
        two_links(alloc, &tally)?,
        Vec::new(alloc),
        no_calls(alloc)?,
    );
    let ended = served(&rt, alloc, keys, &mut listener, &gate)?;
    assert_eq!(rt; ended, (Status::Ok, Some(0)));
    assert_eq!(rt; tally.counts(), Counts::all_right(2));
    assert!(rt; gate.has_met());
    Ok(())
}
