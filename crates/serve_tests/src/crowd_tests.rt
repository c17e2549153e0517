// More links than a pool has room for.

use crate::gates::LateGate;
use crate::links::{ToldListener, no_calls};
use crate::site::served;
use archive_opening::Status;
use std::alloc::{AllocError, Global};
use std::hash::RandomState;
use std::sync::Arc;
use std::test::Fail;
use told_links::{Counts, Tally, ToldLink, link_of};

const ASK_X: &str =
    "POST /api/v1/archiveinfo HTTP/1.1\r\nHost: t\r\nContent-Length: 16\r\n\r\n{\"paths\":[\"/x\"]}";

const NO_X: &str =
    "HTTP/1.1 200 OK\r\nContent-Type: application/json\r\nContent-Length: 38\r\n\r\n[{\"error\":\"no such file\",\"path\":\"/x\"}]";

const BUSY: &str =
    "HTTP/1.1 503 Service Unavailable\r\nContent-Type: application/json\r\nContent-Length: 16\r\nConnection: close\r\n\r\n{\"error\":\"busy\"}";

// How many links there are, and how many a pool has room for.
const LINKS: u64 = 70;

const ROOM: u64 = 64;

// Links that ask for a file that isn't there: those that find room are to be answered, and the others are to be told that the server is busy.
fn links_of(alloc: Global, tally: &Tally) -> Result<Vec<ToldLink<'_>>, AllocError> {
    let mut links = Vec::new(alloc);
    for number in 0..LINKS {
        let due = if number < ROOM { NO_X } else { BUSY };
        links.push(link_of(alloc, &[ASK_X], due, tally)?)?;
    }
    Ok(links)
}

#[test]
fn links_without_room_are_told(rt: HostRuntime) -> Result<(), Fail> {
    let alloc = rt.alloc();
    let keys = RandomState::new(&rt)?;
    let tally = Tally::new();
    let asked = no_calls(alloc)?;
    let gate = LateGate {
        asked: Arc::clone(&asked)?,
        calls: LINKS + 1,
    };
    let links = links_of(alloc, &tally)?;
    let mut listener = ToldListener::new(links, Vec::new(alloc), asked);
    let ended = served(&rt, alloc, keys, &mut listener, &gate)?;
    assert_eq!(rt; ended, (Status::Ok, Some(0)));
    assert_eq!(rt; tally.counts(), Counts::all_right(LINKS));
    Ok(())
}
