// Links of a listener in memory, accepted and served over contents.

use crate::{Contents, Counter};
use link_crew::{accept_all, no_links_are_asked, say_busy, serve_rest};
use link_pool::{Pool, PoolPass};
use outside::{ListClock, MemLink, MemListener};
use std::alloc::{AllocError, Global};
use std::sync::Wait;
use std::test::Fail;
use turn_hall::{Hall, Pass};

const PUT: &str = "PUT /a HTTP/1.1\r\nHost: t\r\nContent-Length: 5\r\n\r\nhello";

const BUSY: &str =
    "HTTP/1.1 503 Service Unavailable\r\nContent-Type: application/json\r\nContent-Length: 16\r\nConnection: close\r\n\r\n{\"error\":\"busy\"}";

// A link with one request.
fn link_of(alloc: Global) -> Result<MemLink, AllocError> {
    let mut bytes = Vec::new(alloc);
    bytes.extend_from_slice(PUT.as_bytes())?;
    Ok(MemLink::new(alloc, bytes, Vec::new(alloc), Vec::new(alloc)))
}

// A listener of three links.
fn listener_of(alloc: Global) -> Result<MemListener<MemLink>, AllocError> {
    let mut links = Vec::new(alloc);
    links.push(link_of(alloc)?)?;
    links.push(link_of(alloc)?)?;
    links.push(link_of(alloc)?)?;
    Ok(MemListener::new(links, Vec::new(alloc)))
}

// Accepts three links for a pool of two places and one of one, and serves those of the first. How many were left unserved, how many
// contents were put, and the link that found no room.
fn accepted(rt: &impl Wait, alloc: Global) -> Option<(u64, usize, MemLink)> {
    let (hall, mut pass) = Hall::new(alloc, Contents::new(alloc, 10), 1).ok()?;
    let (pool, mut door) = Pool::new(alloc, 2).ok()?;
    let (full, mut full_door) = Pool::new(alloc, 1).ok()?;
    let mut listener = listener_of(alloc).ok()?;
    accept_all(rt, &pool, &mut door, &full, &mut full_door, &mut listener).ok()?;
    no_links_are_asked::<Contents, Counter, MemLink>();
    let mut clock = ListClock::new(&[100]);
    let unserved = serve_rest(
        rt,
        alloc,
        &hall,
        &pool,
        &Counter,
        &(),
        1_000_000,
        &mut pass,
        &mut door,
        0,
        &mut clock,
    );
    let count = hall.close(pass).lengths().len();
    let link = full.take(rt, &mut full_door)?;
    Some((unserved, count, link))
}

#[test]
fn links_that_find_room_are_served(rt: HostRuntime) -> Result<(), Fail> {
    let alloc = rt.alloc();
    let found = accepted(&rt, alloc);
    assert!(rt; found.is_some());
    if let Some((unserved, count, mut link)) = found {
        assert_eq!(rt; (unserved, count), (0, 2));
        assert!(rt; say_busy(alloc, &mut link));
        assert_eq!(rt; link.written(), Some(BUSY.as_bytes()));
    }
    Ok(())
}
