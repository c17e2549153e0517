// A link in memory, served over an archive.

use crate::archives::{bytes_of, link_of, media_of, site_of};
use crate::crew::served_alone;
use cta_site::ValidSite;
use link_server::{LinkEnd, LinkFault};
use outside::MemLink;
use std::alloc::Global;
use std::hash::RandomState;
use std::sync::Wait;
use std::test::Fail;

const PUT: &str = "PUT /data/atlas/a HTTP/1.1\r\nHost: t\r\nContent-Length: 5\r\n\r\nhello";

const ASK: &str =
    "POST /api/v1/archiveinfo HTTP/1.1\r\nHost: t\r\nContent-Length: 22\r\n\r\n{\"paths\":[\"/atlas/a\"]}";

const CREATED: &str = "HTTP/1.1 201 Created\r\nContent-Length: 0\r\n\r\n";

const ON_DISK: &str =
    "HTTP/1.1 200 OK\r\nContent-Type: application/json\r\nContent-Length: 39\r\n\r\n[{\"locality\":\"DISK\",\"path\":\"/atlas/a\"}]";

// How a link ends that is served over a new archive of this site.
fn served_at(
    rt: &impl Wait,
    alloc: Global,
    keys: RandomState,
    site: &ValidSite,
    link: &mut MemLink,
) -> Option<Result<LinkEnd, LinkFault>> {
    let media = media_of(alloc, site)?;
    served_alone(rt, alloc, keys, site, media, link)
}

// How a link ends that is served over a new archive.
fn served(
    rt: &impl Wait,
    alloc: Global,
    keys: RandomState,
    link: &mut MemLink,
) -> Option<Result<LinkEnd, LinkFault>> {
    let site = site_of(alloc)?;
    let end = served_at(rt, alloc, keys, &site, link);
    drop(site);
    end
}

// Both messages come in one piece.
#[test]
fn each_message_has_its_reply(rt: HostRuntime) -> Result<(), Fail> {
    let alloc = rt.alloc();
    let keys = RandomState::new(&rt)?;
    let mut link = link_of(alloc, &[PUT, ASK], &[], &[])?;
    assert_eq!(rt;
        served(&rt, alloc, keys, &mut link),
        Some(Ok(LinkEnd::Ended))
    );
    let wanted = bytes_of(alloc, &[CREATED, ON_DISK])?;
    assert_eq!(rt; link.written(), Some(wanted.as_slice()));
    Ok(())
}

// The second read fails, and the first message is cut before its last two bytes: no reply.
#[test]
fn failed_read_is_told(rt: HostRuntime) -> Result<(), Fail> {
    let alloc = rt.alloc();
    let keys = RandomState::new(&rt)?;
    let mut link = link_of(alloc, &[&PUT[..61]], &[2], &[])?;
    assert_eq!(rt;
        served(&rt, alloc, keys, &mut link),
        Some(Err(LinkFault::Read))
    );
    assert_eq!(rt; link.written(), Some([].as_slice()));
    Ok(())
}

// How the link of both messages ends where this write fails, and how many bytes were written to it, where they are a front of both
// replies.
fn front_written(
    rt: &impl Wait,
    alloc: Global,
    keys: RandomState,
    failing: u64,
) -> Option<(Result<LinkEnd, LinkFault>, usize)> {
    let replies = bytes_of(alloc, &[CREATED, ON_DISK]).ok()?;
    let mut link = link_of(alloc, &[PUT, ASK], &[], &[failing]).ok()?;
    let end = served(rt, alloc, keys, &mut link)?;
    let written = link.written()?;
    if !replies.starts_with(written) {
        return None;
    }
    Some((end, written.len()))
}

// How many bytes each run writes in which one write fails, the first, then the second and so on, up to the run in which none does. None
// where a run tells another fault, or other bytes than a front of both replies were written.
fn fronts_written(rt: &impl Wait, alloc: Global, keys: RandomState) -> Option<Vec<usize>> {
    let mut counts = Vec::new(alloc);
    for failing in 1..100u64 {
        let (end, count) = front_written(rt, alloc, keys, failing)?;
        counts.push(count).ok()?;
        match end {
            Ok(LinkEnd::Ended) => return Some(counts),
            Err(LinkFault::Write) => {}
            _ => return None,
        }
    }
    None
}

// Each reply goes out in one write, and half of the failing piece is written.
#[test]
fn failed_writes_leave_a_front(rt: HostRuntime) -> Result<(), Fail> {
    let keys = RandomState::new(&rt)?;
    let counts = fronts_written(&rt, rt.alloc(), keys);
    assert_eq!(rt; counts.as_deref(), Some([21, 98, 153].as_slice()));
    Ok(())
}
