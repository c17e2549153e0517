// Links in memory, served over contents.

use crate::{Contents, Counter};
use link_loop::{LinkEnd, Unserved, serve};
use outside::{ListClock, MemLink};
use std::alloc::{AllocError, Global};
use std::sync::Wait;
use std::test::Fail;
use turn_hall::Hall;

// Three requests in one piece: the second needs no call, and the third closes its link.
const THREE: &str =
    "PUT /a HTTP/1.1\r\nHost: t\r\nContent-Length: 5\r\n\r\nhelloGET /b HTTP/1.1\r\nHost: t\r\n\r\nPUT /c HTTP/1.1\r\nHost: t\r\nConnection: close\r\nContent-Length: 2\r\n\r\nhirest";

const HELLO: &str =
    "HTTP/1.1 200 OK\r\nContent-Type: application/octet-stream\r\nContent-Length: 5\r\n\r\nhello";

const NOTHING: &str =
    "HTTP/1.1 404 Not Found\r\nContent-Type: application/json\r\nContent-Length: 19\r\n\r\n{\"error\":\"nothing\"}";

const HI: &str =
    "HTTP/1.1 200 OK\r\nContent-Type: application/octet-stream\r\nContent-Length: 2\r\nConnection: close\r\n\r\nhi";

fn link_of(
    alloc: Global,
    bytes: Vec<u8>,
    reads: &[u64],
    writes: &[u64],
) -> Result<MemLink, AllocError> {
    let mut failing_reads = Vec::new(alloc);
    failing_reads.extend_from_slice(reads)?;
    let mut failing_writes = Vec::new(alloc);
    failing_writes.extend_from_slice(writes)?;
    Ok(MemLink::new(alloc, bytes, failing_reads, failing_writes))
}

fn bytes_of(alloc: Global, texts: &[&str]) -> Result<Vec<u8>, AllocError> {
    let mut bytes = Vec::new(alloc);
    for text in texts {
        bytes.extend_from_slice(text.as_bytes())?;
    }
    Ok(bytes)
}

// How a link ends over a hall of contents of which there may be so many, at moment 100.
fn served(
    rt: &impl Wait,
    alloc: Global,
    most: usize,
    link: &mut MemLink,
) -> Option<Result<LinkEnd, Unserved<u64>>> {
    let Ok((hall, mut pass)) = Hall::new(alloc, Contents::new(alloc, most), 1) else {
        return None;
    };
    let mut clock = ListClock::new(&[100]);
    Some(serve(
        rt,
        alloc,
        &hall,
        &mut pass,
        &Counter,
        &(),
        1_000_000,
        link,
        &mut clock,
    ))
}

#[test]
fn requests_are_answered_in_order(rt: HostRuntime) -> Result<(), Fail> {
    let alloc = rt.alloc();
    let mut link = link_of(alloc, bytes_of(alloc, &[THREE])?, &[], &[])?;
    assert_eq!(rt; served(&rt, alloc, 2, &mut link), Some(Ok(LinkEnd::Closed)));
    let wanted = bytes_of(alloc, &[HELLO, NOTHING, HI])?;
    assert_eq!(rt; link.written(), Some(wanted.as_slice()));
    Ok(())
}

// The third request finds as many contents as there may be, and its link is not served on.
#[test]
fn full_contents_stop_a_link(rt: HostRuntime) -> Result<(), Fail> {
    let alloc = rt.alloc();
    let mut link = link_of(alloc, bytes_of(alloc, &[THREE])?, &[], &[])?;
    assert_eq!(rt;
        served(&rt, alloc, 1, &mut link),
        Some(Err(Unserved::Stopped(1)))
    );
    let wanted = bytes_of(alloc, &[HELLO, NOTHING])?;
    assert_eq!(rt; link.written(), Some(wanted.as_slice()));
    Ok(())
}

// The second read fails, and the first message is cut: no reply.
#[test]
fn failed_read_is_told(rt: HostRuntime) -> Result<(), Fail> {
    let alloc = rt.alloc();
    let mut link = link_of(alloc, bytes_of(alloc, &[&THREE[..40]])?, &[2], &[])?;
    assert_eq!(rt; served(&rt, alloc, 2, &mut link), Some(Err(Unserved::Read)));
    assert_eq!(rt; link.written(), Some([].as_slice()));
    Ok(())
}

// A PUT of so many bytes, and behind it the head of its reply with those bytes.
fn put_and_reply(
    alloc: Global,
    count: usize,
    digits: &str,
) -> Result<(Vec<u8>, Vec<u8>), AllocError> {
    let body = vec![in alloc; b'x'; count]?;
    let mut put = bytes_of(
        alloc,
        &[
            "PUT /a HTTP/1.1\r\nHost: t\r\nContent-Length: ",
            digits,
            "\r\n\r\n",
        ],
    )?;
    put.extend_from_slice(&body)?;
    let mut reply = bytes_of(
        alloc,
        &[
            "HTTP/1.1 200 OK\r\nContent-Type: application/octet-stream\r\nContent-Length: ",
            digits,
            "\r\n\r\n",
        ],
    )?;
    reply.extend_from_slice(&body)?;
    Ok((put, reply))
}

// How a PUT of so many bytes ends where this write fails, and how many bytes of its reply were written, where they are its front.
fn front_written(
    rt: &impl Wait,
    alloc: Global,
    count: usize,
    digits: &str,
    failing: u64,
) -> Option<(bool, usize)> {
    let (put, reply) = put_and_reply(alloc, count, digits).ok()?;
    let mut link = link_of(alloc, put, &[], &[failing]).ok()?;
    let end = served(rt, alloc, 1, &mut link)?;
    let written = link.written()?;
    if !reply.starts_with(written) {
        return None;
    }
    Some((end == Ok(LinkEnd::Ended), written.len()))
}

// A body of 16,384 bytes goes out in one write with its head; a longer one behind its head, by pieces of 65,536 bytes. Half of a failed piece is
// written.
#[test]
fn long_bodies_go_out_by_pieces(rt: HostRuntime) -> Result<(), Fail> {
    let alloc = rt.alloc();
    let head = 82;
    let cases: [(usize, &str, u64, bool, usize); 8] = [
        (16_384, "16384", 2, true, head + 16_384),
        (16_384, "16384", 1, false, (head + 16_384) / 2),
        (16_385, "16385", 3, true, head + 16_385),
        (16_385, "16385", 2, false, head + 8_192),
        (16_385, "16385", 1, false, head / 2),
        (70_000, "70000", 4, true, head + 70_000),
        (70_000, "70000", 3, false, head + 65_536 + 2_232),
        (70_000, "70000", 2, false, head + 32_768),
    ];
    for (count, digits, failing, ends, written) in cases {
        assert_eq!(rt;
            front_written(&rt, alloc, count, digits, failing),
            Some((ends, written))
        );
    }
    Ok(())
}
