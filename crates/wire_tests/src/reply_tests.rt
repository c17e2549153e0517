// Replies to answers, with ample memory.
ghost use Rattle.std.specs.Prelude.{IsTrue};
ghost use Rattle.tape_routes.specs.Replies.{is_for_callers, HasContent};

use crate::route_tests::{blob_of, site_of};
use blob::Blob;
use cta_model::{Answer, Refusal};
use cta_site::{Rows, ValidSite};
use std::alloc::Global;
use std::sync::Arc;
use tape_routes::reply_of;
use wire_http::write_reply;

// Whether an answer is replied to with this text.
fn is_said(
    alloc: Global,
    site: &ValidSite,
    answer: &Answer,
    blob: Option<Arc<Blob>>,
    wanted: &str,
) -> bool
    requires caller { IsTrue (is_for_callers answer.now) }
    requires content { HasContent answer.now blob }
{
    let Ok(reply) = reply_of(alloc, site, answer, blob, false) else {
        return false;
    };
    match write_reply(alloc, &reply) {
        Ok(text) => text.as_slice() == wanted.as_bytes(),
        Err(_) => false,
    }
}

fn none<T>(alloc: Global) -> Rows<T> {
    Rows::of(Vec::new(alloc))
}

fn done(alloc: Global, site: &ValidSite) -> bool {
    let wanted = "HTTP/1.1 200 OK\r\nContent-Length: 0\r\n\r\n";
    is_said(alloc, site, &Answer::Done, None, wanted)
}

fn stored(alloc: Global, site: &ValidSite) -> bool {
    let answer = Answer::Stored {
        evicted: none(alloc),
    };
    let wanted = "HTTP/1.1 201 Created\r\nContent-Length: 0\r\n\r\n";
    is_said(alloc, site, &answer, None, wanted)
}

fn staged(alloc: Global, site: &ValidSite) -> bool {
    let wanted =
        "HTTP/1.1 201 Created\r\nContent-Type: application/json\r\nContent-Length: 52\r\nLocation: https://tape.example.org/api/v1/stage/00000000-0000-8000-8000-000000000007\r\n\r\n{\"requestId\":\"00000000-0000-8000-8000-000000000007\"}";
    is_said(alloc, site, &Answer::Staged { id: 7 }, None, wanted)
}

fn bytes(alloc: Global, site: &ValidSite, blob: Blob) -> bool {
    let answer = Answer::Bytes { sum: blob.sum() };
    let wanted =
        "HTTP/1.1 200 OK\r\nContent-Type: application/octet-stream\r\nContent-Length: 5\r\n\r\nhello";
    match Arc::new(alloc, blob) {
        Ok(blob) => is_said(alloc, site, &answer, Some(blob), wanted),
        Err(_) => false,
    }
}

fn nothing(alloc: Global, site: &ValidSite) -> bool {
    let wanted = "HTTP/1.1 200 OK\r\nContent-Type: application/json\r\nContent-Length: 2\r\n\r\n[]";
    is_said(alloc, site, &Answer::QueuesSeen(none(alloc)), None, wanted)
}

fn refused(alloc: Global, site: &ValidSite) -> bool {
    let wanted =
        "HTTP/1.1 409 Conflict\r\nContent-Type: application/json\r\nContent-Length: 27\r\n\r\n{\"error\":\"tape is mounted\"}";
    is_said(
        alloc,
        site,
        &Answer::Refused(Refusal::TapeMounted),
        None,
        wanted,
    )
}

// Whether the answers without a content are replied to so.
fn plain_said(alloc: Global, site: &ValidSite) -> bool {
    done(alloc, site)
        && stored(alloc, site)
        && staged(alloc, site)
        && nothing(alloc, site)
        && refused(alloc, site)
}

// The same, and with a content too, where there is memory for a site and the content.
fn all_said(alloc: Global) -> Option<(bool, bool)> {
    let blob = blob_of(alloc, "hello")?;
    let site = site_of(alloc)?;
    let said = (plain_said(alloc, &site), bytes(alloc, &site, blob));
    drop(site);
    Some(said)
}

#[test]
fn replies_to_answers(rt: HostRuntime) {
    assert_eq!(rt; all_said(rt.alloc()), Some((true, true)));
}
