// Texts are sent on a link.
ghost use Rattle.std.specs.Prelude.{◌≡◌, true, ◌<◌, ◌≤◌, ◌++◌, length};
ghost use Rattle.wire_http.specs.Reply.{body_of, reply_content, reply_text, refusal_reply};
ghost use Rattle.link_loop.specs.Served.{IsSent, IsSaid, IsFirmEnd, link_view};

use crate::front::Said;
use crate::writing::write_parts;
use outside::Link;
use std::alloc::Global;
use wire_http::{Kind, Reply, WireRefusal, refusal_reply, write_head, write_reply};

/// Why a link was not served to its end.
#[derive(Clone, Copy, Debug, PartialEq, Eq)]
pub enum Unserved<S> {
    /// A read failed.
    Read,
    /// A write failed.
    Write,
    /// Memory ran out.
    NoMemory,
    /// What came back from a call says that the link isn't served on, and why.
    Stopped(S),
}

// A body of at most so many bytes is sent with its head in one write.
const SHORT: u64 = 16_384;

// Sends a text, in one write.
pub(crate) fn send<S, L: Link>(link: &mut L, text: &[u8]) -> Result<(), Unserved<S>>
    ensures sent { IsSent result text.now (link_view (L.left link.old) (L.written link.old) (L.read_faults link.old) (L.write_faults link.old)) (link_view (L.left link.new) (L.written link.new) (L.read_faults link.new) (L.write_faults link.new)) }
    ensures other { (L.left link.new ≡ L.left link.old) × (L.read_faults link.new ≡ L.read_faults link.old) }
    ensures later { L.write_faults link.old ≤ L.write_faults link.new }
    ensures firm { (L.firm link.new ≡ L.firm link.old) × (L.firm link.old ≡ true → IsFirmEnd result) }
{
    match link.write_all_of(text) {
        Ok(()) => Ok(()),
        Err(_) => Err(Unserved::Write),
    }
}

// Sends a head, and then a body.
fn send_parts<S, L: Link>(
    link: &mut L,
    head: &[u8],
    kind: &Kind,
    buffer: &mut [u8],
) -> Result<(), Unserved<S>>
    requires { 0 < length buffer.old }
    ensures sent { IsSent result (head.now ++ reply_content (body_of kind.now)) (link_view (L.left link.old) (L.written link.old) (L.read_faults link.old) (L.write_faults link.old)) (link_view (L.left link.new) (L.written link.new) (L.read_faults link.new) (L.write_faults link.new)) }
    ensures other { (L.left link.new ≡ L.left link.old) × (L.read_faults link.new ≡ L.read_faults link.old) }
    ensures later { L.write_faults link.old ≤ L.write_faults link.new }
    ensures firm { (L.firm link.new ≡ L.firm link.old) × (L.firm link.old ≡ true → IsFirmEnd result) }
{
    match write_parts(link, head, kind, buffer) {
        Ok(()) => Ok(()),
        Err(_) => Err(Unserved::Write),
    }
}

// Sends a reply, its head in one write and then its body: that of a file by pieces through the buffer.
fn send_long<S, L: Link>(
    alloc: Global,
    link: &mut L,
    reply: &Reply,
    buffer: &mut [u8],
) -> Result<(), Unserved<S>>
    requires { 0 < length buffer.old }
    ensures sent { IsSent result (reply_text reply.now) (link_view (L.left link.old) (L.written link.old) (L.read_faults link.old) (L.write_faults link.old)) (link_view (L.left link.new) (L.written link.new) (L.read_faults link.new) (L.write_faults link.new)) }
    ensures other { (L.left link.new ≡ L.left link.old) × (L.read_faults link.new ≡ L.read_faults link.old) }
    ensures later { L.write_faults link.old ≤ L.write_faults link.new }
    ensures firm { (L.firm link.new ≡ L.firm link.old) × (L.firm link.old ≡ true → IsFirmEnd result) }
{
    match write_head(alloc, reply) {
        Ok(head) => send_parts(link, &head, &reply.kind, buffer),
        Err(_) => Err(Unserved::NoMemory),
    }
}

// Sends a reply. No memory is taken for the bytes of a long body.
pub(crate) fn send_reply<S, L: Link>(
    alloc: Global,
    link: &mut L,
    reply: &Reply,
    buffer: &mut [u8],
) -> Result<(), Unserved<S>>
    requires { 0 < length buffer.old }
    ensures sent { IsSent result (reply_text reply.now) (link_view (L.left link.old) (L.written link.old) (L.read_faults link.old) (L.write_faults link.old)) (link_view (L.left link.new) (L.written link.new) (L.read_faults link.new) (L.write_faults link.new)) }
    ensures other { (L.left link.new ≡ L.left link.old) × (L.read_faults link.new ≡ L.read_faults link.old) }
    ensures later { L.write_faults link.old ≤ L.write_faults link.new }
    ensures firm { (L.firm link.new ≡ L.firm link.old) × (L.firm link.old ≡ true → IsFirmEnd result) }
{
    if reply.kind.len() > SHORT {
        return send_long(alloc, link, reply, buffer);
    }
    match write_reply(alloc, reply) {
        Ok(text) => send(link, &text),
        Err(_) => Err(Unserved::NoMemory),
    }
}

// Sends the reply to bytes that were refused.
pub(crate) fn send_refusal<S, L: Link>(
    alloc: Global,
    link: &mut L,
    refusal: WireRefusal,
    buffer: &mut [u8],
) -> Result<(), Unserved<S>>
    requires { 0 < length buffer.old }
    ensures sent { IsSent result (reply_text (refusal_reply refusal)) (link_view (L.left link.old) (L.written link.old) (L.read_faults link.old) (L.write_faults link.old)) (link_view (L.left link.new) (L.written link.new) (L.read_faults link.new) (L.write_faults link.new)) }
    ensures other { (L.left link.new ≡ L.left link.old) × (L.read_faults link.new ≡ L.read_faults link.old) }
    ensures later { L.write_faults link.old ≤ L.write_faults link.new }
    ensures firm { (L.firm link.new ≡ L.firm link.old) × (L.firm link.old ≡ true → IsFirmEnd result) }
{
    match refusal_reply(alloc, refusal) {
        Ok(reply) => send_reply(alloc, link, &reply, buffer),
        Err(_) => Err(Unserved::NoMemory),
    }
}

// Sends what is said to what came back from a call.
pub(crate) fn send_said<S, L: Link>(
    alloc: Global,
    link: &mut L,
    said: Said<S>,
    buffer: &mut [u8],
) -> Result<(), Unserved<S>>
    requires { 0 < length buffer.old }
    ensures sent { IsSaid said result (link_view (L.left link.old) (L.written link.old) (L.read_faults link.old) (L.write_faults link.old)) (link_view (L.left link.new) (L.written link.new) (L.read_faults link.new) (L.write_faults link.new)) }
    ensures other { (L.left link.new ≡ L.left link.old) × (L.read_faults link.new ≡ L.read_faults link.old) }
    ensures later { L.write_faults link.old ≤ L.write_faults link.new }
    ensures firm { (L.firm link.new ≡ L.firm link.old) × (L.firm link.old ≡ true → IsFirmEnd result) }
{
    match said {
        Said::Reply(reply) => send_reply(alloc, link, &reply, buffer),
        Said::Stop(why) => Err(Unserved::Stopped(why)),
    }
}
