// The head of a request.
ghost use Rattle.std.specs.Prelude.{◌≡◌, ◌≤◌, length, IfOk};
ghost use Rattle.httparse.specs.Spans.{IsRequestWithin, IsRequestOf, IsRequestAt};
ghost use Rattle.httparse.specs.Grammar.{RequestHead};
ghost use Rattle.wire_http.specs.Head.{IsReading, IsReadingOf, IsJudged, IsJudgmentOf};

use crate::callers::{front, text_or_none, who_of};
use crate::refusal::WireRefusal;
use crate::rules::{body_len, first_broken, is_closing, is_expecting, longest_body};
use crate::target::before_query;
use cta_model::Who;
use cta_site::{NoMemory, Text};
use httparse::Status;
use httparse::spans::{EMPTY_HEADER_SPAN, HeaderSpan, RequestSpans, parse_request};
use std::alloc::Global;

// The most bytes of a head.
const MOST_HEAD: usize = 16384;

/// How a body is framed (RFC 9112, 6.3).
#[derive(Clone, Copy, Debug, PartialEq, Eq)]
pub enum BodyLen {
    /// By a length in bytes: that of `Content-Length`, or 0 where no field frames a body.
    Sized(u64),
    /// By chunks (RFC 9112, 7.1).
    Chunked,
}

/// A head that no rule refuses.
#[derive(Drop)]
pub struct Head {
    /// The method, in the letter case in which it was sent.
    pub method: Text,
    /// The target without its query, not percent-decoded. It begins with `/`.
    pub target: Text,
    /// Who asks: the first `X-Cta-Requester` and the first `X-Cta-Group`.
    pub who: Who,
    pub body: BodyLen,
    /// Whether a 100 Continue is due after the head (RFC 9110, 10.1.1).
    pub expects: bool,
    /// Whether the connection closes after the reply (RFC 9112, 9.6).
    pub close: bool,
    /// The bytes of the head, at most 16,384, the empty lines before it included.
    pub len: u32,
}

/// What the bytes that follow the last message begin with.
#[derive(Drop)]
pub enum HeadRead {
    /// No whole head so far, and one may come.
    Need,
    Head(Head),
    Refused(WireRefusal),
}

/// What a head that no rule refuses says of its message, without its texts.
#[derive(Clone, Copy, Debug, PartialEq, Eq)]
pub struct Frame {
    pub body: BodyLen,
    /// The most bytes that the body may have.
    pub most: u64,
    /// Whether a 100 Continue is due after the head (RFC 9110, 10.1.1).
    pub expects: bool,
    /// Whether the connection closes after the reply (RFC 9112, 9.6).
    pub close: bool,
    /// The bytes of the head, at most 16,384, the empty lines before it included.
    pub len: u32,
}

/// What the bytes that follow the last message begin with, without the texts of a head.
#[derive(Clone, Copy, Debug, PartialEq, Eq)]
pub enum Judged {
    /// No whole head so far, and one may come.
    Need,
    Passes(Frame),
    Refused(WireRefusal),
}

// A whole head, with the places of its parts.
fn judge_whole(buf: &[u8], headers: &[HeaderSpan], spans: RequestSpans, limit: u64) -> Judged
    requires within { IsRequestWithin buf.now headers.now spans }
    requires small { length buf.now ≤ 16384 }
    ensures { (h : RequestHead) → IsRequestAt buf.now headers.now spans h → IsJudgmentOf limit h result }
{
    let headers = &headers[..spans.headers];
    let method = spans.method.of(buf);
    let target = before_query(spans.path.of(buf));
    if let Some(refusal) = first_broken(limit, method, target, spans.version, buf, headers) {
        return Judged::Refused(refusal);
    }
    Judged::Passes(Frame {
        body: body_len(buf, headers),
        most: longest_body(limit, method, target),
        expects: is_expecting(spans.version, buf, headers),
        close: is_closing(spans.version, buf, headers),
        len: spans.len as u32,
    })
}

/// Judges the head at the front of the bytes that follow the last message of a connection, as `read_head` reads it,
/// and takes no memory.
pub fn judge_head(bytes: &[u8], file_limit: u64) -> Judged
    ensures { IsJudged file_limit bytes.now result }
{
    let window = front(bytes, MOST_HEAD);
    let mut headers = [EMPTY_HEADER_SPAN; 64];
    match parse_request(window, &mut headers) {
        Ok(Status::Complete(spans)) => judge_whole(window, &headers, spans, file_limit),
        Ok(Status::Partial) => if window.len() < MOST_HEAD {
            Judged::Need
        } else {
            Judged::Refused(WireRefusal::BadHead)
        },
        Err(_) => Judged::Refused(WireRefusal::BadHead),
    }
}

// A whole head, with its texts.
fn whole_head(
    alloc: Global,
    buf: &[u8],
    headers: &[HeaderSpan],
    spans: RequestSpans,
    limit: u64,
) -> Result<HeadRead, NoMemory>
    requires within { IsRequestWithin buf.now headers.now spans }
    requires small { length buf.now ≤ 16384 }
    ensures { IfOk result (λ read. (h : RequestHead) → IsRequestAt buf.now headers.now spans h
        → IsReadingOf limit h read) }
{
    let frame = match judge_whole(buf, headers, spans, limit) {
        Judged::Passes(frame) => frame,
        Judged::Refused(refusal) => return Ok(HeadRead::Refused(refusal)),
        Judged::Need => return Ok(HeadRead::Need),
    };
    let method = text_or_none(alloc, spans.method.of(buf))?;
    let target = text_or_none(alloc, before_query(spans.path.of(buf)))?;
    let who = who_of(alloc, buf, &headers[..spans.headers])?;
    Ok(HeadRead::Head(Head {
        method,
        target,
        who,
        body: frame.body,
        expects: frame.expects,
        close: frame.close,
        len: frame.len,
    }))
}

/// Reads the head at the front of the bytes that follow the last message of a connection (RFC 9112, 2 to 6).
///
/// `Need` comes exactly where at most 16,383 bytes are there, no head is whole in them and one may still come;
/// `Refused` names the first rule that is broken, at the byte at which it is; every other answer is the head. The
/// limit, in bytes, is the site's of a file. NoMemory leaves nothing. It looks at the first 16,384 bytes at most, and
/// walks the fields, of which there are at most 64, about fifteen times.
pub fn read_head(alloc: Global, bytes: &[u8], file_limit: u64) -> Result<HeadRead, NoMemory>
    ensures { IfOk result (IsReading file_limit bytes.now) }
{
    let window = front(bytes, MOST_HEAD);
    let mut headers = [EMPTY_HEADER_SPAN; 64];
    match parse_request(window, &mut headers) {
        Ok(Status::Complete(spans)) => whole_head(alloc, window, &headers, spans, file_limit),
        Ok(Status::Partial) => if window.len() < MOST_HEAD {
            Ok(HeadRead::Need)
        } else {
            Ok(HeadRead::Refused(WireRefusal::BadHead))
        },
        Err(_) => Ok(HeadRead::Refused(WireRefusal::BadHead)),
    }
}
