// The rules of a whole head.
ghost use Rattle.std.specs.Prelude.{◌≡◌, true, length, map, All};
ghost use Rattle.std.specs.List.{list_all};
ghost use Rattle.httparse.specs.Spans.{IsHeaderWithin, header_bytes};
ghost use Rattle.wire_http.specs.Fields.{lengths, is_length};
ghost use Rattle.wire_http.specs.Rules.{is_file_put, longest_body, breaks_target, breaks_coding, breaks_length, first_broken, body_len, is_closing, is_expecting};

use crate::fields::{all_are, all_lengths, any_is, count_of, stated_length};
use crate::head::BodyLen;
use crate::options::any_has;
use crate::refusal::WireRefusal;
use httparse::spans::HeaderSpan;

// Whether a request stores a file.
#[tactic(auto, unfolding(crate::specs::Rules::is_file_put))]
fn is_file_put(method: &[u8], target: &[u8]) -> bool
    ensures { result ≡ is_file_put method.now target.now }
{
    method == b"PUT".as_slice() && target.starts_with(b"/data/")
}

/// The most bytes that the body of a request may have: the site's limit of a file for a PUT of a target that begins with
/// `/data/`, else 4,194,304. The target is without its query. This project's own.
pub fn longest_body(file_limit: u64, method: &[u8], target: &[u8]) -> u64
    ensures { result ≡ longest_body file_limit method.now target.now }
{
    if is_file_put(method, target) {
        file_limit
    } else {
        4_194_304
    }
}

fn breaks_target(target: &[u8]) -> bool
    ensures { result ≡ breaks_target target.now }
{
    match target {
        [] => true,
        [first, ..] => *first != b'/',
    }
}

fn breaks_coding(buf: &[u8], headers: &[HeaderSpan]) -> bool
    requires { All (IsHeaderWithin (length buf.now)) headers.now }
    ensures { result ≡ breaks_coding (map (header_bytes buf.now) headers.now) }
{
    count_of(buf, headers, b"transfer-encoding") > 1
        || !all_are(buf, headers, b"transfer-encoding", b"chunked")
        || !all_are(buf, headers, b"content-encoding", b"identity")
}

fn breaks_length(minor: u8, buf: &[u8], headers: &[HeaderSpan]) -> bool
    requires { All (IsHeaderWithin (length buf.now)) headers.now }
    ensures { result ≡ breaks_length minor (map (header_bytes buf.now) headers.now) }
{
    count_of(buf, headers, b"content-length") > 1
        || !all_lengths(buf, headers)
        || (minor == 0 && count_of(buf, headers, b"transfer-encoding") > 0)
}

// The first rule that a whole head breaks. The target is without its query.
#[tactic(auto, unfolding(crate::specs::Rules::first_broken))]
pub(crate) fn first_broken(
    limit: u64,
    method: &[u8],
    target: &[u8],
    minor: u8,
    buf: &[u8],
    headers: &[HeaderSpan],
) -> Option<WireRefusal>
    requires { All (IsHeaderWithin (length buf.now)) headers.now }
    ensures { result ≡ first_broken limit method.now target.now minor (map (header_bytes buf.now) headers.now) }
{
    if breaks_target(target) {
        return Some(WireRefusal::BadTarget);
    }
    if minor == 1 && count_of(buf, headers, b"host") != 1 {
        return Some(WireRefusal::BadHost);
    }
    if count_of(buf, headers, b"content-length") > 0
        && count_of(buf, headers, b"transfer-encoding") > 0
    {
        return Some(WireRefusal::TwoLengths);
    }
    if breaks_coding(buf, headers) {
        return Some(WireRefusal::Coding);
    }
    if breaks_length(minor, buf, headers) {
        return Some(WireRefusal::BadLength);
    }
    if stated_length(buf, headers) > longest_body(limit, method, target) {
        return Some(WireRefusal::TooLarge);
    }
    None
}

// How the body is framed.
#[tactic(auto, unfolding(crate::specs::Rules::body_len))]
pub(crate) fn body_len(buf: &[u8], headers: &[HeaderSpan]) -> BodyLen
    requires within { All (IsHeaderWithin (length buf.now)) headers.now }
    requires lengths { list_all is_length (lengths (map (header_bytes buf.now) headers.now)) ≡ true }
    ensures { result ≡ body_len (map (header_bytes buf.now) headers.now) }
{
    if count_of(buf, headers, b"transfer-encoding") == 0 {
        BodyLen::Sized(stated_length(buf, headers))
    } else {
        BodyLen::Chunked
    }
}

// Whether the connection closes after the request.
#[tactic(auto, unfolding(crate::specs::Rules::is_closing))]
pub(crate) fn is_closing(minor: u8, buf: &[u8], headers: &[HeaderSpan]) -> bool
    requires { All (IsHeaderWithin (length buf.now)) headers.now }
    ensures { result ≡ is_closing minor (map (header_bytes buf.now) headers.now) }
{
    minor == 0 || any_has(buf, headers, b"connection", b"close")
}

// Whether the request waits for a 100 Continue.
#[tactic(auto, unfolding(crate::specs::Rules::is_expecting))]
pub(crate) fn is_expecting(minor: u8, buf: &[u8], headers: &[HeaderSpan]) -> bool
    requires within { All (IsHeaderWithin (length buf.now)) headers.now }
    requires lengths { list_all is_length (lengths (map (header_bytes buf.now) headers.now)) ≡ true }
    ensures { result ≡ is_expecting minor (map (header_bytes buf.now) headers.now) }
{
    minor == 1
        && any_is(buf, headers, b"expect", b"100-continue")
        && (count_of(buf, headers, b"content-length") == 0 || stated_length(buf, headers) != 0)
}
