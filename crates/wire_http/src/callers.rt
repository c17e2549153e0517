// Who asks, as the front end says it.
ghost use Rattle.std.specs.Prelude.{◌≡◌, IfOk, length, map, take, All};
ghost use Rattle.httparse.specs.Spans.{IsHeaderWithin, header_bytes};
ghost use Rattle.wire_http.specs.Callers.{text_or_none, who_of};

use crate::fields::first_of;
use cta_model::Who;
use cta_site::{NoMemory, Text};
use httparse::spans::HeaderSpan;
use std::alloc::Global;
use std::str;

// The first bytes, at most so many.
pub(crate) fn front(bytes: &[u8], most: usize) -> &[u8]
    ensures { result.now ≡ take most bytes.now }
{
    if bytes.len() > most {
        &bytes[..most]
    } else {
        bytes
    }
}

fn text_of(alloc: Global, text: &str) -> Result<Text, NoMemory>
    ensures { IfOk result (λ t. t ≡ text.now) }
{
    let string = String::from_str(alloc, text)?;
    Ok(Text::of(string))
}

// The text of these bytes, empty where they are no UTF-8.
pub(crate) fn text_or_none(alloc: Global, bytes: &[u8]) -> Result<Text, NoMemory>
    ensures { IfOk result (λ t. t ≡ text_or_none bytes.now) }
{
    match str::from_utf8(bytes) {
        Ok(text) => text_of(alloc, text),
        Err(_) => text_of(alloc, ""),
    }
}

// Who the fields of a head say that asks.
pub(crate) fn who_of(alloc: Global, buf: &[u8], headers: &[HeaderSpan]) -> Result<Who, NoMemory>
    requires { All (IsHeaderWithin (length buf.now)) headers.now }
    ensures { IfOk result (λ who. who ≡ who_of (map (header_bytes buf.now) headers.now)) }
{
    let requester = text_or_none(
        alloc,
        front(first_of(buf, headers, b"x-cta-requester"), 128),
    )?;
    let group = text_or_none(alloc, front(first_of(buf, headers, b"x-cta-group"), 128))?;
    Ok(Who { requester, group })
}
