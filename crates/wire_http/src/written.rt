// The text of a reply.
ghost use Rattle.std.specs.Prelude.{◌≡◌, ◌++◌, IfOk, OnOk};
ghost use Rattle.wire_http.specs.Reply.{body_of, reply_view, field_line, status_line, type_lines, length_line, value_lines, close_lines, fields_text, reply_content, reply_text};

use crate::phrases::phrase;
use crate::reply::{Kind, Reply};
use blob::Blob;
use cta_site::{NoMemory, Text};
use itoa::Buffer;
use std::alloc::Global;

// Room for the status line and the fields of most replies, so that they are written without growing.
const HEAD_ROOM: usize = 256;

fn put_status(out: &mut Vec<u8>, code: u16) -> Result<(), NoMemory>
    ensures { OnOk result (out.new.items ≡ out.old.items ++ status_line code) }
{
    let mut digits = Buffer::new();
    out.extend_from_slice(b"HTTP/1.1 ")?;
    out.extend_from_slice(digits.format(code).as_bytes())?;
    out.extend_from_slice(b" ")?;
    out.extend_from_slice(phrase(code).as_bytes())?;
    out.extend_from_slice(b"\r\n")?;
    Ok(())
}

fn put_field(out: &mut Vec<u8>, name: &[u8], value: &[u8]) -> Result<(), NoMemory>
    ensures { OnOk result (out.new.items ≡ out.old.items ++ field_line name.now value.now) }
{
    out.extend_from_slice(name)?;
    out.extend_from_slice(b": ")?;
    out.extend_from_slice(value)?;
    out.extend_from_slice(b"\r\n")?;
    Ok(())
}

fn put_type(out: &mut Vec<u8>, kind: &Kind) -> Result<(), NoMemory>
    ensures { OnOk result (out.new.items ≡ out.old.items ++ type_lines (body_of kind.now)) }
{
    match kind {
        Kind::Empty => Ok(()),
        Kind::Json(_) => put_field(out, b"Content-Type", b"application/json"),
        Kind::Bytes(_) => put_field(out, b"Content-Type", b"application/octet-stream"),
    }
}

fn put_length(out: &mut Vec<u8>, len: u64) -> Result<(), NoMemory>
    ensures { OnOk result (out.new.items ≡ out.old.items ++ length_line len) }
{
    let mut digits = Buffer::new();
    put_field(out, b"Content-Length", digits.format(len).as_bytes())
}

fn put_value(out: &mut Vec<u8>, name: &[u8], value: &Option<Text>) -> Result<(), NoMemory>
    ensures { OnOk result (out.new.items ≡ out.old.items ++ value_lines name.now value.now) }
{
    match value {
        None => Ok(()),
        Some(text) => put_field(out, name, text.as_bytes()),
    }
}

fn put_close(out: &mut Vec<u8>, close: bool) -> Result<(), NoMemory>
    ensures { OnOk result (out.new.items ≡ out.old.items ++ close_lines close) }
{
    if close {
        put_field(out, b"Connection", b"close")
    } else {
        Ok(())
    }
}

fn put_blob(out: &mut Vec<u8>, blob: &Blob) -> Result<(), NoMemory>
    ensures { OnOk result (out.new.items ≡ out.old.items ++ blob.now) }
{
    let at = out.len();
    let Some(end) = at.checked_add(blob.sum().len as usize) else {
        return Err(NoMemory);
    };
    out.resize(end, 0)?;
    blob.piece(0, &mut out[at..]);
    Ok(())
}

fn put_content(out: &mut Vec<u8>, kind: &Kind) -> Result<(), NoMemory>
    ensures { OnOk result (out.new.items ≡ out.old.items ++ reply_content (body_of kind.now)) }
{
    match kind {
        Kind::Empty => Ok(()),
        Kind::Json(text) => {
            out.extend_from_slice(text.as_bytes())?;
            Ok(())
        }
        Kind::Bytes(blob) => put_blob(out, blob),
    }
}

fn put_fields(out: &mut Vec<u8>, reply: &Reply) -> Result<(), NoMemory>
    ensures { OnOk result (out.new.items ≡ out.old.items ++ fields_text (reply_view reply.now)) }
{
    put_type(out, &reply.kind)?;
    put_length(out, reply.kind.len())?;
    put_value(out, b"Location", &reply.location)?;
    put_value(out, b"Allow", &reply.allow)?;
    put_close(out, reply.close)
}

/// The bytes of a reply up to its body (RFC 9112, 4 to 6): `HTTP/1.1`, the status code and its phrase; then of `Content-Type`,
/// `Content-Length` (always), `Location`, `Allow` and `Connection: close`, in this order, those that the reply has; and an
/// empty line. A code that has no phrase has an empty one. The head and behind it the bytes of the body are the text of the
/// reply. NoMemory leaves nothing. Its cost is the length of the head, however long the body is.
pub fn write_head(alloc: Global, reply: &Reply) -> Result<Vec<u8>, NoMemory>
    ensures { IfOk result (λ head. head.items ++ reply_content (body_of reply.now.kind) ≡ reply_text reply.now) }
{
    let mut out = Vec::with_capacity(alloc, HEAD_ROOM)?;
    put_status(&mut out, reply.code)?;
    put_fields(&mut out, reply)?;
    out.extend_from_slice(b"\r\n")?;
    Ok(out)
}

/// The bytes of a reply (RFC 9112, 4 to 6): its head and its body. NoMemory leaves nothing. Its cost is the length of the text.
pub fn write_reply(alloc: Global, reply: &Reply) -> Result<Vec<u8>, NoMemory>
    ensures { IfOk result (λ text. text.items ≡ reply_text reply.now) }
{
    let mut out = write_head(alloc, reply)?;
    put_content(&mut out, &reply.kind)?;
    Ok(out)
}
