// Bytes are written to a link, in one write or in several.
ghost use Rattle.std.specs.Prelude.{◌≡◌, true, ◌<◌, ◌++◌, length, IsOk};
ghost use Rattle.outside.specs.Causes.{HasCause};
ghost use Rattle.outside.specs.Streams.{SendsWhole};
ghost use Rattle.wire_http.specs.Reply.{body_of, reply_content};

use blob::Blob;
use outside::{Failed, Link};
use wire_http::Kind;

// Writes the bytes of a blob, of which there are so many, by pieces through the buffer.
fn write_blob<L: Link>(link: &mut L, blob: &Blob, len: u64, buffer: &mut [u8]) -> Result<(), Failed>
    requires len { len ≡ length blob.now }
    requires buffer { 0 < length buffer.old }
    ensures bytes { SendsWhole (L.written link.old) (L.written link.new) result blob.now }
    ensures cause { HasCause (L.write_faults link.old) (L.write_faults link.new) result }
    ensures other { (L.left link.new ≡ L.left link.old) × (L.read_faults link.new ≡ L.read_faults link.old) }
    ensures firm { (L.firm link.new ≡ L.firm link.old) × (L.firm link.old ≡ true → IsOk result) }
{
    let mut from = 0u64;
    'pieces: loop {
        if from == len {
            return Ok(());
        }
        let count = blob.piece(from, buffer);
        match link.write_all_of(&buffer[..count]) {
            Ok(()) => {}
            Err(failed) => return Err(failed),
        }
        from += count as u64;
    }
}

// Writes the body of a reply: that of a file by pieces through the buffer, and a text in one write.
fn write_body<L: Link>(link: &mut L, kind: &Kind, buffer: &mut [u8]) -> Result<(), Failed>
    requires { 0 < length buffer.old }
    ensures bytes { SendsWhole (L.written link.old) (L.written link.new) result (reply_content (body_of kind.now)) }
    ensures cause { HasCause (L.write_faults link.old) (L.write_faults link.new) result }
    ensures other { (L.left link.new ≡ L.left link.old) × (L.read_faults link.new ≡ L.read_faults link.old) }
    ensures firm { (L.firm link.new ≡ L.firm link.old) × (L.firm link.old ≡ true → IsOk result) }
{
    match kind {
        Kind::Empty => Ok(()),
        Kind::Json(text) => link.write_all_of(text.as_bytes()),
        Kind::Bytes(blob) => write_blob(link, blob, kind.len(), buffer),
    }
}

// Writes the head of a reply, and then its body.
pub(crate) fn write_parts<L: Link>(
    link: &mut L,
    head: &[u8],
    kind: &Kind,
    buffer: &mut [u8],
) -> Result<(), Failed>
    requires { 0 < length buffer.old }
    ensures bytes { SendsWhole (L.written link.old) (L.written link.new) result (head.now ++ reply_content (body_of kind.now)) }
    ensures cause { HasCause (L.write_faults link.old) (L.write_faults link.new) result }
    ensures other { (L.left link.new ≡ L.left link.old) × (L.read_faults link.new ≡ L.read_faults link.old) }
    ensures firm { (L.firm link.new ≡ L.firm link.old) × (L.firm link.old ≡ true → IsOk result) }
{
    match link.write_all_of(head) {
        Ok(()) => write_body(link, kind, buffer),
        Err(failed) => Err(failed),
    }
}
