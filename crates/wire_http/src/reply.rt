// Replies.
ghost use Rattle.std.specs.Prelude.{◌≡◌, IfOk, OnOk, ◌++◌, ◌∷◌, [], length};
ghost use Rattle.json.specs.Token.{begin_object, end_object, key, string};
ghost use Rattle.json.specs.Print.{print};
ghost use Rattle.wire_http.specs.Reply.{body_of, reply_content, error_tokens, error_body, error_reply, refusal_reply, refusal_status, refusal_text};

use crate::refusal::WireRefusal;
use blob::Blob;
use cta_site::{NoMemory, Text};
use json::Writer;
use std::alloc::{AllocError, Global};
use std::sync::Arc;

/// The body of a reply and its type.
#[derive(Drop)]
pub enum Kind {
    /// No type, and a body of length 0.
    Empty,
    /// `application/json`: a JSON text (RFC 8259).
    Json(Text),
    /// `application/octet-stream`: the bytes of a file.
    Bytes(Arc<Blob>),
}

impl Kind {
    /// How many bytes the body has. It takes no memory and constant time.
    pub fn len(&self) -> u64
        ensures { result ≡ length (reply_content (body_of self.now)) }
    {
        match self {
            Kind::Empty => 0,
            Kind::Json(text) => text.as_bytes().len() as u64,
            Kind::Bytes(blob) => blob.sum().len,
        }
    }
}

/// A reply to a request.
#[derive(Drop)]
pub struct Reply {
    /// The status code (RFC 9110, 15).
    pub code: u16,
    pub kind: Kind,
    /// The value of `Location`, where there is one (RFC 9110, 10.2.2).
    pub location: Option<Text>,
    /// The value of `Allow`, where there is one (RFC 9110, 10.2.1).
    pub allow: Option<Text>,
    /// Whether the reply says that the connection closes after it (RFC 9112, 9.6).
    pub close: bool,
}

// The tokens of an error's body.
fn write_error(out: &mut Writer, text: &str) -> Result<(), AllocError>
    ensures before { out.new.before ≡ out.old.before }
    ensures tokens { OnOk result (out.new.tokens ≡ out.old.tokens ++ error_tokens text.now) }
{
    out.begin_object()?;
    out.key("error")?;
    out.string(text)?;
    out.end_object()
}

fn error_body(alloc: Global, text: &str) -> Result<Text, NoMemory>
    ensures { IfOk result (λ body. body ≡ error_body text.now) }
{
    let mut out = Writer::new(Vec::new(alloc));
    write_error(&mut out, text)?;
    match String::from_utf8(out.into_inner()) {
        Ok(body) => Ok(Text::of(body)),
        Err(_) => unreachable!(),
    }
}

/// The error reply with this status code: its body is the JSON object with this text as its one member `error`. This
/// project's own. NoMemory leaves nothing. Its cost is the length of the text.
pub fn error_reply(alloc: Global, code: u16, text: &str, close: bool) -> Result<Reply, NoMemory>
    ensures { IfOk result (λ reply. reply ≡ error_reply code text.now close) }
{
    let body = error_body(alloc, text)?;
    Ok(Reply {
        code,
        kind: Kind::Json(body),
        location: None,
        allow: None,
        close,
    })
}

/// The reply to bytes that were refused: the error reply of the refusal's status and text, which says that the connection
/// closes (RFC 9112, 9.6). NoMemory leaves nothing.
pub fn refusal_reply(alloc: Global, refusal: WireRefusal) -> Result<Reply, NoMemory>
    ensures { IfOk result (λ reply. reply ≡ refusal_reply refusal) }
{
    error_reply(alloc, refusal.status(), refusal.text(), true)
}

impl WireRefusal {
    /// The status code of the reply to such bytes: 400, 413 or 501 (RFC 9110, 15.5.1, 15.5.14 and 15.6.2).
    pub fn status(self) -> u16
        ensures { result ≡ refusal_status self }
    {
        match self {
            WireRefusal::TooLarge => 413,
            WireRefusal::Coding => 501,
            _ => 400,
        }
    }

    /// The text of the error. This project's own.
    pub fn text(self) -> &'static str
        ensures { result.now ≡ refusal_text self }
    {
        match self {
            WireRefusal::BadHead => "bad head",
            WireRefusal::BadTarget => "bad target",
            WireRefusal::BadHost => "bad host",
            WireRefusal::TwoLengths => "two lengths",
            WireRefusal::Coding => "coding",
            WireRefusal::BadLength => "bad length",
            WireRefusal::TooLarge => "body too large",
            WireRefusal::BadChunk => "bad chunk",
        }
    }
}
