// A whole request.

use blob::Blob;
use cta_model::Who;
use cta_site::Text;

/// A whole request (RFC 9112, 2.1).
#[derive(Drop)]
pub struct Request {
    /// The method, in the letter case in which it was sent.
    pub method: Text,
    /// The target without its query, not percent-decoded. It begins with `/`.
    pub target: Text,
    /// Who asks, as the head says it.
    pub who: Who,
    /// The body, without the framing of its chunks (RFC 9112, 7.1).
    pub body: Blob,
    /// Whether the connection closes after the reply (RFC 9112, 9.6).
    pub close: bool,
}
