// What a connection's bytes are refused for.

/// Why bytes of a connection are answered with an error, after which the connection is closed. The rules are tried in this
/// order, and the first that is broken is named.
#[derive(Clone, Copy, Debug, PartialEq, Eq)]
pub enum WireRefusal {
    /// No head of a request stands there, none of at most 64 fields, or none within 16,384 bytes (RFC 9112, 2 and 3).
    BadHead,
    /// The target doesn't begin with `/` (RFC 9112, 3.2.1: the origin form alone is served).
    BadTarget,
    /// A request of version 1.1 without `Host`, or with two (RFC 9112, 3.2).
    BadHost,
    /// `Content-Length` beside `Transfer-Encoding` (RFC 9112, 6.1).
    TwoLengths,
    /// Another `Transfer-Encoding` than one field `chunked`, or another `Content-Encoding` than `identity` (RFC 9112,
    /// 6.1; RFC 9110, 8.4).
    Coding,
    /// Two `Content-Length` fields, one that isn't 1 to 19 digits, or a `Transfer-Encoding` in a request of version
    /// 1.0 (RFC 9112, 6.1 to 6.3).
    BadLength,
    /// A body above the limit (RFC 9110, 15.5.14).
    TooLarge,
    /// No chunk line, no CR LF behind a chunk, or no trailer where one should stand, or one that is too long (RFC 9112, 7.1).
    BadChunk,
}
