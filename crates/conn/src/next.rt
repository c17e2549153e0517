// What a connection gives.

use wire_http::{Request, WireRefusal};

/// What comes next on a connection.
#[derive(Drop)]
pub enum Next {
    /// More bytes are needed: what is there is unfinished.
    Need,
    /// A 100 Continue is due (RFC 9110, 15.2.1): once, after a head that waits for one.
    Continue,
    Request(Request),
    /// The bytes break a rule. Nothing else comes.
    Refused(WireRefusal),
    /// Nothing comes any more: a refusal or a closing request was given, or `close` was called.
    Closed,
}
