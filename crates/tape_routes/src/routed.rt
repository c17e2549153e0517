// What a request comes to.
use blob::Blob;
use cta_model::{Ask, Look};
use std::sync::Arc;
use wire_http::Reply;

/// What a request comes to at the archive's front end.
#[derive(Drop)]
pub enum Routed {
    /// It asks this of the archive. For a Put its body comes along, whose sum is the ask's; for any other ask nothing does.
    Ask(Ask, Option<Arc<Blob>>),
    /// It looks at this.
    Look(Look),
    /// Its reply is known without the archive.
    Reply(Reply),
}
