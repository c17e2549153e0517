// What is asked of an archive, and what requests come to.
use archive_turns::ArchiveCall;
use cta_model::{Ask, Look};
use wire_http::Reply;

/// What is asked of an archive: a call without its moment and without what is handed in. Contracts alone speak of it: no value of
/// it is made.
#[derive(Drop)]
pub enum Question {
    Ask(Ask),
    Look(Look),
}

/// What a request comes to.
#[derive(Drop)]
pub enum Called<M> {
    /// A call of the archive.
    Call(ArchiveCall<M>),
    /// A reply that needs no archive.
    Reply(Reply),
}
