//! HTTP/1.1 messages as the archive's front end reads and writes them: the head of a request, read from the bytes that
//! follow the last message and refused by the first rule that it breaks; a whole request; and the text of a reply.
#![tactic(auto)]

mod callers;
mod fields;
mod head;
mod options;
mod phrases;
mod refusal;
mod reply;
mod request;
mod rules;
mod target;
mod written;

pub use head::{BodyLen, Frame, Head, HeadRead, Judged, judge_head, read_head};
pub use phrases::each_code_that_is_sent_has_its_phrase;
pub use refusal::WireRefusal;
pub use reply::{Kind, Reply, error_reply, refusal_reply};
pub use request::Request;
pub use rules::longest_body;
pub use written::{write_head, write_reply};
