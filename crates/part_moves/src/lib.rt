//! What several asks do to the parts: a job is queued, a file is pinned, those that wait for a recall are found, and what follows from the end of
//! archive jobs: repacks that were WRITING their copies are at an end with them, and files get their flags, whether they are safe on tape.
#![tactic(auto)]

mod copies;
mod error_lists;
mod flags;
mod lists;
mod mounted;
mod pins;
mod queued;
mod texts;
mod waiters;

pub use copies::end_copies;
pub use error_lists::errors;
pub use flags::{copies_of, set_flags};
pub use lists::{add_numbers, list_for};
pub use mounted::mount_at;
pub use pins::pin_request;
pub use queued::queue_write;
pub use texts::add_charge;
pub use waiters::{add_waiters, waiting_for};
