//! One connection's bytes, read as requests: they come in any pieces, and the requests, the 100 Continue of those that wait
//! for one, and the one refusal go out in their order, the same however the bytes were cut.
#![tactic(auto)]

mod advance;
mod body_state;
mod buffer;
mod completion;
mod connection;
mod interim;
mod keeping;
mod laws;
mod next;
mod pieces;
mod state;
mod walk;

pub use connection::Conn;
pub use interim::continue_text;
pub use laws::{no_bytes, one_cut, one_message, one_outcome, steps_follow, two_texts};
pub use next::Next;
pub use pieces::answers;
pub use walk::has_cut;
