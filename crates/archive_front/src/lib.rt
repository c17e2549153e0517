//! What lies round a call of the archive: a request as a caller's call, with its moment and what is handed in, and what comes back
//! as a reply. It stands between the routes and whatever makes the calls.
#![tactic(auto)]

mod backs;
mod calls;
mod laws;
mod questions;

pub use backs::{found_no_memory, reply_to_back};
pub use calls::call_of;
pub use laws::callers_are_served;
pub use questions::{Called, Question};
