//! All parts of an archive together, and what it is that they are kept for a history.
#![tactic(auto)]

mod laws;
mod needs;
mod parts;

pub use laws::{kept_parts_move, same_parts_are_kept};
pub use needs::Needs;
pub use parts::ArchiveParts;
