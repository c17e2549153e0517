//! The shelf of a tape archive: the medium of each tape that no drive has.
#![tactic(auto)]

mod shelf;

pub use shelf::MediaShelf;
