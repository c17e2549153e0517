//! The tapes, what is used of them, and where the copies of files have their places.
#![tactic(auto)]

mod index;
mod laws;
mod live;
mod places;
mod sources;
mod table;
mod tapes;

pub use laws::walks_pass_all;
pub use table::TapeTable;
