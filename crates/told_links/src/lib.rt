//! Links in memory that tell, when they are closed, whether they were sent what they were to get: for the tests of a server, and for the program
//! that serves where memory is refused.
#![tactic(auto)]

mod link;
mod tally;

pub use link::{ToldLink, link_of};
pub use tally::{Counts, Tally};
