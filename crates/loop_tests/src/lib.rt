//! The tests of the loop over a link and of crews, at a small value that a hall keeps in place of an archive: the lengths of contents that were put,
//! until there are as many as there may be.
#![tactic(auto)]

mod contents;
mod counter;
#[cfg(test)]
mod crew_tests;
#[cfg(test)]
mod link_tests;

pub use contents::{Back, Contents, Put};
pub use counter::Counter;
