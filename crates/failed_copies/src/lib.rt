//! The failed copies: the copies of files that no job will write any more, in order of file and copy.
#![tactic(auto)]

mod copies;
mod rows;

pub use copies::FailedCopies;
