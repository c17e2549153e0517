//! What the history of a mill's run tells: that each generated file was put once with its sum and evicted for the file
//! that fills the buffer, that one Stage names all, and how many of their items were flushed and recalled; and what
//! looks at its archive tell of the files.
#![tactic(auto)]

mod counts;
mod evictions;
mod marks;
mod paths;
mod puts;
mod reports;
mod stages;
mod tally;

pub use reports::{tells_completed, tells_kept};
pub use tally::{Tally, read_history};

#[cfg(test)]
mod read_tests;
