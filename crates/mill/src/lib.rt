//! The run of `cta mill`: generated files are written, evicted, recalled and read through one archive by many threads, and what was done is
//! read in the archive's history when they have ended.
#![tactic(auto)]

mod closed;
mod front;
mod hall;
mod summary;
mod top;

pub use archive_opening::Status;
pub use top::mill_top;
