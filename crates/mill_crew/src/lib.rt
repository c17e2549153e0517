//! The threads of a mill at one hall: callers that put files and fetch them, and drives that step beside them, phase by phase.
#![tactic(auto)]

mod calls;
mod contents;
mod fetches;
mod fetching;
mod gathering;
mod lists;
mod passes;
mod phase_clock;
mod phases;
mod posts;
mod puts;
mod rounds;
mod run;
mod shares;
mod stepping;
mod storing;
mod threads;

pub use calls::{Heard, MillCall, MillFront};
pub use lists::{file_paths, total_len};
pub use run::{Load, Ran, run_phases};
