//! What the parts of an archive answer together: what a drive mounts next, what a Claim takes of its queue, where the copies of a
//! file are, and what the history and the site say of a job that is to be queued.
#![tactic(auto)]

mod batch_jobs;
mod batch_reads;
mod batch_sources;
mod batch_writes;
mod candidates;
mod choice;
mod copies;
mod job_lines;
mod least_choice;
mod localities;
mod safety;
mod seen_choice;
mod seen_parts;
mod tapes;
mod warrants;

pub use batch_jobs::{Taken, taken_jobs};
pub use batch_reads::read_batch;
pub use batch_writes::written_batch;
pub use candidates::choose;
pub use choice::first_of;
pub use job_lines::{line_of, pool_of_job};
pub use least_choice::choice_is_least;
pub use localities::locality;
pub use safety::is_safe;
pub use seen_choice::choice_is_seen;
pub use seen_parts::SeenParts;
