//! The accepted asks of what failed, carried out over the kept history and the parts: a Failed of a mount that writes or reads,
//! and a Retry of failed copies.
#![tactic(auto)]

mod births;
mod charges;
mod copies;
mod endings;
mod entries;
mod failures;
mod lines;
mod reads;
mod reads_back;
mod retried;
mod retry;
mod sizes;
mod texts;
mod writes;
mod writes_back;

pub use charges::end_all;
pub use copies::retried_jobs;
pub use endings::{fail_readers, waiters_of};
pub use reads::fail_reads;
pub use reads_back::{queue_reads, source_of};
pub use retry::retry_copies;
pub use writes::fail_writes;
pub use writes_back::queue_writes;
