//! Queues of jobs by key: the lines of each key in order of birth, file and copy, with their sums.
#![tactic(auto)]

mod fitting;
mod order;
mod queued;
mod queues;

pub use queues::JobQueues;
