//! The book of jobs: the live recall of each file with the requests that wait for it, the live archive job of each copy, the
//! mount that claims a job, the charges of a job, the last birth for a copy, and whether a Claim has ever named a job.
#![tactic(auto)]

mod book;
mod calls;
mod claims;
mod maps;
mod waiting;

pub use book::JobBook;
