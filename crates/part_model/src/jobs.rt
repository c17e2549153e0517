// The rows of queues and of the job book.
use cta_model::{Charge, Job};
use cta_site::Rows;

/// A queued job: the job, the length of its file in bytes, the moment of its birth in seconds since 1970, and the
/// priority and the minimum age in seconds that its policy gives it. This project's own.
#[derive(Clone, Copy, Debug, PartialEq, Eq)]
pub struct Line {
    pub job: Job,
    pub len: u64,
    pub born: u64,
    pub priority: u32,
    pub age: u64,
}

/// The live recall of a file: the entry that bore it, and the Stage and Repack entries that wait for it, oldest first. This
/// project's own.
#[derive(Drop)]
pub struct LiveRecall {
    pub file: u32,
    pub birth: u32,
    pub waiting: Rows<u32>,
}

/// A job and the open mount that claims it. This project's own.
#[derive(Clone, Copy, Debug, PartialEq, Eq)]
pub struct ClaimedJob {
    pub job: Job,
    pub mount: u32,
}

/// A job and its charges, oldest first. This project's own.
#[derive(Drop)]
pub struct ChargedJob {
    pub job: Job,
    pub charges: Rows<Charge>,
}
