//! What an archive keeps: its site, its history, the parts that stand for it, and the media on the shelf. It is told what the archive's
//! definitions say of the history, and carries out asks that are accepted.
#![tactic(auto)]

mod charges;
mod claimed_jobs;
mod claims;
mod contents;
mod exchange;
mod failures;
mod faults;
mod files;
mod mounts;
mod reads;
mod recalls;
mod reports;
mod requests;
mod sessions;
mod state;
mod tapes;
mod twice;

pub use state::ArchiveState;
