//! The open mounts, the drives that are down, and the counts of open mounts by virtual organisation.
#![tactic(auto)]

mod counts;
mod flags;
mod mounts;
mod quota;
mod rows;

pub use mounts::OpenMounts;
pub use quota::VoQuota;
