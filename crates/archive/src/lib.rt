//! The archive: its site, its history of accepted asks, and all that stands for it. Each ask and each look is answered as the sequential
//! archive of `cta_model` does on that history, refusals in their order, also in a turn of a hall, where a drive's pass keeps the mount
//! that its own Next made.
#![tactic(auto)]

mod admin_refusals;
mod archive;
mod asks;
mod cancels;
mod claims;
mod copy_looks;
mod deletes;
mod drives;
mod drops;
mod ends;
mod faults;
mod file_looks;
mod file_refusals;
mod flushes;
mod looks;
mod nexts;
mod order;
mod own_mounts;
mod puts;
mod reads;
mod recalls;
mod releases;
mod repacks;
mod retries;
mod stage_looks;
mod stage_refusals;
mod stages;
mod tape_looks;
mod tape_refusals;
mod tapes;
mod turns;

pub use archive::Archive;
pub use order::turns_in_order;
pub use own_mounts::own_mount_stays;
