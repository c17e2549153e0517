//! The accepted asks of drives, carried out over the kept history and the parts: drives put up and down, mounts opened and
//! ended, batches given to them, items flushed, and files read.
#![tactic(auto)]

mod arrival;
mod batch;
mod births;
mod carried;
mod claim;
mod closing;
mod done;
mod drives;
mod fates;
mod finding;
mod flushed;
mod given;
mod giving;
mod items;
mod jobs;
mod opening;
mod recall;
mod repacks;
mod rooms;
mod stale;
mod waiters;

pub use batch::claim_batch;
pub use claim::claim_reads;
pub use closing::end_mount;
pub use drives::{set_drive_down, set_drive_up};
pub use flushed::flush_batch;
pub use opening::open_mount;
pub use recall::recall_file;
