//! Disks for a journal. `MemDisk` is in memory: it tells each byte and what a crash may leave, tears what wasn't synced, and
//! fails at the calls that it is told. `FileDisk` is over a file of the machine, which it locks, and which it copies before it
//! hands it out where the last run didn't say that it ended well.
#![tactic(auto)]

mod crossing;
mod ending;
mod events;
mod file_disk;
mod folder;
mod kept;
mod machine_folder;
mod memory;
mod paths;
mod plan;

pub use crossing::disks_are_send;
pub use ending::{make_ready, say_ended};
pub use events::{DiskEvent, Tear};
pub use file_disk::{FileDisk, FileErr};
pub use folder::{FolderFault, JournalFolder};
pub use memory::MemDisk;
