//! Tape drives and media over the files of a folder: a record is a file of its own, which has its name only once it is whole.
//! Drives are over any disk, that is any folder with the few operations that they need; the machine's files are one. They
//! tell nothing of what records hold and count their faults. The records of earlier processes they leave alone, unless their bench
//! goes on with them.
#![tactic(auto)]

mod disk;
mod earlier;
mod file_bench;
mod file_drive;
mod file_medium;
mod folder_lock;
mod machine_disk;
mod names;
mod paths;
mod records;
mod tally;

pub use disk::{Disk, DiskErr, DiskFault, FileName};
pub use earlier::last_records;
pub use file_bench::FileBench;
pub use file_drive::FileDrive;
pub use file_medium::FileMedium;
pub use folder_lock::{FolderLock, LockErr};
pub use machine_disk::MachineDisk;
pub use names::names_are_apart;
