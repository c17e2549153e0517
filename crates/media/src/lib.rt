//! Tape drives and media: the five calls of a drive as a trait, with what each leaves of the drive and of the records on
//! its medium, and a drive and a medium in memory, which tell everything and fail as a site plans it.
#![tactic(auto)]

mod bench;
mod counts;
mod drive;
mod mem_drive;
mod mem_medium;
mod planned;

pub use bench::{Bench, MemBench};
pub use counts::Counts;
pub use drive::{DeviceErr, TapeDrive};
pub use mem_drive::MemDrive;
pub use mem_medium::MemMedium;
pub use planned::Planned;
