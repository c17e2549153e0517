//! A journal of records on a disk that may crash at any moment. The trait `Disk` says what a read gives and what a crash may
//! leave; a record is on the disk once its append has answered, and a crash before that leaves it whole or not at all. The
//! opening of a disk reads the records that a crash has left, and makes it ready for more.
#![tactic(auto)]

mod disk;
mod journal;
mod laws;
mod opening;
mod piece;
mod reading;
mod record;
mod run;
mod steps;

pub use disk::Disk;
pub use journal::{AppendError, Journal};
pub use laws::{file_has_one_log, file_is_damaged_once};
pub use opening::OpenError;
pub use record::{Record, RecordRead};
