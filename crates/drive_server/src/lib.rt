//! The step of a drive in turns, over the hall of an archive that all threads share: what its session asks is one ask of the archive, in a
//! turn of its own.
#![tactic(auto)]

mod front;
mod laws;
mod turn;

pub use drive_turns::{Session, StepLine};
pub use front::ArchiveDrives;
pub use laws::no_ask_is_unknown;
pub use turn::drive_turn;
