//! The steps of drives and the links of callers over the hall of an archive that keeps a journal.
#![tactic(auto)]

mod alarm;
mod drives;
mod front;
mod line;
mod link;
mod turn;

pub use alarm::{Alarm, NoAlarm};
pub use drives::LoggedDrives;
pub use front::LoggedFront;
pub use line::DurableLine;
pub use link::{DurableFault, durable_link};
pub use turn::durable_turn;
