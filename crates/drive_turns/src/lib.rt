//! The step of a drive in turns: its session works, what it asks is one call of what a hall keeps, in a turn of its own, and the session
//! takes what came back. How an ask becomes a call says a front, so that the step knows of no archive.
#![tactic(auto)]

mod front;
mod steps;
mod turn;
mod working;

pub use drive_session::{Session, StepLine};
pub use front::{Came, DriveFront};
pub use steps::{begin_step, end_step};
pub use turn::drive_turn;
pub use working::work_drive;
