//! The session of a tape drive: the machine that mounts, writes, flushes, reads and unloads, one step at a time. A step is at
//! most one call of the device and then at most one ask of the archive. The session calls no archive: it reports the ask, and
//! is told what came back.
#![tactic(auto)]

mod claims;
mod examples;
mod laws;
mod mounts;
mod reading;
mod reports;
mod session;
mod states;
mod taking;
mod writing;

pub use examples::{lines_stay_lawful, table_rows};
pub use laws::{answers_lead_by_phase, steps_hear_answers};
pub use reports::{Call, Done, ReadEnd, Report, StepLine};
pub use session::{Memo, Session};
pub use states::{Asked, Batch, Mounted, Outcome, State};
