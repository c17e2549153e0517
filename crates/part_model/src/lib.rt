//! The values of the parts of the kept state, in `specs/`: what each part can be asked, and what its calls do. They know no history.
#![tactic(auto)]

mod jobs;
mod mounts;
mod space;

pub use jobs::{ChargedJob, ClaimedJob, Line, LiveRecall};
pub use mounts::OpenMount;
pub use space::{FileEnd, HeldPin, Placed, Resident, TapeRow};
