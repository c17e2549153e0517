//! An archive that keeps a journal of its history: each entry is on the disk before its call is answered.
#![tactic(auto)]

mod back;
mod calls;
mod keeping;
mod last;
mod logged;
mod opening;
mod run;
mod turns;

pub use back::{CloseCause, LoggedBack};
pub use last::last_kept;
pub use logged::Logged;
pub use opening::{ReopenError, reopen};
pub use turns::LoggedSite;
