//! What a server has that keeps a journal before it answers anything: the site file is read, the archive is taken up from its journal, and
//! each mount that was open when the last run ended is closed, so that its jobs stand in their queues again.
#![tactic(auto)]

mod closing;
mod opening;

pub use closing::close_mounts;
pub use opening::open_durable;
