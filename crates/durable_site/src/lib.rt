//! The server of a site whose history outlives the process: its drives work and its links are served at once, over one archive that keeps a
//! journal. `durable_top` is the run of the program `cta durable`; its contract says for each status when it comes, and at status 0 what the
//! disk of the journal holds.
#![tactic(auto)]

mod ending;
mod serving;
mod top;

pub use archive_opening::Status;
pub use top::durable_top;
