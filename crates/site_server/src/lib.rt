//! The server of a site: its drives work and its links are served at once, each by threads of their own, over one archive that all of them
//! share. `serve_top` is the run of the program `cta serve`; its contract says for each status when it comes, and at status 0 what the links
//! asked and what stands in the history.
#![tactic(auto)]

mod laws;
mod serving;
mod top;

pub use archive_opening::Status;
pub use laws::sessions_ask_apart;
pub use serving::Served;
pub use top::serve_top;
