//! The replay of a script: a site file and a script are read from their sources, the bytes of each record are fed to the
//! link that they are for, each request that they complete is routed and asked of an archive of that site, and each reply is
//! written in a frame of its own. `replay_top` is the run of the program `cta replay`; its contract says for each status
//! when it comes, which bytes were taken then and which were written. `laws` holds what follows from its definitions.
#![tactic(auto)]

mod bytes;
mod desk;
mod feeding;
mod front;
mod intake;
mod laws;
mod line;
mod output;
mod record;
mod run;
mod service;
mod step_lines;
mod top;
mod words;

pub use archive_opening::Status;
pub use laws::{
    links_apart, live_reads_are_done, one_output, one_reading, outputs_follow,
    runs_keep_legal_histories, runs_keep_promises,
};
pub use top::replay_top;
