//! Two runs of one script over drives that tell their plans: what the devices answer is due to the plans, so the runs have the same
//! histories, lines and replies, but for what mismatches have found and for the bytes of files.
#![tactic(auto)]

mod laws;

pub use laws::{alike_ends, alike_runs, changes_are_told, texts_are_output};
