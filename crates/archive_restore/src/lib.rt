//! An archive taken up again from the records of its history: each ask is made once more at its moment, with its content, and its answer
//! is compared with the one that was kept. The first record that is wrong is named.
#![tactic(auto)]

mod asked;
mod contents;
mod error;
mod fitting;
mod label;
mod laws;
mod played;
mod replayer;
mod same;
mod taking;

pub use error::RestoreError;
pub use laws::log_is_wrong_once;
pub use taking::restore;
