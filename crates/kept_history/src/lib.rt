//! The history that an archive keeps: its entries by number, what they say of files and of jobs, and its weight.
#![tactic(auto)]

mod files;
mod history;
mod jobs;
mod weight;

pub use history::KeptHistory;
pub use weight::weight_of_entry;
