//! Maps whose keys are numbers that an archive gives in turn, as those of entries and files.
#![tactic(auto)]

mod hasher;
mod map;

pub use hasher::NumberHasher;
pub use map::{NumberMap, new_map};
