//! The JSON bodies of the WLCG Tape REST API and of this project's own administration: bodies of requests are read to
//! exactly their value or their first fault, and the answers of the archive are written as exactly one text each.
#![tactic(auto)]

mod answer;
mod body;
mod ids;
mod lifetime;
mod lists;
mod members;
mod names;
mod places;
mod reported;
mod stage;
mod stages;
mod tapes;
mod words;

pub use answer::write_answer;
pub use body::BodyError;
pub use lists::read_paths;
pub use stage::read_stage;
pub use words::{read_state, read_vid};
