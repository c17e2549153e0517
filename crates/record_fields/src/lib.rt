//! What the records of a journal are made of, as bytes and back: numbers, texts, lists and optional values, and what asks
//! and answers have in them.
#![tactic(auto)]

mod callers;
mod choices;
mod faults;
mod field;
mod groups;
mod jobs;
mod lists;
mod numbers;
mod optional;
mod places;
mod refusals;
mod repacks;
mod stages;
mod sums;
mod tapes;
mod texts;

pub use cta_values::{NoMemory, Rows, Text};
pub use field::{Field, TakeError};
pub use groups::{put_four, put_none, put_one, put_three, put_two};
