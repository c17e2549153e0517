//! What a mismatch has found is told to nobody: no answer of the archive depends on it, so histories that differ in nothing else
//! stand for each other.
#![tactic(auto)]

mod laws;

pub use laws::{
    answers_are_alike, fits_are_alike, histories_stay_alike, legal_histories_are_alike,
    looks_are_alike,
};
