//! The index of paths: which live file each path names.
#![tactic(auto)]

mod index;

pub use index::PathIndex;
