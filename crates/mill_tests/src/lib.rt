//! The tests of a mill: its threads meet at a gate, and its statuses and lines over a sink in memory.
#![tactic(auto)]

#[cfg(test)]
mod gate;
#[cfg(test)]
mod run_tests;
#[cfg(test)]
mod running;
