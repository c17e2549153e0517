//! The tests of an archive, and of threads at one.
#![tactic(auto)]

#[cfg(test)]
mod crew;
#[cfg(test)]
mod told_tests;
#[cfg(test)]
mod turn_tests;
