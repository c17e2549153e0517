//! The tests of media, of the lock of a folder and of drive sessions, which call each of them as the crates above do.
#![tactic(auto)]

#[cfg(test)]
mod file_tests;
#[cfg(test)]
mod lock_tests;
#[cfg(test)]
mod media_tests;
#[cfg(test)]
mod mismatch_tests;
#[cfg(test)]
mod session_tests;
