//! The tests of journals and of their disks, which call each of them as the crates above do.
#![tactic(auto)]

#[cfg(test)]
mod file_tests;
#[cfg(test)]
mod journal_tests;
#[cfg(test)]
mod note;
