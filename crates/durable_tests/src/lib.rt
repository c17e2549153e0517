//! The tests of an archive that keeps a journal.
#![tactic(auto)]

#[cfg(test)]
mod calls;
#[cfg(test)]
mod crash_tests;
#[cfg(test)]
mod site;
