//! The tests of archives that are taken up again.
#![tactic(auto)]

#[cfg(test)]
mod logs;
#[cfg(test)]
mod restore_tests;
#[cfg(test)]
mod site;
