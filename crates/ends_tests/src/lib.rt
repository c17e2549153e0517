//! The tests of the program's ends, of its words and of the site's file, which call each of them as the crates above do.
#![tactic(auto)]

#[cfg(test)]
mod closing_tests;
#[cfg(test)]
mod link_tests;
#[cfg(test)]
mod machine_tests;
#[cfg(test)]
mod memory_tests;
#[cfg(test)]
mod site_tests;
#[cfg(test)]
mod stand_in_tests;
#[cfg(test)]
mod valid_site_tests;
#[cfg(test)]
mod words_tests;
