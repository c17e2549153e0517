//! The tests of links that are served over a hall of an archive, by one thread and by two.
#![tactic(auto)]

#[cfg(test)]
mod archives;
#[cfg(test)]
mod crew;
#[cfg(test)]
mod interleaved_tests;
#[cfg(test)]
mod link_tests;
#[cfg(test)]
mod piece_link;
#[cfg(test)]
mod told;
