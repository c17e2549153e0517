//! The tests of records, against bytes that are written out by hand from the tables of docs/JOURNAL.md.
#![tactic(auto)]

#[cfg(test)]
mod answer_tests;
#[cfg(test)]
mod ask_tests;
#[cfg(test)]
mod journal_tests;
#[cfg(test)]
mod numbers;
#[cfg(test)]
mod put_tests;
#[cfg(test)]
mod puts;
#[cfg(test)]
mod records;
#[cfg(test)]
mod variants;
