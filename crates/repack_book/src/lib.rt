//! The book of repacks: the items of each with their states, which tapes have a repack that is live, and which repacks are writing
//! a copy.
#![tactic(auto)]

mod book;
mod holders;
mod items;
mod maps;
mod row;
mod states;

pub use book::RepackBook;
