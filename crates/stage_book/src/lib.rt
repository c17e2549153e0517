//! The book of stage requests: the files of each with their states, and which of them pin a file.
#![tactic(auto)]

mod book;
mod file_row;
mod report;
mod row;

pub use book::StageBook;
