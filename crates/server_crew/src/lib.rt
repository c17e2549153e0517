//! The threads of a server at one hall: a worker for each drive, workers of links, one of links that find no room, and the thread that
//! accepts links beside them.
#![tactic(auto)]

mod beside;
mod crew;
mod gathering;
mod muster;
mod post;
mod serving;
mod threads;

pub use serving::{Served, serve_hall};
