//! Threads that serve links at one hall: one accepts links and puts them into a pool, and workers take them out and serve each.
//! What a worker's pass then asks is what its links ask, and so it is for all passes when they are one again.
#![tactic(auto)]

mod accepting;
mod busy;
mod front;
mod gathering;
mod serving;

pub use accepting::accept_all;
pub use busy::{refuse_rest, say_busy, work_busy};
pub use front::Callers;
pub use gathering::{gather, no_links_are_asked, serve_rest};
pub use serving::{Served, work_links};
