//! A pool of links that wait for a worker: one door puts them in, and workers take them out in the same order, each once.
#![tactic(auto)]

mod pool;
#[cfg(test)]
mod tests;
mod views;

pub use pool::{Pool, PoolPass, pool_is_shared};
pub use views::{Passed, PoolView};
