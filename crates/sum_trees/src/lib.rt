//! Ordered trees with sums over one vector of nodes.
#![tactic(auto)]

mod balance;
mod change;
mod forest;
mod grove;
mod nodes;
mod passing;
mod ranges;
mod search;
mod sought;
mod summed;

pub use forest::Forest;
pub use sought::Sought;
pub use summed::Summed;
