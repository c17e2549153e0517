//! A site with the numbers that a scheduler asks for most: the pool of each tape, and the virtual organisation of each pool.
#![tactic(auto)]

mod keyed;
mod numbers;

pub use keyed::SiteIndex;
