//! The accepted asks of operators that speak of a tape, carried out over the kept history and the parts: a tape's state, a
//! Reclaim and a Repack.
#![tactic(auto)]

mod births;
mod found;
mod items;
mod leaving;
mod lists;
mod losses;
mod names;
mod ready;
mod recalls;
mod reclaim;
mod repack;
mod settled;
mod states;
mod writing;

pub use reclaim::reclaim_tape;
pub use repack::repack_tape;
pub use states::set_tape_state;
