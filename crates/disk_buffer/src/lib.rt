//! The disk buffer of an archive: the resident files by arrival with their contents, the bytes set aside, and the pins.
#![tactic(auto)]

mod arrivals;
mod buffer;
mod pin_row;
mod pins;
mod row;
mod settling;
mod walks;

pub use buffer::DiskBuffer;
