//! An entry of the history as the bytes of a record, with the content that came in or was read, and back.
#![tactic(auto)]

mod answers;
mod asks;
mod bodies;
mod contents;
mod copying;
mod entries;
mod journaled;
mod kept;
mod laws;
mod reading;
mod writing;

pub use copying::copy_entry;
pub use kept::{Kept, RecordRead};
pub use laws::records_tell_apart;
pub use reading::read_record;
pub use record_fields::NoMemory;
pub use writing::write_record;
