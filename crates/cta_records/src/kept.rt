// What a record keeps, and what reading one gives.
use blob::Blob;
use cta_model::Entry;
use std::alloc::Global;
use std::sync::Arc;

/// An entry of the history, with the content that came in with a Put or was read for a Recalled, if there is one.
#[derive(Drop)]
pub struct Kept {
    pub entry: Entry,
    pub blob: Option<Arc<Blob, Global>>,
}

/// What was read of the bytes at which a record's length should begin.
#[derive(Drop)]
pub enum RecordRead {
    /// The length is not whole, or fewer bytes follow than it says.
    Need,
    /// What the record keeps, and how many bytes its length and its body take.
    Record { kept: Kept, len: u64 },
    /// The length and as many bytes are there, and they are no record.
    Bad,
}
