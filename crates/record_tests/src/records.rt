// Records made of bytes, and what reading them gives. What is kept is always given to `drop`, which is a call: where a function leaves it
// behind, the prover goes through each variant of its ask and of its answer once more there, for over a minute.
use cta_records::{Kept, NoMemory, RecordRead, read_record, write_record};
use std::alloc::{AllocError, Global};

/// What bytes begin with, or that there is no memory to tell.
#[derive(Clone, Copy, PartialEq, Eq)]
pub enum Front {
    Need,
    Record,
    Bad,
    NoMemory,
}

/// Three parts in their order.
pub fn joined(
    alloc: Global,
    first: &[u8],
    second: &[u8],
    third: &[u8],
) -> Result<Vec<u8>, AllocError> {
    let mut bytes = Vec::from_slice(alloc, first)?;
    bytes.extend_from_slice(second)?;
    bytes.extend_from_slice(third)?;
    Ok(bytes)
}

/// The record with this body: its length in 8 bytes, and the body.
pub fn record_with(alloc: Global, body: &[u8]) -> Result<Vec<u8>, AllocError> {
    let count = body.len() as u64;
    joined(alloc, &count.to_be_bytes(), body, b"")
}

/// The body of a record: what stands behind its length.
pub fn body_of(record: &[u8]) -> &[u8] {
    if record.len() < 8 {
        record
    } else {
        &record[8..]
    }
}

fn only_if(holds: bool, kept: Kept) -> Option<Kept> {
    if holds {
        Some(kept)
    } else {
        drop(kept);
        None
    }
}

fn kept_of(read: RecordRead, count: u64) -> Option<Kept> {
    match read {
        RecordRead::Record { kept, len } => only_if(len == count, kept),
        RecordRead::Need | RecordRead::Bad => None,
    }
}

/// What is kept by these bytes, where they are one record.
pub fn whole(alloc: Global, record: &[u8]) -> Option<Kept> {
    let count = record.len() as u64;
    match read_record(alloc, record) {
        Ok(read) => kept_of(read, count),
        Err(NoMemory) => None,
    }
}

/// Whether what is kept is written as these bytes.
pub fn is_written(alloc: Global, kept: &Kept, record: &[u8]) -> bool {
    match write_record(alloc, kept) {
        Ok(written) => written.as_slice() == record,
        Err(NoMemory) => false,
    }
}

fn front_of(read: RecordRead) -> Front {
    match read {
        RecordRead::Need => Front::Need,
        RecordRead::Record { kept, .. } => {
            drop(kept);
            Front::Record
        }
        RecordRead::Bad => Front::Bad,
    }
}

fn front_in(alloc: Global, bytes: &[u8]) -> Front {
    match read_record(alloc, bytes) {
        Ok(read) => front_of(read),
        Err(NoMemory) => Front::NoMemory,
    }
}

// Whether these bytes are the body of no record.
fn is_no_body(alloc: Global, body: &[u8]) -> bool {
    match record_with(alloc, body) {
        Ok(record) => front_in(alloc, &record) == Front::Bad,
        Err(AllocError) => false,
    }
}

/// Whether each front of a record needs more bytes.
pub fn fronts_need_more(alloc: Global, record: &[u8]) -> bool {
    for count in 0..record.len() {
        if front_in(alloc, &record[..count]) != Front::Need {
            return false;
        }
    }
    true
}

/// Whether no front of a body is one.
pub fn fronts_are_no_bodies(alloc: Global, body: &[u8]) -> bool {
    for count in 0..body.len() {
        if !is_no_body(alloc, &body[..count]) {
            return false;
        }
    }
    true
}
