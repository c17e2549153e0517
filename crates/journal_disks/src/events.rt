// What a call of a disk in memory leaves to a crash.

/// What a call left to a crash.
#[derive(Drop)]
pub enum DiskEvent {
    /// Bytes were written in a range.
    Written { at: u64, len: u64 },
    /// The file was cut.
    Cut { len: u64 },
    /// All was synced.
    Synced { bytes: Vec<u8> },
}

/// How a crash tears a write that wasn't synced: of each piece so many bytes are there, and this byte stands for each other one.
#[derive(Clone, Copy, Debug, PartialEq, Eq)]
pub struct Tear {
    pub whole: usize,
    pub fill: u8,
}
