// The rows that the values of the buffer and of the table of tapes are made of, and the ends of a file of a request.
use cta_model::Place;
use cta_site::{TapeState, Text};

/// A file that the buffer holds: its number, its length in bytes, and whether it is safe on tape.
#[derive(Clone, Copy, Debug, PartialEq, Eq)]
pub struct Resident {
    pub file: u32,
    pub len: u64,
    pub safe: bool,
}

/// A pin that the buffer keeps: the file, the Stage or Repack entry that pins it, and the moment at which the pin ends, in
/// seconds since 1970. The greatest number stands for no end.
#[derive(Clone, Copy, Debug, PartialEq, Eq)]
pub struct HeldPin {
    pub file: u32,
    pub owner: u32,
    pub until: u64,
}

/// What is kept of a tape: its used bytes, the fSeq that its next item gets, from 1, and its state.
#[derive(Clone, Copy, Debug, PartialEq, Eq)]
pub struct TapeRow {
    pub used: u64,
    pub next: u32,
    pub state: TapeState,
}

/// A copy of a file that has a place.
#[derive(Clone, Copy, Debug, PartialEq, Eq)]
pub struct Placed {
    pub file: u32,
    pub copy: u8,
    pub place: Place,
}

/// How a waiting file of a stage request ends: it is there, its request cancelled it, or it failed with this error.
#[derive(Drop)]
pub enum FileEnd {
    Completed,
    Cancelled,
    Failed(Text),
}
