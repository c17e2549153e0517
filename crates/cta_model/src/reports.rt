// What looks report. Moments are whole seconds since 1970, sizes are bytes.
use crate::asks::Direction;
use cta_site::{Rows, TapeState, Text};

/// How a stage request stands. It starts at its files' least start, and is completed at their greatest finish, once each
/// has one.
#[derive(Drop)]
pub struct StageInfo {
    pub id: u32,
    pub created_at: u64,
    pub started_at: Option<u64>,
    pub completed_at: Option<u64>,
    pub files: Rows<StageFileInfo>,
}

/// How a file of a stage request stands. `on_disk` says whether it is in the buffer now.
#[derive(Drop)]
pub struct StageFileInfo {
    pub path: Text,
    pub state: FileState,
    pub on_disk: bool,
    pub started_at: Option<u64>,
    pub finished_at: Option<u64>,
    pub error: Option<Text>,
}

/// The state of a file in a stage request, as the WLCG Tape REST API names it.
#[derive(Clone, Copy, Debug, PartialEq, Eq)]
pub enum FileState {
    Submitted,
    Started,
    Completed,
    Failed,
    Cancelled,
}

/// Where the file of a path is kept, or the error that it has none.
#[derive(Drop)]
pub struct PlaceInfo {
    pub path: Text,
    pub locality: Option<Locality>,
    pub error: Option<Text>,
}

/// Where a file is kept, as the WLCG Tape REST API names it.
#[derive(Clone, Copy, Debug, PartialEq, Eq)]
pub enum Locality {
    DiskAndTape,
    Tape,
    Disk,
    Unavailable,
    Lost,
}

/// How a repack stands: its items in order of fSeq.
#[derive(Drop)]
pub struct RepackInfo {
    pub id: u32,
    pub vid: Text,
    pub items: Rows<RepackItem>,
}

/// An item of a repack: a copy of a file that had a place on the tape.
#[derive(Drop)]
pub struct RepackItem {
    pub path: Text,
    pub copy: u8,
    pub state: ItemState,
}

/// The state of an item of a repack. This project's own.
#[derive(Clone, Copy, Debug, PartialEq, Eq)]
pub enum ItemState {
    Reading,
    Writing,
    Done,
    Failed,
    Gone,
}

/// A copy that was never flushed with fate Done and has no live job, with the errors of its last job.
#[derive(Drop)]
pub struct FailedCopy {
    pub path: Text,
    pub copy: u8,
    pub errors: Rows<Text>,
}

/// What is on a tape: its used bytes, how many copies of live files have their place on it, and the fSeq of the next
/// item.
#[derive(Drop)]
pub struct TapeInfo {
    pub vid: Text,
    pub state: TapeState,
    pub used: u64,
    pub files: u32,
    pub next_fseq: u32,
}

/// A queue: its key is a pool's name or a VID, and `oldest` is the birth moment of its first job.
#[derive(Drop)]
pub struct QueueInfo {
    pub direction: Direction,
    pub key: Text,
    pub files: u32,
    pub bytes: u64,
    pub oldest: u64,
}
