// What a step reports, and its line.
use blob::Sum256;
use cta_model::{Ask, Direction, Hand};

/// A call of the device: of a write and a read the fSeq, from 1. This project's own.
#[derive(Clone, Copy, Debug, PartialEq, Eq)]
pub enum Call {
    Load,
    Write(u32),
    Flush,
    Read(u32),
    Unload,
}

/// What the device answered to the call of a step. `Fault` comes only where the drive's count of faults of that call rose,
/// `Mismatch` exactly where a read gave another length or SHA-256 than the catalogue's, and `NoMemory` for a write or a read
/// alone. This project's own.
#[derive(Clone, Copy)]
pub enum Done {
    Ok(Call),
    Fault(Call),
    Mismatch { found: Sum256, wanted: Sum256 },
    NoMemory(Call),
}

/// What a step did: what the device answered, if it was called, and what the archive is to be asked, if anything, with what
/// goes with the ask.
#[derive(Drop)]
pub struct Report<M> {
    pub device: Option<Done>,
    pub ask: Option<(Ask, Hand<M>)>,
}

/// How a read ended: the file was wanted, or its job had ended; the call failed; or what was read has another sum.
#[derive(Clone, Copy, Debug, PartialEq, Eq)]
pub enum ReadEnd {
    Done,
    Stale,
    Failed,
    Mismatch,
}

/// The line of a step. A truth value is true where the call succeeded; fSeqs count from 1, tapes are numbers of the site, and
/// counts are of items. `Memory` is a want of memory, after which the session is as before. This project's own.
#[derive(Clone, Copy, Debug, PartialEq, Eq)]
pub enum StepLine {
    /// The drive is to mount this tape.
    Mount { direction: Direction, tape: u32 },
    /// There is nothing to mount.
    Idle,
    /// The drive is down.
    Down,
    /// The drive has an open mount.
    Busy,
    /// The history has no room for a mount.
    Full,
    Load(bool),
    /// The batch has so many items; 0 where there is none.
    Claim(u32),
    /// The history has no room for a batch.
    ClaimFull,
    Write(u32, bool),
    /// So many items are on tape, and the jobs of so many had ended.
    Flush { done: u32, stale: u32 },
    FlushFailed,
    Read(u32, ReadEnd),
    Unload(bool),
    Memory,
}
