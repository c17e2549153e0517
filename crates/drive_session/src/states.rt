// The states of a session.
use crate::reports::{Report, StepLine};
use blob::Blob;
use cta_model::{Direction, Item, Job};
use cta_site::Rows;
use std::sync::Arc;

/// A mount, by its number, with its direction, its tape and the tape's medium.
#[derive(Drop)]
pub struct Mounted<M> {
    pub mount: u32,
    pub direction: Direction,
    pub tape: u32,
    pub medium: M,
}

/// A batch that is being written: its items with their contents, how many are written, and the lists for the asks that may
/// follow, which are made before the first write.
#[derive(Drop)]
pub struct Batch {
    pub items: Rows<Item>,
    pub blobs: Rows<Arc<Blob>>,
    pub at: usize,
    /// The jobs of all items.
    pub jobs: Vec<Job>,
    /// One job.
    pub one: Vec<Job>,
}

/// The state of a session. A mount that is `Held` isn't loaded yet, a `Ready` one has no batch, and a `Leaving` one is to be
/// unloaded. `Claimed` is a batch before its first write. `Writing` with all items written is to be flushed, and `Reading`
/// with all items read is as `Ready`.
#[derive(Drop)]
pub enum State<M> {
    Free,
    Held(Mounted<M>),
    Ready(Mounted<M>),
    Claimed(Mounted<M>, Rows<Item>, Rows<Arc<Blob>>),
    Writing(Mounted<M>, Batch),
    /// The items, and how many are read.
    Reading(Mounted<M>, Rows<Item>, usize),
    Leaving(Mounted<M>),
}

/// What came of a device call whose line is known before its ask is answered: a fault of a load, a write (with the fSeq), a
/// flush or a read, a read of another sum, or an unload that succeeded or not.
#[derive(Clone, Copy)]
pub enum Outcome {
    Load,
    Write(u32),
    Flush,
    Read(u32),
    Mismatch(u32),
    Unload(bool),
}

/// What the open ask of a session is about; where none is open, the line of the last step.
#[derive(Clone, Copy)]
pub enum Asked {
    Nothing(StepLine),
    Next,
    Claim,
    Flushed,
    /// The fSeq that was read.
    Recalled(u32),
    /// What is known already.
    Known(Outcome),
}

// What a step leaves: the state behind it and behind an accepted ask, what the ask is about, and the report.
#[derive(Drop)]
pub(crate) struct Step<M> {
    pub(crate) state: State<M>,
    pub(crate) asked: Asked,
    pub(crate) report: Report<M>,
}
