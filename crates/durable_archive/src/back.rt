// What comes back from a call of an archive that keeps a journal.
use archive_turns::ArchiveBack;
use cta_model::Hand;
use std::snapshot::Snapshot;

/// Why nothing more is appended to a journal.
#[derive(Clone, Copy, Debug, PartialEq, Eq)]
pub enum CloseCause {
    /// The disk failed in an append, just after which it had failed so often.
    Disk { faults: u64 },
    /// Memory ran out for an append.
    Memory,
}

/// What comes back from a call.
#[derive(Drop)]
pub enum LoggedBack<M> {
    /// What the archive gives back. An entry that it added is in the journal.
    Answered(ArchiveBack<M>),
    /// The journal is closed for this cause. The call whose append failed added its entry, and the hand is the one that the archive gave;
    /// each later call added none, and the hand is its own, Nothing for a look. Which of the two it is contracts alone see.
    Closed {
        cause: CloseCause,
        hand: Hand<M>,
        added: Snapshot<bool>,
    },
}
