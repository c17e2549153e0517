// The bytes of a disk in memory, and what a crash may leave of them.
ghost use Rattle.std.specs.Prelude.{◌≡◌, ◌≤◌, ◌+◌, [], ◌∷◌, ◌++◌, length, List, ℕ, IfOk, OnOk, OnErr, take};
ghost use Rattle.outside.specs.Causes.{HasCause};
ghost use Rattle.cta_journal.specs.Disk.{written, Follows, Torn, Cut, Elapses, Only};
ghost use Rattle.journal_disks.specs.Events.{Content, IsWhole, Leaves, LeftSince, moment_of};

use crate::events::{DiskEvent, Tear};
use std::alloc::{AllocError, Global};
use std::marker::Model;

// A content at first, what a read gives now, what a crash leaves at its worst, and the events since the first.
#[derive(Drop)]
pub(crate) struct Kept {
    first: Vec<u8>,
    bytes: Vec<u8>,
    torn: Vec<u8>,
    events: Vec<DiskEvent>,
}

impl Model for Kept {
    ghost Value = { Content };

    ghost view = { λ k. record { first = k.first.items; bytes = k.bytes.items; torn = k.torn.items; events = k.events.items } };

    ghost invariant = { λ k. IsWhole (record { first = k.first.items; bytes = k.bytes.items; torn = k.torn.items; events = k.events.items }) };
}

// What the bytes are once the piece was written.
fn overwritten(alloc: Global, bytes: &[u8], at: usize, piece: &[u8]) -> Result<Vec<u8>, AllocError>
    requires { at ≤ length bytes.now }
    ensures { IfOk result (λ v. v.items ≡ written bytes.now at piece.now) }
{
    let mut next = bytes[..at].to_vec(alloc)?;
    next.extend_from_slice(piece)?;
    if piece.len() < bytes.len() - at {
        next.extend_from_slice(&bytes[at + piece.len()..])?;
    }
    Ok(next)
}

// What a crash leaves of a piece.
fn ragged(alloc: Global, piece: &[u8], tear: Tear) -> Result<Vec<u8>, AllocError>
    ensures { IfOk result (λ v. length v.items ≡ length piece.now) }
{
    let mut left = piece.to_vec(alloc)?;
    for i in tear.whole..piece.len() {
        left[i] = tear.fill;
    }
    Ok(left)
}

impl Kept {
    pub(crate) fn new(alloc: Global, bytes: Vec<u8>) -> Result<Kept, AllocError>
        ensures bytes { IfOk result (λ k. k.bytes ≡ bytes.items) }
        ensures only { IfOk result (λ k. Only bytes.items (Leaves k)) }
    {
        let first = bytes.as_slice().to_vec(alloc)?;
        let torn = bytes.as_slice().to_vec(alloc)?;
        Ok(Kept {
            first,
            bytes,
            torn,
            events: Vec::new(alloc),
        })
    }

    // What a read gives.
    pub(crate) fn bytes(&self) -> &[u8]
        ensures bytes { result.now ≡ self.now.bytes }
        ensures possible { Leaves self.now result.now }
    {
        &self.bytes
    }

    // What a crash leaves at its worst.
    pub(crate) fn torn(&self) -> &[u8]
        ensures { Leaves self.now result.now }
    {
        &self.torn
    }

    // Leaves the range of a piece to a crash, and nothing else: what a read gives stays.
    pub(crate) fn tear(
        &mut self,
        alloc: Global,
        at: usize,
        piece: &[u8],
        how: Tear,
    ) -> Result<(), AllocError>
        requires { at ≤ length self.old.bytes }
        ensures bytes { self.new.bytes ≡ self.old.bytes }
        ensures crash { Follows (Torn at (length piece.now)) (Leaves self.old) (Leaves self.new) }
        ensures time { Elapses (moment_of self.old) (moment_of self.new) (LeftSince self.old) (LeftSince self.new) (Leaves self.new) }
        ensures ok { OnOk result ((self.new.first ≡ self.old.first) × (self.new.events ≡ self.old.events ++ DiskEvent.Written at (length piece.now) ∷ [])) }
        ensures possible { Leaves self.old self.old.bytes → Leaves self.new self.new.bytes }
        ensures long { OnOk result (at + length piece.now ≤ length self.new.torn) }
    {
        let left = ragged(alloc, piece, how)?;
        let torn = overwritten(alloc, &self.torn, at, &left)?;
        self.events.push(DiskEvent::Written {
            at: at as u64,
            len: piece.len() as u64,
        })?;
        self.torn = torn;
        Ok(())
    }

    // Writes a piece.
    pub(crate) fn write(
        &mut self,
        alloc: Global,
        at: usize,
        piece: &[u8],
        how: Tear,
    ) -> Result<(), AllocError>
        requires { at ≤ length self.old.bytes }
        ensures possible { Leaves self.old self.old.bytes → Leaves self.new self.new.bytes }
        ensures bytes { OnOk result (self.new.bytes ≡ written self.old.bytes at piece.now) }
        ensures crash { Follows (Torn at (length piece.now)) (Leaves self.old) (Leaves self.new) }
        ensures time { Elapses (moment_of self.old) (moment_of self.new) (LeftSince self.old) (LeftSince self.new) (Leaves self.new) }
    {
        let next = overwritten(alloc, &self.bytes, at, piece)?;
        self.tear(alloc, at, piece, how)?;
        self.bytes = next;
        Ok(())
    }

    // Cuts.
    pub(crate) fn cut(&mut self, alloc: Global, len: usize) -> Result<(), AllocError>
        requires { len ≤ length self.old.bytes }
        ensures possible { Leaves self.old self.old.bytes → Leaves self.new self.new.bytes }
        ensures bytes { OnOk result (self.new.bytes ≡ take len self.old.bytes) }
        ensures crash { Follows (Cut len) (Leaves self.old) (Leaves self.new) }
        ensures time { Elapses (moment_of self.old) (moment_of self.new) (LeftSince self.old) (LeftSince self.new) (Leaves self.new) }
    {
        let next = self.bytes[..len].to_vec(alloc)?;
        self.events.push(DiskEvent::Cut { len: len as u64 })?;
        self.bytes = next;
        Ok(())
    }

    // Syncs.
    pub(crate) fn sync(&mut self, alloc: Global) -> Result<(), AllocError>
        ensures possible { Leaves self.old self.old.bytes → Leaves self.new self.new.bytes }
        ensures bytes { self.new.bytes ≡ self.old.bytes }
        ensures durable { OnOk result (Only self.old.bytes (Leaves self.new)) }
        ensures crash { (c : List ℕ) → Leaves self.new c → Leaves self.old c }
        ensures time { Elapses (moment_of self.old) (moment_of self.new) (LeftSince self.old) (LeftSince self.new) (Leaves self.new) }
    {
        let bytes = self.bytes.as_slice().to_vec(alloc)?;
        let torn = self.bytes.as_slice().to_vec(alloc)?;
        self.events.push(DiskEvent::Synced { bytes })?;
        self.torn = torn;
        Ok(())
    }
}
