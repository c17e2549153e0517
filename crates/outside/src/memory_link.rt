// A link over bytes in memory, which fails at the calls that it is told.
ghost use Rattle.std.specs.Prelude.{◌≡◌, ◌↔◌, [], Some, None, true, false, min, length, Contains, MatchOption, IsOk, IsErr, IfOk, OnOk};
ghost use Rattle.std.specs.Io.{ReadsAtMost};
ghost use Rattle.std.specs.Io.KnownBytes.{ReadConsumes};
ghost use Rattle.outside.specs.Causes.{HasCause, next_call};
ghost use Rattle.outside.specs.Streams.{SendsWhole, StillAppends};

use crate::{Failed, Link, MemSource, Source};
use std::alloc::Global;

/// A link of known bytes, which fails at planned calls. What was written can be looked at as long as there was memory for it:
/// a piece for which there is none is lost, and nothing is told of what was written from then on, since a link that is to
/// fail nowhere fails nowhere.
#[derive(Drop)]
pub struct MemLink {
    source: MemSource,
    written: Vec<u8>,
    tells: bool,
    calls: u64,
    failing: Vec<u64>,
    faults: u64,
    closed: bool,
}

impl MemLink {
    ghost use Rattle.outside.specs.Links.{link_left, link_written, link_read_faults, link_write_faults, link_reads, link_writes, link_failing_reads, link_failing_writes, link_closed};

    /// A link that has all of `bytes` left and to which nothing was written. The lists have the numbers of the reads and of the
    /// writes that are to fail, each counted from 1, in any order.
    pub fn new(
        alloc: Global,
        bytes: Vec<u8>,
        failing_reads: Vec<u64>,
        failing_writes: Vec<u64>,
    ) -> MemLink
        ensures left { link_left result ≡ bytes.items }
        ensures written { link_written result ≡ Some [] }
        ensures faults { (link_read_faults result ≡ 0) × (link_write_faults result ≡ 0) }
        ensures calls { (link_reads result ≡ 0) × (link_writes result ≡ 0) }
        ensures failing { (link_failing_reads result ≡ failing_reads.items) × (link_failing_writes result ≡ failing_writes.items) }
        ensures closed { link_closed result ≡ false }
    {
        MemLink {
            source: MemSource::new(bytes, failing_reads),
            written: Vec::new(alloc),
            tells: true,
            calls: 0,
            failing: failing_writes,
            faults: 0,
            closed: false,
        }
    }

    /// The bytes that were written, None where there was no memory for a piece.
    pub fn written(&self) -> Option<&[u8]>
        ensures { MatchOption result (link_written self.now ≡ None) (λ bytes. link_written self.now ≡ Some bytes.now) }
    {
        if self.tells {
            Some(&self.written)
        } else {
            None
        }
    }

    // Keeps a piece; where there is no memory for it, what was written isn't told any more.
    fn keep(&mut self, piece: &[u8])
        ensures bytes { StillAppends (link_written self.old) (link_written self.new) piece.now }
        ensures others { (self.new.source ≡ self.old.source) × (self.new.calls ≡ self.old.calls) × (self.new.failing ≡ self.old.failing) × (self.new.faults ≡ self.old.faults) × (self.new.closed ≡ self.old.closed) }
    {
        if self.written.extend_from_slice(piece).is_err() {
            self.tells = false;
        }
    }

    /// Whether it was closed.
    pub fn is_closed(&self) -> bool
        ensures { result ≡ link_closed self.now }
    {
        self.closed
    }
}

impl Link for MemLink {
    ghost use Rattle.outside.specs.Links.{link_left, link_written, link_read_faults, link_write_faults, link_firm, link_reads, link_writes, link_failing_reads, link_failing_writes, link_closed};

    ghost left = { λ l. Some (link_left l) };

    ghost written = { λ l. link_written l };

    ghost read_faults = { λ l. link_read_faults l };

    ghost write_faults = { λ l. link_write_faults l };

    ghost firm = { λ l. link_firm l };

    /// Fails exactly at the planned reads, and gives as many bytes as there are room for and left at each other one.
    fn read(&mut self, to: &mut [u8]) -> Result<usize, Failed>
        ensures bound { ReadsAtMost result to.new }
        ensures bytes { ReadConsumes (Some (link_left self.old)) (Some (link_left self.new)) result to.new }
        ensures cause { HasCause (link_read_faults self.old) (link_read_faults self.new) result }
        ensures other { (link_written self.new ≡ link_written self.old) × (link_write_faults self.new ≡ link_write_faults self.old) }
        ensures firm { (link_firm self.new ≡ link_firm self.old) × (link_firm self.old ≡ true → IsOk result) }
        ensures faultless { OnOk result (link_read_faults self.new ≡ link_read_faults self.old) }
        ensures count { IfOk result (λ n. n ≡ min (length to.new) (length (link_left self.old))) }

        // The plan: a read fails where its number is listed, and nowhere else.
        ensures planned { IsErr result
            ↔ Contains (link_failing_reads self.old) (next_call (link_reads self.old)) }
        ensures counted { link_reads self.new ≡ next_call (link_reads self.old) }
        ensures kept { (link_failing_reads self.new ≡ link_failing_reads self.old) × (link_failing_writes self.new ≡ link_failing_writes self.old) }
        ensures writes { link_writes self.new ≡ link_writes self.old }
        ensures open { link_closed self.new ≡ link_closed self.old }
    {
        self.source.read(to)
    }

    /// Fails exactly at the planned writes, where the first half of the piece is written.
    fn write_all_of(&mut self, piece: &[u8]) -> Result<(), Failed>
        ensures bytes { SendsWhole (link_written self.old) (link_written self.new) result piece.now }
        ensures cause { HasCause (link_write_faults self.old) (link_write_faults self.new) result }
        ensures other { (link_left self.new ≡ link_left self.old) × (link_read_faults self.new ≡ link_read_faults self.old) }
        ensures firm { (link_firm self.new ≡ link_firm self.old) × (link_firm self.old ≡ true → IsOk result) }
        ensures faultless { OnOk result (link_write_faults self.new ≡ link_write_faults self.old) }

        // The plan: a write fails where its number is listed, and nowhere else.
        ensures planned { IsErr result
            ↔ Contains (link_failing_writes self.old) (next_call (link_writes self.old)) }
        ensures counted { link_writes self.new ≡ next_call (link_writes self.old) }
        ensures kept { (link_failing_reads self.new ≡ link_failing_reads self.old) × (link_failing_writes self.new ≡ link_failing_writes self.old) }
        ensures reads { link_reads self.new ≡ link_reads self.old }
        ensures open { link_closed self.new ≡ link_closed self.old }
    {
        self.calls = self.calls.saturating_add(1);
        if self.failing.contains(&self.calls) {
            self.faults = self.faults.saturating_add(1);
            self.keep(&piece[..piece.len() / 2]);
            return Err(Failed);
        }
        self.keep(piece);
        Ok(())
    }

    /// From now on it tells that it was closed. Nothing else changes.
    fn close(&mut self)
        ensures bytes { (link_left self.new ≡ link_left self.old) × (link_written self.new ≡ link_written self.old) }
        ensures counts { (link_read_faults self.new ≡ link_read_faults self.old) × (link_write_faults self.new ≡ link_write_faults self.old) }
        ensures firm { link_firm self.new ≡ link_firm self.old }
        ensures calls { (link_reads self.new ≡ link_reads self.old) × (link_writes self.new ≡ link_writes self.old) }
        ensures kept { (link_failing_reads self.new ≡ link_failing_reads self.old) × (link_failing_writes self.new ≡ link_failing_writes self.old) }
        ensures closed { link_closed self.new ≡ true }
    {
        self.closed = true;
    }
}
