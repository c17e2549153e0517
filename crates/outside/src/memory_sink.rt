// A sink that keeps its bytes in memory, and fails at the calls that it is told.
ghost use Rattle.std.specs.Prelude.{◌≡◌, ◌⊎◌, Some, [], Contains, IsErr, OnOk, OnErr};
ghost use Rattle.outside.specs.Causes.{HasCause, next_call};
ghost use Rattle.outside.specs.Streams.{WritesWhole};

use crate::{Failed, Sink};
use std::alloc::Global;

/// A sink whose bytes can be looked at, and which fails at planned calls and where it finds no memory.
#[derive(Drop)]
pub struct MemSink {
    bytes: Vec<u8>,
    calls: u64,
    failing: Vec<u64>,
    faults: u64,
}

impl MemSink {
    ghost use Rattle.outside.specs.Memory.{sink_written, sink_faults, sink_calls, sink_failing};

    /// A sink that holds nothing. `failing` lists the numbers of the calls of `write_all_of` that are to fail,
    /// counted from 1, in any order; a number of no call, as 0, is never met.
    pub fn new(alloc: Global, failing: Vec<u64>) -> Self
        ensures written { sink_written result ≡ [] }
        ensures faults { sink_faults result ≡ 0 }
        ensures calls { sink_calls result ≡ 0 }
        ensures failing { sink_failing result ≡ failing.items }
    {
        MemSink {
            bytes: Vec::new(alloc),
            calls: 0,
            failing,
            faults: 0,
        }
    }

    /// The bytes that it holds.
    pub fn bytes(&self) -> &[u8]
        ensures { result.now ≡ sink_written self.now }
    {
        &self.bytes
    }
}

impl Sink for MemSink {
    ghost use Rattle.outside.specs.Memory.{sink_written, sink_faults, sink_calls, sink_failing};

    ghost written = { λ s. Some (sink_written s) };

    ghost faults = { λ s. sink_faults s };

    /// Fails at each planned call, where the first half of the piece is written if there is memory for it, and else
    /// only where memory is wanted, where nothing is.
    fn write_all_of(&mut self, piece: &[u8]) -> Result<(), Failed>
        ensures bytes { WritesWhole (Some (sink_written self.old)) (Some (sink_written self.new)) result piece.now }
        ensures cause { HasCause (sink_faults self.old) (sink_faults self.new) result }
        ensures faultless { OnOk result (sink_faults self.new ≡ sink_faults self.old) }

        // The plan: a call fails where its number is listed. No clause can rule out want of memory at another call,
        // but then nothing was written.
        ensures planned { Contains (sink_failing self.old) (next_call (sink_calls self.old)) → IsErr result }
        ensures unplanned { OnErr result (Contains (sink_failing self.old) (next_call (sink_calls self.old))
            ⊎ (sink_written self.new ≡ sink_written self.old)) }
        ensures counted { sink_calls self.new ≡ next_call (sink_calls self.old) }
        ensures kept { sink_failing self.new ≡ sink_failing self.old }
    {
        self.calls = self.calls.saturating_add(1);
        if self.failing.contains(&self.calls) {
            self.faults = self.faults.saturating_add(1);
            let _ = self.bytes.extend_from_slice(&piece[..piece.len() / 2]);
            return Err(Failed);
        }
        if self.bytes.extend_from_slice(piece).is_err() {
            self.faults = self.faults.saturating_add(1);
            return Err(Failed);
        }
        Ok(())
    }
}
