// A source over bytes in memory, which fails at the calls that it is told.
ghost use Rattle.std.specs.Prelude.{◌≡◌, ◌≤◌, ◌↔◌, drop, length, min, Some, vec_len, Contains, IsErr, IfOk, OnOk};
ghost use Rattle.std.specs.Io.{ReadsAtMost};
ghost use Rattle.std.specs.Io.KnownBytes.{ReadConsumes};
ghost use Rattle.outside.specs.Causes.{HasCause, next_call};

use crate::{Failed, Source};

/// A source of known bytes that fails at planned calls.
#[derive(Drop)]
pub struct MemSource {
    bytes: Vec<u8>,
    at: usize,
    calls: u64,
    failing: Vec<u64>,
    faults: u64,
    ghost within: { at ≤ vec_len bytes },
}

impl MemSource {
    ghost use Rattle.outside.specs.Memory.{source_left, source_faults, source_calls, source_failing};

    /// A source that has all of `bytes` left. `failing` lists the numbers of the calls of `read` that are to fail,
    /// counted from 1, in any order; a number of no call, as 0, is never met.
    pub fn new(bytes: Vec<u8>, failing: Vec<u64>) -> Self
        ensures left { source_left result ≡ bytes.items }
        ensures faults { source_faults result ≡ 0 }
        ensures calls { source_calls result ≡ 0 }
        ensures failing { source_failing result ≡ failing.items }
    {
        MemSource {
            bytes,
            at: 0,
            calls: 0,
            failing,
            faults: 0,
        }
    }

    /// The bytes that are left.
    pub fn left(&self) -> &[u8]
        ensures { result.now ≡ source_left self.now }
    {
        &self.bytes[self.at..]
    }
}

impl Source for MemSource {
    ghost use Rattle.outside.specs.Memory.{source_left, source_faults, source_calls, source_failing};

    ghost left = { λ s. Some (source_left s) };

    ghost faults = { λ s. source_faults s };

    /// Fails exactly at the planned calls, and gives as many bytes as there are room for and left at each other one.
    fn read(&mut self, to: &mut [u8]) -> Result<usize, Failed>
        ensures bound { ReadsAtMost result to.new }
        ensures bytes { ReadConsumes (Some (source_left self.old)) (Some (source_left self.new)) result to.new }
        ensures cause { HasCause (source_faults self.old) (source_faults self.new) result }
        ensures faultless { OnOk result (source_faults self.new ≡ source_faults self.old) }
        ensures count { IfOk result (λ n. n ≡ min (length to.new) (length (source_left self.old))) }

        // The plan: a call fails where its number is listed, and nowhere else.
        ensures planned { IsErr result
            ↔ Contains (source_failing self.old) (next_call (source_calls self.old)) }
        ensures counted { source_calls self.new ≡ next_call (source_calls self.old) }
        ensures kept { source_failing self.new ≡ source_failing self.old }
    {
        self.calls = self.calls.saturating_add(1);
        if self.failing.contains(&self.calls) {
            self.faults = self.faults.saturating_add(1);
            return Err(Failed);
        }
        let count = to.len().min(self.bytes.len() - self.at);
        to[..count].copy_from_slice(&self.bytes[self.at..self.at + count]);
        self.at += count;
        Ok(count)
    }
}
