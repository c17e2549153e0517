// The bytes of a connection that were not read yet.
ghost use Rattle.std.specs.Prelude.{◌≡◌, ◌≤◌, ◌+◌, ◌*◌, ◌++◌, ℕ, [], IsOk, OnErr, OnOk, MatchResult, drop, length, vec_len};

use cta_site::NoMemory;
use std::alloc::Global;

// Bytes, of which so many at the front were read.
#[derive(Drop)]
pub(crate) struct Buffer {
    bytes: Vec<u8>,
    read: usize,
    ghost within: { read ≤ vec_len bytes },
}

impl Buffer {
    ghost use Rattle.conn.specs.Held.{HasSpace, HoldsNothing, held, memory, unread};

    pub(crate) fn new(alloc: Global) -> Buffer
        ensures unread { unread result ≡ [] }
        ensures held { held result ≡ 0 }
    {
        Buffer {
            bytes: Vec::new(alloc),
            read: 0,
        }
    }

    pub(crate) fn unread(&self) -> &[u8]
        ensures { result.now ≡ unread self.now }
    {
        &self.bytes[self.read..]
    }

    // So many bytes more were read.
    pub(crate) fn pass(&mut self, used: usize)
        requires { used ≤ length (unread self.old) }
        ensures unread { unread self.new ≡ drop used (unread self.old) }
        ensures held { held self.new ≡ held self.old }
    {
        self.read += used;
    }

    // Drops the bytes that were read. It moves the others, if any was read.
    pub(crate) fn drop_read(&mut self)
        ensures unread { unread self.new ≡ unread self.old }
        ensures held { held self.new ≡ length (unread self.new) }
        ensures memory { memory self.new ≡ memory self.old }
    {
        if self.read > 0 {
            let kept = self.bytes.len() - self.read;
            self.bytes.copy_within(self.read.., 0);
            self.bytes.truncate(kept);
            self.read = 0;
        }
    }

    // Drops the bytes that were read, where they are at least as many as the others: so no more is moved than was read since
    // the last time.
    fn drop_half(&mut self)
        ensures unread { unread self.new ≡ unread self.old }
        ensures held { held self.new ≤ 2 * length (unread self.new) }
        ensures space { (more : ℕ) → HasSpace self.old more → HasSpace self.new more }
    {
        if self.read >= self.bytes.len() - self.read {
            self.drop_read();
        }
    }

    // Makes room for so many bytes more.
    pub(crate) fn reserve(&mut self, more: usize) -> Result<(), NoMemory>
        ensures unread { unread self.new ≡ unread self.old }
        ensures held { held self.new ≤ 2 * length (unread self.new) }
        ensures space { OnOk result (HasSpace self.new more) }
    {
        self.drop_half();
        self.bytes.reserve(more)?;
        Ok(())
    }

    // Takes a piece behind the bytes that were not read. NoMemory takes nothing of it.
    pub(crate) fn append(&mut self, piece: &[u8]) -> Result<(), NoMemory>
        ensures unread { MatchResult result (λ _. unread self.new ≡ unread self.old ++ piece.now) (λ _. unread self.new ≡ unread self.old) }
        ensures held { held self.new ≤ 2 * length (unread self.new) }
        ensures space { HasSpace self.old (length piece.now) → IsOk result }
    {
        self.drop_half();
        self.bytes.extend_from_slice(piece)?;
        Ok(())
    }

    // Lets go of all bytes and of their memory.
    pub(crate) fn let_go(&mut self)
        ensures unread { unread self.new ≡ [] }
        ensures nothing { HoldsNothing self.new }
    {
        self.bytes.clear();
        self.bytes.shrink_to_fit();
        self.read = 0;
    }
}
