// A source and a sink, by the bytes that they tell of and a count of their faults.
ghost use Rattle.std.specs.Prelude.{List, ℕ};
ghost use Rattle.std.specs.declared.option.Option.{Option};
ghost use Rattle.std.specs.Io.{ReadsAtMost};
ghost use Rattle.std.specs.Io.KnownBytes.{ReadConsumes};
ghost use Rattle.outside.specs.Causes.{HasCause};
ghost use Rattle.outside.specs.Streams.{WritesWhole};

/// The outside failed. The object that answers it has raised its count of faults in the same call.
#[derive(Clone, Copy, Debug, PartialEq, Eq)]
pub struct Failed;

/// A stream of bytes to read. The rules are this project's own, after those of Rust's `Read`.
pub trait Source {
    /// The bytes that it has left, in their order, where it tells: a source over the machine's files tells nothing.
    ghost left: { Self → Option (List ℕ) };

    /// How often it has failed. At 2^64 - 1 the count stands.
    ghost faults: { Self → ℕ };

    /// Puts the next bytes at the front of `to` and answers how many. 0 for a `to` that isn't empty is the end of
    /// the stream. Fewer bytes than `to` has room for say nothing of the end. It answers `Failed` only where the
    /// count of faults rose in this call, and then no byte is consumed.
    fn read(&mut self, to: &mut [u8]) -> Result<usize, Failed>
        ensures bound { ReadsAtMost result to.new }
        ensures bytes { ReadConsumes (left self.old) (left self.new) result to.new }
        ensures cause { HasCause (faults self.old) (faults self.new) result };
}

/// A stream of bytes to write. The rules are this project's own, after those of Rust's `Write::write_all`.
pub trait Sink {
    /// The bytes that it holds, in the order in which they came, where it tells.
    ghost written: { Self → Option (List ℕ) };

    /// How often it has failed. At 2^64 - 1 the count stands.
    ghost faults: { Self → ℕ };

    /// Appends the piece, whole and at once: nothing waits for a later call. It answers `Failed` only where the
    /// count of faults rose in this call, and then a front of the piece was written, which may be empty or all of it.
    fn write_all_of(&mut self, piece: &[u8]) -> Result<(), Failed>
        ensures bytes { WritesWhole (written self.old) (written self.new) result piece.now }
        ensures cause { HasCause (faults self.old) (faults self.new) result };
}
