// A writer of std as a sink.
ghost use Rattle.std.specs.Prelude.{◌≡◌, OnOk};
ghost use Rattle.outside.specs.Causes.{HasCause};
ghost use Rattle.outside.specs.Streams.{WritesWhole};

use crate::writing::write_whole;
use crate::{Failed, Sink};
use std::io::Write;

/// What a writer takes. Each call hands its piece to the writer before it returns, and holds nothing back. Each fault of the writer is
/// one of the sink.
#[derive(Drop)]
pub struct StreamSink<W> {
    writer: W,
    faults: u64,
}

impl<W: Write> StreamSink<W> {
    ghost use Rattle.outside.specs.Machine.{stream_written, stream_write_faults};

    /// A sink that holds what the writer holds.
    pub fn new(writer: W) -> StreamSink<W>
        ensures written { stream_written W.contents result ≡ W.contents writer }
        ensures faults { stream_write_faults result ≡ 0 }
    {
        StreamSink { writer, faults: 0 }
    }
}

impl<W: Write> Sink for StreamSink<W> {
    ghost use Rattle.outside.specs.Machine.{stream_written, stream_write_faults};

    ghost written = { stream_written W.contents };

    ghost faults = { λ s. stream_write_faults s };

    /// Writes the piece to the writer, in one call of it or more. It fails where the writer failed or took nothing.
    fn write_all_of(&mut self, piece: &[u8]) -> Result<(), Failed>
        ensures bytes { WritesWhole (stream_written W.contents self.old) (stream_written W.contents self.new) result piece.now }
        ensures cause { HasCause (stream_write_faults self.old) (stream_write_faults self.new) result }
        ensures faultless { OnOk result (stream_write_faults self.new ≡ stream_write_faults self.old) }
    {
        match write_whole(&mut self.writer, piece) {
            Ok(()) => Ok(()),
            Err(Failed) => {
                self.faults = self.faults.saturating_add(1);
                Err(Failed)
            }
        }
    }
}
