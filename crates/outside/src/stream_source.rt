// A reader of std as a source. It reads ahead, since a caller that takes one byte a call would cost one call of the system a byte.
ghost use Rattle.std.specs.Prelude.{◌≡◌, IsNone, IsErr, IfOk, OnOk};
ghost use Rattle.std.specs.Io.{ReadsAtMost};
ghost use Rattle.std.specs.Io.KnownBytes.{ReadConsumes};
ghost use Rattle.outside.specs.Causes.{HasCause};

use crate::reading::read_some;
use crate::{Failed, Source};
use std::alloc::{AllocError, Global};
use std::io::{BufReader, Read};

/// The bytes of a reader. It reads ahead by up to 8,192 bytes, so bytes that no call has given can be gone from what the reader
/// reads; a read of 8,192 bytes or more with none held goes to the reader straight. Each fault of the reader is one of the source.
#[derive(Drop)]
pub struct StreamSource<R> {
    // None where the outside gave no reader.
    reader: Option<BufReader<R>>,
    faults: u64,
}

impl<R: Read + Drop> StreamSource<R> {
    ghost use Rattle.outside.specs.Machine.{stream_left, stream_read_faults};

    /// A source that has left what the reader has. Its buffer is all the memory that it ever wants; where there is none for it, the
    /// reader is let go.
    pub fn new(alloc: Global, reader: R) -> Result<StreamSource<R>, AllocError>
        ensures left { IfOk result (λ s. stream_left R.remaining s ≡ R.remaining reader) }
        ensures faults { IfOk result (λ s. stream_read_faults s ≡ 0) }
    {
        match BufReader::new(alloc, reader) {
            Ok(reader) => Ok(StreamSource {
                reader: Some(reader),
                faults: 0,
            }),
            Err(_) => Err(AllocError),
        }
    }
}

impl<R> StreamSource<R> {
    ghost use Rattle.outside.specs.Machine.{stream_reader, stream_read_faults};

    /// A source without a reader, as where a file can't be opened. Each read fails and counts.
    pub fn without_reader() -> StreamSource<R>
        ensures none { IsNone (stream_reader result) }
        ensures faults { stream_read_faults result ≡ 0 }
    {
        StreamSource {
            reader: None,
            faults: 0,
        }
    }
}

impl<R: Read> Source for StreamSource<R> {
    ghost use Rattle.outside.specs.Machine.{stream_left, stream_reader, stream_read_faults};

    ghost left = { stream_left R.remaining };

    ghost faults = { λ s. stream_read_faults s };

    /// Gives the bytes that the reader gives, in their order. It fails where the reader failed; a signal doesn't end it, unless it cuts
    /// off 64 reads in a row.
    fn read(&mut self, to: &mut [u8]) -> Result<usize, Failed>
        ensures bound { ReadsAtMost result to.new }
        ensures bytes { ReadConsumes (stream_left R.remaining self.old) (stream_left R.remaining self.new) result to.new }
        ensures cause { HasCause (stream_read_faults self.old) (stream_read_faults self.new) result }
        ensures faultless { OnOk result (stream_read_faults self.new ≡ stream_read_faults self.old) }
        ensures none { IsNone (stream_reader self.old) → IsErr result }
    {
        if let Some(reader) = &mut self.reader {
            if let Ok(count) = read_some(reader, to) {
                return Ok(count);
            }
        }
        self.faults = self.faults.saturating_add(1);
        Err(Failed)
    }
}
