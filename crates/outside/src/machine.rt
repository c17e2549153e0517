// The ends of the machine: a file, standard input and standard output.
ghost use Rattle.std.specs.Prelude.{◌≡◌, IfOk};
ghost use Rattle.outside.specs.Machine.{stream_read_faults, stream_write_faults};

use crate::{StreamSink, StreamSource};
use std::alloc::{AllocError, Global};
use std::fs::File;
use std::io;
use std::io::{Input, Print, Printer};
use std::rt::Files;

/// The file at this path, read from its start. Where it can't be opened, each read fails and counts.
pub fn file_source<R: Files>(
    alloc: Global,
    rt: &R,
    path: &str,
) -> Result<StreamSource<R::File>, AllocError>
    ensures { IfOk result (λ s. stream_read_faults s ≡ 0) }
{
    match File::open(rt, path) {
        Ok(file) => StreamSource::new(alloc, file),
        Err(_) => Ok(StreamSource::without_reader()),
    }
}

/// The process's standard input. A process makes only one, since each reads ahead for itself.
pub fn std_source<R: Input>(alloc: Global, rt: &R) -> Result<StreamSource<R::Reader>, AllocError>
    ensures { IfOk result (λ s. stream_read_faults s ≡ 0) }
{
    StreamSource::new(alloc, rt.reader())
}

/// The process's standard output. Each write costs a call of the system, or more where that takes a piece in parts.
pub fn std_sink<R: Print>(rt: &R) -> StreamSink<Printer<'_, R>>
    ensures { stream_write_faults result ≡ 0 }
{
    StreamSink::new(io::writer(rt))
}
