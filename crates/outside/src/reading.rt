// Reading of what a reader has. std's own `read` says where a signal cut it off, and leaves the trying again to its caller.
ghost use Rattle.std.specs.Io.{ReadsAtMost};
ghost use Rattle.std.specs.Io.KnownBytes.{ReadConsumes};

use crate::Failed;
use std::io::{ErrorKind, Read};

// How often a signal may cut off one read.
const TRIES: usize = 64;

// One read. It is tried again where a signal cut it off, as where a program that was stopped goes on (SIGCONT).
pub(crate) fn read_some<R: Read>(from: &mut R, to: &mut [u8]) -> Result<usize, Failed>
    ensures bound { ReadsAtMost result to.new }
    ensures bytes { ReadConsumes (R.remaining from.old) (R.remaining from.new) result to.new }
{
    for _ in 0..TRIES {
        match from.read(to) {
            Ok(count) => return Ok(count),
            Err(error) => {
                if error.kind() != ErrorKind::Interrupted {
                    return Err(Failed);
                }
            }
        }
    }
    Err(Failed)
}
