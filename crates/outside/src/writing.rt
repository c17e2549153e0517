// Writing of a whole piece, of which a writer may take a part at each call. std's own `write_all` doesn't say what an error leaves.
ghost use Rattle.std.specs.Io.{WritesAtMost};
ghost use Rattle.std.specs.Io.KnownBytes.{WriteAppends};
ghost use Rattle.outside.specs.Streams.{WritesWhole};

use crate::Failed;
use std::io::{ErrorKind, Write};

// How often a signal may cut off one write.
const TRIES: usize = 64;

// One write, which takes a part of the piece. It is tried again where a signal cut it off.
fn write_part<W: Write>(to: &mut W, piece: &[u8]) -> Result<usize, Failed>
    ensures bound { WritesAtMost result piece.now }
    ensures bytes { WriteAppends (W.contents to.old) (W.contents to.new) result piece.now }
{
    for _ in 0..TRIES {
        match to.write(piece) {
            Ok(count) => return Ok(count),
            Err(error) => {
                if error.kind() != ErrorKind::Interrupted {
                    return Err(Failed);
                }
            }
        }
    }
    Err(Failed)
}

// Writes the piece, and fails where a write failed or took nothing; a front of it is then written.
pub(crate) fn write_whole<W: Write>(to: &mut W, piece: &[u8]) -> Result<(), Failed>
    ensures { WritesWhole (W.contents to.old) (W.contents to.new) result piece.now }
{
    let mut written = 0;
    while written < piece.len() {
        let Ok(count) = write_part(to, &piece[written..]) else {
            return Err(Failed);
        };
        if count == 0 {
            return Err(Failed);
        }
        written += count;
    }
    Ok(())
}
