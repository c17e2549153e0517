// Bytes, lines and pieces, taken from a script.
ghost use Rattle.std.specs.Prelude.{◌≡◌, ◌≤◌, ◌<◌, ◌+◌, IfErr, length};
ghost use Rattle.replay.specs.Seen.{script_view};
ghost use Rattle.replay.specs.Intake.{budget, HasStopped, TookByte, TookLine, TookPiece};

use outside::{Failed, Source};

// The most bytes of a script that are taken.
pub(crate) const BUDGET: u64 = 4_294_967_296;

// The most bytes of a line before its LF.
pub(crate) const LINE: usize = 256;

// Why no further byte was taken.
#[derive(Clone, Copy, Debug, PartialEq, Eq)]
pub(crate) enum Stop {
    // The source is at its end.
    End,
    // The source failed.
    Fault,
    // As many bytes were taken as may be.
    Full,
    // There is no room for it.
    Memory,
}

// How the reading of a line ended.
#[derive(Clone, Copy, Debug, PartialEq, Eq)]
pub(crate) enum LineEnd {
    // It has this many bytes before its LF.
    Whole(usize),
    // It has more bytes than a line may have.
    Long,
    // It was not ended.
    Stopped(Stop),
}

// The next byte of the script.
pub(crate) fn take_byte<S: Source>(script: &mut S, taken: &mut u64) -> Result<u8, Stop>
    requires { taken.old ≤ budget }
    ensures took { TookByte (script_view (S.left script.old) taken.old (S.faults script.old)) (script_view (S.left script.new) taken.new (S.faults script.new)) result }
    ensures stopped { IfErr result (λ why. HasStopped why (script_view (S.left script.old) taken.old (S.faults script.old))
        (script_view (S.left script.new) taken.new (S.faults script.new))) }
    ensures later { S.faults script.old ≤ S.faults script.new }
    ensures within { taken.new ≤ budget }
{
    if *taken == BUDGET {
        return Err(Stop::Full);
    }
    let mut byte = [0u8; 1];
    match script.read(&mut byte) {
        Ok(0) => Err(Stop::End),
        Ok(_) => {
            *taken += 1;
            Ok(byte[0])
        }
        Err(Failed) => Err(Stop::Fault),
    }
}

// A line, put into the front of `line` without its LF.
pub(crate) fn take_line<S: Source>(script: &mut S, taken: &mut u64, line: &mut [u8]) -> LineEnd
    requires within { taken.old ≤ budget }
    requires room { length line.old ≡ 256 }
    ensures took { TookLine result (script_view (S.left script.old) taken.old (S.faults script.old))
        (script_view (S.left script.new) taken.new (S.faults script.new)) line.new }
    ensures later { S.faults script.old ≤ S.faults script.new }
    ensures within { taken.new ≤ budget }
{
    for n in 0..LINE {
        match take_byte(script, taken) {
            Ok(b'\n') => return LineEnd::Whole(n),
            Ok(b) => line[n] = b,
            Err(why) => return LineEnd::Stopped(why),
        }
    }
    match take_byte(script, taken) {
        Ok(b'\n') => LineEnd::Whole(LINE),
        Ok(_) => LineEnd::Long,
        Err(why) => LineEnd::Stopped(why),
    }
}

// A piece of the script, put into the front of `piece`.
pub(crate) fn take_piece<S: Source>(
    script: &mut S,
    taken: &mut u64,
    piece: &mut [u8],
) -> Result<usize, Stop>
    requires room { 0 < length piece.old }
    requires within { taken.old + length piece.old ≤ budget }
    ensures took { TookPiece (script_view (S.left script.old) taken.old (S.faults script.old))
        (script_view (S.left script.new) taken.new (S.faults script.new)) result piece.new }
    ensures stopped { IfErr result (λ why. HasStopped why (script_view (S.left script.old) taken.old (S.faults script.old))
        (script_view (S.left script.new) taken.new (S.faults script.new))) }
    ensures later { S.faults script.old ≤ S.faults script.new }
    ensures within { taken.new ≤ budget }
{
    match script.read(piece) {
        Ok(0) => Err(Stop::End),
        Ok(count) => {
            *taken += count as u64;
            Ok(count)
        }
        Err(Failed) => Err(Stop::Fault),
    }
}
