// What a close reads of the other end, and drops. A connection that is let go with bytes unread is reset by the machine, and the other
// end may then lose a reply that it has not read yet.
ghost use Rattle.std.specs.Prelude.{◌≡◌, ◌≤◌, ◌<◌, ◌+◌, IfSome, MatchOption, length};
ghost use Rattle.std.specs.Duration.{as_nanos};
ghost use Rattle.std.specs.Io.KnownBytes.{IsAtEnd};
ghost use Rattle.outside.specs.Closing.{Drops, Drains};

use std::io::Read;
use std::net::OpenStream;
use std::thread;
use std::time::{Clock, Duration, Instant};

// How reading at a close ended.
#[derive(Clone, Copy, Debug, PartialEq, Eq)]
pub(crate) enum DrainEnd {
    // The other end has ended its side, and nothing is left.
    Ended,
    // As many bytes were read as are read at a close.
    Full,
    // The time was over, or the connection failed.
    Stopped,
}

// How many bytes are read at a close.
const MOST: usize = 1 << 20;

// How many of them at once. They stand in the frame of the function, since closing takes no memory.
const PIECE: usize = 4096;

// How long an end that sends without a pause is given to look at what it was sent, after each piece, in microseconds. Without it, a close on
// a busy machine would be over before the other end runs again, and that would then meet the reset before the reply.
const BREATH: u64 = 1_000;

// How many reads are made at a close where the clock can't be read.
const READS: u32 = 64;

// What time is left of the 2 seconds of a close, None where none is.
fn left_after(passed: Duration) -> Option<Duration>
    ensures { MatchOption result (2_000_000_000 ≤ as_nanos passed) (λ left. (0 < as_nanos left) × (as_nanos left + as_nanos passed ≡ 2_000_000_000)) }
{
    let left = Duration::from_secs(2).saturating_sub(passed);
    if left.is_zero() { None } else { Some(left) }
}

// How long the next read of a close may wait, None where it isn't to be made. Where the clock can't be read each read has an equal part
// of the 2 seconds.
fn wait_of<R: Clock>(rt: &R, start: Option<Instant>, reads: u32) -> Option<Duration>
    ensures { IfSome result (λ wait. (0 < as_nanos wait) × (as_nanos wait ≤ 2_000_000_000)) }
{
    if let Some(start) = start {
        if let Ok(now) = Instant::now(rt) {
            return left_after(now.duration_since(start));
        }
    }
    if reads < READS {
        Some(Duration::from_micros(31_250))
    } else {
        None
    }
}

// One read that waits no longer than this, None where the connection failed.
fn read_within<S: Read + OpenStream>(stream: &mut S, wait: Duration, to: &mut [u8]) -> Option<usize>
    requires { 0 < length to.old }
    ensures bound { IfSome result (λ count. count ≤ length to.old) }
    ensures bytes { MatchOption result (Drops (S.remaining stream.old) (S.remaining stream.new) 0) (λ count. Drops (S.remaining stream.old) (S.remaining stream.new) count × (count ≡ 0 → IsAtEnd (S.remaining stream.new))) }
{
    stream.set_read_timeout(Some(wait)).ok()?;
    stream.read(to).ok()
}

// Reads and drops what the other end still sends, up to 1 MiB and for up to 2 seconds, with a pause after each full piece. Each read waits
// no longer than the time that is left, so neither a silent end nor one that sends a byte at a time makes it longer.
pub(crate) fn drain<S: Read + OpenStream, R: Clock>(stream: &mut S, rt: &R) -> DrainEnd
    ensures { Drains (S.remaining stream.old) (S.remaining stream.new) result }
{
    let mut to = [0u8; PIECE];
    let start = Instant::now(rt).ok();
    let mut reads = 0u32;
    let mut dropped = 0;
    while dropped < MOST {
        let Some(wait) = wait_of(rt, start, reads) else {
            return DrainEnd::Stopped;
        };
        let room = PIECE.min(MOST - dropped);
        let Some(count) = read_within(stream, wait, &mut to[..room]) else {
            return DrainEnd::Stopped;
        };
        if count == 0 {
            return DrainEnd::Ended;
        }
        if count == room {
            thread::sleep(rt, Duration::from_micros(BREATH));
        }
        dropped += count;
        reads = reads.saturating_add(1);
    }
    DrainEnd::Full
}
