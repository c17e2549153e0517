// Where the reading of a body is, and its steps, which take no memory.
ghost use Rattle.std.specs.Prelude.{◌≡◌, ◌≤◌, ◌<◌, ℕ, length, take};
ghost use Rattle.httparse.specs.Grammar.{RequestHead};
ghost use Rattle.conn.specs.Cut.{BodyPart};
ghost use Rattle.conn.specs.Reading.{IsAt, StepsTo, StepWithin, IsCrLf, start_of};
ghost use Rattle.conn.specs.declared.body_state.Phase.TheVariants as Phase;

use httparse::spans::{EMPTY_HEADER_SPAN, parse_headers};
use httparse::{Status, parse_chunk_size};
use wire_http::{BodyLen, WireRefusal};

// The most bytes of a chunk line, its CR LF included.
const MOST_LINE: usize = 256;

// The most bytes of a trailer, its empty line included.
const MOST_TRAILER: usize = 16384;

// What a body is at.
#[derive(Clone, Copy, Debug, PartialEq, Eq)]
pub(crate) enum Phase {
    // So many bytes are to come.
    Sized(u64),
    // A chunk's line.
    Line,
    // So many bytes of a chunk are to come, and then CR LF.
    Data(u64),
    Trailer,
}

// What a body is at, and how many bytes more its chunks may announce.
#[derive(Clone, Copy, Debug, PartialEq, Eq)]
pub(crate) struct BodyState {
    pub(crate) room: u64,
    pub(crate) phase: Phase,
}

// What a step has done.
#[derive(Clone, Copy, Debug, PartialEq, Eq)]
pub(crate) enum Step {
    // So many bytes of the framing were read.
    Moved(usize),
    // So many bytes belong to the content.
    Taken(usize),
    // The bytes are too few.
    Need,
    // With so many bytes the body is whole.
    Whole(usize),
    Refused(WireRefusal),
}

// Where a body begins that is framed so and may have `most` bytes.
pub(crate) fn start_of(most: u64, len: BodyLen) -> BodyState
    ensures { result ≡ start_of most len }
{
    let phase = match len {
        BodyLen::Sized(n) => Phase::Sized(n),
        BodyLen::Chunked => Phase::Line,
    };
    BodyState { room: most, phase }
}

// The first bytes, at most so many.
fn front(bytes: &[u8], most: usize) -> &[u8]
    ensures { result.now ≡ take most bytes.now }
{
    if bytes.len() > most {
        &bytes[..most]
    } else {
        bytes
    }
}

// How many of the bytes belong to what is left, as many as there are.
fn few(rest: &[u8], left: u64) -> usize
    ensures left { result ≤ left }
    ensures there { result ≤ length rest.now }
    ensures some { 0 < left → 0 < length rest.now → 0 < result }
{
    if left > rest.len() as u64 {
        rest.len()
    } else {
        left as usize
    }
}

// Bytes of a body of stated length.
fn step_sized(rest: &[u8], place: &mut BodyState, left: u64) -> Step
    requires { place.old.phase ≡ Phase.Sized left }
    ensures steps { (limit : ℕ) (h : RequestHead) (p : BodyPart) → IsAt limit h p place.old
        → StepsTo limit h p rest.now place.new result }
    ensures within { StepWithin rest.now result }
{
    if left == 0 {
        return Step::Whole(0);
    }
    if rest.len() == 0 {
        return Step::Need;
    }
    let n = few(rest, left);
    place.phase = Phase::Sized(left - n as u64);
    Step::Taken(n)
}

// What stands where a CR LF should.
enum CrLf {
    Whole,
    Part,
    Wrong,
}

fn cr_lf(rest: &[u8]) -> CrLf
    ensures { IsCrLf rest.now result }
{
    if rest.is_empty() {
        CrLf::Part
    } else if rest[0] != b'\r' {
        CrLf::Wrong
    } else if rest.len() == 1 {
        CrLf::Part
    } else if rest[1] != b'\n' {
        CrLf::Wrong
    } else {
        CrLf::Whole
    }
}

// Bytes of a chunk, or the CR LF behind them.
fn step_data(rest: &[u8], place: &mut BodyState, left: u64) -> Step
    requires { place.old.phase ≡ Phase.Data left }
    ensures steps { (limit : ℕ) (h : RequestHead) (p : BodyPart) → IsAt limit h p place.old
        → StepsTo limit h p rest.now place.new result }
    ensures within { StepWithin rest.now result }
{
    if left == 0 {
        return match cr_lf(rest) {
            CrLf::Part => Step::Need,
            CrLf::Whole => {
                place.phase = Phase::Line;
                Step::Moved(2)
            }
            CrLf::Wrong => Step::Refused(WireRefusal::BadChunk),
        };
    }
    if rest.len() == 0 {
        return Step::Need;
    }
    let n = few(rest, left);
    place.phase = Phase::Data(left - n as u64);
    Step::Taken(n)
}

// The line of a chunk.
fn step_line(rest: &[u8], place: &mut BodyState) -> Step
    requires { place.old.phase ≡ Phase.Line }
    ensures steps { (limit : ℕ) (h : RequestHead) (p : BodyPart) → IsAt limit h p place.old
        → StepsTo limit h p rest.now place.new result }
    ensures within { StepWithin rest.now result }
{
    match parse_chunk_size(front(rest, MOST_LINE)) {
        Ok(Status::Complete((used, 0))) => {
            place.phase = Phase::Trailer;
            Step::Moved(used)
        }
        Ok(Status::Complete((used, size))) => {
            if size > place.room {
                return Step::Refused(WireRefusal::TooLarge);
            }
            place.room -= size;
            place.phase = Phase::Data(size);
            Step::Moved(used)
        }
        Ok(Status::Partial) => if rest.len() > MOST_LINE {
            Step::Refused(WireRefusal::BadChunk)
        } else {
            Step::Need
        },
        Err(_) => Step::Refused(WireRefusal::BadChunk),
    }
}

// The trailer, whose fields are dropped.
fn step_trailer(rest: &[u8], place: BodyState) -> Step
    requires { place.phase ≡ Phase.Trailer }
    ensures steps { (limit : ℕ) (h : RequestHead) (p : BodyPart) → IsAt limit h p place
        → StepsTo limit h p rest.now place result }
    ensures within { StepWithin rest.now result }
{
    let mut fields = [EMPTY_HEADER_SPAN; 64];
    match parse_headers(front(rest, MOST_TRAILER), &mut fields) {
        Ok(Status::Complete((used, _))) => Step::Whole(used),
        Ok(Status::Partial) => if rest.len() > MOST_TRAILER {
            Step::Refused(WireRefusal::BadChunk)
        } else {
            Step::Need
        },
        Err(_) => Step::Refused(WireRefusal::BadChunk),
    }
}

// Reads the next part of a body.
pub(crate) fn go_on(rest: &[u8], place: &mut BodyState) -> Step
    ensures steps { (limit : ℕ) (h : RequestHead) (p : BodyPart) → IsAt limit h p place.old
        → StepsTo limit h p rest.now place.new result }
    ensures within { StepWithin rest.now result }
{
    match place.phase {
        Phase::Sized(left) => step_sized(rest, place, left),
        Phase::Line => step_line(rest, place),
        Phase::Data(left) => step_data(rest, place, left),
        Phase::Trailer => step_trailer(rest, *place),
    }
}
