// Every byte list has a cut: it is found without memory.
ghost use Rattle.std.specs.Prelude.{◌≡◌, ◌≤◌, ◌<◌, ℕ, length, MatchOption, IfSome};
ghost use Rattle.httparse.specs.Grammar.{RequestHead};
ghost use Rattle.conn.specs.Cut.{BodyPart, Cut, IsLinkCut};
ghost use Rattle.conn.specs.Reading.{IsAt};
ghost use Rattle.conn.specs.Walking.{EndsBody, EndWithin, EndsThere, BeginsMessage};

use crate::body_state::{BodyState, Step, go_on, start_of};
use wire_http::{Judged, WireRefusal, judge_head};

// What a body comes to.
pub(crate) enum BodyEnd {
    // It is whole with so many bytes.
    Whole(usize),
    Open,
    Refused(WireRefusal),
}

pub(crate) fn body_end(rest: &[u8], start: BodyState) -> BodyEnd
    ensures ends { (limit : ℕ) (h : RequestHead) (p : BodyPart) → IsAt limit h p start → EndsBody limit h p rest.now result }
    ensures within { EndWithin rest.now result }
{
    let mut place = start;
    let mut at = 0;
    'steps: loop {
        match go_on(&rest[at..], &mut place) {
            Step::Moved(used) => at += used,
            Step::Taken(used) => at += used,
            Step::Need => return BodyEnd::Open,
            Step::Whole(used) => return BodyEnd::Whole(at + used),
            Step::Refused(refusal) => return BodyEnd::Refused(refusal),
        }
    }
}

// The bytes of the message at the front after which the connection goes on, None where the bytes are a tail.
fn next_message(rest: &[u8], file_limit: u64) -> Option<usize>
    ensures found { MatchOption result (EndsThere file_limit rest.now) (λ used. BeginsMessage file_limit rest.now used) }
    ensures within { IfSome result (λ used. (used ≤ length rest.now) × (0 < used)) }
{
    match judge_head(rest, file_limit) {
        Judged::Need => None,
        Judged::Refused(_) => None,
        Judged::Passes(frame) => {
            let len = frame.len as usize;
            match body_end(&rest[len..], start_of(frame.most, frame.body)) {
                BodyEnd::Open => None,
                BodyEnd::Refused(_) => None,
                BodyEnd::Whole(used) => if frame.close { None } else { Some(len + used) },
            }
        }
    }
}

/// Every byte list has a cut: whole messages after which the connection goes on, and a tail that is unfinished, refused, or
/// closing. It takes no memory, and time in proportion to the bytes.
pub fn has_cut(file_limit: u64, bytes: &[u8])
    ensures { (c : Cut) × IsLinkCut file_limit bytes.now c }
{
    let mut at = 0;
    'messages: loop {
        match next_message(&bytes[at..], file_limit) {
            Some(used) => at += used,
            None => return,
        }
    }
}
