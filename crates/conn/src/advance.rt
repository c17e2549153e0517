// One step of a connection.
ghost use Rattle.std.specs.Prelude.{◌≡◌, ℕ, List, Ok, IfOk};
ghost use Rattle.conn.specs.Cut.{Event};
ghost use Rattle.conn.specs.Held.{Leaves};
ghost use Rattle.conn.specs.Waiting.{BodyRests, Rests};
ghost use Rattle.conn.specs.Stands.{StandsAt, Advances, Within, BodySteps, BodyStepWithin, AdvanceWithin, AdvanceLess, IsFinished};
ghost use Rattle.conn.specs.declared.state.Advance.TheVariants as Advance;
ghost use Rattle.conn.specs.declared.next.Next.TheVariants as Next;
ghost use Rattle.conn.specs.declared.state.State.TheVariants as State;

use crate::body_state::{Step, go_on, start_of};
use crate::next::Next;
use crate::state::{Advance, BodyStep, Collected, State};
use blob::BlobMaker;
use cta_site::NoMemory;
use std::alloc::Global;
use std::mem;
use wire_http::{HeadRead, Request, longest_body, read_head};

// A head, where one is whole.
fn advance_head(
    alloc: Global,
    limit: u64,
    rest: &[u8],
    state: &mut State,
) -> Result<Advance, NoMemory>
    requires { state.old ≡ State.AtHead }
    ensures steps { (fed : List ℕ) (given : List Event) → StandsAt limit state.old rest.now fed given
        → Advances limit rest.now state.new result fed given }
    ensures within { IfOk result (AdvanceWithin rest.now) }
    ensures less { IfOk result (AdvanceLess rest.now state.old state.new) }
    ensures leaves { Leaves rest.now state.new result }
    ensures rests { IfOk result (Rests limit rest.now state.new) }
{
    match read_head(alloc, rest, limit)? {
        HeadRead::Need => Ok(Advance::Gives(0, Next::Need)),
        HeadRead::Refused(refusal) => {
            *state = State::Over;
            Ok(Advance::Gives(0, Next::Refused(refusal)))
        }
        HeadRead::Head(head) => {
            let used = head.len as usize;
            let expects = head.expects;
            let most = longest_body(limit, head.method.as_bytes(), head.target.as_bytes());
            let place = start_of(most, head.body);
            *state = State::InBody(Collected {
                head,
                maker: BlobMaker::new(alloc),
                place,
            });
            if expects {
                Ok(Advance::Gives(used, Next::Continue))
            } else {
                Ok(Advance::Moved(used))
            }
        }
    }
}

// The request whose body is whole with so many bytes. After want of memory the body is as before.
fn finished(used: usize, body: Collected) -> BodyStep
    ensures { IsFinished used body result }
{
    let Collected { head, maker, place } = body;
    match maker.finish() {
        Ok(content) => BodyStep::Whole(
            used,
            Request {
                method: head.method,
                target: head.target,
                who: head.who,
                body: content,
                close: head.close,
            },
        ),
        Err((_, maker)) => BodyStep::NoMemory(Collected { head, maker, place }),
    }
}

// A part of a body.
fn advance_body(rest: &[u8], mut body: Collected) -> BodyStep
    ensures steps { (limit : ℕ) (fed : List ℕ) (given : List Event) → Within limit body rest.now fed given
        → BodySteps limit rest.now result fed given }
    ensures within { BodyStepWithin rest.now result }
    ensures rests { (limit : ℕ) → BodyRests limit rest.now result }
{
    let mut place = body.place;
    match go_on(rest, &mut place) {
        Step::Moved(used) => {
            body.place = place;
            BodyStep::Moved(used, body)
        }
        Step::Taken(used) => match body.maker.push(&rest[..used]) {
            Ok(()) => {
                body.place = place;
                BodyStep::Moved(used, body)
            }
            Err(_) => BodyStep::NoMemory(body),
        },
        Step::Need => BodyStep::Need(body),
        Step::Whole(used) => finished(used, body),
        Step::Refused(refusal) => BodyStep::Refused(refusal),
    }
}

// Puts a value in a place. That the one before it ends is proved here for any values, and not where all of its fields are known.
fn set<T: Drop>(place: &mut T, value: T)
    ensures { place.new ≡ value }
{
    *place = value;
}

// One step.
pub(crate) fn advance(
    alloc: Global,
    limit: u64,
    rest: &[u8],
    state: &mut State,
) -> Result<Advance, NoMemory>
    ensures steps { (fed : List ℕ) (given : List Event) → StandsAt limit state.old rest.now fed given
        → Advances limit rest.now state.new result fed given }
    ensures within { IfOk result (AdvanceWithin rest.now) }
    ensures less { IfOk result (AdvanceLess rest.now state.old state.new) }
    ensures leaves { Leaves rest.now state.new result }
    ensures rests { IfOk result (Rests limit rest.now state.new) }
    ensures shut { state.old ≡ State.Shut → (result ≡ Ok (Advance.Gives 0 Next.Closed)) × (state.new ≡ State.Shut) }
{
    match mem::replace(state, State::Shut) {
        State::AtHead => {
            set(state, State::AtHead);
            advance_head(alloc, limit, rest, state)
        }
        State::Over => {
            set(state, State::Over);
            Ok(Advance::Gives(0, Next::Closed))
        }
        State::Shut => Ok(Advance::Gives(0, Next::Closed)),
        State::InBody(body) => match advance_body(rest, body) {
            BodyStep::Moved(used, body) => {
                set(state, State::InBody(body));
                Ok(Advance::Moved(used))
            }
            BodyStep::Need(body) => {
                set(state, State::InBody(body));
                Ok(Advance::Gives(0, Next::Need))
            }
            BodyStep::Refused(refusal) => {
                set(state, State::Over);
                Ok(Advance::Gives(0, Next::Refused(refusal)))
            }
            BodyStep::Whole(used, request) => {
                if request.close {
                    set(state, State::Over);
                    return Ok(Advance::Gives(used, Next::Request(request)));
                }
                set(state, State::AtHead);
                Ok(Advance::Gives(used, Next::Request(request)))
            }
            BodyStep::NoMemory(body) => {
                set(state, State::InBody(body));
                Err(NoMemory)
            }
        },
    }
}
