// What answers lead to.
ghost use Rattle.std.specs.Prelude.{◌≡◌};
ghost use Rattle.cta_model.specs.Places.{is_done};
ghost use Rattle.drive_session.specs.Answers.{batch_line, batch_state, claimed_line, claimed_state, counted, flush_line, line_after, line_of, next_line, next_state, recalled_line, state_after};

use crate::reports::{ReadEnd, StepLine};
use crate::states::{Asked, Mounted, Outcome, State};
use cta_model::{Answer, Direction, Fate, Hand, Item};
use cta_site::Rows;

// The state and the line behind the answer to an ask.
pub(crate) fn taken<M: Drop>(
    asked: Asked,
    state: State<M>,
    answer: Answer,
    hand: Hand<M>,
) -> (State<M>, StepLine)
    ensures state { result.0 ≡ state_after asked state answer hand }
    ensures line { result.1 ≡ line_after asked state answer hand }
{
    match asked {
        Asked::Next => next_taken(answer, hand),
        Asked::Claim => match state {
            State::Ready(x) => claim_taken(x, answer, hand),
            other => (other, StepLine::ClaimFull),
        },
        Asked::Flushed => (state, flush_line(answer)),
        Asked::Recalled(fseq) => (state, recalled_line(fseq, answer)),
        Asked::Known(outcome) => (state, line_of(outcome)),
        Asked::Nothing(line) => (state, line),
    }
}

// What the answer to a Next leads to.
fn next_taken<M: Drop>(answer: Answer, hand: Hand<M>) -> (State<M>, StepLine)
    ensures state { result.0 ≡ next_state answer hand }
    ensures line { result.1 ≡ next_line answer hand }
{
    match answer {
        Answer::Mounted {
            mount,
            direction,
            tape,
        } => match hand {
            Hand::Medium(medium) => (
                State::Held(Mounted {
                    mount,
                    direction,
                    tape,
                    medium,
                }),
                StepLine::Mount { direction, tape },
            ),
            _ => (State::Free, StepLine::Full),
        },
        Answer::Idle => (State::Free, StepLine::Idle),
        Answer::DriveDown => (State::Free, StepLine::Down),
        Answer::DriveBusy => (State::Free, StepLine::Busy),
        _ => (State::Free, StepLine::Full),
    }
}

// What the answer to a Claim leads to.
fn claim_taken<M: Drop>(x: Mounted<M>, answer: Answer, hand: Hand<M>) -> (State<M>, StepLine)
    ensures state { result.0 ≡ claimed_state x answer hand }
    ensures line { result.1 ≡ claimed_line x answer hand }
{
    match answer {
        Answer::Batch { items, .. } => batch_taken(x, items, hand),
        Answer::Nothing => (State::Leaving(x), StepLine::Claim(0)),
        _ => (State::Leaving(x), StepLine::ClaimFull),
    }
}

// What a batch leads to. A mount that got an empty one, or no contents to write, is left.
fn batch_taken<M: Drop>(x: Mounted<M>, items: Rows<Item>, hand: Hand<M>) -> (State<M>, StepLine)
    ensures state { result.0 ≡ batch_state x items hand }
    ensures line { result.1 ≡ batch_line x items hand }
{
    let count = counted(items.len());
    if count == 0 {
        return (State::Leaving(x), StepLine::Claim(0));
    }
    match x.direction {
        Direction::Archive => match hand {
            Hand::Blobs(blobs) => (State::Claimed(x, items, blobs), StepLine::Claim(count)),
            _ => (State::Leaving(x), StepLine::ClaimFull),
        },
        Direction::Retrieve => (State::Reading(x, items, 0), StepLine::Claim(count)),
    }
}

// The line of a flush: how many items are on tape, and how many were not wanted any more.
fn flush_line(answer: Answer) -> StepLine
    ensures { result ≡ flush_line answer }
{
    match answer {
        Answer::Told { fates } => {
            let done = fates
                .as_slice()
                .iter()
                .filter(|fate| is_done(**fate))
                .count();
            let stale = fates.len().saturating_sub(done);
            StepLine::Flush {
                done: counted(done),
                stale: counted(stale),
            }
        }
        _ => StepLine::Flush { done: 0, stale: 0 },
    }
}

// Whether a fate is Done.
fn is_done(fate: Fate) -> bool
    ensures { result ≡ is_done fate }
{
    matches!(fate, Fate::Done)
}

// The line of a read whose content was handed in.
fn recalled_line(fseq: u32, answer: Answer) -> StepLine
    ensures { result ≡ recalled_line fseq answer }
{
    match answer {
        Answer::Arrived { fate: Fate::Done } => StepLine::Read(fseq, ReadEnd::Done),
        _ => StepLine::Read(fseq, ReadEnd::Stale),
    }
}

// The line of what is known.
fn line_of(outcome: Outcome) -> StepLine
    ensures { result ≡ line_of outcome }
{
    match outcome {
        Outcome::Load => StepLine::Load(false),
        Outcome::Write(fseq) => StepLine::Write(fseq, false),
        Outcome::Flush => StepLine::FlushFailed,
        Outcome::Read(fseq) => StepLine::Read(fseq, ReadEnd::Failed),
        Outcome::Mismatch(fseq) => StepLine::Read(fseq, ReadEnd::Mismatch),
        Outcome::Unload(ok) => StepLine::Unload(ok),
    }
}

// A number of items as a line tells it.
fn counted(count: usize) -> u32
    ensures { result ≡ counted count }
{
    u32::try_from(count).unwrap_or(u32::MAX)
}
