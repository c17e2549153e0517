// What goes into a call, and what comes out.
ghost use Rattle.std.specs.Prelude.{◌≡◌, Ok, true};
ghost use Rattle.cta_model.specs.declared.answers.Answer.{Answer};
ghost use Rattle.cta_model.specs.Answers as said;
ghost use Rattle.cta_model.specs.Bare.{bare_answer};
ghost use Rattle.archive_turns.specs.declared.calls.ArchiveBack.TheVariants as archives;
ghost use Rattle.durable_archive.specs.Turns.{back_adds, hand_of_call};

use archive_turns::{ArchiveBack, ArchiveCall};
use cta_model::{Answer, Hand, Told};

// Whether an answer is of an accepted ask.
fn is_accepted(answer: &Answer) -> bool
    ensures { result ≡ said.is_accepted (bare_answer answer.now) }
{
    !matches!(
        answer,
        Answer::Idle | Answer::DriveDown | Answer::DriveBusy | Answer::Nothing | Answer::Refused(_)
    )
}

// Whether what came back added an entry.
pub(crate) fn adds<M: Told + Drop>(back: &ArchiveBack<M>) -> bool
    ensures { result ≡ back_adds back.now }
{
    match back {
        ArchiveBack::Ask(Ok((answer, _))) => is_accepted(answer),
        _ => false,
    }
}

// The hand that goes in with a call, Nothing with a look.
pub(crate) fn hand_of<M: Told + Drop>(call: ArchiveCall<M>) -> Hand<M>
    ensures { result ≡ hand_of_call call }
{
    match call {
        ArchiveCall::Ask { hand, .. } => hand,
        ArchiveCall::Look { .. } => Hand::Nothing,
    }
}

// The hand that came out with an entry.
pub(crate) fn hand_out<M: Told + Drop>(back: ArchiveBack<M>) -> Hand<M>
    requires { back_adds back ≡ true }
    ensures { (a : Answer) × (said.is_accepted (bare_answer a) ≡ true) × (back ≡ archives.Ask (Ok (a, result))) }
{
    match back {
        ArchiveBack::Ask(Ok((answer, hand))) => {
            drop(answer);
            hand
        }
        _ => unreachable!(),
    }
}
