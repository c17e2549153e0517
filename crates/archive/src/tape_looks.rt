// Looks at tapes and queues.
ghost use Rattle.std.specs.Prelude.{ℕ, ◌≡◌, IfOk};
ghost use Rattle.cta_model.specs.Bare.{bare_answer};
ghost use Rattle.cta_model.specs.Hands.{LookHand};
ghost use Rattle.cta_model.specs.declared.asks.Look.TheVariants as look;
ghost use Rattle.cta_model.specs.Looks.{look_answer_of};

use archive_state::ArchiveState;
use blob::Told;
use cta_model::{Answer, Hand, Refusal};
use cta_site::NoMemory;

/// Answers a TapeInfo: what is on the tape, or the refusal NoTape where the site has no such tape. It changes nothing, and NoMemory gives
/// nothing. Its cost is the length of the VID.
pub(crate) fn tape_info<M: Told + Drop>(
    state: &ArchiveState<M>,
    tape: u32,
) -> Result<(Answer, Hand<M>), NoMemory>
    ensures answer { IfOk result (λ r. (at : ℕ) → bare_answer r.0 ≡ look_answer_of state.now.site state.now.history at (look.TapeInfo tape)) }
    ensures hand { IfOk result (λ r. LookHand (bare_answer r.0) r.1) }
{
    match state.tape_info(tape)? {
        Some(info) => Ok((Answer::TapeSeen(info), Hand::Nothing)),
        None => Ok((Answer::Refused(Refusal::NoTape), Hand::Nothing)),
    }
}

/// Answers a Queues: what is told of the queues that are not empty, archive by pool, and then retrieve by VID. It changes nothing, and
/// NoMemory gives nothing. Its cost is that of `ArchiveState::queues`.
pub(crate) fn queues<M: Told + Drop>(state: &ArchiveState<M>) -> Result<(Answer, Hand<M>), NoMemory>
    ensures answer { IfOk result (λ r. (at : ℕ) → bare_answer r.0 ≡ look_answer_of state.now.site state.now.history at look.Queues) }
    ensures hand { IfOk result (λ r. LookHand (bare_answer r.0) r.1) }
{
    let infos = state.queues()?;
    Ok((Answer::QueuesSeen(infos), Hand::Nothing))
}
