// Tapes that are repacked.
ghost use Rattle.std.specs.Prelude.{ℕ, ◌≡◌, ◌≤◌, IfOk, IfErr, OnErr};
ghost use Rattle.cta_model.specs.declared.asks.Look.TheVariants as look;
ghost use Rattle.cta_model.specs.Answers.{answer_of};
ghost use Rattle.cta_model.specs.Bare.{bare_answer};
ghost use Rattle.cta_model.specs.Hands.{LookHand};
ghost use Rattle.cta_model.specs.Kept.{kept_after};
ghost use Rattle.cta_model.specs.Legal.{greatest_moment};
ghost use Rattle.cta_model.specs.Looks.{look_answer_of};

use crate::tape_refusals::refusal_of_repack;
use archive_state::ArchiveState;
use blob::Told;
use cta_model::{Answer, Ask, Hand, Refusal, Who};
use cta_site::NoMemory;
use tape_asks::repack_tape;

/// Answers a Repack of a tape, by its number, at this moment, in seconds since 1970, or at the last entry's where that is later.
///
/// The answer is the sequential archive's on the history: NoTape, NotRepacking where the tape's state is another one, RepackLive where a
/// repack of the tape is live, HistoryFull, or the number of the repack and its items, which are the copies that have their place on the
/// tape, by fSeq. There may be none. A Repack that is accepted appends its one entry, and one that is refused changes nothing. NoMemory
/// changes nothing, and gives the ask back. Its cost is that of `repack_tape`, and refused the logarithm of the number of live items
/// of repacks. CTA; the conditions of a repack are this project's own.
pub(crate) fn repack<M: Told + Drop>(
    state: &mut ArchiveState<M>,
    at: u64,
    who: Who,
    tape: u32,
) -> Result<(Answer, Hand<M>), (NoMemory, Ask, Hand<M>)>
    requires { at ≤ greatest_moment }
    ensures answer { IfOk result (λ r. bare_answer r.0 ≡ answer_of state.old.site state.old.history at (Ask.Repack who tape)) }
    ensures kept { IfOk result (λ r. state.new ≡ kept_after state.old at (Ask.Repack who tape) (bare_answer r.0) None) }
    ensures hand { IfOk result (λ r. r.1 ≡ Hand.Nothing) }
    ensures back { IfErr result (λ e. (e.1 ≡ Ask.Repack who tape) × (e.2 ≡ Hand.Nothing)) }
    ensures same { OnErr result (state.new ≡ state.old) }
{
    if let Some(refusal) = refusal_of_repack(state, tape) {
        return Ok((Answer::Refused(refusal), Hand::Nothing));
    }
    match repack_tape(
        state.alloc,
        &state.site,
        &mut state.history,
        &mut state.parts,
        at,
        who,
        tape,
    ) {
        Ok(answer) => Ok((answer, Hand::Nothing)),
        Err((error, who)) => Err((error, Ask::Repack { who, tape }, Hand::Nothing)),
    }
}

/// Answers a RepackInfo: the tape of the repack and how each of its items stands, or the refusal NoRepack where no Repack has the id. It
/// changes nothing, and NoMemory gives nothing. Its cost is that of `ArchiveState::repack_info`.
pub(crate) fn repack_info<M: Told + Drop>(
    state: &ArchiveState<M>,
    id: u32,
) -> Result<(Answer, Hand<M>), NoMemory>
    ensures answer { IfOk result (λ r. (at : ℕ) → bare_answer r.0 ≡ look_answer_of state.now.site state.now.history at (look.RepackInfo id)) }
    ensures hand { IfOk result (λ r. LookHand (bare_answer r.0) r.1) }
{
    match state.repack_info(id)? {
        Some(info) => Ok((Answer::RepackSeen(info), Hand::Nothing)),
        None => Ok((Answer::Refused(Refusal::NoRepack), Hand::Nothing)),
    }
}
