// Tapes that change their state, and tapes that are reclaimed.
ghost use Rattle.std.specs.Prelude.{◌≡◌, ◌≤◌, IfOk, IfErr, OnErr};
ghost use Rattle.cta_model.specs.Answers.{answer_of};
ghost use Rattle.cta_model.specs.Bare.{bare_answer};
ghost use Rattle.cta_model.specs.Kept.{kept_after};
ghost use Rattle.cta_model.specs.Legal.{greatest_moment};

use crate::tape_refusals::{refusal_of_reclaim, refusal_of_state};
use archive_state::ArchiveState;
use blob::Told;
use cta_model::{Answer, Ask, Hand, Who};
use cta_site::{NoMemory, TapeState};
use tape_asks as tapes;
use tape_asks::reclaim_tape;

/// Answers a TapeState of a tape, by its number, at this moment, in seconds since 1970, or at the last entry's where that is later.
///
/// The answer is the sequential archive's on the history: NoTape, TapeMounted, TapeBroken, HistoryFull, or Done, also where the tape has
/// this state already. A TapeState that is accepted appends its one entry, and one that is refused changes nothing. NoMemory changes
/// nothing, and gives the ask back. Its cost is that of `tape_asks::set_tape_state`, and refused the number of open mounts. The states are
/// CTA's.
pub(crate) fn set_tape_state<M: Told + Drop>(
    state: &mut ArchiveState<M>,
    at: u64,
    who: Who,
    tape: u32,
    to: TapeState,
) -> Result<(Answer, Hand<M>), (NoMemory, Ask, Hand<M>)>
    requires { at ≤ greatest_moment }
    ensures answer { IfOk result (λ r. bare_answer r.0 ≡ answer_of state.old.site state.old.history at (Ask.TapeState who tape to)) }
    ensures kept { IfOk result (λ r. state.new ≡ kept_after state.old at (Ask.TapeState who tape to) (bare_answer r.0) None) }
    ensures hand { IfOk result (λ r. r.1 ≡ Hand.Nothing) }
    ensures back { IfErr result (λ e. (e.1 ≡ Ask.TapeState who tape to) × (e.2 ≡ Hand.Nothing)) }
    ensures same { OnErr result (state.new ≡ state.old) }
{
    if let Some(refusal) = refusal_of_state(state, tape) {
        return Ok((Answer::Refused(refusal), Hand::Nothing));
    }
    match tapes::set_tape_state(
        state.alloc,
        &state.site,
        &mut state.history,
        &mut state.parts,
        at,
        who,
        tape,
        to,
    ) {
        Ok(answer) => Ok((answer, Hand::Nothing)),
        Err((error, who)) => Err((
            error,
            Ask::TapeState {
                who,
                tape,
                state: to,
            },
            Hand::Nothing,
        )),
    }
}

/// Answers a Reclaim of a tape, by its number, at this moment, in seconds since 1970, or at the last entry's where that is later.
///
/// The answer is the sequential archive's on the history: NoTape, TapeMounted, TapeBroken, LiveFiles where a copy of a live file has its
/// place on the tape, HistoryFull, or Done. A Reclaim that is accepted appends its one entry, and one that is refused changes nothing.
/// NoMemory changes nothing, and gives the ask back. Its cost is that of `reclaim_tape`, and refused the number of open mounts.
pub(crate) fn reclaim<M: Told + Drop>(
    state: &mut ArchiveState<M>,
    at: u64,
    who: Who,
    tape: u32,
) -> Result<(Answer, Hand<M>), (NoMemory, Ask, Hand<M>)>
    requires { at ≤ greatest_moment }
    ensures answer { IfOk result (λ r. bare_answer r.0 ≡ answer_of state.old.site state.old.history at (Ask.Reclaim who tape)) }
    ensures kept { IfOk result (λ r. state.new ≡ kept_after state.old at (Ask.Reclaim who tape) (bare_answer r.0) None) }
    ensures hand { IfOk result (λ r. r.1 ≡ Hand.Nothing) }
    ensures back { IfErr result (λ e. (e.1 ≡ Ask.Reclaim who tape) × (e.2 ≡ Hand.Nothing)) }
    ensures same { OnErr result (state.new ≡ state.old) }
{
    if let Some(refusal) = refusal_of_reclaim(state, tape) {
        return Ok((Answer::Refused(refusal), Hand::Nothing));
    }
    match reclaim_tape(
        &state.site,
        &mut state.history,
        &mut state.parts,
        at,
        who,
        tape,
    ) {
        Ok(answer) => Ok((answer, Hand::Nothing)),
        Err((error, who)) => Err((error, Ask::Reclaim { who, tape }, Hand::Nothing)),
    }
}
