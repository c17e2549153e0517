// Stages.
ghost use Rattle.std.specs.Prelude.{◌≡◌, ◌≤◌, IfOk, IfErr, OnErr};
ghost use Rattle.cta_site.specs.Listed.{rows};
ghost use Rattle.cta_model.specs.Answers.{answer_of};
ghost use Rattle.cta_model.specs.Bare.{bare_answer};
ghost use Rattle.cta_model.specs.Kept.{kept_after};
ghost use Rattle.cta_model.specs.Legal.{greatest_moment};

use archive_state::ArchiveState;
use blob::Told;
use caller_asks as asks;
use cta_model::{Answer, Ask, Hand, Refusal, Wanted, Who};
use cta_site::{NoMemory, Rows};

/// Answers a Stage of these files at this moment, in seconds since 1970, or at the last entry's where that is later.
///
/// The answer is the sequential archive's on the history: HistoryFull, or the number of the request, whatever the paths name. A Stage that
/// is accepted appends its one entry, and one that is refused changes nothing. NoMemory changes nothing, and gives the ask back. Its cost
/// is that of `caller_asks::stage`.
pub(crate) fn stage<M: Told + Drop>(
    state: &mut ArchiveState<M>,
    at: u64,
    who: Who,
    files: Rows<Wanted>,
) -> Result<(Answer, Hand<M>), (NoMemory, Ask, Hand<M>)>
    requires { at ≤ greatest_moment }
    ensures answer { IfOk result (λ r. bare_answer r.0 ≡ answer_of state.old.site state.old.history at (Ask.Stage who (rows files.items))) }
    ensures kept { IfOk result (λ r. state.new ≡ kept_after state.old at (Ask.Stage who (rows files.items)) (bare_answer r.0) None) }
    ensures hand { IfOk result (λ r. r.1 ≡ Hand.Nothing) }
    ensures back { IfErr result (λ e. (e.1 ≡ Ask.Stage who files) × (e.2 ≡ Hand.Nothing)) }
    ensures same { OnErr result (state.new ≡ state.old) }
{
    if state.would_pass(1 + files.len() as u64) {
        return Ok((Answer::Refused(Refusal::HistoryFull), Hand::Nothing));
    }
    match asks::stage(
        state.alloc,
        &state.site,
        &mut state.history,
        &mut state.parts,
        at,
        who,
        files,
    ) {
        Ok(answer) => Ok((answer, Hand::Nothing)),
        Err((error, who, files)) => Err((error, Ask::Stage { who, files }, Hand::Nothing)),
    }
}
