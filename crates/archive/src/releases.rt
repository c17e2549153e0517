// Releases.
ghost use Rattle.std.specs.Prelude.{◌≡◌, ◌≤◌, IfOk, IfErr, OnErr};
ghost use Rattle.cta_site.specs.Listed.{rows};
ghost use Rattle.cta_model.specs.Answers.{answer_of};
ghost use Rattle.cta_model.specs.Bare.{bare_answer};
ghost use Rattle.cta_model.specs.Kept.{kept_after};
ghost use Rattle.cta_model.specs.Legal.{greatest_moment};

use crate::stage_refusals::refusal_of_paths;
use archive_state::ArchiveState;
use blob::Told;
use caller_asks as asks;
use cta_model::{Answer, Ask, Hand, Who};
use cta_site::{NoMemory, Rows, Text};

/// Answers a Release of these paths of a request at this moment, in seconds since 1970, or at the last entry's where that is later.
///
/// The answer is the sequential archive's on the history: NoRequest, ForeignPath where one of the paths is not the request's, HistoryFull,
/// or Done. A Release that is accepted appends its one entry, and one that is refused changes nothing. NoMemory changes nothing, and gives
/// the ask back. Its cost is that of `caller_asks::release`.
pub(crate) fn release<M: Told + Drop>(
    state: &mut ArchiveState<M>,
    at: u64,
    who: Who,
    id: u32,
    paths: Rows<Text>,
) -> Result<(Answer, Hand<M>), (NoMemory, Ask, Hand<M>)>
    requires { at ≤ greatest_moment }
    ensures answer { IfOk result (λ r. bare_answer r.0 ≡ answer_of state.old.site state.old.history at (Ask.Release who id (rows paths.items))) }
    ensures kept { IfOk result (λ r. state.new ≡ kept_after state.old at (Ask.Release who id (rows paths.items)) (bare_answer r.0) None) }
    ensures hand { IfOk result (λ r. r.1 ≡ Hand.Nothing) }
    ensures back { IfErr result (λ e. (e.1 ≡ Ask.Release who id paths) × (e.2 ≡ Hand.Nothing)) }
    ensures same { OnErr result (state.new ≡ state.old) }
{
    if let Some(refusal) = refusal_of_paths(state, id, paths.as_slice()) {
        return Ok((Answer::Refused(refusal), Hand::Nothing));
    }
    match asks::release(
        state.alloc,
        &state.site,
        &mut state.history,
        &mut state.parts,
        at,
        who,
        id,
        paths,
    ) {
        Ok(answer) => Ok((answer, Hand::Nothing)),
        Err((error, who, paths)) => Err((error, Ask::Release { who, id, paths }, Hand::Nothing)),
    }
}
