// Failed copies that are tried again.
ghost use Rattle.std.specs.Prelude.{◌≡◌, ◌≤◌, IfOk, IfErr, OnErr};
ghost use Rattle.cta_site.specs.Listed.{rows};
ghost use Rattle.cta_model.specs.Answers.{answer_of};
ghost use Rattle.cta_model.specs.Bare.{bare_answer};
ghost use Rattle.cta_model.specs.Kept.{kept_after};
ghost use Rattle.cta_model.specs.Legal.{greatest_moment};

use crate::admin_refusals::refusal_of_retry;
use archive_state::ArchiveState;
use blob::Told;
use cta_model::{Answer, Ask, Hand, Who};
use cta_site::{NoMemory, Rows, Text};
use fault_asks::retry_copies;

/// Answers a Retry of these paths at this moment, in seconds since 1970, or at the last entry's where that is later.
///
/// The answer is the sequential archive's on the history: NoFile where one of the paths names no file, HistoryFull, or the jobs that are
/// born, one for each failed copy of the files, of which there may be none. A Retry that is accepted appends its one entry, and one that is
/// refused changes nothing. NoMemory changes nothing, and gives the ask back. Its cost is that of `ArchiveState::retried_count` and of
/// `retry_copies`.
pub(crate) fn retry<M: Told + Drop>(
    state: &mut ArchiveState<M>,
    at: u64,
    who: Who,
    paths: Rows<Text>,
) -> Result<(Answer, Hand<M>), (NoMemory, Ask, Hand<M>)>
    requires { at ≤ greatest_moment }
    ensures answer { IfOk result (λ r. bare_answer r.0 ≡ answer_of state.old.site state.old.history at (Ask.Retry who (rows paths.items))) }
    ensures kept { IfOk result (λ r. state.new ≡ kept_after state.old at (Ask.Retry who (rows paths.items)) (bare_answer r.0) None) }
    ensures hand { IfOk result (λ r. r.1 ≡ Hand.Nothing) }
    ensures back { IfErr result (λ e. (e.1 ≡ Ask.Retry who paths) × (e.2 ≡ Hand.Nothing)) }
    ensures same { OnErr result (state.new ≡ state.old) }
{
    let refusal = match refusal_of_retry(state, paths.as_slice()) {
        Ok(refusal) => refusal,
        Err(error) => return Err((error, Ask::Retry { who, paths }, Hand::Nothing)),
    };
    if let Some(refusal) = refusal {
        return Ok((Answer::Refused(refusal), Hand::Nothing));
    }
    match retry_copies(
        state.alloc,
        &state.site,
        &mut state.history,
        &mut state.parts,
        at,
        who,
        paths,
    ) {
        Ok(answer) => Ok((answer, Hand::Nothing)),
        Err((error, who, paths)) => Err((error, Ask::Retry { who, paths }, Hand::Nothing)),
    }
}
