// Deletes.
ghost use Rattle.std.specs.Prelude.{◌≡◌, ◌≤◌, IfOk, IfErr, OnErr};
ghost use Rattle.cta_model.specs.Answers.{answer_of};
ghost use Rattle.cta_model.specs.Bare.{bare_answer};
ghost use Rattle.cta_model.specs.Kept.{kept_after};
ghost use Rattle.cta_model.specs.Legal.{greatest_moment};

use crate::file_refusals::refusal_of_delete;
use archive_state::ArchiveState;
use blob::Told;
use caller_asks::delete_file;
use cta_model::{Answer, Ask, Hand, Who};
use cta_site::{NoMemory, Text};

/// Answers a Delete at this moment, in seconds since 1970, or at the last entry's where that is later.
///
/// The answer is the sequential archive's on the history. A Delete that is accepted appends its one entry, and one that is refused
/// changes nothing. NoMemory changes nothing, and gives the ask back. Its cost is that of `delete_file`.
pub(crate) fn delete<M: Told + Drop>(
    state: &mut ArchiveState<M>,
    at: u64,
    who: Who,
    path: Text,
) -> Result<(Answer, Hand<M>), (NoMemory, Ask, Hand<M>)>
    requires { at ≤ greatest_moment }
    ensures answer { IfOk result (λ r. bare_answer r.0 ≡ answer_of state.old.site state.old.history at (Ask.Delete who path)) }
    ensures kept { IfOk result (λ r. state.new ≡ kept_after state.old at (Ask.Delete who path) (bare_answer r.0) None) }
    ensures hand { IfOk result (λ r. r.1 ≡ Hand.Nothing) }
    ensures back { IfErr result (λ e. (e.1 ≡ Ask.Delete who path) × (e.2 ≡ Hand.Nothing)) }
    ensures same { OnErr result (state.new ≡ state.old) }
{
    if let Some(refusal) = refusal_of_delete(state, &path) {
        return Ok((Answer::Refused(refusal), Hand::Nothing));
    }
    match delete_file(
        state.alloc,
        &state.site,
        &mut state.history,
        &mut state.parts,
        at,
        who,
        path,
    ) {
        Ok(answer) => Ok((answer, Hand::Nothing)),
        Err((error, who, path)) => Err((error, Ask::Delete { who, path }, Hand::Nothing)),
    }
}
