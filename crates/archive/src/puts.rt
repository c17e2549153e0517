// Puts.
ghost use Rattle.std.specs.Prelude.{◌≡◌, ◌≤◌, IfOk, IfErr, OnErr};
ghost use Rattle.blob.specs.Sums.{sum_of};
ghost use Rattle.cta_model.specs.Answers.{answer_of, is_accepted};
ghost use Rattle.cta_model.specs.Bare.{bare_answer};
ghost use Rattle.cta_model.specs.Hands.{HandBack};
ghost use Rattle.cta_model.specs.Kept.{kept_after};
ghost use Rattle.cta_model.specs.Legal.{greatest_moment};

use crate::file_refusals::refusal_of_put;
use archive_state::ArchiveState;
use blob::{Blob, Told};
use caller_asks::put_file;
use cta_model::{Answer, Ask, Hand, Who};
use cta_site::{NoMemory, Text};
use std::sync::Arc;

/// Answers a Put of this content at this moment, in seconds since 1970, or at the last entry's where that is later.
///
/// The answer is the sequential archive's on the history. A Put that is accepted appends its one entry, and one that is refused changes
/// nothing and gives the content back. NoMemory changes nothing, and gives the ask and the content back. Its cost is that of
/// `put_file`.
pub(crate) fn put<M: Told + Drop>(
    state: &mut ArchiveState<M>,
    at: u64,
    who: Who,
    path: Text,
    blob: Arc<Blob>,
) -> Result<(Answer, Hand<M>), (NoMemory, Ask, Hand<M>)>
    requires { at ≤ greatest_moment }
    ensures answer { IfOk result (λ r. bare_answer r.0 ≡ answer_of state.old.site state.old.history at (Ask.Put who path (sum_of blob.value))) }
    ensures kept { IfOk result (λ r. state.new ≡ kept_after state.old at (Ask.Put who path (sum_of blob.value)) (bare_answer r.0) None) }
    ensures hand { IfOk result (λ r. HandBack M.told (is_accepted (bare_answer r.0)) state.old.history state.new.history (Ask.Put who path (sum_of blob.value)) (bare_answer r.0) (Hand.Blob blob) r.1) }
    ensures back { IfErr result (λ e. (e.1 ≡ Ask.Put who path (sum_of blob.value)) × (e.2 ≡ Hand.Blob blob)) }
    ensures same { OnErr result (state.new ≡ state.old) }
{
    let sum = blob.sum();
    state.reach(at);
    if let Some(refusal) = refusal_of_put(state, at, &path, sum.len) {
        return Ok((Answer::Refused(refusal), Hand::Blob(blob)));
    }
    match put_file(
        state.alloc,
        &state.site,
        &mut state.history,
        &mut state.parts,
        at,
        who,
        path,
        blob,
    ) {
        Ok(answer) => Ok((answer, Hand::Nothing)),
        Err((error, back)) => Err((
            error,
            Ask::Put {
                who: back.who,
                path: back.path,
                sum,
            },
            Hand::Blob(back.blob),
        )),
    }
}
