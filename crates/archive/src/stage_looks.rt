// Looks at stage requests.
ghost use Rattle.std.specs.Prelude.{ℕ, ◌≡◌, IfOk};
ghost use Rattle.cta_model.specs.Bare.{bare_answer};
ghost use Rattle.cta_model.specs.Hands.{LookHand};
ghost use Rattle.cta_model.specs.declared.asks.Look.TheVariants as look;
ghost use Rattle.cta_model.specs.Looks.{look_answer_of};

use archive_state::ArchiveState;
use blob::Told;
use cta_model::{Answer, Hand, Refusal};
use cta_site::NoMemory;

/// Answers a StageInfo: how the request stands and each of its files, with whether it is in the buffer now, or the refusal NoRequest where
/// no Stage has the id, or the request was dropped. It changes nothing, and NoMemory gives nothing. Its cost is that of
/// `ArchiveState::stage_info`.
pub(crate) fn stage_info<M: Told + Drop>(
    state: &ArchiveState<M>,
    id: u32,
) -> Result<(Answer, Hand<M>), NoMemory>
    ensures answer { IfOk result (λ r. (at : ℕ) → bare_answer r.0 ≡ look_answer_of state.now.site state.now.history at (look.StageInfo id)) }
    ensures hand { IfOk result (λ r. LookHand (bare_answer r.0) r.1) }
{
    match state.stage_info(id)? {
        Some(info) => Ok((Answer::Stage(info), Hand::Nothing)),
        None => Ok((Answer::Refused(Refusal::NoRequest), Hand::Nothing)),
    }
}
