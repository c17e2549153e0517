// Looks at failed copies.
ghost use Rattle.std.specs.Prelude.{ℕ, ◌≡◌, IfOk};
ghost use Rattle.cta_model.specs.Bare.{bare_answer};
ghost use Rattle.cta_model.specs.Hands.{LookHand};
ghost use Rattle.cta_model.specs.declared.asks.Look.TheVariants as look;
ghost use Rattle.cta_model.specs.Looks.{look_answer_of};

use archive_state::ArchiveState;
use blob::Told;
use cta_model::{Answer, Hand};
use cta_site::NoMemory;

/// Answers a FailedList: the failed copies of all live files, in order of file and copy, each with the path of its file and the errors of
/// its last job. It changes nothing, and NoMemory gives nothing. Its cost is that of `ArchiveState::failed_list`.
pub(crate) fn failed_list<M: Told + Drop>(
    state: &ArchiveState<M>,
) -> Result<(Answer, Hand<M>), NoMemory>
    ensures answer { IfOk result (λ r. (at : ℕ) → bare_answer r.0 ≡ look_answer_of state.now.site state.now.history at look.FailedList) }
    ensures hand { IfOk result (λ r. LookHand (bare_answer r.0) r.1) }
{
    let copies = state.failed_list()?;
    Ok((Answer::FailedSeen(copies), Hand::Nothing))
}
