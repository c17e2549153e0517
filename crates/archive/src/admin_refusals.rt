// Why asks of operators are refused.
ghost use Rattle.std.specs.Prelude.{ℕ, ◌≡◌, IfOk};
ghost use Rattle.cta_site.specs.Listed.{rows};
ghost use Rattle.cta_model.specs.declared.asks.Ask.TheVariants as ask;
ghost use Rattle.cta_model.specs.declared.asks.Who.{Who};
ghost use Rattle.cta_model.specs.Answers.{answer_of};
ghost use Rattle.archive.specs.AdminRefusals.{drive_refusal};
ghost use Rattle.archive.specs.Refusals.{refusal_of};

use archive_state::ArchiveState;
use blob::Told;
use cta_model::Refusal;
use cta_site::{NoMemory, Text};

// The first refusal of a DriveUp or a DriveDown by these tests.
fn first_of_drive(unknown: bool, heavy: bool) -> Option<Refusal>
    ensures { result ≡ drive_refusal unknown heavy }
{
    if unknown {
        return Some(Refusal::NoDrive);
    }
    if heavy {
        return Some(Refusal::HistoryFull);
    }
    None
}

// Why a DriveUp or a DriveDown of a drive is refused, None where it is accepted.
pub(crate) fn refusal_of_drive<M: Told + Drop>(
    state: &ArchiveState<M>,
    drive: u32,
) -> Option<Refusal>
    ensures up { (at : ℕ) (who : Who) → refusal_of (answer_of state.now.site state.now.history at (ask.DriveUp who drive)) ≡ result }
    ensures down { (at : ℕ) (who : Who) → refusal_of (answer_of state.now.site state.now.history at (ask.DriveDown who drive)) ≡ result }
{
    let unknown = state.site().drives().len() <= drive as usize;
    first_of_drive(unknown, state.would_pass(1))
}

// Why a Retry of these paths is refused, None where it is accepted. NoMemory tells nothing.
pub(crate) fn refusal_of_retry<M: Told + Drop>(
    state: &ArchiveState<M>,
    paths: &[Text],
) -> Result<Option<Refusal>, NoMemory>
    ensures { IfOk result (λ refusal. (at : ℕ) (who : Who) → refusal_of (answer_of state.now.site state.now.history at (ask.Retry who (rows paths.now))) ≡ refusal) }
{
    if state.lacks_file(paths) {
        return Ok(Some(Refusal::NoFile));
    }
    let jobs = state.retried_count(paths)?;
    if state.would_pass(1 + (paths.len() as u64 + jobs)) {
        return Ok(Some(Refusal::HistoryFull));
    }
    Ok(None)
}
