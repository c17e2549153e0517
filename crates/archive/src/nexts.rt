// What drives mount next.
ghost use Rattle.std.specs.Prelude.{◌≡◌, ◌≤◌, ◌<◌, IfOk, IfErr, OnErr, length};
ghost use Rattle.cta_model.specs.Answers.{answer_of, is_accepted};
ghost use Rattle.cta_model.specs.Bare.{bare_answer};
ghost use Rattle.cta_model.specs.Hands.{HandBack, TakesOut};
ghost use Rattle.cta_model.specs.Kept.{kept_after};
ghost use Rattle.cta_model.specs.Legal.{greatest_moment};

use archive_state::ArchiveState;
use blob::Told;
use cta_model::{Answer, Ask, Hand, Refusal};
use cta_site::NoMemory;

/// Answers the Next of a drive of the site at this moment, in seconds since 1970, or at the last entry's where that is later.
///
/// The answer is the sequential archive's on the history: DriveDown, DriveBusy, Idle where no queue that is warranted fits the drive, and
/// otherwise the refusal HistoryFull or the mount with the medium that was at its tape's place on the shelf. A Next that is accepted appends its one entry, and any other changes
/// nothing. NoMemory changes nothing, and gives the ask back. Its cost is that of `ArchiveState::choose`.
pub(crate) fn next<M: Told + Drop>(
    state: &mut ArchiveState<M>,
    at: u64,
    drive: u32,
) -> Result<(Answer, Hand<M>), (NoMemory, Ask, Hand<M>)>
    requires at { at ≤ greatest_moment }
    requires fit { drive < length state.old.site.drives.items }
    ensures answer { IfOk result (λ r. bare_answer r.0 ≡ answer_of state.old.site state.old.history at (Ask.Next drive)) }
    ensures kept { IfOk result (λ r. state.new ≡ kept_after state.old at (Ask.Next drive) (bare_answer r.0) None) }
    ensures hand { IfOk result (λ r. HandBack M.told (is_accepted (bare_answer r.0)) state.old.history state.new.history (Ask.Next drive) (bare_answer r.0) Hand.Nothing r.1) }
    ensures shelf { IfOk result (λ r. TakesOut M.told state.old.shelf (Ask.Next drive) (bare_answer r.0) r.1) }
    ensures back { IfErr result (λ e. (e.1 ≡ Ask.Next drive) × (e.2 ≡ Hand.Nothing)) }
    ensures same { OnErr result (state.new ≡ state.old) }
{
    if state.is_down(drive) {
        return Ok((Answer::DriveDown, Hand::Nothing));
    }
    if state.is_busy(drive) {
        return Ok((Answer::DriveBusy, Hand::Nothing));
    }
    state.reach(at);
    let choice = match state.choose(at, drive) {
        Ok(choice) => choice,
        Err(error) => return Err((error, Ask::Next { drive }, Hand::Nothing)),
    };
    let Some(choice) = choice else {
        return Ok((Answer::Idle, Hand::Nothing));
    };
    if state.would_pass(1) {
        return Ok((Answer::Refused(Refusal::HistoryFull), Hand::Nothing));
    }
    match state.open(at, drive, choice) {
        Ok((answer, medium)) => Ok((answer, Hand::Medium(medium))),
        Err(error) => Err((error, Ask::Next { drive }, Hand::Nothing)),
    }
}
