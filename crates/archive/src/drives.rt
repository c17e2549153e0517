// Drives that are put up and down.
ghost use Rattle.std.specs.Prelude.{◌≡◌, ◌≤◌, IfOk, IfErr, OnErr};
ghost use Rattle.cta_model.specs.Answers.{answer_of};
ghost use Rattle.cta_model.specs.Bare.{bare_answer};
ghost use Rattle.cta_model.specs.Kept.{kept_after};
ghost use Rattle.cta_model.specs.Legal.{greatest_moment};

use crate::admin_refusals::refusal_of_drive;
use archive_state::ArchiveState;
use blob::Told;
use cta_model::{Answer, Ask, Hand, Who};
use cta_site::NoMemory;
use drive_asks::{set_drive_down, set_drive_up};

/// Answers a DriveUp of a drive, by its number, at this moment, in seconds since 1970, or at the last entry's where that is later.
///
/// The answer is the sequential archive's on the history: NoDrive, HistoryFull, or Done, whether the drive was down or not. A DriveUp that
/// is accepted appends its one entry, and one that is refused changes nothing. NoMemory changes nothing, and gives the ask back. Its
/// cost is that of `set_drive_up`.
pub(crate) fn drive_up<M: Told + Drop>(
    state: &mut ArchiveState<M>,
    at: u64,
    who: Who,
    drive: u32,
) -> Result<(Answer, Hand<M>), (NoMemory, Ask, Hand<M>)>
    requires { at ≤ greatest_moment }
    ensures answer { IfOk result (λ r. bare_answer r.0 ≡ answer_of state.old.site state.old.history at (Ask.DriveUp who drive)) }
    ensures kept { IfOk result (λ r. state.new ≡ kept_after state.old at (Ask.DriveUp who drive) (bare_answer r.0) None) }
    ensures hand { IfOk result (λ r. r.1 ≡ Hand.Nothing) }
    ensures back { IfErr result (λ e. (e.1 ≡ Ask.DriveUp who drive) × (e.2 ≡ Hand.Nothing)) }
    ensures same { OnErr result (state.new ≡ state.old) }
{
    if let Some(refusal) = refusal_of_drive(state, drive) {
        return Ok((Answer::Refused(refusal), Hand::Nothing));
    }
    match set_drive_up(
        &state.site,
        &mut state.history,
        &mut state.parts,
        at,
        who,
        drive,
    ) {
        Ok(answer) => Ok((answer, Hand::Nothing)),
        Err((error, who)) => Err((error, Ask::DriveUp { who, drive }, Hand::Nothing)),
    }
}

/// Answers a DriveDown of a drive, by its number, at this moment, in seconds since 1970, or at the last entry's where that is later.
///
/// The answer is the sequential archive's on the history: NoDrive, HistoryFull, or Done, whether the drive was down or not. A DriveDown that
/// is accepted appends its one entry, and one that is refused changes nothing. NoMemory changes nothing, and gives the ask back. Its
/// cost is that of `set_drive_down`.
pub(crate) fn drive_down<M: Told + Drop>(
    state: &mut ArchiveState<M>,
    at: u64,
    who: Who,
    drive: u32,
) -> Result<(Answer, Hand<M>), (NoMemory, Ask, Hand<M>)>
    requires { at ≤ greatest_moment }
    ensures answer { IfOk result (λ r. bare_answer r.0 ≡ answer_of state.old.site state.old.history at (Ask.DriveDown who drive)) }
    ensures kept { IfOk result (λ r. state.new ≡ kept_after state.old at (Ask.DriveDown who drive) (bare_answer r.0) None) }
    ensures hand { IfOk result (λ r. r.1 ≡ Hand.Nothing) }
    ensures back { IfErr result (λ e. (e.1 ≡ Ask.DriveDown who drive) × (e.2 ≡ Hand.Nothing)) }
    ensures same { OnErr result (state.new ≡ state.old) }
{
    if let Some(refusal) = refusal_of_drive(state, drive) {
        return Ok((Answer::Refused(refusal), Hand::Nothing));
    }
    match set_drive_down(
        &state.site,
        &mut state.history,
        &mut state.parts,
        at,
        who,
        drive,
    ) {
        Ok(answer) => Ok((answer, Hand::Nothing)),
        Err((error, who)) => Err((error, Ask::DriveDown { who, drive }, Hand::Nothing)),
    }
}
