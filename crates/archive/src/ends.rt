// Ends of mounts.
ghost use Rattle.std.specs.Prelude.{◌≡◌, ◌≤◌, IfOk, IfErr, OnErr};
ghost use Rattle.cta_model.specs.Answers.{answer_of, is_accepted};
ghost use Rattle.cta_model.specs.Bare.{bare_answer};
ghost use Rattle.cta_model.specs.Hands.{HandBack};
ghost use Rattle.cta_model.specs.Kept.{kept_after};
ghost use Rattle.cta_model.specs.Legal.{IsEndFault, IsMount, greatest_moment};
ghost use Rattle.cta_model.specs.Media.{IsMediumOf};
ghost use Rattle.cta_model.specs.Mounts.{mount_of, tape_of_mount};

use archive_state::ArchiveState;
use blob::Told;
use cta_model::{Answer, Ask, Fault, Hand, Refusal};
use cta_site::NoMemory;

/// Answers the End of a mount with its medium, which is true for the history where it tells its records, at this moment, in seconds since
/// 1970, or at the last entry's where that is later.
///
/// The answer is the sequential archive's on the history: Unknown where the mount is not open, or still claims something. An End that is
/// accepted appends its one entry and takes the medium, and one that is refused changes nothing and gives the medium back. NoMemory
/// changes nothing, and gives the ask and the medium back. Its cost is the number of open mounts.
pub(crate) fn end<M: Told + Drop>(
    state: &mut ArchiveState<M>,
    at: u64,
    mount: u32,
    fault: Option<Fault>,
    medium: M,
) -> Result<(Answer, Hand<M>), (NoMemory, Ask, Hand<M>)>
    requires at { at ≤ greatest_moment }
    requires fit { IsMount (mount_of state.old.history mount) }
    requires fault { IsEndFault fault }
    requires medium { IsMediumOf state.old.history (tape_of_mount state.old.history mount) (M.told medium) }
    ensures answer { IfOk result (λ r. bare_answer r.0 ≡ answer_of state.old.site state.old.history at (Ask.End mount fault)) }
    ensures kept { IfOk result (λ r. state.new ≡ kept_after state.old at (Ask.End mount fault) (bare_answer r.0) (Some (M.told medium))) }
    ensures hand { IfOk result (λ r. HandBack M.told (is_accepted (bare_answer r.0)) state.old.history state.new.history (Ask.End mount fault) (bare_answer r.0) (Hand.Medium medium) r.1) }
    ensures back { IfErr result (λ e. (e.1 ≡ Ask.End mount fault) × (e.2 ≡ Hand.Medium medium)) }
    ensures same { OnErr result (state.new ≡ state.old) }
{
    if !state.may_end(mount) {
        return Ok((Answer::Refused(Refusal::Unknown), Hand::Medium(medium)));
    }
    match state.end(at, mount, fault, medium) {
        Ok(answer) => Ok((answer, Hand::Nothing)),
        Err((error, medium)) => Err((error, Ask::End { mount, fault }, Hand::Medium(medium))),
    }
}
