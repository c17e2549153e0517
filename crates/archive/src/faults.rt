// Faults that sessions met.
ghost use Rattle.std.specs.Prelude.{◌≡◌, ◌≤◌, ◌<◌, ◌+◌, length, IfOk, IfErr, OnErr};
ghost use Rattle.cta_site.specs.Listed.{rows};
ghost use Rattle.cta_model.specs.Answers.{answer_of, is_accepted};
ghost use Rattle.cta_model.specs.Bare.{bare_answer};
ghost use Rattle.cta_model.specs.Hands.{HandBack};
ghost use Rattle.cta_model.specs.Kept.{kept_after};
ghost use Rattle.cta_model.specs.Legal.{IsFaultOf, greatest_moment};
ghost use Rattle.cta_model.specs.Mounts.{mount_of};

use archive_state::ArchiveState;
use blob::Told;
use cta_model::{Answer, Ask, Fault, Hand, Job, Refusal};
use cta_site::{NoMemory, Rows};

/// Answers a Failed of a mount, by a fault that one of its kind may meet, which charges some jobs and returns others, at least one in all,
/// at this moment, in seconds since 1970, or at the last entry's where that is later.
///
/// The answer is the sequential archive's on the history: Unknown where the mount is not open, or does not claim all these jobs, or one of
/// them is named twice; and otherwise Done. A Failed that is accepted appends its one entry, and one that is refused changes nothing.
/// NoMemory changes nothing, and gives the ask back. Its cost is those of `ArchiveState::knows_jobs` and `ArchiveState::fail`.
pub(crate) fn failed<M: Told + Drop>(
    state: &mut ArchiveState<M>,
    at: u64,
    mount: u32,
    fault: Fault,
    charged: Rows<Job>,
    returned: Rows<Job>,
) -> Result<(Answer, Hand<M>), (NoMemory, Ask, Hand<M>)>
    requires at { at ≤ greatest_moment }
    requires fault { IsFaultOf fault (mount_of state.old.history mount) }
    requires named { 0 < length charged.items + length returned.items }
    ensures answer { IfOk result (λ r. bare_answer r.0 ≡ answer_of state.old.site state.old.history at (Ask.Failed mount fault (rows charged.items) (rows returned.items))) }
    ensures kept { IfOk result (λ r. state.new ≡ kept_after state.old at (Ask.Failed mount fault (rows charged.items) (rows returned.items)) (bare_answer r.0) None) }
    ensures hand { IfOk result (λ r. HandBack M.told (is_accepted (bare_answer r.0)) state.old.history state.new.history (Ask.Failed mount fault (rows charged.items) (rows returned.items)) (bare_answer r.0) Hand.Nothing r.1) }
    ensures back { IfErr result (λ e. (e.1 ≡ Ask.Failed mount fault charged returned) × (e.2 ≡ Hand.Nothing)) }
    ensures same { OnErr result (state.new ≡ state.old) }
{
    if !state.knows_jobs(mount, charged.as_slice(), returned.as_slice()) {
        return Ok((Answer::Refused(Refusal::Unknown), Hand::Nothing));
    }
    match state.fail(at, mount, fault, charged, returned) {
        Ok(answer) => Ok((answer, Hand::Nothing)),
        Err((error, charged, returned)) => {
            let ask = Ask::Failed {
                mount,
                fault,
                charged,
                returned,
            };
            Err((error, ask, Hand::Nothing))
        }
    }
}
