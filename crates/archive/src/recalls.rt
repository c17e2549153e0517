// Files that were read.
ghost use Rattle.std.specs.Prelude.{◌≡◌, ◌≤◌, IfOk, IfErr, OnErr};
ghost use Rattle.blob.specs.Sums.{sum_of};
ghost use Rattle.cta_model.specs.declared.asks.Direction.TheVariants as direction;
ghost use Rattle.cta_model.specs.Answers.{answer_of, is_accepted};
ghost use Rattle.cta_model.specs.Bare.{bare_answer};
ghost use Rattle.cta_model.specs.Files as files;
ghost use Rattle.cta_model.specs.Hands.{HandBack};
ghost use Rattle.cta_model.specs.Kept.{kept_after};
ghost use Rattle.cta_model.specs.Legal.{IsMountOf, greatest_moment};
ghost use Rattle.cta_model.specs.Mounts.{mount_of};

use archive_state::ArchiveState;
use blob::{Blob, Told};
use cta_model::{Answer, Ask, Hand, Job, Refusal};
use cta_site::NoMemory;
use drive_asks::recall_file;
use std::sync::Arc;

/// Answers a Recalled of this job by a mount that reads, with the content of the job's file, whose length and SHA-256 are those in the
/// file's Put, at this moment, in seconds since 1970, or at the last entry's where that is later.
///
/// The answer is the sequential archive's on the history: Unknown where the mount is not open, or does not claim the job; and otherwise
/// Done where the job's recall was live, whose file is then in the buffer with this content, and Stale where it had ended, whose content
/// is dropped. A Recalled that is accepted appends its one entry, and one that is refused changes nothing and gives the content back.
/// NoMemory changes nothing, and gives the ask and the content back. Its cost is that of `recall_file`.
pub(crate) fn recalled<M: Told + Drop>(
    state: &mut ArchiveState<M>,
    at: u64,
    mount: u32,
    job: Job,
    blob: Arc<Blob>,
) -> Result<(Answer, Hand<M>), (NoMemory, Ask, Hand<M>)>
    requires at { at ≤ greatest_moment }
    requires fit { IsMountOf direction.Retrieve (mount_of state.old.history mount) }
    requires content { sum_of blob.value ≡ files.sum_of state.old.history job.file }
    ensures answer { IfOk result (λ r. bare_answer r.0 ≡ answer_of state.old.site state.old.history at (Ask.Recalled mount job)) }
    ensures kept { IfOk result (λ r. state.new ≡ kept_after state.old at (Ask.Recalled mount job) (bare_answer r.0) None) }
    ensures hand { IfOk result (λ r. HandBack M.told (is_accepted (bare_answer r.0)) state.old.history state.new.history (Ask.Recalled mount job) (bare_answer r.0) (Hand.Blob blob) r.1) }
    ensures back { IfErr result (λ e. (e.1 ≡ Ask.Recalled mount job) × (e.2 ≡ Hand.Blob blob)) }
    ensures same { OnErr result (state.new ≡ state.old) }
{
    if !state.knows_job(mount, job) {
        return Ok((Answer::Refused(Refusal::Unknown), Hand::Blob(blob)));
    }
    match recall_file(
        state.alloc,
        &state.site,
        &mut state.history,
        &mut state.parts,
        at,
        mount,
        job,
        blob,
    ) {
        Ok(answer) => Ok((answer, Hand::Nothing)),
        Err((error, blob)) => Err((error, Ask::Recalled { mount, job }, Hand::Blob(blob))),
    }
}
