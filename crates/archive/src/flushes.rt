// Batches that were flushed.
ghost use Rattle.std.specs.Prelude.{◌≡◌, ◌≤◌, IfOk, IfErr, OnErr};
ghost use Rattle.cta_site.specs.Listed.{rows};
ghost use Rattle.cta_model.specs.declared.asks.Direction.TheVariants as direction;
ghost use Rattle.cta_model.specs.Answers.{answer_of, is_accepted};
ghost use Rattle.cta_model.specs.Bare.{bare_answer};
ghost use Rattle.cta_model.specs.Hands.{HandBack};
ghost use Rattle.cta_model.specs.Kept.{kept_after};
ghost use Rattle.cta_model.specs.Legal.{IsMountOf, greatest_moment};
ghost use Rattle.cta_model.specs.Mounts.{mount_of};

use archive_state::ArchiveState;
use blob::Told;
use cta_model::{Answer, Ask, Hand, Item, Refusal};
use cta_site::{NoMemory, Rows};
use drive_asks::flush_batch;

/// Answers a Flushed of these items by a mount that writes, at this moment, in seconds since 1970, or at the last entry's where that is
/// later.
///
/// The answer is the sequential archive's on the history: Unknown where the mount is not open, or these are not the items of its last
/// Claim, or it does not claim them all any more. A Flushed that is accepted appends its one entry, and one that is refused changes
/// nothing. NoMemory changes nothing, and gives the ask back. Its cost is that of `flush_batch`.
pub(crate) fn flushed<M: Told + Drop>(
    state: &mut ArchiveState<M>,
    at: u64,
    mount: u32,
    items: Rows<Item>,
) -> Result<(Answer, Hand<M>), (NoMemory, Ask, Hand<M>)>
    requires at { at ≤ greatest_moment }
    requires fit { IsMountOf direction.Archive (mount_of state.old.history mount) }
    ensures answer { IfOk result (λ r. bare_answer r.0 ≡ answer_of state.old.site state.old.history at (Ask.Flushed mount (rows items.items))) }
    ensures kept { IfOk result (λ r. state.new ≡ kept_after state.old at (Ask.Flushed mount (rows items.items)) (bare_answer r.0) None) }
    ensures hand { IfOk result (λ r. HandBack M.told (is_accepted (bare_answer r.0)) state.old.history state.new.history (Ask.Flushed mount (rows items.items)) (bare_answer r.0) Hand.Nothing r.1) }
    ensures back { IfErr result (λ e. (e.1 ≡ Ask.Flushed mount items) × (e.2 ≡ Hand.Nothing)) }
    ensures same { OnErr result (state.new ≡ state.old) }
{
    if !state.knows(mount, items.as_slice()) {
        return Ok((Answer::Refused(Refusal::Unknown), Hand::Nothing));
    }
    match flush_batch(
        state.alloc,
        &state.site,
        &mut state.history,
        &mut state.parts,
        at,
        mount,
        items,
    ) {
        Ok(answer) => Ok((answer, Hand::Nothing)),
        Err((error, items)) => Err((error, Ask::Flushed { mount, items }, Hand::Nothing)),
    }
}
