// Claims, and batches that are to be written.
ghost use Rattle.std.specs.Prelude.{◌≡◌, ◌≤◌, IfOk, IfErr, OnErr, true};
ghost use Rattle.cta_model.specs.declared.asks.Direction.TheVariants as direction;
ghost use Rattle.cta_model.specs.Answers.{answer_of, is_accepted};
ghost use Rattle.cta_model.specs.Bare.{bare_answer};
ghost use Rattle.cta_model.specs.Hands.{HandBack};
ghost use Rattle.cta_model.specs.Kept.{kept_after};
ghost use Rattle.cta_model.specs.Legal.{IsMountOf, greatest_moment};
ghost use Rattle.cta_model.specs.Mounts.{is_open, mount_of};

use crate::reads::claim_to_read;
use archive_state::ArchiveState;
use blob::Told;
use cta_model::{Answer, Ask, Direction, Hand, Refusal};
use cta_site::NoMemory;
use drive_asks::claim_batch;

// Answers the Claim of an open mount that writes.
fn claim_to_write<M: Told + Drop>(
    state: &mut ArchiveState<M>,
    at: u64,
    mount: u32,
) -> Result<(Answer, Hand<M>), (NoMemory, Ask, Hand<M>)>
    requires at { at ≤ greatest_moment }
    requires open { is_open state.old.history mount ≡ true }
    requires writes { IsMountOf direction.Archive (mount_of state.old.history mount) }
    ensures answer { IfOk result (λ r. bare_answer r.0 ≡ answer_of state.old.site state.old.history at (Ask.Claim mount)) }
    ensures kept { IfOk result (λ r. state.new ≡ kept_after state.old at (Ask.Claim mount) (bare_answer r.0) None) }
    ensures hand { IfOk result (λ r. HandBack M.told (is_accepted (bare_answer r.0)) state.old.history state.new.history (Ask.Claim mount) (bare_answer r.0) Hand.Nothing r.1) }
    ensures back { IfErr result (λ e. (e.1 ≡ Ask.Claim mount) × (e.2 ≡ Hand.Nothing)) }
    ensures same { OnErr result (state.new ≡ state.old) }
{
    let items = match state.batch_to_write(at, mount) {
        Ok(items) => items,
        Err(error) => return Err((error, Ask::Claim { mount }, Hand::Nothing)),
    };
    let count = items.as_slice().len();
    if count == 0 {
        return Ok((Answer::Nothing, Hand::Nothing));
    }
    if state.would_pass(1 + count as u64) {
        return Ok((Answer::Refused(Refusal::HistoryFull), Hand::Nothing));
    }
    let blobs = match state.contents_of(items.as_slice()) {
        Ok(blobs) => blobs,
        Err(error) => return Err((error, Ask::Claim { mount }, Hand::Nothing)),
    };
    match claim_batch(
        state.alloc,
        &state.site,
        &mut state.history,
        &mut state.parts,
        at,
        mount,
        items,
    ) {
        Ok(answer) => Ok((answer, Hand::Blobs(blobs))),
        Err((error, _items)) => Err((error, Ask::Claim { mount }, Hand::Nothing)),
    }
}

/// Answers the Claim of a mount, which may never have been, at this moment, in seconds since 1970, or at the last entry's where that is
/// later.
///
/// The answer is the sequential archive's on the history: Unknown where the mount is not open, whichever way it went; Nothing where
/// nothing that waits fits on its tape, or, where it reads, in the buffer; and otherwise the refusal HistoryFull, or the batch, with its
/// contents where it is to be written, and with no content where it is to be read. The batch that is to be read weighs one for each item
/// and for each file that is evicted for its bytes. A Claim that is accepted appends its one entry, and any other changes nothing.
/// NoMemory changes nothing, and gives the ask back. Its cost is that of `ArchiveState::batch_to_write` and `claim_batch`, or of
/// `ArchiveState::reach`, `batch_to_read` and `claim_reads`.
pub(crate) fn claim<M: Told + Drop>(
    state: &mut ArchiveState<M>,
    at: u64,
    mount: u32,
) -> Result<(Answer, Hand<M>), (NoMemory, Ask, Hand<M>)>
    requires at { at ≤ greatest_moment }
    ensures answer { IfOk result (λ r. bare_answer r.0 ≡ answer_of state.old.site state.old.history at (Ask.Claim mount)) }
    ensures kept { IfOk result (λ r. state.new ≡ kept_after state.old at (Ask.Claim mount) (bare_answer r.0) None) }
    ensures hand { IfOk result (λ r. HandBack M.told (is_accepted (bare_answer r.0)) state.old.history state.new.history (Ask.Claim mount) (bare_answer r.0) Hand.Nothing r.1) }
    ensures back { IfErr result (λ e. (e.1 ≡ Ask.Claim mount) × (e.2 ≡ Hand.Nothing)) }
    ensures same { OnErr result (state.new ≡ state.old) }
{
    match state.direction_of(mount) {
        Some(Direction::Archive) => claim_to_write(state, at, mount),
        Some(Direction::Retrieve) => claim_to_read(state, at, mount),
        None => Ok((Answer::Refused(Refusal::Unknown), Hand::Nothing)),
    }
}
