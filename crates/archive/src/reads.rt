// Batches that are to be read.
ghost use Rattle.std.specs.Prelude.{◌≡◌, ◌≤◌, ◌<◌, ◌^◌, IfOk, IfErr, OnErr, true};
ghost use Rattle.cta_model.specs.declared.asks.Direction.TheVariants as direction;
ghost use Rattle.cta_model.specs.Answers.{answer_of, is_accepted};
ghost use Rattle.cta_model.specs.Bare.{bare_answer};
ghost use Rattle.cta_model.specs.Hands.{HandBack};
ghost use Rattle.cta_model.specs.Kept.{kept_after};
ghost use Rattle.cta_model.specs.Legal.{IsMountOf, greatest_moment};
ghost use Rattle.cta_model.specs.Mounts.{is_open, mount_of};
ghost use Rattle.cta_model.specs.Tapes.{size_of_items};

use archive_state::ArchiveState;
use blob::Told;
use cta_model::{Answer, Ask, Hand, Item, Refusal};
use cta_site::NoMemory;
use drive_asks::claim_reads;

// The bytes of items.
fn bytes_of(items: &[Item]) -> u64
    requires { size_of_items items.now < 2 ^ 64 }
    ensures { result ≡ size_of_items items.now }
{
    items.iter().map(|item| item.sum.len).sum()
}

// Answers the Claim of an open mount that reads.
pub(crate) fn claim_to_read<M: Told + Drop>(
    state: &mut ArchiveState<M>,
    at: u64,
    mount: u32,
) -> Result<(Answer, Hand<M>), (NoMemory, Ask, Hand<M>)>
    requires at { at ≤ greatest_moment }
    requires open { is_open state.old.history mount ≡ true }
    requires reads { IsMountOf direction.Retrieve (mount_of state.old.history mount) }
    ensures answer { IfOk result (λ r. bare_answer r.0 ≡ answer_of state.old.site state.old.history at (Ask.Claim mount)) }
    ensures kept { IfOk result (λ r. state.new ≡ kept_after state.old at (Ask.Claim mount) (bare_answer r.0) None) }
    ensures hand { IfOk result (λ r. HandBack M.told (is_accepted (bare_answer r.0)) state.old.history state.new.history (Ask.Claim mount) (bare_answer r.0) Hand.Nothing r.1) }
    ensures back { IfErr result (λ e. (e.1 ≡ Ask.Claim mount) × (e.2 ≡ Hand.Nothing)) }
    ensures same { OnErr result (state.new ≡ state.old) }
{
    state.reach(at);
    let items = match state.batch_to_read(at, mount) {
        Ok(items) => items,
        Err(error) => return Err((error, Ask::Claim { mount }, Hand::Nothing)),
    };
    let count = items.as_slice().len();
    if count == 0 {
        return Ok((Answer::Nothing, Hand::Nothing));
    }
    let evicted = state.evicted_count(at, bytes_of(items.as_slice()));
    if state.would_pass(1 + count as u64 + evicted as u64) {
        return Ok((Answer::Refused(Refusal::HistoryFull), Hand::Nothing));
    }
    match claim_reads(
        state.alloc,
        &state.site,
        &mut state.history,
        &mut state.parts,
        at,
        mount,
        items,
    ) {
        Ok(answer) => Ok((answer, Hand::Nothing)),
        Err((error, _items)) => Err((error, Ask::Claim { mount }, Hand::Nothing)),
    }
}
