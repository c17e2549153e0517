// Why asks of tapes are refused.
ghost use Rattle.std.specs.Prelude.{ℕ, ◌≡◌};
ghost use Rattle.cta_site.specs.declared.site.TapeState.{TapeState};
ghost use Rattle.cta_model.specs.declared.asks.Ask.TheVariants as ask;
ghost use Rattle.cta_model.specs.declared.asks.Who.{Who};
ghost use Rattle.cta_model.specs.Answers.{answer_of};
ghost use Rattle.archive.specs.AdminRefusals.{free_refusal, or_full, reclaim_refusal, repack_refusal};
ghost use Rattle.archive.specs.Refusals.{refusal_of};

use archive_state::ArchiveState;
use blob::Told;
use cta_model::Refusal;
use cta_site::TapeState;

// The first refusal of an ask of a tape that must be free: the site has no such tape, it is mounted, it is BROKEN.
fn first_of_free(now: Option<TapeState>, mounted: bool) -> Option<Refusal>
    ensures { result ≡ free_refusal now mounted }
{
    match now {
        None => Some(Refusal::NoTape),
        Some(_) if mounted => Some(Refusal::TapeMounted),
        Some(TapeState::Broken) => Some(Refusal::TapeBroken),
        Some(_) => None,
    }
}

// The first refusal of a Reclaim: the tape is not free, or live files are on it.
fn first_of_reclaim(now: Option<TapeState>, mounted: bool, live: bool) -> Option<Refusal>
    ensures { result ≡ reclaim_refusal now mounted live }
{
    let refusal = first_of_free(now, mounted);
    if refusal.is_none() && live {
        return Some(Refusal::LiveFiles);
    }
    refusal
}

// The first refusal of a Repack: the site has no such tape, it is not REPACKING, a repack of it is live.
fn first_of_repack(now: Option<TapeState>, live: bool) -> Option<Refusal>
    ensures { result ≡ repack_refusal now live }
{
    match now {
        None => Some(Refusal::NoTape),
        Some(TapeState::Repacking) if live => Some(Refusal::RepackLive),
        Some(TapeState::Repacking) => None,
        Some(_) => Some(Refusal::NotRepacking),
    }
}

// This refusal, or else HistoryFull where the history would be too heavy.
fn or_full(refusal: Option<Refusal>, heavy: bool) -> Option<Refusal>
    ensures { result ≡ or_full refusal heavy }
{
    if refusal.is_none() && heavy {
        return Some(Refusal::HistoryFull);
    }
    refusal
}

// Why a TapeState of a tape is refused, None where it is accepted.
pub(crate) fn refusal_of_state<M: Told + Drop>(
    state: &ArchiveState<M>,
    tape: u32,
) -> Option<Refusal>
    ensures { (at : ℕ) (who : Who) (to : TapeState) → refusal_of (answer_of state.now.site state.now.history at (ask.TapeState who tape to)) ≡ result }
{
    let refusal = first_of_free(state.tape_state(tape), state.is_mounted(tape));
    or_full(refusal, state.would_pass(1))
}

// Why a Reclaim of a tape is refused, None where it is accepted.
pub(crate) fn refusal_of_reclaim<M: Told + Drop>(
    state: &ArchiveState<M>,
    tape: u32,
) -> Option<Refusal>
    ensures { (at : ℕ) (who : Who) → refusal_of (answer_of state.now.site state.now.history at (ask.Reclaim who tape)) ≡ result }
{
    let refusal = first_of_reclaim(
        state.tape_state(tape),
        state.is_mounted(tape),
        state.live_copies(tape) != 0,
    );
    or_full(refusal, state.would_pass(1))
}

// Why a Repack of a tape is refused, None where it is accepted.
pub(crate) fn refusal_of_repack<M: Told + Drop>(
    state: &ArchiveState<M>,
    tape: u32,
) -> Option<Refusal>
    ensures { (at : ℕ) (who : Who) → refusal_of (answer_of state.now.site state.now.history at (ask.Repack who tape)) ≡ result }
{
    let refusal = first_of_repack(state.tape_state(tape), state.has_live_repack(tape));
    or_full(
        refusal,
        state.would_pass(1 + state.live_copies(tape) as u64),
    )
}
