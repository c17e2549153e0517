// Why asks of files are refused.
ghost use Rattle.std.specs.Prelude.{ℕ, ◌≡◌, ◌≤◌};
ghost use Rattle.cta_model.specs.declared.asks.Ask.TheVariants as ask;
ghost use Rattle.cta_model.specs.Answers.{answer_of};
ghost use Rattle.cta_model.specs.Legal.{greatest_moment};
ghost use Rattle.cta_model.specs.declared.asks.Who.{Who};
ghost use Rattle.blob.specs.declared.sum.Sum256.{Sum256};
ghost use Rattle.archive.specs.FileRefusals.{delete_refusal, put_refusal};
ghost use Rattle.archive.specs.Refusals.{refusal_of};

use archive_state::ArchiveState;
use blob::Told;
use cta_model::Refusal;
use cta_site::{Text, is_path};

// The first refusal of a Put by these tests.
fn first_of_put(bad: bool, foreign: bool, taken: bool, full: bool, heavy: bool) -> Option<Refusal>
    ensures { result ≡ put_refusal bad foreign taken full heavy }
{
    if bad {
        return Some(Refusal::BadPath);
    }
    if foreign {
        return Some(Refusal::NoDirectory);
    }
    if taken {
        return Some(Refusal::PathTaken);
    }
    if full {
        return Some(Refusal::NoSpace);
    }
    if heavy {
        return Some(Refusal::HistoryFull);
    }
    None
}

// The first refusal of a Delete by these tests.
fn first_of_delete(missing: bool, heavy: bool) -> Option<Refusal>
    ensures { result ≡ delete_refusal missing heavy }
{
    if missing {
        return Some(Refusal::NoFile);
    }
    if heavy {
        return Some(Refusal::HistoryFull);
    }
    None
}

// Why a Put of so many bytes under a path is refused at a moment, None where it is accepted.
pub(crate) fn refusal_of_put<M: Told + Drop>(
    state: &ArchiveState<M>,
    at: u64,
    path: &Text,
    size: u64,
) -> Option<Refusal>
    requires { at ≤ greatest_moment }
    ensures { (who : Who) (sum : Sum256) → sum.len ≡ size → refusal_of (answer_of state.now.site state.now.history at (ask.Put who path.now sum)) ≡ result }
{
    let bad = !is_path(path.as_str());
    let known = state.site().class_of(path.as_bytes()).is_some();
    let taken = state.live_file(path.as_bytes()).is_some();
    let full = !state.has_space(at, size);
    let weight = 1 + u64::from(state.evicted_count(at, size));
    let heavy = state.would_pass(weight);
    first_of_put(bad, !known, taken, full, heavy)
}

// Why a Delete of a path is refused, None where it is accepted.
pub(crate) fn refusal_of_delete<M: Told + Drop>(
    state: &ArchiveState<M>,
    path: &Text,
) -> Option<Refusal>
    ensures { (at : ℕ) (who : Who) → refusal_of (answer_of state.now.site state.now.history at (ask.Delete who path.now)) ≡ result }
{
    let missing = state.live_file(path.as_bytes()).is_none();
    first_of_delete(missing, state.would_pass(1))
}
