// Why asks of stage requests are refused.
ghost use Rattle.std.specs.Prelude.{ℕ, ◌≡◌};
ghost use Rattle.cta_site.specs.Listed.{rows};
ghost use Rattle.cta_model.specs.declared.asks.Ask.TheVariants as ask;
ghost use Rattle.cta_model.specs.declared.asks.Who.{Who};
ghost use Rattle.cta_model.specs.Answers.{answer_of};
ghost use Rattle.archive.specs.StageRefusals.{drop_refusal, paths_refusal};
ghost use Rattle.archive.specs.Refusals.{refusal_of};

use archive_state::ArchiveState;
use blob::Told;
use cta_model::Refusal;
use cta_site::Text;

// The first refusal of a Cancel or a Release by these tests.
fn first_of_paths(unknown: bool, foreign: bool, heavy: bool) -> Option<Refusal>
    ensures { result ≡ paths_refusal unknown foreign heavy }
{
    if unknown {
        return Some(Refusal::NoRequest);
    }
    if foreign {
        return Some(Refusal::ForeignPath);
    }
    if heavy {
        return Some(Refusal::HistoryFull);
    }
    None
}

// The first refusal of a DropStage by these tests.
fn first_of_drop(unknown: bool, heavy: bool) -> Option<Refusal>
    ensures { result ≡ drop_refusal unknown heavy }
{
    if unknown {
        return Some(Refusal::NoRequest);
    }
    if heavy {
        return Some(Refusal::HistoryFull);
    }
    None
}

// Why a Cancel or a Release of these paths of a request is refused, None where it is accepted.
pub(crate) fn refusal_of_paths<M: Told + Drop>(
    state: &ArchiveState<M>,
    id: u32,
    paths: &[Text],
) -> Option<Refusal>
    ensures cancel { (at : ℕ) (who : Who) → refusal_of (answer_of state.now.site state.now.history at (ask.Cancel who id (rows paths.now))) ≡ result }
    ensures release { (at : ℕ) (who : Who) → refusal_of (answer_of state.now.site state.now.history at (ask.Release who id (rows paths.now))) ≡ result }
{
    let known = state.knows_request(id);
    let own = state.has_paths(id, paths);
    let heavy = state.would_pass(1 + paths.len() as u64);
    first_of_paths(!known, !own, heavy)
}

// Why a DropStage of a request is refused, None where it is accepted.
pub(crate) fn refusal_of_drop<M: Told + Drop>(state: &ArchiveState<M>, id: u32) -> Option<Refusal>
    ensures { (at : ℕ) (who : Who) → refusal_of (answer_of state.now.site state.now.history at (ask.DropStage who id)) ≡ result }
{
    let known = state.knows_request(id);
    first_of_drop(!known, state.would_pass(1))
}
