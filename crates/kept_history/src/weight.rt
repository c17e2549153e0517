// The weight of an entry.
ghost use Rattle.std.specs.Prelude.{◌≡◌, ◌+◌, ◌-◌, ◌^◌, min};
ghost use Rattle.cta_model.specs.Bare.{bare_answer, bare_ask};
ghost use Rattle.cta_model.specs.History.{answer_elements, ask_elements, weight_of_entry};
ghost use Rattle.kept_history.specs.Weight.{capped};

use cta_model::{Answer, Ask};

// How many elements the lists of an ask have; more than 2^64 - 1 count as so many.
fn elements_of_ask(ask: &Ask) -> u64
    ensures { result ≡ capped (ask_elements (bare_ask ask.now)) }
{
    let count = match ask {
        Ask::Stage { files, .. } => files.len(),
        Ask::Cancel { paths, .. } => paths.len(),
        Ask::Release { paths, .. } => paths.len(),
        Ask::Flushed { items, .. } => items.len(),
        Ask::Failed {
            charged,
            returned,
            ..
        } => charged.len().saturating_add(returned.len()),
        Ask::Retry { paths, .. } => paths.len(),
        _ => 0,
    };
    count as u64
}

// How many elements the lists of an accepted answer have; more than 2^64 - 1 count as so many.
fn elements_of_answer(answer: &Answer) -> u64
    ensures { result ≡ capped (answer_elements (bare_answer answer.now)) }
{
    let count = match answer {
        Answer::Stored { evicted } => evicted.len(),
        Answer::Batch { items, evicted } => items.len().saturating_add(evicted.len()),
        Answer::Told { fates } => fates.len(),
        Answer::Repacking { items, .. } => items.len(),
        Answer::Retried { jobs } => jobs.len(),
        _ => 0,
    };
    count as u64
}

/// What the entry with this ask and answer weighs: 1, and 1 for each element of their lists. More than 2^64 - 1 counts as so
/// many. In constant time. This project's own.
pub fn weight_of_entry(ask: &Ask, answer: &Answer) -> u64
    ensures { result ≡ capped (weight_of_entry (bare_ask ask.now) (bare_answer answer.now)) }
{
    let elements = elements_of_ask(ask).saturating_add(elements_of_answer(answer));
    elements.saturating_add(1)
}
