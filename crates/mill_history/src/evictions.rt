// The files that were evicted for the one that fills the buffer.
ghost use Rattle.std.specs.Prelude.{◌≡◌, ◌+◌, ◌<◌, ◌^◌, length, true, option_copied, option_map, IfOk, IfSome};
ghost use Rattle.cta_model.specs.Bare.{bare_answer, bare_ask, bare_entry};
ghost use Rattle.cta_model.specs.History.{entry_of};
ghost use Rattle.cta_model.specs.Buffer.{evicted_in};
ghost use Rattle.cta_model.specs.Newest.{history_in};
ghost use Rattle.mill_history.specs.Tallies.{AreEvicted};

use crate::marks::{are_marked, marks};
use crate::puts::one_big;
use cta_model::{Answer, Ask, Entry, NoMemory};
use std::alloc::Global;

// The files that an entry lists as evicted, where it is a Put.
fn evicted_in(entry: &Entry) -> Option<&[u32]>
    ensures { IfSome result (λ s. s.now ≡ evicted_in (bare_ask entry.now.ask) (bare_answer entry.now.answer)) }
{
    match &entry.ask {
        Ask::Put { .. } => match &entry.answer {
            Answer::Stored { evicted } => Some(evicted.as_slice()),
            _ => None,
        },
        _ => None,
    }
}

// The entry of this number; None exactly where there is none.
#[tactic(auto, using(cta_model::proofs::Newest::scans, kept_history::proofs::Numbers::numbers))]
fn entry_of(entries: &[Entry], number: u32) -> Option<&Entry>
    ensures { option_map bare_entry (option_copied result) ≡ entry_of (history_in entries.now) number }
{
    let number = number as usize;
    if number == 0 || number > entries.len() {
        return None;
    }
    Some(&entries[number - 1])
}

/// Whether the one Put of the file that fills the buffer lists all these files as evicted; false where it was not put,
/// or more than once.
#[tactic(auto, using(crate::proofs::Evicted::are_evicted))]
pub(crate) fn evicts_all(
    alloc: Global,
    entries: &[Entry],
    numbers: &[u32],
) -> Result<bool, NoMemory>
    requires { length entries.now + 1 < 2 ^ 32 }
    ensures { IfOk result (λ b. b ≡ true → AreEvicted (history_in entries.now) numbers.now) }
{
    let Some(big) = one_big(entries) else {
        return Ok(false);
    };
    let Some(entry) = entry_of(entries, big) else {
        return Ok(false);
    };
    let Some(listed) = evicted_in(entry) else {
        return Ok(false);
    };
    let Some(evicted) = marks(alloc, listed, entries.len() + 1)? else {
        return Ok(false);
    };
    Ok(are_marked(&evicted, numbers))
}
