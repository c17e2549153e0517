// The laws of turns, for histories that begin with the oldest entry.
ghost use Rattle.archive.specs.InOrder.{Grows, Sounds, Topics, Opens, Stays};

use archive_turns::{
    call_adds_or_keeps, entries_name_their_mounts, fit_call_stays, opens_by_its_number,
    play_keeps_legal,
};
use cta_model::Told;

/// The laws that a hall asks of what it keeps.
pub fn turns_in_order<M: Told>()
    ensures grows { Grows M.told }
    ensures sounds { Sounds M.told }
    ensures topics { Topics M.told }
    ensures opens { Opens }
    ensures stays { Stays M.told }
{
    call_adds_or_keeps::<M>();
    play_keeps_legal::<M>();
    entries_name_their_mounts::<M>();
    opens_by_its_number();
    fit_call_stays::<M>();
}
