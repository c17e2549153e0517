// The entry of a Failed.
ghost use Rattle.std.specs.Prelude.{◌≡◌, ◌+◌, ◌<◌, ◌^◌, ◌∷◌, length};
ghost use Rattle.cta_site.specs.Listed.{rows};
ghost use Rattle.cta_model.specs.Legal.{actor_of, new_entry};

use cta_model::{Actor, Answer, Ask, Fault, Job};
use cta_site::Rows;
use kept_history::KeptHistory;

// Adds the entry of a Failed of a mount of this drive, that was accepted at this moment, or at the last entry's where that is later.
pub(crate) fn append_failed(
    history: &mut KeptHistory,
    at: u64,
    drive: u32,
    mount: u32,
    fault: Fault,
    charged: Rows<Job>,
    returned: Rows<Job>,
)
    requires room { 0 < history.old.room }
    requires few { length history.old.value + 2 < 2 ^ 32 }
    requires by { Actor.Drive drive ≡ actor_of history.old.value (Ask.Failed mount fault (rows charged.items) (rows returned.items)) }
    ensures { history.new.value ≡ new_entry history.old.value at (Ask.Failed mount fault (rows charged.items) (rows returned.items)) Answer.Done ∷ history.old.value }
{
    let ask = Ask::Failed {
        mount,
        fault,
        charged,
        returned,
    };
    history.append(at, Actor::Drive(drive), ask, Answer::Done);
}
