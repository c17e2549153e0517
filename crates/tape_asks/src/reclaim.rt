// A tape reclaimed.
ghost use Rattle.std.specs.Prelude.{◌≡◌, ◌<◌, ℕ, length, IfErr};
ghost use Rattle.cta_site.specs.declared.site.Site.{Site};
ghost use Rattle.cta_model.specs.declared.asks.Who.{Who};
ghost use Rattle.cta_model.specs.History.{History};
ghost use Rattle.part_model.specs.Tapes.{live_in};
ghost use Rattle.archive_parts.specs.Called.{AreKeptCalled};
ghost use Rattle.archive_parts.specs.Carrying.{CanCarryOut, IsCarriedOut};
ghost use Rattle.archive_parts.specs.PartsKept.{ArePartsKept};

use archive_parts::{ArchiveParts, kept_parts_move};
use cta_laws::stays_short;
use cta_model::{Actor, Answer, Ask, Who};
use cta_site::NoMemory;
use kept_history::KeptHistory;
use site_index::SiteIndex;

// Makes the calls for a Reclaim of a tape on which no copy has its place.
fn turn_back(parts: &mut ArchiveParts, tape: u32)
    requires there { tape < length parts.old.tapes.value.rows }
    requires empty { live_in parts.old.tapes.value tape ≡ 0 }
    ensures { (site : Site) (h : History) (t : ℕ) (who : Who) → ArePartsKept site h parts.old
        → AreKeptCalled site h (record { at = t; actor = Actor.Caller who; ask = Ask.Reclaim who tape; answer = Answer.Done }) parts.old parts.new }
{
    parts.tapes.reclaim(tape);
}

/// Reclaims a tape: carries out the accepted `Reclaim` of a caller at a moment, in seconds since 1970. No item is on the tape from then on,
/// none of its bytes is used, and its next item gets the fSeq 1. NoMemory changes nothing, and gives the caller back. Its cost is that of
/// the room that it makes and of a copy of the caller's names. CTA.
pub fn reclaim_tape(
    site: &SiteIndex,
    history: &mut KeptHistory,
    parts: &mut ArchiveParts,
    at: u64,
    who: Who,
    tape: u32,
) -> Result<Answer, (NoMemory, Who)>
    requires { CanCarryOut site.now history.old.value parts.old at (Ask.Reclaim who tape) }
    ensures carried { IsCarriedOut site.now history.old.value at (Ask.Reclaim who tape) result history.new.value parts.new }
    ensures back { IfErr result (λ e. e.1 ≡ who) }
{
    kept_parts_move();
    stays_short();
    site.site().keeps_rules();
    let caller = match history.prepare(&who) {
        Ok(caller) => caller,
        Err(error) => return Err((error, who)),
    };
    history.append(
        at,
        Actor::Caller(caller),
        Ask::Reclaim { who, tape },
        Answer::Done,
    );
    turn_back(parts, tape);
    Ok(Answer::Done)
}
