// Drives put down and up.
ghost use Rattle.std.specs.Prelude.{◌≡◌, ◌<◌, ℕ, IfErr};
ghost use Rattle.cta_site.specs.declared.site.Site.{Site};
ghost use Rattle.cta_model.specs.declared.asks.Who.{Who};
ghost use Rattle.cta_model.specs.History.{History};
ghost use Rattle.archive_parts.specs.Called.{AreKeptCalled};
ghost use Rattle.archive_parts.specs.Carrying.{CanCarryOut, IsCarriedOut};
ghost use Rattle.archive_parts.specs.PartsKept.{ArePartsKept};

use archive_parts::{ArchiveParts, kept_parts_move};
use cta_laws::stays_short;
use cta_model::{Actor, Answer, Ask, Who};
use cta_site::NoMemory;
use kept_history::KeptHistory;
use site_index::SiteIndex;

// Puts a drive up in the parts.
fn turn_up(parts: &mut ArchiveParts, drive: u32)
    ensures { (site : Site) (h : History) (t : ℕ) (who : Who) → ArePartsKept site h parts.old
        → AreKeptCalled site h (record { at = t; actor = Actor.Caller who; ask = Ask.DriveUp who drive; answer = Answer.Done }) parts.old parts.new }
{
    parts.mounts.set_up(drive);
}

// Puts a drive of the site down in the parts.
fn turn_down(parts: &mut ArchiveParts, drive: u32)
    requires { drive < parts.old.mounts.value.drives }
    ensures { (site : Site) (h : History) (t : ℕ) (who : Who) → ArePartsKept site h parts.old
        → AreKeptCalled site h (record { at = t; actor = Actor.Caller who; ask = Ask.DriveDown who drive; answer = Answer.Done }) parts.old parts.new }
{
    parts.mounts.set_down(drive);
}

/// Puts a drive up: carries out the accepted `DriveUp` of a caller at a moment, in seconds since 1970. The drive takes mounts from then on.
/// NoMemory changes nothing, and gives the caller back. Its cost is that of the room that it makes and of a copy of the caller's names.
/// CTA.
pub fn set_drive_up(
    site: &SiteIndex,
    history: &mut KeptHistory,
    parts: &mut ArchiveParts,
    at: u64,
    who: Who,
    drive: u32,
) -> Result<Answer, (NoMemory, Who)>
    requires { CanCarryOut site.now history.old.value parts.old at (Ask.DriveUp who drive) }
    ensures carried { IsCarriedOut site.now history.old.value at (Ask.DriveUp who drive) result history.new.value parts.new }
    ensures back { IfErr result (λ e. e.1 ≡ who) }
{
    kept_parts_move();
    stays_short();
    site.site().keeps_rules();
    let caller = match history.prepare(&who) {
        Ok(caller) => caller,
        Err(error) => return Err((error, who)),
    };
    history.append(
        at,
        Actor::Caller(caller),
        Ask::DriveUp { who, drive },
        Answer::Done,
    );
    turn_up(parts, drive);
    Ok(Answer::Done)
}

/// Puts a drive down: carries out the accepted `DriveDown` of a caller at a moment, in seconds since 1970. The drive takes no more mounts
/// from then on; one that it has stays open. NoMemory changes nothing, and gives the caller back. Its cost is that of the room that it
/// makes and of a copy of the caller's names. CTA.
pub fn set_drive_down(
    site: &SiteIndex,
    history: &mut KeptHistory,
    parts: &mut ArchiveParts,
    at: u64,
    who: Who,
    drive: u32,
) -> Result<Answer, (NoMemory, Who)>
    requires { CanCarryOut site.now history.old.value parts.old at (Ask.DriveDown who drive) }
    ensures carried { IsCarriedOut site.now history.old.value at (Ask.DriveDown who drive) result history.new.value parts.new }
    ensures back { IfErr result (λ e. e.1 ≡ who) }
{
    kept_parts_move();
    stays_short();
    site.site().keeps_rules();
    let caller = match history.prepare(&who) {
        Ok(caller) => caller,
        Err(error) => return Err((error, who)),
    };
    history.append(
        at,
        Actor::Caller(caller),
        Ask::DriveDown { who, drive },
        Answer::Done,
    );
    turn_down(parts, drive);
    Ok(Answer::Done)
}
