// A mount ended.
ghost use Rattle.std.specs.Prelude.{◌≡◌, ◌<◌, ℕ, Some, true, if◌then◌else◌};
ghost use Rattle.cta_model.specs.History.{History, has_number};
ghost use Rattle.cta_model.specs.Mounts as said;
ghost use Rattle.cta_model.specs.Mounts.{is_open, mount_of};
ghost use Rattle.part_model.specs.Mounts.{ended, set_down};
ghost use Rattle.archive_parts.specs.Called.{AreKeptCalled};
ghost use Rattle.archive_parts.specs.Carrying.{CanCarryOut, IsCarriedOut};
ghost use Rattle.archive_parts.specs.PartsKept.{ArePartsKept};

use archive_parts::{ArchiveParts, kept_parts_move};
use cta_laws::stays_short;
use cta_model::{Actor, Answer, Ask, Fault, Mount};
use cta_site::NoMemory;
use kept_history::KeptHistory;
use open_mounts::OpenMounts;
use part_moves::mount_at;
use site_index::SiteIndex;

// Whether a mount that ends so puts its drive down.
fn puts_down(fault: Option<Fault>) -> bool
    ensures { result ≡ said.puts_down fault }
{
    match fault {
        None => false,
        Some(fault) => match fault {
            Fault::Load => true,
            Fault::Unload => true,
            Fault::Write => false,
            Fault::Flush => false,
            Fault::Read => false,
            Fault::Mismatch { .. } => false,
        },
    }
}

// Takes out the row of a mount, and puts its drive down where the fault of its end does.
fn drop_row(mounts: &mut OpenMounts, mount: u32, drive: u32, fault: Option<Fault>)
    requires { drive < mounts.old.value.drives }
    ensures rows { mounts.new.value.rows ≡ ended mount mounts.old.value.rows }
    ensures downs { (d : ℕ) → has_number d mounts.new.value.downs ≡ has_number d (if said.puts_down fault then set_down drive mounts.old.value.downs else mounts.old.value.downs) }
    ensures drives { mounts.new.value.drives ≡ mounts.old.value.drives }
{
    mounts.end(mount);
    if puts_down(fault) {
        mounts.set_down(drive);
    }
}

// Ends an open mount in the parts.
fn drop_mount(
    site: &SiteIndex,
    parts: &mut ArchiveParts,
    mount: u32,
    mounted: Mount,
    fault: Option<Fault>,
)
    requires { mounted.drive < parts.old.mounts.value.drives }
    ensures { (h : History) (t : ℕ) → ArePartsKept site.now h parts.old → is_open h mount ≡ true → mount_of h mount ≡ Some mounted
        → AreKeptCalled site.now h (record { at = t; actor = Actor.Drive mounted.drive; ask = Ask.End mount fault; answer = Answer.Done }) parts.old parts.new }
{
    let vo = site.vo_of_pool(site.pool_of_tape(mounted.tape));
    drop_row(&mut parts.mounts, mount, mounted.drive, fault);
    parts.counts.end_mount(vo, mounted.direction);
}

/// Ends a mount: carries out the accepted `End` of a mount at a moment, in seconds since 1970, with no fault or one of the load or the
/// unload. Its row leaves the open mounts, it is counted for its virtual organisation no more, and a fault puts its drive down.
/// NoMemory changes nothing. Its cost is that of the room that it makes, and the number of open mounts. CTA.
pub fn end_mount(
    site: &SiteIndex,
    history: &mut KeptHistory,
    parts: &mut ArchiveParts,
    at: u64,
    mount: u32,
    fault: Option<Fault>,
) -> Result<Answer, NoMemory>
    requires { CanCarryOut site.now history.old.value parts.old at (Ask.End mount fault) }
    ensures carried { IsCarriedOut site.now history.old.value at (Ask.End mount fault) result history.new.value parts.new }
{
    kept_parts_move();
    stays_short();
    site.site().keeps_rules();
    history.reserve(1)?;
    let mounted = mount_at(&parts.mounts, mount);
    history.append(
        at,
        Actor::Drive(mounted.drive),
        Ask::End { mount, fault },
        Answer::Done,
    );
    drop_mount(site, parts, mount, mounted, fault);
    Ok(Answer::Done)
}
