// Whether an ask fits: a session's rule.
ghost use Rattle.std.specs.Prelude.{◌≡◌, ◌≤◌, MatchOption, Some, true, false};
ghost use Rattle.std.specs.Bool.{Decides};
ghost use Rattle.cta_site.specs.Listed.{Listed};
ghost use Rattle.cta_model.specs.declared.asks.Ask.TheVariants as ask;
ghost use Rattle.cta_model.specs.declared.asks.Item.{Item};
ghost use Rattle.cta_model.specs.declared.asks.Job.{Job};
ghost use Rattle.cta_model.specs.declared.states.Mount.{Mount};
ghost use Rattle.cta_model.specs.Legal.{IsEndFault, IsFaultOf, IsMountOf};
ghost use Rattle.cta_model.specs.Mounts.{is_open, mount_of};
ghost use Rattle.archive_restore.specs.Asked.{MayAsk, MayAskAt};

use crate::label::Label;
use archive::Archive;
use cta_model::{Ask, Direction, Fault, Job, Rows};

// No moment is greater: the last second of the year 9999.
const GREATEST_MOMENT: u64 = 253_402_300_799;

// The way of a mount, where it is open.
fn way_of(archive: &Archive<Label>, number: u32) -> Option<Direction>
    ensures { MatchOption result (is_open archive.now.history number ≡ false) (λ way. (is_open archive.now.history number ≡ true) × IsMountOf way (mount_of archive.now.history number)) }
{
    archive.keeps_history();
    match archive.mount(number) {
        Some(mount) => Some(mount.direction),
        None => None,
    }
}

// Whether a mount that goes this way may fail so.
fn is_fault_of(fault: &Fault, way: Direction) -> bool
    ensures { (m : Mount) → m.direction ≡ way → Decides result (IsFaultOf fault.now (Some m)) }
{
    match fault {
        Fault::Write | Fault::Flush => way == Direction::Archive,
        Fault::Read | Fault::Mismatch { .. } => way == Direction::Retrieve,
        Fault::Load | Fault::Unload => false,
    }
}

// Whether a mount may end so.
fn is_end_fault(fault: &Option<Fault>) -> bool
    ensures { Decides result (IsEndFault fault.now) }
{
    match fault {
        None | Some(Fault::Load | Fault::Unload) => true,
        Some(_) => false,
    }
}

// Whether a Claim of this mount fits.
fn claim_fits(archive: &Archive<Label>, mount: u32) -> bool
    ensures { MayAsk result archive.now.site archive.now.history (Ask.Claim mount) }
{
    way_of(archive, mount).is_some()
}

// Whether a Flushed of this mount fits.
fn flushed_fits(archive: &Archive<Label>, mount: u32) -> bool
    ensures { (items : Listed Item) → MayAsk result archive.now.site archive.now.history (Ask.Flushed mount items) }
{
    match way_of(archive, mount) {
        Some(way) => way == Direction::Archive,
        None => false,
    }
}

// Whether a Recalled of this mount fits.
fn recalled_fits(archive: &Archive<Label>, mount: u32) -> bool
    ensures { (job : Job) → MayAsk result archive.now.site archive.now.history (Ask.Recalled mount job) }
{
    match way_of(archive, mount) {
        Some(way) => way == Direction::Retrieve,
        None => false,
    }
}

// Whether a Failed of this mount fits.
fn failed_fits(
    archive: &Archive<Label>,
    mount: u32,
    fault: &Fault,
    charged: &Rows<Job>,
    returned: &Rows<Job>,
) -> bool
    ensures { MayAsk result archive.now.site archive.now.history (Ask.Failed mount fault.now charged.now returned.now) }
{
    let named = charged.len() > 0 || returned.len() > 0;
    match way_of(archive, mount) {
        Some(way) => named && is_fault_of(fault, way),
        None => false,
    }
}

// Whether an End of this mount fits.
fn end_fits(archive: &Archive<Label>, mount: u32, fault: &Option<Fault>) -> bool
    ensures { MayAsk result archive.now.site archive.now.history (Ask.End mount fault.now) }
{
    match way_of(archive, mount) {
        Some(_) => is_end_fault(fault),
        None => false,
    }
}

// Whether an ask is one that a session may make, of a mount that is open; callers may ask anything.
fn is_fit(archive: &Archive<Label>, ask: &Ask) -> bool
    ensures { MayAsk result archive.now.site archive.now.history ask.now }
{
    match ask {
        Ask::Next { drive } => (*drive as usize) < archive.site().drives().len(),
        Ask::Claim { mount } => claim_fits(archive, *mount),
        Ask::Flushed { mount, .. } => flushed_fits(archive, *mount),
        Ask::Recalled { mount, .. } => recalled_fits(archive, *mount),
        Ask::Failed {
            mount,
            fault,
            charged,
            returned,
        } => failed_fits(archive, *mount, fault, charged, returned),
        Ask::End { mount, fault } => end_fits(archive, *mount, fault),
        _ => true,
    }
}

// Whether an ask may be made once more at this moment.
pub(crate) fn may_ask(archive: &Archive<Label>, at: u64, ask: &Ask) -> bool
    ensures { MayAskAt result archive.now.site archive.now.history at ask.now }
{
    at <= GREATEST_MOMENT && is_fit(archive, ask)
}
