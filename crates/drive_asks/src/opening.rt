// A mount opened.
ghost use Rattle.std.specs.Prelude.{◌≡◌, ◌<◌, ◌+◌, ◌^◌, ℕ, Some, false, length};
ghost use Rattle.cta_site.specs.Lookups.{pool_of_tape, vo_of_pool};
ghost use Rattle.cta_model.specs.Choice.{key_of_mount, mount_choice};
ghost use Rattle.cta_model.specs.History.{History, moment_of};
ghost use Rattle.part_model.specs.Counts.{count_in};
ghost use Rattle.part_model.specs.Mounts.{has_mount};
ghost use Rattle.archive_parts.specs.Called.{AreKeptCalled};
ghost use Rattle.archive_parts.specs.Carrying.{CanCarryOut, IsCarriedOut};
ghost use Rattle.archive_parts.specs.PartsKept.{ArePartsKept};

use archive_parts::{ArchiveParts, Needs, kept_parts_move};
use cta_laws::stays_short;
use cta_model::{Actor, Answer, Ask, Candidate, Direction};
use cta_site::NoMemory;
use kept_history::KeptHistory;
use part_model::OpenMount;
use site_index::SiteIndex;

// The key of a mount's queue: its tape's pool where it writes, and its tape where it reads.
fn key_of(site: &SiteIndex, direction: Direction, tape: u32) -> u32
    ensures { result ≡ key_of_mount site.now direction tape }
{
    match direction {
        Direction::Archive => site.pool_of_tape(tape),
        Direction::Retrieve => tape,
    }
}

// The answer that a choice is mounted under this number.
fn mounted(mount: u32, choice: Candidate) -> Answer
    ensures { result ≡ Answer.Mounted mount choice.direction choice.tape }
{
    Answer::Mounted {
        mount,
        direction: choice.direction,
        tape: choice.tape,
    }
}

// Adds the row of a mount that is not open yet, and counts the mount for its virtual organisation.
fn add_mount(site: &SiteIndex, parts: &mut ArchiveParts, mount: u32, drive: u32, choice: Candidate)
    requires room { 0 < parts.old.mounts.room }
    requires new { has_mount mount parts.old.mounts.value.rows ≡ false }
    requires vo { vo_of_pool site.now (pool_of_tape site.now choice.tape) < length parts.old.counts.archive }
    requires few { count_in parts.old.counts choice.direction (vo_of_pool site.now (pool_of_tape site.now choice.tape)) + 1 < 2 ^ 32 }
    ensures { (h : History) (t : ℕ) → ArePartsKept site.now h parts.old
        → AreKeptCalled site.now h (record { at = t; actor = Actor.Drive drive; ask = Ask.Next drive; answer = Answer.Mounted mount choice.direction choice.tape }) parts.old parts.new }
{
    let direction = choice.direction;
    let tape = choice.tape;
    let vo = site.vo_of_pool(site.pool_of_tape(tape));
    parts.mounts.open(OpenMount {
        number: mount,
        drive,
        direction,
        tape,
        key: key_of(site, direction, tape),
        last: None,
    });
    parts.counts.open_mount(vo, direction);
}

/// Opens a mount: carries out the accepted `Next` of a drive of the site at a moment, in seconds since 1970, where `choice` is what
/// the drive mounts next. The mount gets the number of its entry, a row of open mounts with the key of its queue and no items, and
/// is counted for its virtual organisation and direction. NoMemory changes nothing. Its cost is that of the rooms that it makes, and
/// else constant. CTA.
pub fn open_mount(
    site: &SiteIndex,
    history: &mut KeptHistory,
    parts: &mut ArchiveParts,
    at: u64,
    drive: u32,
    choice: Candidate,
) -> Result<Answer, NoMemory>
    requires carrying { CanCarryOut site.now history.old.value parts.old at (Ask.Next drive) }
    requires choice { mount_choice site.now history.old.value (moment_of history.old.value at) drive ≡ Some choice }
    ensures carried { IsCarriedOut site.now history.old.value at (Ask.Next drive) result history.new.value parts.new }
{
    kept_parts_move();
    stays_short();
    site.site().keeps_rules();
    let needs = Needs {
        mounts: 1,
        ..Needs::default()
    };
    parts.make_room(history, needs)?;
    let mount = history.next_number();
    history.append(
        at,
        Actor::Drive(drive),
        Ask::Next { drive },
        mounted(mount, choice),
    );
    add_mount(site, parts, mount, drive, choice);
    Ok(mounted(mount, choice))
}
