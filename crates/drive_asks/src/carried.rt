// A Flushed carried out, where there is room.
ghost use Rattle.std.specs.Prelude.{◌≡◌, ◌≤◌, ◌∷◌, Some, length, option_map, true};
ghost use Rattle.cta_site.specs.Listed.{rows};
ghost use Rattle.cta_model.specs.Legal.{new_entry};
ghost use Rattle.archive_parts.specs.Carrying.{CanCarryOut};
ghost use Rattle.archive_parts.specs.PartsKept.{ArePartsKept};
ghost use Rattle.part_model.specs.declared.mounts.OpenMount.{OpenMount};
ghost use Rattle.part_model.specs.Mounts.{has_mount, row_of};
ghost use Rattle.drive_asks.specs.Items.{fates_told, live_jobs};

use crate::items::put_items;
use crate::jobs::{end_jobs, give_back};
use archive_parts::{ArchiveParts, kept_parts_move};
use cta_model::{Actor, Answer, Ask, Direction, Entry, Fate, Item, ItemState, Job};
use cta_site::Rows;
use kept_history::KeptHistory;
use open_mounts::OpenMounts;
use part_moves::{end_copies, set_flags};
use site_index::SiteIndex;

// The drive of an open mount.
fn drive_of(mounts: &OpenMounts, mount: u32) -> u32
    requires { has_mount mount mounts.now.value.rows ≡ true }
    ensures { option_map (λ (r : OpenMount). r.drive) (row_of mount mounts.now.value.rows) ≡ Some result }
{
    match mounts.find(mount) {
        Some(row) => row.drive,
        None => unreachable!(),
    }
}

// The tape of an open mount.
fn tape_of(mounts: &OpenMounts, mount: u32) -> u32
    requires { has_mount mount mounts.now.value.rows ≡ true }
    ensures { option_map (λ (r : OpenMount). r.tape) (row_of mount mounts.now.value.rows) ≡ Some result }
{
    match mounts.find(mount) {
        Some(row) => row.tape,
        None => unreachable!(),
    }
}

// Carries out a Flushed of an open mount that writes, of items with these fates, of whose jobs these are live.
pub(crate) fn carry_out(
    site: &SiteIndex,
    history: &mut KeptHistory,
    parts: &mut ArchiveParts,
    at: u64,
    mount: u32,
    items: Rows<Item>,
    fates: Rows<Fate>,
    live: &[Job],
)
    requires carrying { CanCarryOut site.now history.old.value parts.old at (Ask.Flushed mount (rows items.items)) }
    requires entry { 1 ≤ history.old.room }
    requires places { length items.items ≤ parts.old.tapes.room }
    requires fates { fates.items ≡ fates_told parts.old.book.value items.items }
    requires live { live.now ≡ live_jobs parts.old.book.value items.items }
    ensures entry { history.new.value ≡ new_entry history.old.value at (Ask.Flushed mount (rows items.items)) (Answer.Told (rows fates.items)) ∷ history.old.value }
    ensures kept { ArePartsKept site.now history.new.value parts.new }
{
    kept_parts_move();
    let rules = site.site();
    rules.keeps_rules();
    rules.numbers_are_known();
    let drive = drive_of(&parts.mounts, mount);
    let tape = tape_of(&parts.mounts, mount);
    let flushed = items.as_slice();
    put_items(&mut parts.tapes, &parts.book, tape, flushed);
    give_back(&mut parts.book, flushed);
    end_jobs(&mut parts.book, live);
    set_flags(
        &mut parts.buffer,
        &parts.tapes,
        &parts.book,
        rules,
        history,
        live,
    );
    let repacks = &mut parts.repacks;
    end_copies(repacks, &mut parts.buffer, live, ItemState::Done);
    let at = history.moment_of(at);
    history.push(Entry {
        at,
        actor: Actor::Drive(drive),
        ask: Ask::Flushed { mount, items },
        answer: Answer::Told { fates },
    });
}
