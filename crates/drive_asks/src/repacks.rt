// The copies that repacks are READING of a file that was read.
ghost use Rattle.std.specs.Prelude.{◌≡◌, ◌≤◌, IfOk};
ghost use Rattle.cta_model.specs.History.{has_number};
ghost use Rattle.part_model.specs.Repacks.{RepacksAgree, reading_copies, repack_in, set_states};
ghost use Rattle.repack_book.specs.NamedRepacks.{NamesAgree, repacks_of};
ghost use Rattle.drive_asks.specs.Reading.{all_targets, copies_read, is_read_by, targets_down};

use cta_model::ItemState;
use cta_site::NoMemory;
use repack_book::RepackBook;
use std::alloc::Global;

// Whether a repack is READING a copy of a file.
fn reads_copy(repacks: &RepackBook, id: u32, file: u32, copy: u8) -> bool
    ensures { result ≡ has_number copy (reading_copies file (repack_in (repacks_of repacks.now) id)) }
{
    match repacks.reading(id, file, copy) {
        Some(lowest) => lowest == copy,
        None => false,
    }
}

// Whether one of these repacks is READING a copy of a file.
fn is_read(repacks: &RepackBook, ids: &[u32], file: u32, copy: u8) -> bool
    ensures { result ≡ is_read_by (repacks_of repacks.now) ids.now file copy }
{
    ids.iter().any(|id| reads_copy(repacks, *id, file, copy))
}

// Of the copies from 1 to `copies` of a file those that one of these repacks is READING. NoMemory gives nothing.
pub(crate) fn copies_read(
    alloc: Global,
    repacks: &RepackBook,
    ids: &[u32],
    file: u32,
    copies: u8,
) -> Result<Vec<u8>, NoMemory>
    requires { copies ≤ 4 }
    ensures { IfOk result (λ read. read.items ≡ copies_read (repacks_of repacks.now) ids.now file copies) }
{
    let read = (1..copies + 1)
        .filter(|copy| is_read(repacks, ids, file, *copy))
        .collect(alloc)?;
    Ok(read)
}

// The items of the copies from 1 to `copies` of a file are WRITING in a repack, where they are live.
fn mark_repack(repacks: &mut RepackBook, id: u32, file: u32, copies: u8)
    ensures repacks { RepacksAgree (repacks_of repacks.new) (set_states ItemState.Writing (targets_down id file copies) (repacks_of repacks.old)) }
    ensures names { NamesAgree repacks.new repacks.old }
{
    if copies == 0 {
        return;
    }
    repacks.set(id, file, copies, ItemState::Writing);
    mark_repack(repacks, id, file, copies - 1);
}

// The items of the copies from 1 to `copies` of a file are WRITING in each of these repacks, where they are live.
pub(crate) fn mark_repacks(repacks: &mut RepackBook, ids: &[u32], file: u32, copies: u8)
    ensures repacks { RepacksAgree (repacks_of repacks.new) (set_states ItemState.Writing (all_targets ids.now file copies) (repacks_of repacks.old)) }
    ensures names { NamesAgree repacks.new repacks.old }
{
    for id in ids {
        mark_repack(repacks, *id, file, copies);
    }
}
