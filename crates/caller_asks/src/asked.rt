// What a Stage takes along.
ghost use Rattle.std.specs.Prelude.{◌≡◌, ◌<◌, ◌≤◌, ◌^◌, [], IfOk, OnOk, length, map, codes};
ghost use Rattle.std.specs.List.{filter_map};
ghost use Rattle.cta_model.specs.declared.states.StageFile.{StageFile};
ghost use Rattle.cta_model.specs.Stages.{first_named};
ghost use Rattle.part_model.specs.JobRows.{book_in};
ghost use Rattle.archive_parts.specs.Same.{TellSameParts};
ghost use Rattle.caller_asks.specs.Sorted.{IsSorted};
ghost use Rattle.part_moves.specs.Texts.{AreAll};
ghost use Rattle.caller_asks.specs.Wanted.{asked_in};

use crate::sorting::{Sorted, sort_files};
use crate::wanted::{asked_files, numbers_of};
use archive_parts::{ArchiveParts, Needs};
use cta_model::{StageFile, Wanted, Who};
use cta_site::{NoMemory, Text};
use kept_history::KeptHistory;
use part_moves::errors;
use std::alloc::Global;

// What a Stage takes along: its caller for the entry, the files that its request is made of, the numbers of those that there are, how
// these stand, and an error for each that is lost.
#[derive(Drop)]
pub(crate) struct Asked {
    pub(crate) caller: Who,
    pub(crate) files: Vec<StageFile>,
    pub(crate) numbers: Vec<u32>,
    pub(crate) sorted: Sorted,
    pub(crate) errors: Vec<Text>,
}

// What the parts are to have room for.
fn needs_of(wanted: &[Wanted]) -> Needs
    requires { length wanted.now < 2 ^ 32 }
    ensures jobs { result.jobs ≡ length wanted.now }
    ensures reads { result.reads ≡ length wanted.now }
    ensures files { result.files ≡ length wanted.now }
{
    let count = wanted.len() as u32;
    Needs {
        jobs: count,
        reads: count,
        files: count,
        ..Needs::default()
    }
}

// Finds what a Stage of this caller takes along. NoMemory gives nothing.
fn find_asked(
    alloc: Global,
    parts: &ArchiveParts,
    caller: Who,
    lifetime: u64,
    wanted: &[Wanted],
) -> Result<Asked, NoMemory>
    ensures caller { IfOk result (λ asked. asked.caller ≡ caller) }
    ensures files { IfOk result (λ asked. asked.files.items ≡ map (asked_in parts.now.names lifetime) (first_named [] wanted.now)) }
    ensures numbers { IfOk result (λ asked. asked.numbers.items ≡ filter_map (λ (s : StageFile). s.file) asked.files.items) }
    ensures sorted { IfOk result (λ asked. IsSorted parts.now.buffer.held.value parts.now.tapes.value (book_in parts.now.book.value) asked.numbers.items asked.sorted) }
    ensures many { IfOk result (λ asked. length asked.errors.items ≡ length asked.sorted.lost.items) }
    ensures same { IfOk result (λ asked. AreAll (codes "no tape is left") asked.errors.items) }
{
    let files = asked_files(alloc, &parts.names, lifetime, wanted)?;
    let numbers = numbers_of(alloc, files.as_slice())?;
    let sorted = sort_files(alloc, parts, numbers.as_slice())?;
    let errors = errors(alloc, "no tape is left", sorted.lost.len())?;
    Ok(Asked {
        caller,
        files,
        numbers,
        sorted,
        errors,
    })
}

// Makes room for a Stage, and finds what it takes along. NoMemory gives nothing, and changes nothing that is told.
pub(crate) fn make_ready(
    alloc: Global,
    history: &mut KeptHistory,
    parts: &mut ArchiveParts,
    who: &Who,
    lifetime: u64,
    wanted: &[Wanted],
) -> Result<Asked, NoMemory>
    requires { length wanted.now < 2 ^ 32 }
    ensures entries { history.new.value ≡ history.old.value }
    ensures entry_room { OnOk result (0 < history.new.room) }
    ensures parts { TellSameParts parts.new parts.old }
    ensures jobs { OnOk result (length wanted.now ≤ parts.new.book.room) }
    ensures reads { OnOk result (length wanted.now ≤ parts.new.recalls.room) }
    ensures pins { OnOk result (length wanted.now ≤ parts.new.buffer.held.room) }
    ensures caller { IfOk result (λ asked. asked.caller ≡ who.now) }
    ensures files { IfOk result (λ asked. asked.files.items ≡ map (asked_in parts.new.names lifetime) (first_named [] wanted.now)) }
    ensures numbers { IfOk result (λ asked. asked.numbers.items ≡ filter_map (λ (s : StageFile). s.file) asked.files.items) }
    ensures sorted { IfOk result (λ asked. IsSorted parts.new.buffer.held.value parts.new.tapes.value (book_in parts.new.book.value) asked.numbers.items asked.sorted) }
    ensures many { IfOk result (λ asked. length asked.errors.items ≡ length asked.sorted.lost.items) }
    ensures same { IfOk result (λ asked. AreAll (codes "no tape is left") asked.errors.items) }
{
    parts.reserve(needs_of(wanted))?;
    let caller = history.prepare(who)?;
    find_asked(alloc, parts, caller, lifetime, wanted)
}
