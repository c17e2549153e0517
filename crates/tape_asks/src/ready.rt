// What a Repack takes along.
ghost use Rattle.std.specs.Prelude.{◌≡◌, ◌+◌, ◌<◌, ◌≤◌, ◌^◌, ℕ, Some, length, map, IfOk, OnOk};
ghost use Rattle.std.specs.List.{filter_map};
ghost use Rattle.cta_site.specs.Lookups as lookups;
ghost use Rattle.cta_model.specs.declared.asks.Job.{Job};
ghost use Rattle.cta_model.specs.declared.states.Place.{Place};
ghost use Rattle.cta_model.specs.Files.{path_of};
ghost use Rattle.archive_parts.specs.Carrying.{CanCarryOut};
ghost use Rattle.archive_parts.specs.Same.{TellSameParts};
ghost use Rattle.part_model.specs.JobRows.{book_in};
ghost use Rattle.part_model.specs.Tapes.{place_in};
ghost use Rattle.tape_asks.specs.Items.{AreItemsOn};
ghost use Rattle.tape_asks.specs.Lists.{joined_by, newborn_by, written_by};
ghost use Rattle.tape_asks.specs.RepackTakings.{IsTaken};

use crate::items::items_on;
use crate::lists::{copy_of, joined_of, newborn_of, written_of};
use crate::names::{paths_of, vid_of};
use archive_parts::{ArchiveParts, Needs};
use cta_laws::{fseqs_are_low, one_place_on_tape, places_below};
use cta_model::{Ask, Job, Who};
use cta_site::{NoMemory, Rows, Text, ValidSite};
use kept_history::KeptHistory;
use site_index::SiteIndex;
use std::alloc::Global;

// The items of a repack, the files whose recalls it joins, and the recalls and the archive jobs that it bears.
#[derive(Drop)]
pub(crate) struct Found {
    pub(crate) items: Vec<Job>,
    pub(crate) joined: Vec<u32>,
    pub(crate) newborn: Vec<Job>,
    pub(crate) written: Vec<Job>,
}

// The VID of the tape, the paths of the items' files, and the items for the entry, for the answer and for the book of repacks.
#[derive(Drop)]
pub(crate) struct Told {
    pub(crate) vid: Text,
    pub(crate) paths: Rows<Text>,
    pub(crate) entry: Rows<Job>,
    pub(crate) answer: Rows<Job>,
    pub(crate) book: Rows<Job>,
}

// What a Repack takes along, and its caller for the entry.
#[derive(Drop)]
pub(crate) struct RepackReady {
    pub(crate) caller: Who,
    pub(crate) told: Told,
    pub(crate) found: Found,
}

// Finds the items of a repack of a tape, of this number, and the jobs that go with them. NoMemory gives nothing.
fn find_all(alloc: Global, parts: &ArchiveParts, number: u32, tape: u32) -> Result<Found, NoMemory>
    requires { (f c : ℕ) (p : Place) → place_in parts.now.tapes.value f c ≡ Some p → p.fseq + 1 < 2 ^ 32 }
    ensures items { IfOk result (λ found. AreItemsOn parts.now.tapes.value tape found.items.items) }
    ensures joined { IfOk result (λ found. found.joined.items ≡ filter_map (joined_by (book_in parts.now.book.value)) found.items.items) }
    ensures newborn { IfOk result (λ found. found.newborn.items ≡ filter_map (newborn_by parts.now.buffer.held.value (book_in parts.now.book.value) number) found.items.items) }
    ensures written { IfOk result (λ found. found.written.items ≡ filter_map (written_by parts.now.buffer.held.value number) found.items.items) }
{
    let items = items_on(alloc, &parts.tapes, tape)?;
    let joined = joined_of(alloc, &parts.book, items.as_slice())?;
    let newborn = newborn_of(alloc, &parts.book, &parts.buffer, number, items.as_slice())?;
    let written = written_of(alloc, &parts.buffer, number, items.as_slice())?;
    Ok(Found {
        items,
        joined,
        newborn,
        written,
    })
}

// What is told of a repack of a tape with these items. NoMemory gives nothing.
fn tell_all(
    alloc: Global,
    site: &ValidSite,
    history: &KeptHistory,
    tape: u32,
    items: &[Job],
) -> Result<Told, NoMemory>
    ensures vid { IfOk result (λ told. told.vid ≡ lookups.vid_of site.now tape) }
    ensures paths { IfOk result (λ told. told.paths.items ≡ map (λ (j : Job). path_of history.now.value j.file) items.now) }
    ensures entry { IfOk result (λ told. told.entry.items ≡ items.now) }
    ensures answer { IfOk result (λ told. told.answer.items ≡ items.now) }
    ensures book { IfOk result (λ told. told.book.items ≡ items.now) }
{
    let vid = vid_of(alloc, site, tape)?;
    let paths = paths_of(alloc, history, items)?;
    let entry = copy_of(alloc, items)?;
    let answer = copy_of(alloc, items)?;
    let book = copy_of(alloc, items)?;
    Ok(Told {
        vid,
        paths,
        entry: Rows::of(entry),
        answer: Rows::of(answer),
        book: Rows::of(book),
    })
}

// The rooms that a Repack needs: one for each recall that it joins and each job that it bears, one for each job that waits, and one for
// each file that it pins.
fn needs_of(found: &Found) -> Needs
    requires joined { length found.now.joined.items ≤ 1000000 }
    requires newborn { length found.now.newborn.items ≤ 1000000 }
    requires written { length found.now.written.items ≤ 1000000 }
    ensures jobs { result.jobs ≡ length found.now.joined.items + (length found.now.newborn.items + length found.now.written.items) }
    ensures reads { result.reads ≡ length found.now.newborn.items }
    ensures writes { result.writes ≡ length found.now.written.items }
    ensures files { result.files ≡ length found.now.written.items }
{
    let reads = found.newborn.len() as u32;
    let writes = found.written.len() as u32;
    Needs {
        jobs: found.joined.len() as u32 + (reads + writes),
        writes,
        reads,
        files: writes,
        ..Needs::default()
    }
}

// Finds what a Repack of a tape takes along, and makes all room but that in the book of repacks. NoMemory changes nothing that is told.
pub(crate) fn make_ready(
    alloc: Global,
    site: &SiteIndex,
    history: &mut KeptHistory,
    parts: &mut ArchiveParts,
    at: u64,
    who: &Who,
    number: u32,
    tape: u32,
) -> Result<RepackReady, NoMemory>
    requires carrying { CanCarryOut site.now history.old.value parts.old at (Ask.Repack who.now tape) }
    requires number { number ≡ length history.old.value + 1 }
    ensures entries { history.new.value ≡ history.old.value }
    ensures parts { TellSameParts parts.new parts.old }
    ensures entry_room { OnOk result (0 < history.new.room) }
    ensures caller { IfOk result (λ ready. ready.caller ≡ who.now) }
    ensures taken { IfOk result (λ ready. IsTaken site.now history.old.value who.now tape ready.found) }
    ensures vid { IfOk result (λ ready. ready.told.vid ≡ lookups.vid_of site.now tape) }
    ensures paths { IfOk result (λ ready. ready.told.paths.items ≡ map (λ (j : Job). path_of history.old.value j.file) ready.found.items.items) }
    ensures told_entry { IfOk result (λ ready. ready.told.entry.items ≡ ready.found.items.items) }
    ensures told_answer { IfOk result (λ ready. ready.told.answer.items ≡ ready.found.items.items) }
    ensures told_book { IfOk result (λ ready. ready.told.book.items ≡ ready.found.items.items) }
    ensures jobs { IfOk result (λ ready. length ready.found.joined.items + (length ready.found.newborn.items + length ready.found.written.items) ≤ parts.new.book.room) }
    ensures reads { IfOk result (λ ready. length ready.found.newborn.items ≤ parts.new.recalls.room) }
    ensures writes { IfOk result (λ ready. length ready.found.written.items ≤ parts.new.pools.room) }
    ensures files { IfOk result (λ ready. length ready.found.written.items ≤ parts.new.buffer.held.room) }
{
    fseqs_are_low();
    places_below();
    one_place_on_tape();
    let rules = site.site();
    rules.keeps_rules();
    rules.numbers_are_known();
    let found = find_all(alloc, parts, number, tape)?;
    let told = tell_all(alloc, rules, history, tape, found.items.as_slice())?;
    parts.reserve(needs_of(&found))?;
    let caller = history.prepare(who)?;
    Ok(RepackReady {
        caller,
        told,
        found,
    })
}
