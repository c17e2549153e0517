// The state of a tape changed.
ghost use Rattle.std.specs.Prelude.{◌≡◌, ◌≤◌, ◌<◌, ◌^◌, ◌∷◌, length, IfOk, IfErr, OnOk};
ghost use Rattle.cta_model.specs.Legal.{IsLegal, new_entry};
ghost use Rattle.archive_parts.specs.Carrying.{CanCarryOut, IsCarriedOut};
ghost use Rattle.archive_parts.specs.PartsKept.{ArePartsKept};
ghost use Rattle.archive_parts.specs.Same.{TellSameParts};
ghost use Rattle.tape_asks.specs.Takings.{IsFound};

use crate::found::{Found, find_all};
use crate::leaving::leave_reads;
use crate::losses::fail_all;
use archive_parts::{ArchiveParts, Needs, kept_parts_move, same_parts_are_kept};
use cta_laws::{
    fseqs_are_low, one_place_on_tape, places_are_of_copies, places_are_on_site, places_below,
    stays_short, subscribers_wait,
};
use cta_model::{Actor, Answer, Ask, Job, Who};
use cta_site::{NoMemory, TapeState};
use fault_asks::{end_all, fail_readers, queue_reads};
use kept_history::KeptHistory;
use part_laws::{files_fit_buffer, lines_are_small};
use part_moves::set_flags;
use site_index::SiteIndex;
use std::alloc::Global;

// What a TapeState takes along, and its caller for the entry.
#[derive(Drop)]
struct StateReady {
    caller: Who,
    found: Found,
}

// The rooms that a TapeState needs: one for each recall that waits again.
fn needs_of(moved: &[Job]) -> Needs
    requires { length moved.now < 2 ^ 32 }
    ensures reads { result.reads ≡ length moved.now }
{
    Needs {
        reads: moved.len() as u32,
        ..Needs::default()
    }
}

// Finds what a TapeState of a tape to this state takes along, and makes all room. NoMemory changes nothing that is told.
fn make_ready(
    alloc: Global,
    site: &SiteIndex,
    history: &mut KeptHistory,
    parts: &mut ArchiveParts,
    who: &Who,
    tape: u32,
    state: TapeState,
) -> Result<StateReady, NoMemory>
    requires legal { IsLegal site.now history.old.value }
    requires kept { ArePartsKept site.now history.old.value parts.old }
    ensures entries { history.new.value ≡ history.old.value }
    ensures parts { TellSameParts parts.new parts.old }
    ensures entry_room { OnOk result (0 < history.new.room) }
    ensures caller { IfOk result (λ ready. ready.caller ≡ who.now) }
    ensures found { IfOk result (λ ready. IsFound site.now history.old.value parts.new.tapes.value tape state ready.found) }
    ensures room { IfOk result (λ ready. length ready.found.moved.items ≤ parts.new.recalls.room) }
{
    stays_short();
    subscribers_wait();
    fseqs_are_low();
    places_below();
    one_place_on_tape();
    site.site().keeps_rules();
    let found = find_all(alloc, parts, tape, state)?;
    parts.reserve(needs_of(found.moved.as_slice()))?;
    let caller = history.prepare(who)?;
    Ok(StateReady { caller, found })
}

// Makes the calls for a TapeState, and adds its entry, where there is room.
fn carry_out(
    site: &SiteIndex,
    history: &mut KeptHistory,
    parts: &mut ArchiveParts,
    at: u64,
    who: Who,
    tape: u32,
    state: TapeState,
    ready: StateReady,
)
    requires carrying { CanCarryOut site.now history.old.value parts.old at (Ask.TapeState who tape state) }
    requires entry { 0 < history.old.room }
    requires caller { ready.caller ≡ who }
    requires found { IsFound site.now history.old.value parts.old.tapes.value tape state ready.found }
    requires room { length ready.found.moved.items ≤ parts.old.recalls.room }
    ensures entry { history.new.value ≡ new_entry history.old.value at (Ask.TapeState who tape state) Answer.Done ∷ history.old.value }
    ensures kept { ArePartsKept site.now history.new.value parts.new }
{
    kept_parts_move();
    files_fit_buffer();
    fseqs_are_low();
    lines_are_small();
    places_are_of_copies();
    places_are_on_site();
    let rules = site.site();
    rules.keeps_rules();
    rules.numbers_are_known();
    let now = history.moment_of(at);
    let StateReady { caller, found } = ready;
    let Found {
        items,
        moved,
        ended,
        waiters,
        errors,
    } = found;
    let waits = moved.as_slice();
    let losers = waiters.as_slice();
    let recalls = &mut parts.recalls;
    leave_reads(recalls, &parts.tapes, &parts.book, waits);
    parts.tapes.set_state(tape, state);
    end_all(&mut parts.book, ended.as_slice());
    queue_reads(rules, history, &parts.tapes, &parts.book, recalls, waits);
    fail_readers(&mut parts.repacks, losers);
    fail_all(&mut parts.requests, losers, errors, now);
    let buffer = &mut parts.buffer;
    set_flags(
        buffer,
        &parts.tapes,
        &parts.book,
        rules,
        history,
        items.as_slice(),
    );
    history.append(
        at,
        Actor::Caller(caller),
        Ask::TapeState { who, tape, state },
        Answer::Done,
    );
}

/// Changes the state of a tape: carries out the accepted `TapeState` of a caller at a moment, in seconds since 1970. A recall of a file with
/// a place on the tape that waits in a queue waits in that of its source then, at its place in order of birth. A recall whose file has no
/// place left, which a mount may have claimed, ends: the files of stage requests that wait for it FAIL with `no tape is left`, and items of
/// repacks that were READING its file are FAILED. The files with a place on the tape get their flags, whether they are safe on tape.
/// NoMemory gives the caller back, and nothing that is told has changed. Its cost is that of the rooms that it makes, and the number of
/// live copies on the tape, each with the logarithm of their number, of the lines of a queue and of the files of the buffer, and the number
/// of entries that wait for recalls which end, each with the logarithm of the number of live items of repacks. CTA; the error is this
/// project's own.
pub fn set_tape_state(
    alloc: Global,
    site: &SiteIndex,
    history: &mut KeptHistory,
    parts: &mut ArchiveParts,
    at: u64,
    who: Who,
    tape: u32,
    state: TapeState,
) -> Result<Answer, (NoMemory, Who)>
    requires { CanCarryOut site.now history.old.value parts.old at (Ask.TapeState who tape state) }
    ensures carried { IsCarriedOut site.now history.old.value at (Ask.TapeState who tape state) result history.new.value parts.new }
    ensures back { IfErr result (λ e. e.1 ≡ who) }
{
    same_parts_are_kept();
    match make_ready(alloc, site, history, parts, &who, tape, state) {
        Ok(ready) => {
            carry_out(site, history, parts, at, who, tape, state, ready);
            Ok(Answer::Done)
        }
        Err(error) => Err((error, who)),
    }
}
