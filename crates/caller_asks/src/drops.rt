// A DropStage that is accepted, carried out.
ghost use Rattle.std.specs.Prelude.{◌≡◌, ◌<◌, ℕ, Some, true, length, IfOk, IfErr, OnOk};
ghost use Rattle.std.specs.List.{filter_map};
ghost use Rattle.cta_site.specs.declared.site.Site.{Site};
ghost use Rattle.cta_model.specs.declared.asks.Who.{Who};
ghost use Rattle.cta_model.specs.declared.states.Place.{Place};
ghost use Rattle.cta_model.specs.declared.states.RequestFile.{RequestFile};
ghost use Rattle.cta_model.specs.History.{History};
ghost use Rattle.part_model.specs.Names.{file_in};
ghost use Rattle.part_model.specs.Queues.{lines_in};
ghost use Rattle.part_model.specs.Requests.{request_in};
ghost use Rattle.part_model.specs.Tapes.{place_in};
ghost use Rattle.part_laws.specs.BufferCalls.{files_where};
ghost use Rattle.stage_book.specs.Reports.{files_of};
ghost use Rattle.archive_parts.specs.Called.{AreKeptCalled};
ghost use Rattle.archive_parts.specs.Carrying.{CanCarryOut, IsCarriedOut};
ghost use Rattle.archive_parts.specs.PartsKept.{ArePartsKept};
ghost use Rattle.caller_asks.specs.Recalls.{StandsOnPlaces};

use crate::named::named_now;
use crate::pins::unpin_all;
use crate::recalls::leave_recalls;
use crate::requested::all_files;
use archive_parts::{ArchiveParts, kept_parts_move};
use cta_laws::{places_are_on_site, stays_short};
use cta_model::{Actor, Answer, Ask, Who};
use cta_site::NoMemory;
use kept_history::KeptHistory;
use site_index::SiteIndex;
use std::alloc::Global;

// What a DropStage takes along: its caller for the entry, the files that the paths of its request name, and the files of the request.
#[derive(Drop)]
struct DropReady {
    caller: Who,
    named: Vec<u32>,
    files: Vec<u32>,
}

// Makes room in the history for a DropStage, and finds what it takes along. NoMemory gives nothing, and changes no entry.
fn make_ready(
    alloc: Global,
    history: &mut KeptHistory,
    parts: &ArchiveParts,
    who: &Who,
    id: u32,
) -> Result<DropReady, NoMemory>
    ensures entries { history.new.value ≡ history.old.value }
    ensures entry_room { OnOk result (0 < history.new.room) }
    ensures caller { IfOk result (λ ready. ready.caller ≡ who.now) }
    ensures named { IfOk result (λ ready. ready.named.items ≡ filter_map (λ (s : RequestFile). file_in parts.now.names s.path) (files_of (request_in parts.now.requests id))) }
    ensures files { IfOk result (λ ready. ready.files.items ≡ files_where (λ p. true) (request_in parts.now.requests id)) }
{
    let caller = history.prepare(who)?;
    let named = named_now(alloc, &parts.names, &parts.requests, id)?;
    let files = all_files(alloc, &parts.requests, id)?;
    Ok(DropReady {
        caller,
        named,
        files,
    })
}

// Makes the calls for a DropStage of a request with these files, whose paths name those.
fn drop_files(parts: &mut ArchiveParts, id: u32, named: &[u32], files: &[u32])
    requires keys { (f c : ℕ) (p : Place) → place_in parts.old.tapes.value f c ≡ Some p → p.tape < length parts.old.recalls.value }
    requires stands { StandsOnPlaces parts.old.tapes.value 4 (lines_in parts.old.recalls.value) }
    requires named { named.now ≡ filter_map (λ (s : RequestFile). file_in parts.old.names s.path) (files_of (request_in parts.old.requests id)) }
    requires files { files.now ≡ files_where (λ p. true) (request_in parts.old.requests id) }
    ensures { (site : Site) (h : History) (t : ℕ) (who : Who) → ArePartsKept site h parts.old
        → AreKeptCalled site h (record { at = t; actor = Actor.Caller who; ask = Ask.DropStage who id; answer = Answer.Done }) parts.old parts.new }
{
    leave_recalls(&parts.tapes, &mut parts.book, &mut parts.recalls, id, named);
    unpin_all(&mut parts.buffer, id, files);
    parts.requests.remove(id);
}

/// Drops a stage request: carries out the accepted `DropStage` of a request, by its number, at a moment, in seconds since 1970. The
/// request is there no more: its pins are taken off, and it waits for the recall of none of the files that its paths name; a recall for
/// which nobody else waits ends, and leaves its queue. NoMemory changes nothing, and gives the caller back. Its cost is that of the
/// room that it makes, and the number of the request's files, each with the length of its path, the number of entries that wait for
/// its recall, and the logarithm of the number of files and pins of the buffer and of queued recalls. WLCG Tape REST API v1.
pub fn drop_request(
    alloc: Global,
    site: &SiteIndex,
    history: &mut KeptHistory,
    parts: &mut ArchiveParts,
    at: u64,
    who: Who,
    id: u32,
) -> Result<Answer, (NoMemory, Who)>
    requires { CanCarryOut site.now history.old.value parts.old at (Ask.DropStage who id) }
    ensures carried { IsCarriedOut site.now history.old.value at (Ask.DropStage who id) result history.new.value parts.new }
    ensures back { IfErr result (λ e. e.1 ≡ who) }
{
    kept_parts_move();
    places_are_on_site();
    stays_short();
    let rules = site.site();
    rules.keeps_rules();
    rules.numbers_are_known();
    let ready = match make_ready(alloc, history, parts, &who, id) {
        Ok(ready) => ready,
        Err(error) => return Err((error, who)),
    };
    let DropReady {
        caller,
        named,
        files,
    } = ready;
    drop_files(parts, id, named.as_slice(), files.as_slice());
    history.append(
        at,
        Actor::Caller(caller),
        Ask::DropStage { who, id },
        Answer::Done,
    );
    Ok(Answer::Done)
}
