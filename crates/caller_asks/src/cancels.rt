// A Cancel that is accepted, carried out.
ghost use Rattle.std.specs.Prelude.{◌≡◌, ◌<◌, ℕ, List, Some, length, IfOk, IfErr, OnOk};
ghost use Rattle.std.specs.List.{filter_map};
ghost use Rattle.cta_site.specs.Listed.{rows};
ghost use Rattle.cta_site.specs.declared.site.Site.{Site};
ghost use Rattle.cta_model.specs.declared.asks.Who.{Who};
ghost use Rattle.cta_model.specs.declared.states.Place.{Place};
ghost use Rattle.cta_model.specs.History.{History};
ghost use Rattle.cta_model.specs.Legal.{IsLegal};
ghost use Rattle.part_model.specs.declared.space.FileEnd.TheVariants as ends;
ghost use Rattle.part_model.specs.Names.{file_in};
ghost use Rattle.part_model.specs.Queues.{lines_in};
ghost use Rattle.part_model.specs.Requests.{RequestsAgree, finish_all};
ghost use Rattle.part_model.specs.Tapes.{place_in};
ghost use Rattle.part_laws.specs.BookCalls.{asked_by};
ghost use Rattle.archive_parts.specs.Called.{AreKeptCalled};
ghost use Rattle.archive_parts.specs.Carrying.{CanCarryOut, IsCarriedOut};
ghost use Rattle.archive_parts.specs.PartsKept.{ArePartsKept};
ghost use Rattle.caller_asks.specs.Recalls.{StandsOnPlaces};

use crate::named::named_files;
use crate::recalls::leave_recalls;
use archive_parts::{ArchiveParts, kept_parts_move};
use cta_laws::{places_are_on_site, stays_short};
use cta_model::{Actor, Answer, Ask, Who};
use cta_site::{NoMemory, Rows, Text};
use kept_history::KeptHistory;
use part_model::FileEnd;
use path_index::PathIndex;
use site_index::SiteIndex;
use stage_book::StageBook;
use std::alloc::Global;

// What a Cancel takes along: its caller for the entry, and the files that its paths name.
#[derive(Drop)]
struct CancelReady {
    caller: Who,
    files: Vec<u32>,
}

// Makes room in the history for a Cancel, and finds what it takes along. NoMemory gives nothing, and changes no entry.
fn make_ready(
    alloc: Global,
    history: &mut KeptHistory,
    names: &PathIndex,
    who: &Who,
    paths: &[Text],
) -> Result<CancelReady, NoMemory>
    ensures entries { history.new.value ≡ history.old.value }
    ensures entry_room { OnOk result (0 < history.new.room) }
    ensures caller { IfOk result (λ ready. ready.caller ≡ who.now) }
    ensures files { IfOk result (λ ready. ready.files.items ≡ filter_map (file_in names.now) paths.now) }
{
    let caller = history.prepare(who)?;
    let files = named_files(alloc, names, paths)?;
    Ok(CancelReady { caller, files })
}

// These files are CANCELLED in a request, where they wait.
fn cancel_all(requests: &mut StageBook, id: u32, files: &[u32], at: u64)
    ensures { RequestsAgree requests.new (finish_all at (λ f. ends.Cancelled) (asked_by id files.now) requests.old) }
{
    for file in files {
        requests.finish(id, *file, at, FileEnd::Cancelled);
    }
}

// Makes the calls for a Cancel whose paths name these files.
fn cancel_files(parts: &mut ArchiveParts, id: u32, files: &[u32], at: u64)
    requires keys { (f c : ℕ) (p : Place) → place_in parts.old.tapes.value f c ≡ Some p → p.tape < length parts.old.recalls.value }
    requires stands { StandsOnPlaces parts.old.tapes.value 4 (lines_in parts.old.recalls.value) }
    ensures { (site : Site) (h : History) (who : Who) (paths : List (List ℕ)) → IsLegal site h → ArePartsKept site h parts.old
        → files.now ≡ filter_map (file_in parts.old.names) paths
        → AreKeptCalled site h (record { at = at; actor = Actor.Caller who; ask = Ask.Cancel who id (rows paths); answer = Answer.Done }) parts.old parts.new }
{
    cancel_all(&mut parts.requests, id, files, at);
    leave_recalls(&parts.tapes, &mut parts.book, &mut parts.recalls, id, files);
}

/// Cancels files of a stage request: carries out the accepted `Cancel` of these paths of a request, by its number, at a moment, in
/// seconds since 1970. The files of the paths that wait in the request are CANCELLED, and the request waits for the recall of none of the
/// files that the paths name; a recall for which nobody else waits ends, and leaves its queue. NoMemory changes nothing, and gives
/// back what was handed in. Its cost is that of the room that it makes, the length of the paths, and for each file that they name the
/// number of entries that wait for its recall and, where that ends, the logarithm of the number of queued recalls. WLCG Tape REST
/// API v1.
pub fn cancel(
    alloc: Global,
    site: &SiteIndex,
    history: &mut KeptHistory,
    parts: &mut ArchiveParts,
    at: u64,
    who: Who,
    id: u32,
    paths: Rows<Text>,
) -> Result<Answer, (NoMemory, Who, Rows<Text>)>
    requires { CanCarryOut site.now history.old.value parts.old at (Ask.Cancel who id (rows paths.items)) }
    ensures carried { IsCarriedOut site.now history.old.value at (Ask.Cancel who id (rows paths.items)) result history.new.value parts.new }
    ensures back { IfErr result (λ e. (e.1 ≡ who) × (e.2 ≡ paths)) }
{
    kept_parts_move();
    places_are_on_site();
    stays_short();
    let rules = site.site();
    rules.keeps_rules();
    rules.numbers_are_known();
    let now = history.moment_of(at);
    let ready = match make_ready(alloc, history, &parts.names, &who, paths.as_slice()) {
        Ok(ready) => ready,
        Err(error) => return Err((error, who, paths)),
    };
    let CancelReady { caller, files } = ready;
    cancel_files(parts, id, files.as_slice(), now);
    history.append(
        at,
        Actor::Caller(caller),
        Ask::Cancel { who, id, paths },
        Answer::Done,
    );
    Ok(Answer::Done)
}
