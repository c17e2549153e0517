// A Release that is accepted, carried out.
ghost use Rattle.std.specs.Prelude.{◌≡◌, ◌<◌, ℕ, IfOk, IfErr, OnOk};
ghost use Rattle.cta_site.specs.Listed.{rows};
ghost use Rattle.cta_site.specs.declared.site.Site.{Site};
ghost use Rattle.cta_model.specs.declared.asks.Who.{Who};
ghost use Rattle.cta_model.specs.History.{History, has_text};
ghost use Rattle.part_model.specs.Requests.{RequestsAgree, release_all, request_in};
ghost use Rattle.part_laws.specs.BufferCalls.{files_where};
ghost use Rattle.archive_parts.specs.Called.{AreKeptCalled};
ghost use Rattle.archive_parts.specs.Carrying.{CanCarryOut, IsCarriedOut};
ghost use Rattle.archive_parts.specs.PartsKept.{ArePartsKept};

use crate::pins::unpin_all;
use crate::requested::files_at;
use archive_parts::{ArchiveParts, kept_parts_move};
use cta_laws::stays_short;
use cta_model::{Actor, Answer, Ask, Who};
use cta_site::{NoMemory, Rows, Text};
use kept_history::KeptHistory;
use site_index::SiteIndex;
use stage_book::StageBook;
use std::alloc::Global;

// What a Release takes along: its caller for the entry, and the files that its request has at its paths.
#[derive(Drop)]
struct ReleaseReady {
    caller: Who,
    files: Vec<u32>,
}

// Makes room in the history for a Release, and finds what it takes along. NoMemory gives nothing, and changes no entry.
fn make_ready(
    alloc: Global,
    history: &mut KeptHistory,
    requests: &StageBook,
    who: &Who,
    id: u32,
    paths: &[Text],
) -> Result<ReleaseReady, NoMemory>
    ensures entries { history.new.value ≡ history.old.value }
    ensures entry_room { OnOk result (0 < history.new.room) }
    ensures caller { IfOk result (λ ready. ready.caller ≡ who.now) }
    ensures files { IfOk result (λ ready. ready.files.items ≡ files_where (λ p. has_text p paths.now) (request_in requests.now id)) }
{
    let caller = history.prepare(who)?;
    let files = files_at(alloc, requests, id, paths)?;
    Ok(ReleaseReady { caller, files })
}

// The files of these paths are released in a request.
fn release_all(requests: &mut StageBook, id: u32, paths: &[Text])
    ensures { RequestsAgree requests.new (release_all id paths.now requests.old) }
{
    for path in paths {
        requests.release(id, path.as_bytes());
    }
}

// Makes the calls for a Release of these paths, at which the request has these files.
fn release_paths(parts: &mut ArchiveParts, id: u32, paths: &[Text], files: &[u32])
    requires { files.now ≡ files_where (λ p. has_text p paths.now) (request_in parts.old.requests id) }
    ensures { (site : Site) (h : History) (t : ℕ) (who : Who) → ArePartsKept site h parts.old
        → AreKeptCalled site h (record { at = t; actor = Actor.Caller who; ask = Ask.Release who id (rows paths.now); answer = Answer.Done }) parts.old parts.new }
{
    release_all(&mut parts.requests, id, paths);
    unpin_all(&mut parts.buffer, id, files);
}

/// Releases files of a stage request: carries out the accepted `Release` of these paths of a request, by its number, at a moment, in
/// seconds since 1970. The files of the paths are released from then on, so that the request does not keep them in the buffer: its pins
/// of them are taken off. NoMemory changes nothing, and gives back what was handed in. Its cost is that of the room that it makes, the
/// length of the paths with the logarithm of their number, and the number of the request's files, each with the length of its path
/// and that logarithm, and for each that is released that of the number of files and pins of the buffer. WLCG Tape REST API v1.
pub fn release(
    alloc: Global,
    site: &SiteIndex,
    history: &mut KeptHistory,
    parts: &mut ArchiveParts,
    at: u64,
    who: Who,
    id: u32,
    paths: Rows<Text>,
) -> Result<Answer, (NoMemory, Who, Rows<Text>)>
    requires { CanCarryOut site.now history.old.value parts.old at (Ask.Release who id (rows paths.items)) }
    ensures carried { IsCarriedOut site.now history.old.value at (Ask.Release who id (rows paths.items)) result history.new.value parts.new }
    ensures back { IfErr result (λ e. (e.1 ≡ who) × (e.2 ≡ paths)) }
{
    kept_parts_move();
    stays_short();
    site.site().keeps_rules();
    let ready = match make_ready(alloc, history, &parts.requests, &who, id, paths.as_slice()) {
        Ok(ready) => ready,
        Err(error) => return Err((error, who, paths)),
    };
    let ReleaseReady { caller, files } = ready;
    release_paths(parts, id, paths.as_slice(), files.as_slice());
    history.append(
        at,
        Actor::Caller(caller),
        Ask::Release { who, id, paths },
        Answer::Done,
    );
    Ok(Answer::Done)
}
