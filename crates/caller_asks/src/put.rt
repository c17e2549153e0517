// A Put that is accepted, carried out.
ghost use Rattle.std.specs.Prelude.{◌≡◌, ◌≤◌, [], IfOk, IfErr, OnOk, length};
ghost use Rattle.blob.specs.Sums.{sum_of};
ghost use Rattle.cta_model.specs.declared.asks.Ask.TheVariants as ask;
ghost use Rattle.part_model.specs.Held.{evicted_for};
ghost use Rattle.archive_parts.specs.Carrying.{CanCarryOut, IsCarriedOut};
ghost use Rattle.archive_parts.specs.Rooms.{HaveRoom};
ghost use Rattle.archive_parts.specs.Same.{TellSameParts};

use crate::copies::{bear_copies, queue_copies};
use archive_parts::{ArchiveParts, Needs, kept_parts_move, same_parts_are_kept};
use blob::Blob;
use cta_laws::{buffer_has_room, stays_short};
use cta_model::{Actor, Answer, Ask, Entry, Who};
use cta_site::{NoMemory, Rows, Text};
use disk_buffer::DiskBuffer;
use kept_history::KeptHistory;
use part_laws::{copies_are_few, files_fit_buffer, lines_are_small};
use part_moves::{add_numbers, list_for};
use site_index::SiteIndex;
use std::alloc::Global;
use std::sync::Arc;

/// What was handed in with a Put that met want of memory: who asked, the path, and the content.
#[derive(Drop)]
pub struct PutBack {
    pub who: Who,
    pub path: Text,
    pub blob: Arc<Blob>,
}

// What a Put takes along: the path for the index, its caller for the entry, and two empty lists with room for what it evicts.
#[derive(Drop)]
struct PutReady {
    name: Text,
    actor: Who,
    evicted: Rows<u32>,
    told: Rows<u32>,
}

// Makes ready what a Put of this length takes along.
fn make_ready(
    alloc: Global,
    buffer: &DiskBuffer,
    at: u64,
    who: &Who,
    path: &Text,
    len: u64,
) -> Result<PutReady, NoMemory>
    ensures name { IfOk result (λ ready. ready.name ≡ path.now) }
    ensures actor { IfOk result (λ ready. ready.actor ≡ who.now) }
    ensures evicted { IfOk result (λ ready. ready.evicted.items ≡ []) }
    ensures evicted_room { IfOk result (λ ready. length (evicted_for buffer.now.held.value at len) ≤ ready.evicted.room) }
    ensures told { IfOk result (λ ready. ready.told.items ≡ []) }
    ensures told_room { IfOk result (λ ready. length (evicted_for buffer.now.held.value at len) ≤ ready.told.room) }
{
    let count = buffer.evict_count(at, len);
    let name = path.copy()?;
    let actor = who.copy()?;
    let evicted = list_for(alloc, count)?;
    let told = list_for(alloc, count)?;
    Ok(PutReady {
        name,
        actor,
        evicted,
        told,
    })
}

// Makes room in the history and the parts for a Put, and what it takes along.
fn ready_put(
    alloc: Global,
    history: &mut KeptHistory,
    parts: &mut ArchiveParts,
    at: u64,
    who: &Who,
    path: &Text,
    len: u64,
) -> Result<PutReady, NoMemory>
    ensures history { history.new.value ≡ history.old.value }
    ensures parts { TellSameParts parts.new parts.old }
    ensures history_room { OnOk result (1 ≤ history.new.room) }
    ensures room { OnOk result (HaveRoom (record { jobs = 4; writes = 4; reads = 0; files = 1; places = 0; mounts = 0; failed = 0 }) parts.new) }
    ensures name { IfOk result (λ ready. ready.name ≡ path.now) }
    ensures actor { IfOk result (λ ready. ready.actor ≡ who.now) }
    ensures evicted { IfOk result (λ ready. ready.evicted.items ≡ []) }
    ensures evicted_room { IfOk result (λ ready. length (evicted_for parts.new.buffer.held.value at len) ≤ ready.evicted.room) }
    ensures told { IfOk result (λ ready. ready.told.items ≡ []) }
    ensures told_room { IfOk result (λ ready. length (evicted_for parts.new.buffer.held.value at len) ≤ ready.told.room) }
{
    parts.reserve(Needs {
        jobs: 4,
        writes: 4,
        reads: 0,
        files: 1,
        places: 0,
        mounts: 0,
        failed: 0,
    })?;
    history.reserve(1)?;
    make_ready(alloc, &parts.buffer, at, who, path, len)
}

/// Carries out an accepted Put: the path names the content from then on, files are evicted to make room for it, the content comes
/// into the buffer last, and an archive job for each copy of its class waits in the queue of its pool. The answer tells what was
/// evicted. After NoMemory nothing is changed that is told, and what was handed in is given back. Its cost is the length of the
/// path, the logarithm of the number of files and of queued jobs, and that of `DiskBuffer::evict`. CTA; which files are evicted is
/// this project's own.
pub fn put_file(
    alloc: Global,
    site: &SiteIndex,
    history: &mut KeptHistory,
    parts: &mut ArchiveParts,
    at: u64,
    who: Who,
    path: Text,
    blob: Arc<Blob>,
) -> Result<Answer, (NoMemory, PutBack)>
    requires { CanCarryOut site.now history.old.value parts.old at (ask.Put who path (sum_of blob.value)) }
    ensures carried { IsCarriedOut site.now history.old.value at (ask.Put who path (sum_of blob.value)) result history.new.value parts.new }
    ensures back { IfErr result (λ e. e.1 ≡ record { who = who; path = path; blob = blob }) }
{
    site.site().keeps_rules();
    stays_short();
    buffer_has_room();
    copies_are_few();
    files_fit_buffer();
    lines_are_small();
    same_parts_are_kept();
    kept_parts_move();
    let sum = blob.sum();
    let copies = site.site().copies_of(path.as_bytes());
    let moment = history.moment_of(at);
    let ready = match ready_put(alloc, history, parts, moment, &who, &path, sum.len) {
        Ok(ready) => ready,
        Err(error) => return Err((error, PutBack { who, path, blob })),
    };
    let PutReady {
        name,
        actor,
        mut evicted,
        mut told,
    } = ready;
    let file = history.next_number();
    if let Err(error) = parts.names.add(name, file) {
        return Err((error, PutBack { who, path, blob }));
    }
    parts.buffer.evict(moment, sum.len, &mut evicted);
    add_numbers(evicted.as_slice(), &mut told);
    history.push(Entry {
        at: moment,
        actor: Actor::Caller(actor),
        ask: Ask::Put { who, path, sum },
        answer: Answer::Stored { evicted: told },
    });
    parts.buffer.enter(file, blob);
    bear_copies(&mut parts.book, file, copies);
    queue_copies(site.site(), history, &mut parts.pools, file, copies);
    Ok(Answer::Stored { evicted })
}
