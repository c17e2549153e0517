// A Delete that is accepted, carried out.
ghost use Rattle.std.specs.Prelude.{◌≡◌, ◌<◌, ◌≤◌, ◌^◌, IfOk, IfErr, OnOk, length, codes};
ghost use Rattle.cta_model.specs.declared.asks.Ask.TheVariants as ask;
ghost use Rattle.cta_model.specs.RepackItems.{waiting_for};
ghost use Rattle.part_model.specs.JobRows.{book_in};
ghost use Rattle.archive_parts.specs.Carrying.{CanCarryOut, IsCarriedOut};
ghost use Rattle.caller_asks.specs.Jobs.{jobs_in};
ghost use Rattle.part_moves.specs.Texts.{AreAll};

use crate::jobs::{end_all, jobs_of, leave_all};
use crate::repacks::{end_readers, end_writers};
use crate::waiting::fail_all;
use archive_parts::{ArchiveParts, kept_parts_move};
use cta_laws::{places_are_on_site, stays_short, subscribers_wait};
use cta_model::{Actor, Answer, Ask, Entry, Job, Who};
use cta_site::{NoMemory, Rows, Text};
use job_book::JobBook;
use kept_history::KeptHistory;
use part_moves::{errors, waiting_for};
use site_index::SiteIndex;
use std::alloc::Global;

// What a Delete takes along: its caller for the entry, the live jobs of the file, the entries that wait for its recall, and an error
// for each of these.
#[derive(Drop)]
struct DeleteReady {
    actor: Who,
    jobs: Rows<Job>,
    ids: Rows<u32>,
    errors: Vec<Text>,
}

// Makes ready what a Delete of a file takes along. NoMemory gives nothing.
fn make_ready(
    alloc: Global,
    book: &JobBook,
    who: &Who,
    file: u32,
    copies: u8,
) -> Result<DeleteReady, NoMemory>
    requires { length (waiting_for ((book_in book.now.value).recall file)) < 2 ^ 32 }
    ensures actor { IfOk result (λ ready. ready.actor ≡ who.now) }
    ensures jobs { IfOk result (λ ready. ready.jobs.items ≡ jobs_in (book_in book.now.value) file copies) }
    ensures ids { IfOk result (λ ready. ready.ids.items ≡ waiting_for ((book_in book.now.value).recall file)) }
    ensures many { IfOk result (λ ready. length ready.errors.items ≡ length ready.ids.items) }
    ensures same { IfOk result (λ ready. AreAll (codes "deleted") ready.errors.items) }
{
    let actor = who.copy()?;
    let jobs = jobs_of(alloc, book, file, copies)?;
    let ids = waiting_for(alloc, book, file)?;
    let errors = errors(alloc, "deleted", ids.len())?;
    Ok(DeleteReady {
        actor,
        jobs,
        ids,
        errors,
    })
}

// Makes room in the history for a Delete, and what it takes along.
fn ready_delete(
    alloc: Global,
    history: &mut KeptHistory,
    book: &JobBook,
    who: &Who,
    file: u32,
    copies: u8,
) -> Result<DeleteReady, NoMemory>
    requires { length (waiting_for ((book_in book.now.value).recall file)) < 2 ^ 32 }
    ensures history { history.new.value ≡ history.old.value }
    ensures room { OnOk result (1 ≤ history.new.room) }
    ensures actor { IfOk result (λ ready. ready.actor ≡ who.now) }
    ensures jobs { IfOk result (λ ready. ready.jobs.items ≡ jobs_in (book_in book.now.value) file copies) }
    ensures ids { IfOk result (λ ready. ready.ids.items ≡ waiting_for ((book_in book.now.value).recall file)) }
    ensures many { IfOk result (λ ready. length ready.errors.items ≡ length ready.ids.items) }
    ensures same { IfOk result (λ ready. AreAll (codes "deleted") ready.errors.items) }
{
    history.reserve(1)?;
    make_ready(alloc, book, who, file, copies)
}

/// Carries out an accepted Delete: the path names no file from then on, the copies of the file have no place, its content leaves the
/// buffer, its live jobs end and leave their queues, it fails in the requests that wait for it, its items of repacks are GONE, and
/// its failed copies leave. After NoMemory nothing is changed that is told, and what was handed in is given back. Its cost is the
/// length of the path, the number of entries that wait for the file's recall, and the logarithm of the number of jobs, files and
/// items. CTA; the error "deleted" is this project's own.
pub fn delete_file(
    alloc: Global,
    site: &SiteIndex,
    history: &mut KeptHistory,
    parts: &mut ArchiveParts,
    at: u64,
    who: Who,
    path: Text,
) -> Result<Answer, (NoMemory, Who, Text)>
    requires { CanCarryOut site.now history.old.value parts.old at (ask.Delete who path) }
    ensures carried { IsCarriedOut site.now history.old.value at (ask.Delete who path) result history.new.value parts.new }
    ensures back { IfErr result (λ e. (e.1 ≡ who) × (e.2 ≡ path)) }
{
    site.site().keeps_rules();
    stays_short();
    places_are_on_site();
    subscribers_wait();
    kept_parts_move();
    let Some(file) = parts.names.file(path.as_bytes()) else {
        unreachable!();
    };
    let copies = site.site().copies_of(path.as_bytes());
    let now = history.moment_of(at);
    let ready = match ready_delete(alloc, history, &parts.book, &who, file, copies) {
        Ok(ready) => ready,
        Err(error) => return Err((error, who, path)),
    };
    let errors = ready.errors;
    let _named = parts.names.remove(path.as_bytes());
    parts.buffer.remove(file);
    fail_all(&mut parts.requests, ready.ids.as_slice(), errors, file, now);
    end_writers(&mut parts.repacks, file, copies);
    end_readers(&mut parts.repacks, ready.ids.as_slice(), file, copies);
    leave_all(
        site.site(),
        history,
        &parts.tapes,
        &mut parts.pools,
        &mut parts.recalls,
        ready.jobs.as_slice(),
        copies,
    );
    end_all(&mut parts.book, ready.jobs.as_slice());
    parts.tapes.drop_file(file);
    parts.failed.take_file(file);
    history.push(Entry {
        at: now,
        actor: Actor::Caller(ready.actor),
        ask: Ask::Delete { who, path },
        answer: Answer::Done,
    });
    Ok(Answer::Done)
}
