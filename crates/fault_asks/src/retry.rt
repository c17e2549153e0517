// A Retry that is accepted, carried out.
ghost use Rattle.std.specs.Prelude.{◌≡◌, ◌≤◌, ◌<◌, ◌+◌, ◌*◌, ◌^◌, ◌∷◌, [], ℕ, List, false, length, IfOk, IfErr, OnOk};
ghost use Rattle.std.specs.List.{AllByRecursion};
ghost use Rattle.cta_site.specs.Listed.{rows};
ghost use Rattle.cta_model.specs.declared.asks.Job.{Job};
ghost use Rattle.cta_model.specs.declared.asks.Who.{Who};
ghost use Rattle.cta_model.specs.Answers.{names_twice};
ghost use Rattle.cta_model.specs.Files.{size_of};
ghost use Rattle.cta_model.specs.History.{History};
ghost use Rattle.cta_model.specs.Legal.{IsLegal, new_entry};
ghost use Rattle.part_laws.specs.Operators.{retried_told};
ghost use Rattle.job_queues.specs.Waiting.{bytes_of};
ghost use Rattle.archive_parts.specs.Called.{AreKeptCalled};
ghost use Rattle.archive_parts.specs.Carrying.{CanCarryOut, IsCarriedOut};
ghost use Rattle.archive_parts.specs.PartsKept.{ArePartsKept};
ghost use Rattle.part_model.specs.Queues.{lines_in};
ghost use Rattle.fault_asks.specs.Retrying.{AreCopies, CanQueue};

use crate::births::bear_all;
use crate::copies::retried_jobs;
use crate::lines::queue_all;
use crate::retried::take_all;
use archive_parts::{ArchiveParts, Needs, kept_parts_move, same_parts_are_kept};
use cta_laws::stays_short;
use cta_model::{Actor, Answer, Ask, Job, Who};
use cta_site::{NoMemory, Rows, Text, ValidSite};
use kept_history::KeptHistory;
use part_laws::{files_fit_buffer, lines_are_small, parts_tell_operators};
use part_moves::set_flags;
use site_index::SiteIndex;
use std::alloc::Global;

// What a Retry takes along: its caller for the entry, and the jobs that it bears, for the calls and once more for the entry.
#[derive(Drop)]
struct RetryReady {
    caller: Who,
    jobs: Vec<Job>,
    told: Vec<Job>,
}

// These jobs once more. NoMemory gives nothing.
fn copy_jobs(alloc: Global, jobs: &[Job]) -> Result<Vec<Job>, NoMemory>
    ensures { IfOk result (λ copies. copies.items ≡ jobs.now) }
{
    let copies = jobs.iter().copied().collect(alloc)?;
    Ok(copies)
}

// Makes room in the history for a Retry whose entry gets this number, and finds what it takes along. NoMemory gives nothing, and
// changes no entry.
fn make_ready(
    alloc: Global,
    history: &mut KeptHistory,
    parts: &ArchiveParts,
    who: &Who,
    number: u32,
    paths: &[Text],
) -> Result<RetryReady, NoMemory>
    requires { AreCopies parts.now.failed.value }
    ensures entries { history.new.value ≡ history.old.value }
    ensures entry_room { OnOk result (0 < history.new.room) }
    ensures caller { IfOk result (λ ready. ready.caller ≡ who.now) }
    ensures jobs { IfOk result (λ ready. ready.jobs.items ≡ retried_told parts.now.names parts.now.failed.value number [] paths.now) }
    ensures told { IfOk result (λ ready. ready.told.items ≡ ready.jobs.items) }
{
    let caller = history.prepare(who)?;
    let jobs = retried_jobs(alloc, &parts.names, &parts.failed, number, paths)?;
    let told = copy_jobs(alloc, jobs.as_slice())?;
    Ok(RetryReady { caller, jobs, told })
}

// The rooms that these births need.
fn needs_of(jobs: &[Job]) -> Needs
    requires { length jobs.now ≤ 1000000 }
    ensures jobs { result.jobs ≡ length jobs.now }
    ensures writes { result.writes ≡ length jobs.now }
{
    let many = jobs.len() as u32;
    Needs {
        jobs: many,
        writes: many,
        ..Needs::default()
    }
}

// Makes the calls for a Retry whose entry, of this number, the history has, and which bears these jobs.
fn settle_retry(
    site: &ValidSite,
    history: &KeptHistory,
    parts: &mut ArchiveParts,
    number: u32,
    jobs: &[Job],
)
    requires births { AllByRecursion (λ (j : Job). j.birth ≡ number) jobs.now }
    requires can { AllByRecursion (CanQueue site.now history.now.value (lines_in parts.old.pools.value)) jobs.now }
    requires once { names_twice jobs.now ≡ false }
    requires keys { length parts.old.pools.value ≡ length site.now.pools.items }
    requires births_room { length jobs.now ≤ parts.old.book.room }
    requires writes_room { length jobs.now ≤ parts.old.pools.room }
    requires small { (f : ℕ) → size_of history.now.value f ≤ 2147483648 }
    requires fits { (k : ℕ) → bytes_of (lines_in parts.old.pools.value k) + 2147483648 * length jobs.now < 2 ^ 64 }
    ensures { (h : History) (t : ℕ) (who : Who) (paths : List (List ℕ)) → IsLegal site.now (new_entry h t (Ask.Retry who (rows paths)) (Answer.Retried (rows jobs.now)) ∷ h)
        → history.now.value ≡ new_entry h t (Ask.Retry who (rows paths)) (Answer.Retried (rows jobs.now)) ∷ h → number ≡ length h + 1 → ArePartsKept site.now h parts.old
        → AreKeptCalled site.now h (new_entry h t (Ask.Retry who (rows paths)) (Answer.Retried (rows jobs.now))) parts.old parts.new }
{
    take_all(&mut parts.failed, jobs);
    bear_all(&mut parts.book, number, jobs);
    queue_all(site, history, &mut parts.pools, jobs);
    set_flags(
        &mut parts.buffer,
        &parts.tapes,
        &parts.book,
        site,
        history,
        jobs,
    );
}

/// Tries failed copies again: carries out the accepted `Retry` of these paths at a moment, in seconds since 1970. For each failed copy of
/// the files that the paths name an archive job is born, with no charge, in the order in which the paths are first named, and by copy
/// for each; it waits in the queue of its copy's pool, by the site's default policy. The copies are failed copies no more, and the files,
/// which have copies to be written again, may not be evicted. The answer tells the jobs; there may be none. NoMemory changes nothing that is
/// told, and gives back what was handed in. Its cost is that of the rooms that it makes, the length of the paths, for each path the
/// logarithm of their number, and for each job the logarithm of the number of failed copies, of files of the buffer and of queued jobs, and
/// the site's policies, of which there are at most 64. CTA; which policy the jobs have is this project's own.
pub fn retry_copies(
    alloc: Global,
    site: &SiteIndex,
    history: &mut KeptHistory,
    parts: &mut ArchiveParts,
    at: u64,
    who: Who,
    paths: Rows<Text>,
) -> Result<Answer, (NoMemory, Who, Rows<Text>)>
    requires { CanCarryOut site.now history.old.value parts.old at (Ask.Retry who (rows paths.items)) }
    ensures carried { IsCarriedOut site.now history.old.value at (Ask.Retry who (rows paths.items)) result history.new.value parts.new }
    ensures back { IfErr result (λ e. (e.1 ≡ who) × (e.2 ≡ paths)) }
{
    kept_parts_move();
    same_parts_are_kept();
    parts_tell_operators();
    files_fit_buffer();
    lines_are_small();
    stays_short();
    let rules = site.site();
    rules.keeps_rules();
    let number = history.next_number();
    let ready = match make_ready(alloc, history, parts, &who, number, paths.as_slice()) {
        Ok(ready) => ready,
        Err(error) => return Err((error, who, paths)),
    };
    let RetryReady { caller, jobs, told } = ready;
    if let Err(error) = parts.reserve(needs_of(jobs.as_slice())) {
        return Err((error, who, paths));
    }
    let answer = Answer::Retried {
        jobs: Rows::of(told),
    };
    history.append(at, Actor::Caller(caller), Ask::Retry { who, paths }, answer);
    settle_retry(rules, history, parts, number, jobs.as_slice());
    Ok(Answer::Retried {
        jobs: Rows::of(jobs),
    })
}
