// The live jobs of a file that is deleted.
ghost use Rattle.std.specs.Prelude.{ℕ, ◌≡◌, ◌+◌, ◌<◌, ◌≤◌, ◌++◌, ◌∷◌, [], Some, IfOk, length, true};
ghost use Rattle.std.specs.List.{AllByRecursion};
ghost use Rattle.cta_model.specs.declared.states.Place.{Place};
ghost use Rattle.cta_model.specs.Files.{copies_of_file};
ghost use Rattle.cta_model.specs.Mounts.{has_job};
ghost use Rattle.cta_model.specs.Queues.{pool_of_job};
ghost use Rattle.part_model.specs.JobBook.{TellSame, end_jobs};
ghost use Rattle.part_model.specs.JobRows.{book_in};
ghost use Rattle.part_model.specs.Queues.{drop_jobs, lines_in};
ghost use Rattle.part_model.specs.Tapes.{place_in};
ghost use Rattle.job_queues.specs.Waiting as said;
ghost use Rattle.caller_asks.specs.Jobs.{IsPlacedOn, StandsWhere, archives_in, jobs_in};

use cta_model::Job;
use cta_site::{NoMemory, Rows, ValidSite};
use job_book::JobBook;
use job_queues::JobQueues;
use kept_history::KeptHistory;
use part_answers::pool_of_job;
use std::alloc::Global;
use tape_table::TapeTable;

// Adds the live archive jobs of the copies from 1 to `copies` to a list with room for them.
fn add_archives(book: &JobBook, file: u32, copies: u8, out: &mut Rows<Job>)
    requires { copies ≤ out.old.room }
    ensures items { out.new.items ≡ out.old.items ++ archives_in (book_in book.now.value).archive file copies }
    ensures room { out.old.room ≤ out.new.room + copies }
{
    if copies == 0 {
        return;
    }
    add_archives(book, file, copies - 1, out);
    if let Some(birth) = book.archive(file, copies) {
        out.push(Job {
            birth,
            file,
            copy: copies,
        });
    }
}

// The live jobs of a file of so many copies: its recall, and then its archive jobs by copy. NoMemory gives nothing.
pub(crate) fn jobs_of(
    alloc: Global,
    book: &JobBook,
    file: u32,
    copies: u8,
) -> Result<Rows<Job>, NoMemory>
    ensures { IfOk result (λ jobs. jobs.items ≡ jobs_in (book_in book.now.value) file copies) }
{
    let mut jobs = Rows::of(Vec::new(alloc));
    jobs.reserve(copies as u32 + 1)?;
    if let Some(birth) = book.live_recall(file) {
        jobs.push(Job {
            birth,
            file,
            copy: 0,
        });
    }
    add_archives(book, file, copies, &mut jobs);
    Ok(jobs)
}

// These jobs end.
pub(crate) fn end_all(book: &mut JobBook, jobs: &[Job])
    ensures { TellSame (book_in book.new.value) (end_jobs jobs.now (book_in book.old.value)) }
{
    match jobs {
        [] => {}
        [first, rest @ ..] => {
            book.end(*first);
            end_all(book, rest);
        }
    }
}

// A recall leaves the queues of the tapes on which the copies from 1 to `copies` of its file have their places.
fn leave_tapes(recalls: &mut JobQueues, tapes: &TapeTable, job: Job, copies: u8)
    requires keys { (c : ℕ) (p : Place) → place_in tapes.now.value job.file c ≡ Some p → p.tape < length recalls.old.value }
    requires stands { (k : ℕ) → has_job job (said.jobs_of (lines_in recalls.old.value k)) ≡ true → IsPlacedOn tapes.now.value job.file copies k }
    ensures lines { (k : ℕ) → lines_in recalls.new.value k ≡ drop_jobs (job ∷ []) (lines_in recalls.old.value) k }
    ensures keys { length recalls.new.value ≡ length recalls.old.value }
{
    if copies == 0 {
        return;
    }
    if let Some(place) = tapes.place(job.file, copies) {
        let _there = recalls.take(place.tape, job);
        leave_tapes(recalls, tapes, job, copies - 1);
        return;
    }
    leave_tapes(recalls, tapes, job, copies - 1);
}

// An archive job leaves the queue of its pool.
fn leave_pool(pools: &mut JobQueues, site: &ValidSite, history: &KeptHistory, job: Job)
    requires from { 1 ≤ job.copy }
    requires to { job.copy ≤ copies_of_file site.now history.now.value job.file }
    requires keys { length pools.old.value ≡ length site.now.pools.items }
    requires stands { (k : ℕ) → has_job job (said.jobs_of (lines_in pools.old.value k)) ≡ true → pool_of_job site.now history.now.value job ≡ Some k }
    ensures lines { (k : ℕ) → lines_in pools.new.value k ≡ drop_jobs (job ∷ []) (lines_in pools.old.value) k }
    ensures keys { length pools.new.value ≡ length pools.old.value }
{
    site.numbers_are_known();
    let Some(key) = pool_of_job(site, history, job) else {
        return;
    };
    let _there = pools.take(key, job);
}

// A live job of a file leaves the queue that it stands in, if it stands in one.
fn leave_one(
    site: &ValidSite,
    history: &KeptHistory,
    tapes: &TapeTable,
    pools: &mut JobQueues,
    recalls: &mut JobQueues,
    job: Job,
    copies: u8,
)
    requires keys { length pools.old.value ≡ length site.now.pools.items }
    requires tapes { (c : ℕ) (p : Place) → place_in tapes.now.value job.file c ≡ Some p → p.tape < length recalls.old.value }
    requires stands { StandsWhere site.now history.now.value tapes.now.value copies (lines_in pools.old.value) (lines_in recalls.old.value) job }
    ensures pools { (k : ℕ) → lines_in pools.new.value k ≡ drop_jobs (job ∷ []) (lines_in pools.old.value) k }
    ensures recalls { (k : ℕ) → lines_in recalls.new.value k ≡ drop_jobs (job ∷ []) (lines_in recalls.old.value) k }
    ensures pool_keys { length pools.new.value ≡ length pools.old.value }
    ensures tape_keys { length recalls.new.value ≡ length recalls.old.value }
{
    if job.copy == 0 {
        leave_tapes(recalls, tapes, job, copies);
    } else {
        leave_pool(pools, site, history, job);
    }
}

// These live jobs of a file leave the queues that they stand in.
pub(crate) fn leave_all(
    site: &ValidSite,
    history: &KeptHistory,
    tapes: &TapeTable,
    pools: &mut JobQueues,
    recalls: &mut JobQueues,
    jobs: &[Job],
    copies: u8,
)
    requires keys { length pools.old.value ≡ length site.now.pools.items }
    requires tapes { (f c : ℕ) (p : Place) → place_in tapes.now.value f c ≡ Some p → p.tape < length recalls.old.value }
    requires stand { AllByRecursion (StandsWhere site.now history.now.value tapes.now.value copies (lines_in pools.old.value) (lines_in recalls.old.value)) jobs.now }
    ensures pools { (k : ℕ) → lines_in pools.new.value k ≡ drop_jobs jobs.now (lines_in pools.old.value) k }
    ensures recalls { (k : ℕ) → lines_in recalls.new.value k ≡ drop_jobs jobs.now (lines_in recalls.old.value) k }
    ensures pool_keys { length pools.new.value ≡ length pools.old.value }
    ensures tape_keys { length recalls.new.value ≡ length recalls.old.value }
{
    match jobs {
        [] => {}
        [first, rest @ ..] => {
            leave_one(site, history, tapes, pools, recalls, *first, copies);
            leave_all(site, history, tapes, pools, recalls, rest, copies);
        }
    }
}
