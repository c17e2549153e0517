// Recalls that leave their queues.
ghost use Rattle.std.specs.Prelude.{ℕ, ◌≡◌, ◌<◌, ◌≤◌, ◌∷◌, [], Some, length, true, slice_get};
ghost use Rattle.cta_model.specs.declared.asks.Job.{Job};
ghost use Rattle.cta_model.specs.declared.states.Place.{Place};
ghost use Rattle.cta_model.specs.Mounts.{has_job};
ghost use Rattle.job_queues.specs.Waiting.{jobs_of};
ghost use Rattle.part_model.specs.JobRows.{book_in};
ghost use Rattle.part_model.specs.Queues.{drop_jobs, lines_in};
ghost use Rattle.tape_table.specs.Sources.{sources_in};
ghost use Rattle.fault_asks.specs.Reading.{source_in};

use cta_model::Job;
use fault_asks::source_of;
use job_book::JobBook;
use job_queues::JobQueues;
use tape_table::TapeTable;

// A recall leaves the queue of the tape that it is read from.
fn leave_one(recalls: &mut JobQueues, tapes: &TapeTable, book: &JobBook, job: Job)
    requires keys { (tape : ℕ) → source_in tapes.now.value (book_in book.now.value) job ≡ Some tape → tape < length recalls.old.value }
    requires stands { (k : ℕ) → has_job job (jobs_of (lines_in recalls.old.value k)) ≡ true → source_in tapes.now.value (book_in book.now.value) job ≡ Some k }
    ensures lines { (k : ℕ) → lines_in recalls.new.value k ≡ drop_jobs (job ∷ []) (lines_in recalls.old.value) k }
    ensures keys { length recalls.new.value ≡ length recalls.old.value }
    ensures room { recalls.old.room ≤ recalls.new.room }
{
    let Some(key) = source_of(tapes, book, job) else {
        return;
    };
    let _there = recalls.take(key, job);
}

// Recalls leave the queues of the tapes that they are read from.
pub(crate) fn leave_reads(recalls: &mut JobQueues, tapes: &TapeTable, book: &JobBook, jobs: &[Job])
    requires keys { (f n : ℕ) (p : Place) → slice_get (sources_in tapes.now.value f) n ≡ Some p → p.tape < length recalls.old.value }
    requires stand { (j : Job) → has_job j jobs.now ≡ true → (k : ℕ) → has_job j (jobs_of (lines_in recalls.old.value k)) ≡ true → source_in tapes.now.value (book_in book.now.value) j ≡ Some k }
    ensures lines { (k : ℕ) → lines_in recalls.new.value k ≡ drop_jobs jobs.now (lines_in recalls.old.value) k }
    ensures keys { length recalls.new.value ≡ length recalls.old.value }
    ensures room { recalls.old.room ≤ recalls.new.room }
{
    for job in jobs {
        leave_one(recalls, tapes, book, *job);
    }
}
