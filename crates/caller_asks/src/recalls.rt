// Recalls for which a request waits no longer.
ghost use Rattle.std.specs.Prelude.{◌≡◌, ◌<◌, ◌∷◌, [], ℕ, Some, true, length};
ghost use Rattle.cta_model.specs.declared.states.Place.{Place};
ghost use Rattle.cta_model.specs.Mounts.{has_job};
ghost use Rattle.job_queues.specs.Waiting.{jobs_of};
ghost use Rattle.part_laws.specs.Ends.{last_of};
ghost use Rattle.part_model.specs.JobBook.{TellSame, drop_files};
ghost use Rattle.part_model.specs.JobRows.{book_in};
ghost use Rattle.part_model.specs.Queues.{drop_jobs, lines_in};
ghost use Rattle.part_model.specs.Tapes.{place_in};
ghost use Rattle.caller_asks.specs.Jobs.{IsPlacedOn};
ghost use Rattle.caller_asks.specs.Recalls.{StandsOnPlaces, lasts_of};

use cta_model::Job;
use job_book::JobBook;
use job_queues::JobQueues;
use tape_table::TapeTable;

// The greatest number of copies that a file has.
const MOST_COPIES: u8 = 4;

// A recall leaves the queues of the tapes on which the copies from 1 to `copies` of its file have their places.
fn leave_tapes(recalls: &mut JobQueues, tapes: &TapeTable, job: Job, copies: u8)
    requires keys { (c : ℕ) (p : Place) → place_in tapes.now.value job.file c ≡ Some p → p.tape < length recalls.old.value }
    requires stands { (k : ℕ) → has_job job (jobs_of (lines_in recalls.old.value k)) ≡ true → IsPlacedOn tapes.now.value job.file copies k }
    ensures lines { (k : ℕ) → lines_in recalls.new.value k ≡ drop_jobs (job ∷ []) (lines_in recalls.old.value) k }
    ensures keys { length recalls.new.value ≡ length recalls.old.value }
{
    if copies == 0 {
        return;
    }
    if let Some(place) = tapes.place(job.file, copies) {
        let _there = recalls.take(place.tape, job);
        leave_tapes(recalls, tapes, job, copies - 1);
        return;
    }
    leave_tapes(recalls, tapes, job, copies - 1);
}

// A request waits for the recall of a file no longer; where it was the last, the recall ends and leaves its queue.
fn leave_recall(tapes: &TapeTable, book: &mut JobBook, recalls: &mut JobQueues, id: u32, file: u32)
    requires keys { (f c : ℕ) (p : Place) → place_in tapes.now.value f c ≡ Some p → p.tape < length recalls.old.value }
    requires stands { StandsOnPlaces tapes.now.value 4 (lines_in recalls.old.value) }
    ensures book { TellSame (book_in book.new.value) (drop_files (file ∷ []) id (book_in book.old.value)) }
    ensures lines { (k : ℕ) → lines_in recalls.new.value k ≡ drop_jobs (last_of id file ((book_in book.old.value).recall file)) (lines_in recalls.old.value) k }
    ensures keys { length recalls.new.value ≡ length recalls.old.value }
{
    let live = book.live_recall(file);
    if !book.unsubscribe(file, id) {
        return;
    }
    let Some(birth) = live else {
        unreachable!();
    };
    let job = Job {
        birth,
        file,
        copy: 0,
    };
    leave_tapes(recalls, tapes, job, MOST_COPIES);
}

// A request waits for the recalls of these files no longer; those for which it was the last end and leave their queues.
pub(crate) fn leave_recalls(
    tapes: &TapeTable,
    book: &mut JobBook,
    recalls: &mut JobQueues,
    id: u32,
    files: &[u32],
)
    requires keys { (f c : ℕ) (p : Place) → place_in tapes.now.value f c ≡ Some p → p.tape < length recalls.old.value }
    requires stands { StandsOnPlaces tapes.now.value 4 (lines_in recalls.old.value) }
    ensures book { TellSame (book_in book.new.value) (drop_files files.now id (book_in book.old.value)) }
    ensures lines { (k : ℕ) → lines_in recalls.new.value k ≡ drop_jobs (lasts_of (book_in book.old.value).recall id files.now) (lines_in recalls.old.value) k }
    ensures keys { length recalls.new.value ≡ length recalls.old.value }
{
    for file in files {
        leave_recall(tapes, book, recalls, id, *file);
    }
}
