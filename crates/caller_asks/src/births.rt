// The recalls of files that a new request waits for.
ghost use Rattle.std.specs.Prelude.{◌≡◌, ◌+◌, ◌*◌, ◌<◌, ◌≤◌, ◌^◌, ℕ, Some, true, false, length, slice_get};
ghost use Rattle.std.specs.List.{AllByRecursion};
ghost use Rattle.cta_model.specs.declared.asks.Direction.TheVariants as direction;
ghost use Rattle.cta_model.specs.declared.states.Place.{Place};
ghost use Rattle.cta_model.specs.Files.{size_of};
ghost use Rattle.cta_model.specs.History.{entry_of};
ghost use Rattle.cta_model.specs.Mounts.{has_job};
ghost use Rattle.cta_model.specs.Recalls.{recall_job};
ghost use Rattle.job_queues.specs.Waiting.{bytes_of, jobs_of};
ghost use Rattle.part_laws.specs.Births.{recalls_of};
ghost use Rattle.kept_history.specs.Puts.{is_put};
ghost use Rattle.part_model.specs.JobBook.{TellSame, bear_jobs, subscribe_files};
ghost use Rattle.part_model.specs.JobRows.{book_in};
ghost use Rattle.part_model.specs.Queues.{add_at, lines_in};
ghost use Rattle.part_laws.specs.Lines as said;
ghost use Rattle.tape_table.specs.Sources.{sources_in};
ghost use Rattle.caller_asks.specs.Wanted.{AreOnce, add_recalls, source_in};

use cta_model::{Direction, Job};
use cta_site::ValidSite;
use job_book::JobBook;
use job_queues::JobQueues;
use kept_history::KeptHistory;
use part_answers::line_of;
use tape_table::TapeTable;

// A request waits for the live recalls of these files too.
pub(crate) fn join_all(book: &mut JobBook, id: u32, files: &[u32])
    requires once { AreOnce files.now }
    requires room { length files.now ≤ book.old.room }
    ensures book { TellSame (book_in book.new.value) (subscribe_files files.now id (book_in book.old.value)) }
    ensures room { book.old.room ≤ book.new.room + length files.now }
{
    for file in files {
        book.subscribe(*file, id);
    }
}

// A recall of each of these files is born by the entry of this number.
pub(crate) fn bear_all(book: &mut JobBook, number: u32, files: &[u32])
    requires { length files.now ≤ book.old.room }
    ensures { TellSame (book_in book.new.value) (bear_jobs (recalls_of number files.now) number (book_in book.old.value)) }
{
    for file in files {
        book.born(Job {
            birth: number,
            file: *file,
            copy: 0,
        });
    }
}

// A new recall of a file is put into the queue of the tape that it is read from, where it is not yet.
fn queue_recall(
    site: &ValidSite,
    history: &KeptHistory,
    tapes: &TapeTable,
    recalls: &mut JobQueues,
    number: u32,
    file: u32,
)
    requires put { is_put (entry_of history.now.value file) ≡ true }
    requires keys { (p : Place) → slice_get (sources_in tapes.now.value file) 0 ≡ Some p → p.tape < length recalls.old.value }
    requires room { 0 < recalls.old.room }
    requires lacks { (k : ℕ) → has_job (recall_job number file) (jobs_of (lines_in recalls.old.value k)) ≡ false }
    requires fits { (k : ℕ) → bytes_of (lines_in recalls.old.value k) + size_of history.now.value file < 2 ^ 64 }
    ensures lines { (k : ℕ) → lines_in recalls.new.value k ≡ add_at (source_in tapes.now.value file) (said.line_of site.now history.now.value direction.Retrieve (recall_job number file)) (lines_in recalls.old.value) k }
    ensures keys { length recalls.new.value ≡ length recalls.old.value }
    ensures room { recalls.old.room ≤ recalls.new.room + 1 }
{
    let Some(source) = tapes.place_at(file, 0) else {
        return;
    };
    let job = Job {
        birth: number,
        file,
        copy: 0,
    };
    let line = line_of(site, history, Direction::Retrieve, job);
    recalls.add(source.tape, line);
}

// A new recall of each of these files, born by the entry of this number, is put into the queue of the tape that it is read from.
pub(crate) fn queue_all(
    site: &ValidSite,
    history: &KeptHistory,
    tapes: &TapeTable,
    recalls: &mut JobQueues,
    number: u32,
    files: &[u32],
)
    requires puts { AllByRecursion (λ (f : ℕ). is_put (entry_of history.now.value f) ≡ true) files.now }
    requires once { AreOnce files.now }
    requires keys { (f : ℕ) (p : Place) → slice_get (sources_in tapes.now.value f) 0 ≡ Some p → p.tape < length recalls.old.value }
    requires room { length files.now ≤ recalls.old.room }
    requires lacks { (f k : ℕ) → has_job (recall_job number f) (jobs_of (lines_in recalls.old.value k)) ≡ false }
    requires small { (f : ℕ) → size_of history.now.value f ≤ 2147483648 }
    requires fits { (k : ℕ) → bytes_of (lines_in recalls.old.value k) + 2147483648 * length files.now < 2 ^ 64 }
    ensures lines { (k : ℕ) → lines_in recalls.new.value k ≡ add_recalls site.now history.now.value tapes.now.value number files.now (lines_in recalls.old.value) k }
    ensures keys { length recalls.new.value ≡ length recalls.old.value }
{
    for at in (0..files.len()).rev() {
        queue_recall(site, history, tapes, recalls, number, files[at]);
    }
}
