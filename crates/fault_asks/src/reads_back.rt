// Recalls that wait again.
ghost use Rattle.std.specs.Prelude.{ℕ, ◌≡◌, ◌+◌, ◌*◌, ◌<◌, ◌≤◌, ◌^◌, Some, length, false, true, slice_get};
ghost use Rattle.cta_model.specs.declared.asks.Direction.TheVariants as direction;
ghost use Rattle.cta_model.specs.declared.states.Place.{Place};
ghost use Rattle.cta_model.specs.Files.{size_of};
ghost use Rattle.cta_model.specs.History.{entry_of};
ghost use Rattle.cta_model.specs.Mounts.{has_job};
ghost use Rattle.job_queues.specs.Waiting.{bytes_of, jobs_of};
ghost use Rattle.kept_history.specs.Puts.{is_put};
ghost use Rattle.part_model.specs.JobRows.{book_in};
ghost use Rattle.part_model.specs.Queues.{add_at, lines_in};
ghost use Rattle.part_laws.specs.Lines as said;
ghost use Rattle.tape_table.specs.Sources.{sources_in};
ghost use Rattle.fault_asks.specs.Failing.{CanQueue, add_by, jobs_live};
ghost use Rattle.fault_asks.specs.Reading.{source_in};

use cta_model::{Direction, Job};
use cta_site::ValidSite;
use job_book::JobBook;
use job_queues::JobQueues;
use kept_history::KeptHistory;
use part_answers::line_of;
use tape_table::TapeTable;

// How many sources a file has, at most 4.
fn source_count(tapes: &TapeTable, file: u32) -> u8
    ensures { result ≡ length (sources_in tapes.now.value file) }
{
    if tapes.place_at(file, 0).is_none() {
        return 0;
    }
    if tapes.place_at(file, 1).is_none() {
        return 1;
    }
    if tapes.place_at(file, 2).is_none() {
        return 2;
    }
    if tapes.place_at(file, 3).is_none() {
        return 3;
    }
    4
}

/// The tape that a recall is read from: that of the source whose number is the number of its charges, counted round. None exactly where its
/// file has no source. In constant time. This project's own.
pub fn source_of(tapes: &TapeTable, book: &JobBook, job: Job) -> Option<u32>
    ensures tape { result ≡ source_in tapes.now.value (book_in book.now.value) job }
{
    let count = source_count(tapes, job.file);
    if count == 0 {
        return None;
    }
    match tapes.place_at(job.file, book.charge_count(job) % count) {
        Some(place) => Some(place.tape),
        None => None,
    }
}

// A recall is put into the queue of the tape that it is read from, where it is not yet.
fn queue_read(
    site: &ValidSite,
    history: &KeptHistory,
    tapes: &TapeTable,
    book: &JobBook,
    recalls: &mut JobQueues,
    job: Job,
)
    requires put { is_put (entry_of history.now.value job.file) ≡ true }
    requires keys { (tape : ℕ) → source_in tapes.now.value (book_in book.now.value) job ≡ Some tape → tape < length recalls.old.value }
    requires room { 0 < recalls.old.room }
    requires lacks { (k : ℕ) → has_job job (jobs_of (lines_in recalls.old.value k)) ≡ false }
    requires fits { (k : ℕ) → bytes_of (lines_in recalls.old.value k) + size_of history.now.value job.file < 2 ^ 64 }
    ensures lines { (k : ℕ) → lines_in recalls.new.value k ≡ add_at (source_in tapes.now.value (book_in book.now.value) job) (said.line_of site.now history.now.value direction.Retrieve job) (lines_in recalls.old.value) k }
    ensures keys { length recalls.new.value ≡ length recalls.old.value }
    ensures room { recalls.old.room ≤ recalls.new.room + 1 }
{
    let Some(key) = source_of(tapes, book, job) else {
        return;
    };
    let line = line_of(site, history, Direction::Retrieve, job);
    recalls.add(key, line);
}

/// Of these recalls those that are live are put into the queues of the tapes that they are read from, each at its place in order of birth.
/// It takes no memory; its cost is the number of recalls, each with the logarithm of the number of lines of its queue. This project's own.
pub fn queue_reads(
    site: &ValidSite,
    history: &KeptHistory,
    tapes: &TapeTable,
    book: &JobBook,
    recalls: &mut JobQueues,
    jobs: &[Job],
)
    requires keys { (f n : ℕ) (p : Place) → slice_get (sources_in tapes.now.value f) n ≡ Some p → p.tape < length recalls.old.value }
    requires room { length jobs.now ≤ recalls.old.room }
    requires jobs { CanQueue site.now history.now.value (book_in book.now.value) (lines_in recalls.old.value) jobs.now }
    requires small { (f : ℕ) → size_of history.now.value f ≤ 2147483648 }
    requires fits { (k : ℕ) → bytes_of (lines_in recalls.old.value k) + 2147483648 * length jobs.now < 2 ^ 64 }
    ensures lines { (k : ℕ) → lines_in recalls.new.value k ≡ add_by (source_in tapes.now.value (book_in book.now.value)) (said.line_of site.now history.now.value direction.Retrieve) (jobs_live (book_in book.now.value) jobs.now) (lines_in recalls.old.value) k }
    ensures keys { length recalls.new.value ≡ length recalls.old.value }
    ensures room { recalls.old.room ≤ recalls.new.room + length jobs.now }
{
    for at in (0..jobs.len()).rev() {
        let job = jobs[at];
        if !book.is_live(job) {
            continue;
        }
        queue_read(site, history, tapes, book, recalls, job);
    }
}
