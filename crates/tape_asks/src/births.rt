// Jobs that are born by a repack, and recalls that it joins.
ghost use Rattle.std.specs.Prelude.{◌≡◌, ◌+◌, ◌<◌, ◌≤◌, length};
ghost use Rattle.part_model.specs.JobBook.{TellSame, bear_jobs, subscribe_files};
ghost use Rattle.part_model.specs.JobRows.{book_in};
ghost use Rattle.tape_asks.specs.Lists.{AreOnce};

use cta_model::Job;
use job_book::JobBook;

// The entry of this number waits for the live recalls of these files too.
pub(crate) fn join_all(book: &mut JobBook, number: u32, files: &[u32])
    requires once { AreOnce files.now }
    requires room { length files.now ≤ book.old.room }
    ensures book { TellSame (book_in book.new.value) (subscribe_files files.now number (book_in book.old.value)) }
    ensures room { book.old.room ≤ book.new.room + length files.now }
{
    for at in (0..files.len()).rev() {
        book.subscribe(files[at], number);
    }
}

// A job of each of these copies is born by the entry of this number.
pub(crate) fn bear_all(book: &mut JobBook, number: u32, jobs: &[Job])
    requires room { length jobs.now ≤ book.old.room }
    ensures book { TellSame (book_in book.new.value) (bear_jobs jobs.now number (book_in book.old.value)) }
    ensures room { book.old.room ≤ book.new.room + length jobs.now }
{
    for at in (0..jobs.len()).rev() {
        let job = jobs[at];
        book.born(Job {
            birth: number,
            file: job.file,
            copy: job.copy,
        });
    }
}
