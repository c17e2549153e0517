// The births of archive jobs.
ghost use Rattle.std.specs.Prelude.{◌≡◌, ◌≤◌, length};
ghost use Rattle.std.specs.List.{AllByRecursion};
ghost use Rattle.cta_model.specs.declared.asks.Job.{Job};
ghost use Rattle.part_model.specs.JobBook.{TellSame, bear_jobs};
ghost use Rattle.part_model.specs.JobRows.{book_in};

use cta_model::Job;
use job_book::JobBook;

// These jobs are born by the entry of this number.
pub(crate) fn bear_all(book: &mut JobBook, number: u32, jobs: &[Job])
    requires births { AllByRecursion (λ (j : Job). j.birth ≡ number) jobs.now }
    requires room { length jobs.now ≤ book.old.room }
    ensures { TellSame (book_in book.new.value) (bear_jobs jobs.now number (book_in book.old.value)) }
{
    for job in jobs {
        book.born(*job);
    }
}
