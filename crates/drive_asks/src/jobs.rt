// Claims and jobs that end.
ghost use Rattle.std.specs.Prelude.{◌≡◌};
ghost use Rattle.cta_model.specs.Mounts.{item_jobs};
ghost use Rattle.part_model.specs.JobBook as said;
ghost use Rattle.part_model.specs.JobBook.{TellSame};
ghost use Rattle.part_model.specs.JobRows.{book_in};

use cta_model::{Item, Job};
use job_book::JobBook;

// The jobs of items are claimed no more.
pub(crate) fn give_back(book: &mut JobBook, items: &[Item])
    ensures { TellSame (book_in book.new.value) (said.give_back_jobs (item_jobs items.now) (book_in book.old.value)) }
{
    for item in items {
        book.give_back(item.job);
    }
}

// Jobs end.
pub(crate) fn end_jobs(book: &mut JobBook, jobs: &[Job])
    ensures { TellSame (book_in book.new.value) (said.end_jobs jobs.now (book_in book.old.value)) }
{
    for job in jobs {
        book.end(*job);
    }
}
