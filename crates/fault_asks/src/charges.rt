// Jobs that are given back, charged and ended.
ghost use Rattle.std.specs.Prelude.{◌≡◌, ◌+◌, ◌++◌, ◌<◌, ◌≤◌, ◌^◌, ℕ, true, false, length, IfOk};
ghost use Rattle.cta_model.specs.declared.asks.Job.{Job};
ghost use Rattle.cta_model.specs.Answers.{names_twice};
ghost use Rattle.cta_model.specs.Mounts.{has_job};
ghost use Rattle.part_model.specs.JobBook as said;
ghost use Rattle.part_model.specs.JobBook.{TellSame};
ghost use Rattle.part_model.specs.JobRows.{book_in};
ghost use Rattle.fault_asks.specs.Failing.{is_last_in, jobs_ended};

use cta_model::{Charge, Job};
use cta_site::NoMemory;
use job_book::JobBook;
use std::alloc::Global;

// Whether a job is live, and one charge more is its last, where so many charges end a job.
fn is_last(book: &JobBook, tries: u8, job: Job) -> bool
    ensures { result ≡ is_last_in tries (book_in book.now.value) job }
{
    if !book.is_live(job) {
        return false;
    }
    u16::from(tries) <= u16::from(book.charge_count(job)) + 1
}

// Of jobs that are charged once more those that end, where so many charges end a job. NoMemory gives nothing.
pub(crate) fn ended_of(
    alloc: Global,
    book: &JobBook,
    tries: u8,
    jobs: &[Job],
) -> Result<Vec<Job>, NoMemory>
    ensures { IfOk result (λ ended. ended.items ≡ jobs_ended tries (book_in book.now.value) jobs.now) }
{
    let ended = jobs
        .iter()
        .copied()
        .filter(|job| is_last(book, tries, *job))
        .collect(alloc)?;
    Ok(ended)
}

// Jobs are claimed no more.
pub(crate) fn give_back(book: &mut JobBook, jobs: &[Job])
    ensures book { TellSame (book_in book.new.value) (said.give_back_jobs jobs.now (book_in book.old.value)) }
    ensures room { book.old.room ≤ book.new.room }
{
    for job in jobs {
        book.give_back(*job);
    }
}

// Each of these jobs has one charge more.
pub(crate) fn charge_all(book: &mut JobBook, jobs: &[Job], charge: Charge)
    requires room { length jobs.now ≤ book.old.room }
    requires once { names_twice jobs.now ≡ false }
    requires few { (j : Job) → has_job j jobs.now ≡ true → length ((book_in book.old.value).charges j) + 1 < 2 ^ 8 }
    ensures { TellSame (book_in book.new.value) (said.charge_jobs jobs.now charge (book_in book.old.value)) }
{
    for job in jobs {
        book.charge(*job, charge.drive, charge.tape, charge.fault);
    }
}

/// Jobs end: their copies have no live job any more. It takes no memory; its cost is the number of jobs, and of entries that waited for
/// recalls among them. This project's own.
pub fn end_all(book: &mut JobBook, jobs: &[Job])
    ensures { TellSame (book_in book.new.value) (said.end_jobs jobs.now (book_in book.old.value)) }
{
    for job in jobs {
        book.end(*job);
    }
}

// Jobs that a mount gives back: these are charged, of which those end, and those that are returned are not.
pub(crate) fn resolve(
    book: &mut JobBook,
    charge: Charge,
    charged: &[Job],
    returned: &[Job],
    ended: &[Job],
)
    requires room { length charged.now ≤ book.old.room }
    requires once { names_twice charged.now ≡ false }
    requires few { (j : Job) → has_job j charged.now ≡ true → length ((book_in book.old.value).charges j) + 1 < 2 ^ 8 }
    ensures { TellSame (book_in book.new.value) (said.end_jobs ended.now (said.charge_jobs charged.now charge (said.give_back_jobs (charged.now ++ returned.now) (book_in book.old.value)))) }
{
    give_back(book, charged);
    give_back(book, returned);
    charge_all(book, charged, charge);
    end_all(book, ended);
}
