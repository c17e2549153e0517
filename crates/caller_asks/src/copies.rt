// The archive jobs of a new file.
ghost use Rattle.std.specs.Prelude.{ℕ, ◌≡◌, ◌+◌, ◌*◌, ◌<◌, ◌≤◌, ◌^◌, length, true, false};
ghost use Rattle.cta_model.specs.declared.asks.Direction.TheVariants as direction;
ghost use Rattle.cta_model.specs.Files.{copies_of_file, size_of};
ghost use Rattle.cta_model.specs.History.{entry_of};
ghost use Rattle.cta_model.specs.Mounts.{has_job, job_of};
ghost use Rattle.kept_history.specs.Puts.{is_put};
ghost use Rattle.part_model.specs.JobBook.{TellSame, bear_jobs};
ghost use Rattle.part_model.specs.JobRows.{book_in};
ghost use Rattle.part_model.specs.Queues.{lines_in};
ghost use Rattle.part_laws.specs.Queued.{put_jobs};
ghost use Rattle.part_laws.specs.Lines.{add_jobs};
ghost use Rattle.job_queues.specs.Waiting.{bytes_of, jobs_of};

use cta_model::Job;
use cta_site::ValidSite;
use job_book::JobBook;
use job_queues::JobQueues;
use kept_history::KeptHistory;
use part_moves::queue_write;

// An archive job for each copy of a file is born by the entry that put it.
pub(crate) fn bear_copies(book: &mut JobBook, file: u32, copies: u8)
    requires { copies ≤ book.old.room }
    ensures book { TellSame (book_in book.new.value) (bear_jobs (put_jobs file copies) file (book_in book.old.value)) }
    ensures room { book.old.room ≤ book.new.room + copies }
{
    if copies == 0 {
        return;
    }
    bear_copies(book, file, copies - 1);
    book.born(Job {
        birth: file,
        file,
        copy: copies,
    });
}

// The archive jobs of a file that was just put are put into the queues of their pools.
pub(crate) fn queue_copies(
    site: &ValidSite,
    history: &KeptHistory,
    pools: &mut JobQueues,
    file: u32,
    copies: u8,
)
    requires put { is_put (entry_of history.now.value file) ≡ true }
    requires copies { copies ≤ copies_of_file site.now history.now.value file }
    requires keys { length pools.old.value ≡ length site.now.pools.items }
    requires room { copies ≤ pools.old.room }
    requires lacks { (c k : ℕ) → c ≤ copies → has_job (job_of file file c) (jobs_of (lines_in pools.old.value k)) ≡ false }
    requires small { size_of history.now.value file ≤ 2147483648 }
    requires fits { (k : ℕ) → bytes_of (lines_in pools.old.value k) + 2147483648 * copies < 2 ^ 64 }
    ensures lines { (k : ℕ) → lines_in pools.new.value k ≡ add_jobs site.now history.now.value direction.Archive (put_jobs file copies) (lines_in pools.old.value) k }
    ensures keys { length pools.new.value ≡ length pools.old.value }
{
    if copies == 0 {
        return;
    }
    let job = Job {
        birth: file,
        file,
        copy: copies,
    };
    queue_write(site, history, pools, job);
    queue_copies(site, history, pools, file, copies - 1);
}
