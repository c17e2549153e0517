// The archive jobs that are born for the copies of a file that was read.
ghost use Rattle.std.specs.Prelude.{ℕ, ◌≡◌, ◌+◌, ◌*◌, ◌<◌, ◌≤◌, ◌^◌, length, true};
ghost use Rattle.cta_model.specs.declared.asks.Direction.TheVariants as direction;
ghost use Rattle.cta_model.specs.Files.{size_of};
ghost use Rattle.cta_model.specs.History.{entry_of};
ghost use Rattle.job_queues.specs.Waiting.{bytes_of};
ghost use Rattle.kept_history.specs.Puts.{is_put};
ghost use Rattle.part_model.specs.JobBook.{TellSame, bear_jobs};
ghost use Rattle.part_model.specs.JobRows.{book_in};
ghost use Rattle.part_model.specs.Queues.{lines_in};
ghost use Rattle.part_laws.specs.Lines.{add_jobs};
ghost use Rattle.drive_asks.specs.Reading.{CanQueue, born_of};

use cta_model::Job;
use cta_site::ValidSite;
use job_book::JobBook;
use job_queues::JobQueues;
use kept_history::KeptHistory;
use part_moves::queue_write;

// An archive job of each of these copies of a file is born by the entry of this number.
pub(crate) fn bear_all(book: &mut JobBook, number: u32, file: u32, copies: &[u8])
    requires { length copies.now ≤ book.old.room }
    ensures { TellSame (book_in book.new.value) (bear_jobs (born_of number file copies.now) number (book_in book.old.value)) }
{
    for copy in copies {
        book.born(Job {
            birth: number,
            file,
            copy: *copy,
        });
    }
}

// The archive jobs of these copies of a file, born by the entry of this number, are put into the queues of their pools.
pub(crate) fn queue_all(
    site: &ValidSite,
    history: &KeptHistory,
    pools: &mut JobQueues,
    number: u32,
    file: u32,
    copies: &[u8],
)
    requires put { is_put (entry_of history.now.value file) ≡ true }
    requires keys { length pools.old.value ≡ length site.now.pools.items }
    requires room { length copies.now ≤ pools.old.room }
    requires jobs { CanQueue site.now history.now.value (lines_in pools.old.value) number file copies.now }
    requires small { size_of history.now.value file ≤ 2147483648 }
    requires fits { (k : ℕ) → bytes_of (lines_in pools.old.value k) + 2147483648 * length copies.now < 2 ^ 64 }
    ensures lines { (k : ℕ) → lines_in pools.new.value k ≡ add_jobs site.now history.now.value direction.Archive (born_of number file copies.now) (lines_in pools.old.value) k }
    ensures keys { length pools.new.value ≡ length pools.old.value }
    ensures room { pools.old.room ≤ pools.new.room + length copies.now }
{
    let [first, rest @ ..] = copies else {
        return;
    };
    queue_all(site, history, pools, number, file, rest);
    let job = Job {
        birth: number,
        file,
        copy: *first,
    };
    queue_write(site, history, pools, job);
}
