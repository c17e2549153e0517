// Archive jobs that wait again.
ghost use Rattle.std.specs.Prelude.{ℕ, ◌≡◌, ◌+◌, ◌*◌, ◌<◌, ◌≤◌, ◌^◌, length};
ghost use Rattle.std.specs.List.{AllByRecursion};
ghost use Rattle.cta_model.specs.declared.asks.Direction.TheVariants as direction;
ghost use Rattle.cta_model.specs.declared.asks.Job.{Job};
ghost use Rattle.cta_model.specs.Files.{size_of};
ghost use Rattle.cta_model.specs.Queues.{key_of};
ghost use Rattle.job_queues.specs.Waiting.{bytes_of};
ghost use Rattle.part_model.specs.JobRows.{book_in};
ghost use Rattle.part_model.specs.Queues.{lines_in};
ghost use Rattle.part_laws.specs.Lines as said;
ghost use Rattle.fault_asks.specs.Failing.{CanQueue, add_by, jobs_live};

use cta_model::Job;
use cta_site::ValidSite;
use job_book::JobBook;
use job_queues::JobQueues;
use kept_history::KeptHistory;
use part_moves::queue_write;

/// Of these archive jobs those that are live are put into the queues of their pools, each at its place in order of birth. It takes no memory;
/// its cost is the number of jobs, each with the logarithm of the number of lines of its queue. This project's own.
pub fn queue_writes(
    site: &ValidSite,
    history: &KeptHistory,
    book: &JobBook,
    pools: &mut JobQueues,
    jobs: &[Job],
)
    requires keys { length pools.old.value ≡ length site.now.pools.items }
    requires room { length jobs.now ≤ pools.old.room }
    requires writes { AllByRecursion (λ (j : Job). 1 ≤ j.copy) jobs.now }
    requires jobs { CanQueue site.now history.now.value (book_in book.now.value) (lines_in pools.old.value) jobs.now }
    requires small { (f : ℕ) → size_of history.now.value f ≤ 2147483648 }
    requires fits { (k : ℕ) → bytes_of (lines_in pools.old.value k) + 2147483648 * length jobs.now < 2 ^ 64 }
    ensures lines { (k : ℕ) → lines_in pools.new.value k ≡ add_by (key_of site.now history.now.value) (said.line_of site.now history.now.value direction.Archive) (jobs_live (book_in book.now.value) jobs.now) (lines_in pools.old.value) k }
    ensures keys { length pools.new.value ≡ length pools.old.value }
    ensures room { pools.old.room ≤ pools.new.room + length jobs.now }
{
    for at in (0..jobs.len()).rev() {
        let job = jobs[at];
        if !book.is_live(job) {
            continue;
        }
        queue_write(site, history, pools, job);
    }
}
