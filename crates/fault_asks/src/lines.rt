// Archive jobs that are put into the queues of their pools.
ghost use Rattle.std.specs.Prelude.{ℕ, ◌≡◌, ◌+◌, ◌*◌, ◌<◌, ◌≤◌, ◌^◌, length, false};
ghost use Rattle.std.specs.List.{AllByRecursion};
ghost use Rattle.cta_model.specs.declared.asks.Direction.TheVariants as direction;
ghost use Rattle.cta_model.specs.Answers.{names_twice};
ghost use Rattle.cta_model.specs.Files.{size_of};
ghost use Rattle.job_queues.specs.Waiting.{bytes_of};
ghost use Rattle.part_model.specs.Queues.{lines_in};
ghost use Rattle.part_laws.specs.Lines.{add_jobs};
ghost use Rattle.fault_asks.specs.Retrying.{CanQueue};

use cta_model::Job;
use cta_site::ValidSite;
use job_queues::JobQueues;
use kept_history::KeptHistory;
use part_moves::queue_write;

// These archive jobs are put into the queues of their pools, the last one first.
pub(crate) fn queue_all(
    site: &ValidSite,
    history: &KeptHistory,
    pools: &mut JobQueues,
    jobs: &[Job],
)
    requires jobs { AllByRecursion (CanQueue site.now history.now.value (lines_in pools.old.value)) jobs.now }
    requires once { names_twice jobs.now ≡ false }
    requires keys { length pools.old.value ≡ length site.now.pools.items }
    requires room { length jobs.now ≤ pools.old.room }
    requires small { (f : ℕ) → size_of history.now.value f ≤ 2147483648 }
    requires fits { (k : ℕ) → bytes_of (lines_in pools.old.value k) + 2147483648 * length jobs.now < 2 ^ 64 }
    ensures lines { (k : ℕ) → lines_in pools.new.value k ≡ add_jobs site.now history.now.value direction.Archive jobs.now (lines_in pools.old.value) k }
    ensures keys { length pools.new.value ≡ length pools.old.value }
{
    for at in (0..jobs.len()).rev() {
        queue_write(site, history, pools, jobs[at]);
    }
}
