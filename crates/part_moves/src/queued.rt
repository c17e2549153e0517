// A job that is put into its queue.
ghost use Rattle.std.specs.Prelude.{ℕ, ◌≡◌, ◌+◌, ◌<◌, ◌≤◌, ◌^◌, length, false, true};
ghost use Rattle.cta_model.specs.declared.asks.Direction.TheVariants as direction;
ghost use Rattle.cta_model.specs.Files.{copies_of_file, size_of};
ghost use Rattle.cta_model.specs.History.{entry_of};
ghost use Rattle.cta_model.specs.Mounts.{has_job};
ghost use Rattle.cta_model.specs.Queues.{key_of};
ghost use Rattle.job_queues.specs.Waiting.{bytes_of, jobs_of};
ghost use Rattle.kept_history.specs.Puts.{is_put};
ghost use Rattle.part_model.specs.Queues.{add_at, lines_in};
ghost use Rattle.part_laws.specs.Lines as said;

use cta_model::{Direction, Job};
use cta_site::ValidSite;
use job_queues::JobQueues;
use kept_history::KeptHistory;
use part_answers::{line_of, pool_of_job};

/// An archive job is put into the queue of its pool, where it is not yet. It takes no memory. Its cost is that of `line_of` and
/// `pool_of_job`, and the logarithm of the number of the queue's lines. This project's own.
pub fn queue_write(site: &ValidSite, history: &KeptHistory, pools: &mut JobQueues, job: Job)
    requires put { is_put (entry_of history.now.value job.file) ≡ true }
    requires from { 1 ≤ job.copy }
    requires to { job.copy ≤ copies_of_file site.now history.now.value job.file }
    requires keys { length pools.old.value ≡ length site.now.pools.items }
    requires room { 0 < pools.old.room }
    requires lacks { (k : ℕ) → has_job job (jobs_of (lines_in pools.old.value k)) ≡ false }
    requires fits { (k : ℕ) → bytes_of (lines_in pools.old.value k) + size_of history.now.value job.file < 2 ^ 64 }
    ensures lines { (k : ℕ) → lines_in pools.new.value k ≡ add_at (key_of site.now history.now.value job) (said.line_of site.now history.now.value direction.Archive job) (lines_in pools.old.value) k }
    ensures keys { length pools.new.value ≡ length pools.old.value }
    ensures room { pools.old.room ≤ pools.new.room + 1 }
{
    site.numbers_are_known();
    let Some(key) = pool_of_job(site, history, job) else {
        return;
    };
    let line = line_of(site, history, Direction::Archive, job);
    pools.add(key, line);
}
