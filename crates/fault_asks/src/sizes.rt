// The bytes of jobs.
ghost use Rattle.std.specs.Prelude.{ℕ, ◌≡◌, ◌+◌, ◌*◌, ◌<◌, ◌≤◌, ◌^◌, length, true};
ghost use Rattle.std.specs.List.{AllByRecursion};
ghost use Rattle.cta_model.specs.declared.asks.Job.{Job};
ghost use Rattle.cta_model.specs.Files.{size_of};
ghost use Rattle.cta_model.specs.History.{entry_of};
ghost use Rattle.cta_laws.specs.Claims.{size_of_jobs};
ghost use Rattle.kept_history.specs.Puts.{is_put};

use cta_model::Job;
use kept_history::KeptHistory;

// The bytes of the files of jobs.
pub(crate) fn bytes_of(history: &KeptHistory, jobs: &[Job]) -> u64
    requires puts { AllByRecursion (λ (j : Job). is_put (entry_of history.now.value j.file) ≡ true) jobs.now }
    requires fits { size_of_jobs history.now.value jobs.now < 2 ^ 64 }
    ensures { result ≡ size_of_jobs history.now.value jobs.now }
{
    let mut bytes = 0;
    for job in jobs {
        bytes += history.sum_of(job.file).len;
    }
    bytes
}
