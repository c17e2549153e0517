// The lines and the pools of jobs.
ghost use Rattle.std.specs.Prelude.{◌≡◌, ◌≤◌, option_copied, true};
ghost use Rattle.cta_model.specs.Files.{copies_of_file};
ghost use Rattle.cta_model.specs.History.{entry_of};
ghost use Rattle.cta_model.specs.Policies.{age_in, priority_in};
ghost use Rattle.cta_model.specs.Queues.{pool_of_job};
ghost use Rattle.kept_history.specs.Puts.{is_put};
ghost use Rattle.part_laws.specs.Lines.{line_of};

use cta_model::{Direction, Job};
use cta_site::{Policy, ValidSite};
use kept_history::KeptHistory;
use part_model::Line;

// A policy's priority for a direction, 0 where there is no policy.
fn priority_in(direction: Direction, policy: Option<&Policy>) -> u32
    ensures { result ≡ priority_in direction (option_copied policy.entry) }
{
    match policy {
        None => 0,
        Some(policy) => match direction {
            Direction::Archive => policy.archive_priority,
            Direction::Retrieve => policy.retrieve_priority,
        },
    }
}

// A policy's least age for a direction, in seconds, 0 where there is no policy.
fn age_in(direction: Direction, policy: Option<&Policy>) -> u64
    ensures { result ≡ age_in direction (option_copied policy.entry) }
{
    match policy {
        None => 0,
        Some(policy) => match direction {
            Direction::Archive => policy.archive_min_age,
            Direction::Retrieve => policy.retrieve_min_age,
        },
    }
}

/// A job as a queue of its direction keeps it: with the length of its file in bytes, the moment of its birth in seconds since
/// 1970, and the priority and the least age in seconds that its policy gives it. The file has its Put. Its cost is that of
/// `KeptHistory::policy_of`. CTA.
pub fn line_of(site: &ValidSite, history: &KeptHistory, direction: Direction, job: Job) -> Line
    requires put { is_put (entry_of history.now.value job.file) ≡ true }
    ensures { result ≡ line_of site.now history.now.value direction job }
{
    let policy = history.policy_of(site, job.birth);
    Line {
        job,
        len: history.sum_of(job.file).len,
        born: history.born_at(job.birth),
        priority: priority_in(direction, policy),
        age: age_in(direction, policy),
    }
}

/// The number of the pool that an archive job is written to: that to which the site routes the class of the file's path and
/// the copy. None where the path has no class. Its cost is that of `ValidSite::class_of` and `ValidSite::pool_of`. CTA.
pub fn pool_of_job(site: &ValidSite, history: &KeptHistory, job: Job) -> Option<u32>
    requires from { 1 ≤ job.copy }
    requires to { job.copy ≤ copies_of_file site.now history.now.value job.file }
    ensures { result ≡ pool_of_job site.now history.now.value job }
{
    site.numbers_are_known();
    let class = site.class_of(history.path_of(job.file))?;
    Some(site.pool_of(class, job.copy))
}
