// Jobs that are named twice.
ghost use Rattle.std.specs.Prelude.{◌≡◌, ◌++◌};
ghost use Rattle.std.specs.List.{list_any};
ghost use Rattle.cta_model.specs.Answers.{names_twice};
ghost use Rattle.cta_model.specs.Mounts.{has_job, same_job};

use cta_model::Job;

// Whether two jobs are the same.
pub(crate) fn is_same_job(a: Job, b: Job) -> bool
    ensures { result ≡ same_job a b }
{
    a.birth == b.birth && a.file == b.file && a.copy == b.copy
}

// Whether a job is among these.
pub(crate) fn is_among(job: Job, jobs: &[Job]) -> bool
    ensures { result ≡ has_job job jobs.now }
{
    jobs.iter().any(|other| is_same_job(job, *other))
}

// Whether one of these jobs is among the others.
fn have_shared(jobs: &[Job], others: &[Job]) -> bool
    ensures { result ≡ list_any (λ j. has_job j others.now) jobs.now }
{
    jobs.iter().any(|job| is_among(*job, others))
}

// Whether one of these jobs is named twice.
fn has_twice(jobs: &[Job]) -> bool
    ensures { result ≡ names_twice jobs.now }
{
    for at in 0..jobs.len() {
        if is_among(jobs[at], &jobs[at + 1..]) {
            return true;
        }
    }
    false
}

// Whether a job is named twice in two lists together. It takes no memory, and its cost is the square of the number of the jobs.
pub(crate) fn name_twice(jobs: &[Job], others: &[Job]) -> bool
    ensures { result ≡ names_twice (jobs.now ++ others.now) }
{
    if has_twice(jobs) {
        return true;
    }
    if have_shared(jobs, others) {
        return true;
    }
    has_twice(others)
}
