// The failed copies that a Retry names.
ghost use Rattle.std.specs.Prelude.{◌≡◌, ◌++◌, [], Some, IfOk, OnOk};
ghost use Rattle.part_laws.specs.Operators.{retried_told, retried_with};
ghost use Rattle.part_model.specs.Names.{file_in};
ghost use Rattle.fault_asks.specs.Retrying.{AreCopies};

use cta_model::Job;
use cta_site::{NoMemory, Text};
use failed_copies::FailedCopies;
use path_index::PathIndex;
use std::alloc::Global;
use std::collections::BTreeSet;

// Adds a job, born by the entry of this number, for each failed copy of a file.
fn add_copies(
    failed: &FailedCopies,
    number: u32,
    file: u32,
    jobs: &mut Vec<Job>,
) -> Result<(), NoMemory>
    requires { AreCopies failed.now.value }
    ensures { OnOk result (jobs.new.items ≡ jobs.old.items ++ retried_with number failed.now.value (Some file)) }
{
    let mut next = failed.after(Job {
        birth: 0,
        file,
        copy: 0,
    });
    while let Some(job) = next {
        if job.file != file {
            return Ok(());
        }
        jobs.push(Job {
            birth: number,
            file,
            copy: job.copy,
        })?;
        next = failed.after(job);
    }
    Ok(())
}

// Adds a job, born by the entry of this number, for each failed copy of the file that a path names.
fn add_named(
    names: &PathIndex,
    failed: &FailedCopies,
    number: u32,
    path: &[u8],
    jobs: &mut Vec<Job>,
) -> Result<(), NoMemory>
    requires { AreCopies failed.now.value }
    ensures { OnOk result (jobs.new.items ≡ jobs.old.items ++ retried_with number failed.now.value (file_in names.now path.now)) }
{
    match names.file(path) {
        Some(file) => add_copies(failed, number, file, jobs),
        None => Ok(()),
    }
}

/// The jobs that a Retry of these paths bears, where its entry gets this number: one for each failed copy of the files that they name,
/// in the order in which the paths are first named, and by copy for each. NoMemory gives nothing. Its cost is the length of the paths, and
/// for each the logarithm of their number, and for each job the logarithm of the number of failed copies. This project's own.
pub fn retried_jobs(
    alloc: Global,
    names: &PathIndex,
    failed: &FailedCopies,
    number: u32,
    paths: &[Text],
) -> Result<Vec<Job>, NoMemory>
    requires { AreCopies failed.now.value }
    ensures { IfOk result (λ jobs. jobs.items ≡ retried_told names.now failed.now.value number [] paths.now) }
{
    let mut seen = BTreeSet::new(alloc);
    let mut jobs = Vec::new(alloc);
    for path in paths {
        if !seen.insert(path.as_bytes())? {
            continue;
        }
        add_named(names, failed, number, path.as_bytes(), &mut jobs)?;
    }
    Ok(jobs)
}
