// What the state tells of failed copies.
ghost use Rattle.std.specs.Prelude.{◌≡◌, ◌<◌, ◌^◌, [], IfOk, false, is_none, length, map};
ghost use Rattle.std.specs.List.{list_any};
ghost use Rattle.cta_model.specs.Answers as said;
ghost use Rattle.cta_model.specs.Bare.{bare_copy};
ghost use Rattle.cta_model.specs.Files.{live_file, path_of};
ghost use Rattle.cta_model.specs.Reports.{failed_copies};
ghost use Rattle.part_laws.specs.Files.{files_of};
ghost use Rattle.part_laws.specs.Reports.{failed_copy_told};
ghost use Rattle.fault_asks.specs.Retrying.{AreCopies};

use crate::charges::errors_of;
use crate::state::ArchiveState;
use archive_parts::ArchiveParts;
use blob::Told;
use cta_model::{Ask, FailedCopy, Job};
use cta_site::{NoMemory, Rows, Text, ValidSite};
use fault_asks::retried_jobs;
use kept_history::KeptHistory;
use part_laws::{parts_tell_looks, parts_tell_operators};
use std::alloc::Global;

// The path that a file was put under, empty where there is no such file. NoMemory gives nothing.
fn path_text(alloc: Global, history: &KeptHistory, file: u32) -> Result<Text, NoMemory>
    ensures { IfOk result (λ path. path ≡ path_of history.now.value file) }
{
    match history.entry(file) {
        Some(entry) => match &entry.ask {
            Ask::Put { path, .. } => path.copy(),
            _ => Ok(Text::of(String::new(alloc))),
        },
        None => Ok(Text::of(String::new(alloc))),
    }
}

// What is told of a failed copy. NoMemory gives nothing.
fn tell_copy(
    alloc: Global,
    site: &ValidSite,
    history: &KeptHistory,
    parts: &ArchiveParts,
    job: Job,
) -> Result<FailedCopy, NoMemory>
    ensures { IfOk result (λ told. bare_copy told ≡ failed_copy_told site.now parts.now.book.value (files_of history.now.value) job) }
{
    let path = path_text(alloc, history, job.file)?;
    let errors = errors_of(alloc, site, &parts.book, job.file, job.copy)?;
    Ok(FailedCopy {
        path,
        copy: job.copy,
        errors,
    })
}

// What is told of all failed copies, in order of file and copy. NoMemory gives nothing.
fn tell_copies(
    alloc: Global,
    site: &ValidSite,
    history: &KeptHistory,
    parts: &ArchiveParts,
) -> Result<Rows<FailedCopy>, NoMemory>
    requires { AreCopies parts.now.failed.value }
    ensures { IfOk result (λ copies. map bare_copy copies.items ≡ map (failed_copy_told site.now parts.now.book.value (files_of history.now.value)) parts.now.failed.value) }
{
    let mut copies = Vec::new(alloc);
    let mut next = parts.failed.first();
    while let Some(job) = next {
        let told = tell_copy(alloc, site, history, parts, job)?;
        copies.push(told)?;
        next = parts.failed.after(job);
    }
    Ok(Rows::of(copies))
}

impl<M: Told + Drop> ArchiveState<M> {
    /// What is told of the failed copies of all live files, in order of file and copy: each with the path of its file and the errors of its
    /// last job, which are its charges in order. NoMemory gives nothing. Its cost is the length of the paths and errors, and for each
    /// copy the logarithm of the number of failed copies.
    pub fn failed_list(&self) -> Result<Rows<FailedCopy>, NoMemory>
        ensures { IfOk result (λ copies. map bare_copy copies.items ≡ failed_copies self.now.site self.now.history) }
    {
        parts_tell_looks();
        tell_copies(self.alloc, self.site.site(), &self.history, &self.parts)
    }

    /// Whether one of these paths names no file. Its cost is the length of the paths.
    pub fn lacks_file(&self, paths: &[Text]) -> bool
        ensures { result ≡ list_any (λ path. is_none (live_file self.now.history path)) paths.now }
    {
        paths
            .iter()
            .any(|path| self.live_file(path.as_bytes()).is_none())
    }

    /// How many jobs a Retry of these paths bears, each of which names a file: one for each failed copy of these files. NoMemory gives
    /// nothing. Its cost is the length of the paths, for each path the logarithm of their number, and for each job the logarithm of the
    /// number of failed copies.
    pub fn retried_count(&self, paths: &[Text]) -> Result<u64, NoMemory>
        requires { list_any (λ path. is_none (live_file self.now.history path)) paths.now ≡ false }
        ensures count { IfOk result (λ count. count ≡ length (said.retried_jobs self.now.site self.now.history [] paths.now)) }
        ensures few { IfOk result (λ count. count < 2 ^ 63) }
    {
        parts_tell_operators();
        let number = self.history.next_number();
        let jobs = retried_jobs(
            self.alloc,
            &self.parts.names,
            &self.parts.failed,
            number,
            paths,
        )?;
        Ok(jobs.as_slice().len() as u64)
    }
}
