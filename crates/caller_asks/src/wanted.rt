// The files of a request that is made.
ghost use Rattle.std.specs.Prelude.{◌≡◌, [], IfOk, map};
ghost use Rattle.std.specs.List.{filter_map};
ghost use Rattle.cta_model.specs.declared.states.StageFile.{StageFile};
ghost use Rattle.cta_model.specs.Stages.{first_named};
ghost use Rattle.caller_asks.specs.Wanted.{asked_in};

use cta_model::{StageFile, Wanted};
use cta_site::NoMemory;
use path_index::PathIndex;
use std::alloc::Global;
use std::collections::BTreeSet;

// A file as a request is made of it: its path, the file that the path names, and its lifetime or else this one. NoMemory gives
// nothing.
fn asked_file(names: &PathIndex, lifetime: u64, one: &Wanted) -> Result<StageFile, NoMemory>
    ensures { IfOk result (λ file. file ≡ asked_in names.now lifetime one.now) }
{
    let path = one.path.copy()?;
    Ok(StageFile {
        path,
        file: names.file(one.path.as_bytes()),
        lifetime: one.lifetime.unwrap_or(lifetime),
    })
}

// The files that a request for these is made of: each path once, where it is first named. NoMemory gives nothing.
pub(crate) fn asked_files(
    alloc: Global,
    names: &PathIndex,
    lifetime: u64,
    wanted: &[Wanted],
) -> Result<Vec<StageFile>, NoMemory>
    ensures { IfOk result (λ files. files.items ≡ map (asked_in names.now lifetime) (first_named [] wanted.now)) }
{
    let mut seen = BTreeSet::new(alloc);
    let mut files = Vec::new(alloc);
    for one in wanted {
        if !seen.insert(one.path.as_bytes())? {
            continue;
        }
        let file = asked_file(names, lifetime, one)?;
        files.push(file)?;
    }
    Ok(files)
}

// The numbers of the files that the paths of a request named.
pub(crate) fn numbers_of(alloc: Global, files: &[StageFile]) -> Result<Vec<u32>, NoMemory>
    ensures { IfOk result (λ numbers. numbers.items ≡ filter_map (λ (s : StageFile). s.file) files.now) }
{
    let numbers = files.iter().filter_map(|file| file.file).collect(alloc)?;
    Ok(numbers)
}
