// The files that paths name.
ghost use Rattle.std.specs.Prelude.{◌≡◌, ◌<◌, IfOk};
ghost use Rattle.std.specs.List.{filter_map};
ghost use Rattle.part_model.specs.Names.{file_in};
ghost use Rattle.part_model.specs.Requests.{request_in};
ghost use Rattle.cta_model.specs.declared.states.RequestFile.{RequestFile};
ghost use Rattle.stage_book.specs.Reports.{files_of};

use cta_site::{NoMemory, Text};
use path_index::PathIndex;
use stage_book::StageBook;
use std::alloc::Global;

// The files that these paths name, in the order of the paths. NoMemory gives nothing.
pub(crate) fn named_files(
    alloc: Global,
    names: &PathIndex,
    paths: &[Text],
) -> Result<Vec<u32>, NoMemory>
    ensures { IfOk result (λ files. files.items ≡ filter_map (file_in names.now) paths.now) }
{
    let files = paths
        .iter()
        .filter_map(|path| names.file(path.as_bytes()))
        .collect(alloc)?;
    Ok(files)
}

// The files that the paths of a request name, in their order. NoMemory gives nothing.
pub(crate) fn named_now(
    alloc: Global,
    names: &PathIndex,
    requests: &StageBook,
    id: u32,
) -> Result<Vec<u32>, NoMemory>
    ensures { IfOk result (λ files. files.items ≡ filter_map (λ (s : RequestFile). file_in names.now s.path) (files_of (request_in requests.now id))) }
{
    let mut files = Vec::new(alloc);
    for at in 0..requests.count(id) {
        if let Some(file) = names.file(requests.path(id, at)) {
            files.push(file)?;
        }
    }
    Ok(files)
}
