// The files that a request was made of.
ghost use Rattle.std.specs.Prelude.{◌≡◌, ◌<◌, List, ℕ, true, IfOk};
ghost use Rattle.std.specs.BTreeSet.{contains_by};
ghost use Rattle.std.specs.Cmp.Lexicographic.{slice_cmp};
ghost use Rattle.std.specs.Ordering.{nat_cmp};
ghost use Rattle.cta_model.specs.History.{has_text};
ghost use Rattle.part_model.specs.Requests.{request_in};
ghost use Rattle.part_laws.specs.BufferCalls.{files_where};

use cta_site::{NoMemory, Text};
use stage_book::StageBook;
use std::alloc::Global;
use std::collections::BTreeSet;

// These paths as a set, in which one is found in logarithmic time. NoMemory gives nothing.
fn known_paths<'p>(alloc: Global, paths: &'p [Text]) -> Result<BTreeSet<&'p [u8]>, NoMemory>
    ensures { IfOk result (λ known. (path : List ℕ) → contains_by (λ k. slice_cmp nat_cmp path k.now) known ≡ has_text path paths.now) }
{
    let mut known = BTreeSet::new(alloc);
    for path in paths {
        known.insert(path.as_bytes())?;
    }
    Ok(known)
}

// The files of a request whose paths are among these, in the order of the request. NoMemory gives nothing.
pub(crate) fn files_at(
    alloc: Global,
    requests: &StageBook,
    id: u32,
    paths: &[Text],
) -> Result<Vec<u32>, NoMemory>
    ensures { IfOk result (λ files. files.items ≡ files_where (λ p. has_text p paths.now) (request_in requests.now id)) }
{
    let known = known_paths(alloc, paths)?;
    let mut files = Vec::new(alloc);
    for at in 0..requests.count(id) {
        if !known.contains(requests.path(id, at)) {
            continue;
        }
        if let Some(file) = requests.file(id, at) {
            files.push(file)?;
        }
    }
    Ok(files)
}

// All files of a request, in its order. NoMemory gives nothing.
pub(crate) fn all_files(alloc: Global, requests: &StageBook, id: u32) -> Result<Vec<u32>, NoMemory>
    ensures { IfOk result (λ files. files.items ≡ files_where (λ p. true) (request_in requests.now id)) }
{
    let mut files = Vec::new(alloc);
    for at in 0..requests.count(id) {
        if let Some(file) = requests.file(id, at) {
            files.push(file)?;
        }
    }
    Ok(files)
}
