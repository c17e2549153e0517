// What looks at a mill's archive tell.
ghost use Rattle.std.specs.Prelude.{◌≡◌, ◌↔◌, IsTrue, Some};
ghost use Rattle.cta_model.specs.declared.reports.FileState.TheVariants as state;
ghost use Rattle.cta_model.specs.declared.reports.Locality.TheVariants as locality;
ghost use Rattle.cta_model.specs.Bare.{bare_answer};
ghost use Rattle.mill_history.specs.Reports.{AreCompleted, AreKept, IsCompleted, IsKept, completed_file, kept_file, placed_file, staged_file};

use crate::paths::is_path_of;
use cta_model::{Answer, FileState, Locality, PlaceInfo, StageFileInfo};

fn is_completed(now: FileState) -> bool
    ensures { IsTrue result ↔ (now ≡ state.Completed) }
{
    now == FileState::Completed
}

fn is_kept(place: Option<Locality>) -> bool
    ensures { IsTrue result ↔ (place ≡ Some locality.DiskAndTape) }
{
    place == Some(Locality::DiskAndTape)
}

// Whether what is told is that the file of this index is completed.
fn is_completed_file(info: &StageFileInfo, k: u32) -> bool
    ensures { IsTrue result ↔ (staged_file info.now ≡ completed_file k) }
{
    is_path_of(info.path.as_bytes(), k) && is_completed(info.state)
}

// Whether what is told is that the file of this index is on disk and on tape.
fn is_kept_file(info: &PlaceInfo, k: u32) -> bool
    ensures { IsTrue result ↔ (placed_file info.now ≡ kept_file k) }
{
    is_path_of(info.path.as_bytes(), k) && is_kept(info.locality)
}

// Whether these are so many files of a mill, in their order, each completed.
fn are_completed(infos: &[StageFileInfo], files: u32) -> bool
    ensures { IsTrue result ↔ AreCompleted infos.now files }
{
    if infos.len() != files as usize {
        return false;
    }
    for at in 0..files {
        let info = &infos[at as usize];
        if !is_completed_file(info, at) {
            return false;
        }
    }
    true
}

// Whether these are so many files of a mill, in their order, each on disk and on tape.
fn are_kept(infos: &[PlaceInfo], files: u32) -> bool
    ensures { IsTrue result ↔ AreKept infos.now files }
{
    if infos.len() != files as usize {
        return false;
    }
    for at in 0..files {
        let info = &infos[at as usize];
        if !is_kept_file(info, at) {
            return false;
        }
    }
    true
}

/// Whether an answer is the report of a stage request with so many files of a mill, in the order of their indices, each
/// COMPLETED. Its cost is the number of files; no memory.
pub fn tells_completed(answer: &Answer, files: u32) -> bool
    ensures { IsTrue result ↔ IsCompleted (bare_answer answer.now) files }
{
    match answer {
        Answer::Stage(info) => are_completed(info.files.as_slice(), files),
        _ => false,
    }
}

/// Whether an answer tells the places of so many files of a mill, in the order of their indices, each DISK_AND_TAPE.
/// Its cost is the number of files; no memory.
pub fn tells_kept(answer: &Answer, files: u32) -> bool
    ensures { IsTrue result ↔ IsKept (bare_answer answer.now) files }
{
    match answer {
        Answer::Places(infos) => are_kept(infos.as_slice(), files),
        _ => false,
    }
}
