// What is told of files, and of their moments together.
ghost use Rattle.std.specs.Prelude.{◌≡◌, if◌then◌else◌, IfOk};
ghost use Rattle.cta_model.specs.Reports as report;
ghost use Rattle.stage_book.specs.FileRows.{file_of};
ghost use Rattle.stage_book.specs.Reports.{file_told, greatest_told, least_told};

use crate::file_row::FileRow;
use cta_model::StageFileInfo;
use cta_site::{NoMemory, Text};

// A text where there is one, once more.
fn copy_text(text: &Option<Text>) -> Result<Option<Text>, NoMemory>
    ensures { IfOk result (λ told. told ≡ text.now) }
{
    match text {
        Some(text) => {
            let copy = text.copy()?;
            Ok(Some(copy))
        }
        None => Ok(None),
    }
}

// What is told of a file of this path. NoMemory gives nothing. Its cost is the length of the path and of the error.
pub(crate) fn tell(path: &String, row: &FileRow) -> Result<StageFileInfo, NoMemory>
    ensures { IfOk result (λ told. told ≡ file_told (file_of (path.now, row.now))) }
{
    let path = path.clone()?;
    let error = copy_text(&row.error)?;
    Ok(StageFileInfo {
        path: Text::of(path),
        state: row.state,
        on_disk: false,
        started_at: row.started,
        finished_at: row.finished,
        error,
    })
}

// The earlier of two moments that may be missing.
fn earlier(first: Option<u64>, second: Option<u64>) -> Option<u64>
    ensures { result ≡ report.earlier_of first second }
{
    match first {
        None => second,
        Some(a) => match second {
            None => Some(a),
            Some(b) => Some(a.min(b)),
        },
    }
}

// The later of two moments, missing where one of them is; the first where there is no other.
fn later(first: Option<u64>, second: Option<u64>, alone: bool) -> Option<u64>
    ensures { result ≡ (if alone then first else report.later_of first second) }
{
    if alone {
        return first;
    }
    match first {
        None => None,
        Some(a) => match second {
            None => None,
            Some(b) => Some(a.max(b)),
        },
    }
}

// The least start of files.
pub(crate) fn least_start(files: &[StageFileInfo]) -> Option<u64>
    ensures { result ≡ least_told files.now }
{
    let mut least = None;
    for at in (0..files.len()).rev() {
        least = earlier(files[at].started_at, least);
    }
    least
}

// The greatest finish of files, once all have one.
pub(crate) fn greatest_finish(files: &[StageFileInfo]) -> Option<u64>
    ensures { result ≡ greatest_told files.now }
{
    let mut greatest = None;
    for at in (0..files.len()).rev() {
        greatest = later(files[at].finished_at, greatest, at + 1 == files.len());
    }
    greatest
}
