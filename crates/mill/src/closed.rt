// What is read in the closed archive.
ghost use Rattle.std.specs.Prelude.{◌≡◌, ◌≤◌, length, map, true, IfOk, IfSome};
ghost use Rattle.std.specs.List.{range_with_len};
ghost use Rattle.cta_site.specs.Listed.{rows};
ghost use Rattle.cta_model.specs.declared.asks.Look.TheVariants as look;
ghost use Rattle.cta_model.specs.Looks.{look_answer_of};
ghost use Rattle.load_mill.specs.Files.{file_path};
ghost use Rattle.mill_history.specs.Reports.{IsCompleted, IsKept};
ghost use Rattle.mill.specs.Milled.{IsMilled, last_phase};

use archive::Archive;
use blob::Sum256;
use cta_model::{Look, NoMemory, Told};
use mill_crew::file_paths;
use mill_history::{Tally, read_history, tells_completed, tells_kept};
use std::alloc::Global;

// The number of the last phase, which is the moment of these looks.
const LAST_PHASE: u64 = 5;

// Whether the report of the request has each file completed.
fn is_completed<M: Told + Drop>(
    archive: &Archive<M>,
    request: u32,
    files: u32,
) -> Result<bool, NoMemory>
    ensures { IfOk result (λ b. b ≡ true → IsCompleted (look_answer_of archive.now.site archive.now.history last_phase (look.StageInfo request)) files) }
{
    let look = Look::StageInfo { id: request };
    let (answer, _) = archive.look(LAST_PHASE, &look)?;
    Ok(tells_completed(&answer, files))
}

// Whether each file is on disk and on tape.
fn is_kept<M: Told + Drop>(
    alloc: Global,
    archive: &Archive<M>,
    files: u32,
) -> Result<bool, NoMemory>
    ensures { IfOk result (λ b. b ≡ true → IsKept (look_answer_of archive.now.site archive.now.history last_phase (look.ArchiveInfo (rows (map file_path (range_with_len 0 files))))) files) }
{
    let paths = file_paths(alloc, files)?;
    let look = Look::ArchiveInfo { paths };
    let (answer, _) = archive.look(LAST_PHASE, &look)?;
    Ok(tells_kept(&answer, files))
}

// Reads the archive of a mill whose files have these sums. It is None where the history is not that of a mill that was run to its end.
pub(crate) fn read_closed<M: Told + Drop>(
    alloc: Global,
    archive: &Archive<M>,
    sums: &[Sum256],
) -> Result<Option<Tally>, NoMemory>
    requires { length sums.now ≤ 1000000 }
    ensures { IfOk result (λ o. IfSome o (λ t. IsMilled archive.now.site archive.now.history sums.now t.archived t.recalled)) }
{
    let files = sums.len() as u32;
    let Some(found) = read_history(alloc, archive.entries(), sums)? else {
        return Ok(None);
    };
    if is_completed(archive, found.request, files)? && is_kept(alloc, archive, files)? {
        Ok(Some(found))
    } else {
        Ok(None)
    }
}
