// The whole check.
ghost use Rattle.std.specs.Prelude.{◌+◌, ◌<◌, ◌≤◌, ◌^◌, length, IfOk, IfSome};
ghost use Rattle.cta_model.specs.Newest.{history_in};
ghost use Rattle.mill_history.specs.Tallies.{IsTallied};

use crate::counts::{completed_recalls, done_items};
use crate::evictions::evicts_all;
use crate::marks::marks;
use crate::puts::file_puts;
use crate::stages::one_stage;
use cta_model::{Entry, NoMemory, Sum256};
use std::alloc::Global;

/// What the history of a mill's run tells.
#[derive(Clone, Copy)]
pub struct Tally {
    /// The number of the one Stage, which names the request.
    pub request: u32,
    /// How many flushed items of the files were done.
    pub archived: u64,
    /// How many recalls of the files completed.
    pub recalled: u64,
}

/// What the entries of a mill's archive tell, oldest first, of the files with these sums by their indices, at most a
/// million (this project's own). It is None where a file was not put, or more than once, or with another sum; where a
/// path was put that is neither a file's nor `/mill/x`; where `/mill/x` was not put once, or a file was not evicted for
/// it; and where there is not one Stage, or it does not name all files in their order. Its cost is the number of entries
/// and of what stands in them. NoMemory leaves nothing.
pub fn read_history(
    alloc: Global,
    entries: &[Entry],
    sums: &[Sum256],
) -> Result<Option<Tally>, NoMemory>
    requires entries { length entries.now + 1 < 2 ^ 32 }
    requires few { length sums.now ≤ 1000000 }
    ensures { IfOk result (λ o. IfSome o (λ t. IsTallied (history_in entries.now) sums.now t.request t.archived t.recalled)) }
{
    let Some(request) = one_stage(entries, sums.len() as u32) else {
        return Ok(None);
    };
    let Some(numbers) = file_puts(alloc, entries, sums)? else {
        return Ok(None);
    };
    if !evicts_all(alloc, entries, &numbers)? {
        return Ok(None);
    }
    let Some(files) = marks(alloc, &numbers, entries.len() + 1)? else {
        return Ok(None);
    };
    let Some(archived) = done_items(entries, &files) else {
        return Ok(None);
    };
    let recalled = completed_recalls(entries, &files);
    Ok(Some(Tally {
        request,
        archived,
        recalled,
    }))
}
