// The record of the last entry.
ghost use Rattle.std.specs.Prelude.{◌≡◌, ◌+◌, ◌∷◌, IfOk, length, option_map};
ghost use Rattle.cta_model.specs.declared.entries.Entry.{Entry};
ghost use Rattle.cta_model.specs.Bare.{bare_entry};
ghost use Rattle.cta_model.specs.Hands.{sum_of_blob};
ghost use Rattle.cta_model.specs.History.{History};
ghost use Rattle.part_laws.specs.Contents.{content_of};
ghost use Rattle.durable_archive.specs.Last.{LastHas, RecalledHas};
ghost use Rattle.durable_archive.specs.Records.{IsLastKept, IsRecordOf};

use archive::Archive;
use blob::Blob;
use cta_model::{Answer, Ask, Entry, Fate, NoMemory, Told};
use cta_records::{Kept, copy_entry};
use std::alloc::Global;
use std::sync::Arc;

// A second owner of the content of a file, where the file is in the buffer.
fn content_copy<M: Told + Drop>(
    archive: &Archive<M>,
    file: u32,
) -> Result<Option<Arc<Blob>>, NoMemory>
    ensures { IfOk result (λ copy. option_map sum_of_blob copy ≡ content_of archive.now.history file) }
{
    match archive.content(file) {
        Some(content) => Ok(Some(content.clone()?)),
        None => Ok(None),
    }
}

// The content that the record of a Recalled of this file has, which was answered so.
fn recalled_content<M: Told + Drop>(
    archive: &Archive<M>,
    file: u32,
    answer: &Answer,
) -> Result<Option<Arc<Blob>>, NoMemory>
    ensures { IfOk result (RecalledHas archive.now.history file answer.now) }
{
    match answer {
        Answer::Arrived { fate: Fate::Done } => content_copy(archive, file),
        _ => Ok(None),
    }
}

// The content that the record of the last entry has, which is of this number.
fn last_content<M: Told + Drop>(
    archive: &Archive<M>,
    number: u32,
    entry: &Entry,
) -> Result<Option<Arc<Blob>>, NoMemory>
    ensures { IfOk result (LastHas archive.now.history number entry.now.ask entry.now.answer) }
{
    match &entry.ask {
        Ask::Put { .. } => content_copy(archive, number),
        Ask::Recalled { job, .. } => recalled_content(archive, job.file, &entry.answer),
        _ => Ok(None),
    }
}

// The record of the last entry, if there is one, of these.
fn kept_of<M: Told + Drop>(
    alloc: Global,
    archive: &Archive<M>,
    number: u32,
    entry: &Entry,
) -> Result<Kept, NoMemory>
    requires { (e : Entry) (h : History) → archive.now.history ≡ e ∷ h → (bare_entry entry.now ≡ e) × (number ≡ length h + 1) }
    ensures { (e : Entry) (h : History) → archive.now.history ≡ e ∷ h → IfOk result (IsRecordOf h e) }
{
    archive.keeps_history();
    let blob = last_content(archive, number, entry)?;
    let entry = copy_entry(alloc, entry)?;
    Ok(Kept { entry, blob })
}

/// The last entry of an archive's history, with the content that its record has: that of a Put, and that of the file of a Recalled which
/// was told Done. None exactly where the history is empty. Its cost is the length of the entry's record without its content.
pub fn last_kept<M: Told + Drop>(
    alloc: Global,
    archive: &Archive<M>,
) -> Result<Option<Kept>, NoMemory>
    ensures { IfOk result (IsLastKept archive.now.history) }
{
    let number = archive.entries().len() as u32;
    match archive.entries().last() {
        Some(entry) => Ok(Some(kept_of(alloc, archive, number, entry)?)),
        None => Ok(None),
    }
}
