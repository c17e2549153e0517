// The contents of the files, by the numbers of their Puts.
ghost use Rattle.std.specs.Prelude.{◌≡◌, ℕ, IfOk, Some, option_map};
ghost use Rattle.std.specs.Bool.{Decides};
ghost use Rattle.cta_model.specs.declared.asks.Ask.TheVariants as ask;
ghost use Rattle.cta_model.specs.declared.asks.Job.{Job};
ghost use Rattle.cta_model.specs.History.{History};
ghost use Rattle.cta_model.specs.Hands.{sum_of_blob};
ghost use Rattle.archive_restore.specs.Contents.{AreContents, HasContent, HasSumOf, IsPutContent, content_at};

use blob::{Blob, Sum256};
use cta_model::{Answer, Ask, Fate, NoMemory};
use std::alloc::Global;
use std::sync::Arc;

// The content of a file.
pub(crate) fn content_of(
    contents: &[Option<Arc<Blob, Global>>],
    file: u32,
) -> Option<&Arc<Blob, Global>>
    ensures { option_map (λ content. content.now) result ≡ content_at contents.now file }
{
    match contents.get(file as usize) {
        Some(Some(content)) => Some(content),
        _ => None,
    }
}

// What is to be kept for the entry of an ask: the content of a Put.
pub(crate) fn put_content(
    ask: &Ask,
    blob: &Option<Arc<Blob, Global>>,
) -> Result<Option<Arc<Blob, Global>>, NoMemory>
    ensures { IfOk result (λ kept. IsPutContent ask.now blob.now kept) }
{
    match (ask, blob) {
        (Ask::Put { .. }, Some(blob)) => Ok(Some(blob.clone()?)),
        _ => Ok(None),
    }
}

// Whether a content is there and has this sum.
fn has_sum(blob: &Option<Arc<Blob, Global>>, sum: &Sum256) -> bool
    ensures { Decides result (option_map sum_of_blob blob.now ≡ Some sum.now) }
{
    match blob {
        Some(blob) => blob.sum() == *sum,
        None => false,
    }
}

// Whether a content is there and has the sum of this file's; of a file that was not put it says nothing.
fn has_sum_of(
    contents: &[Option<Arc<Blob, Global>>],
    file: u32,
    blob: &Option<Arc<Blob, Global>>,
) -> bool
    ensures { (h : History) → AreContents h contents.now → HasSumOf result h file (option_map sum_of_blob blob.now) }
{
    match content_of(contents, file) {
        Some(content) => has_sum(blob, &content.sum()),
        None => false,
    }
}

// Whether the record of a Recalled of this file has exactly the content that it is to have.
fn recalled_has(
    contents: &[Option<Arc<Blob, Global>>],
    file: u32,
    answer: &Answer,
    blob: &Option<Arc<Blob, Global>>,
) -> bool
    ensures { (h : History) (m : ℕ) (job : Job) → AreContents h contents.now → job.file ≡ file → HasContent result h (ask.Recalled m job) answer.now (option_map sum_of_blob blob.now) }
{
    match answer {
        Answer::Arrived { fate: Fate::Done } => has_sum_of(contents, file, blob),
        _ => blob.is_none(),
    }
}

// Whether the record of an entry has exactly the content that it is to have.
pub(crate) fn has_content(
    contents: &[Option<Arc<Blob, Global>>],
    ask: &Ask,
    answer: &Answer,
    blob: &Option<Arc<Blob, Global>>,
) -> bool
    ensures { (h : History) → AreContents h contents.now → HasContent result h ask.now answer.now (option_map sum_of_blob blob.now) }
{
    match ask {
        Ask::Put { sum, .. } => has_sum(blob, sum),
        Ask::Recalled { job, .. } => recalled_has(contents, job.file, answer, blob),
        _ => blob.is_none(),
    }
}
