// What goes in with an ask.
ghost use Rattle.std.specs.Prelude.{◌≡◌, IfOk, IfSome, IsNone, Option, option_map};
ghost use Rattle.cta_model.specs.declared.answers.Answer.{Answer};
ghost use Rattle.cta_model.specs.declared.asks.Ask.TheVariants as ask;
ghost use Rattle.cta_model.specs.declared.asks.Fault.{Fault};
ghost use Rattle.cta_model.specs.Hands.{HandIn, sum_of_blob};
ghost use Rattle.cta_model.specs.Legal.{IsFit};
ghost use Rattle.archive_turns.specs.Fits.{IsOpenAtEnd};
ghost use Rattle.archive_restore.specs.Asked.{IsRecalledHand, IsRefused};
ghost use Rattle.archive_restore.specs.Contents.{AreContents, content_at, content_sum};

use crate::contents::content_of;
use crate::label::Label;
use archive::Archive;
use blob::Blob;
use cta_model::{Ask, Hand, NoMemory, Told};
use std::alloc::Global;
use std::sync::Arc;

// The hand of a Put: its content.
fn put_hand<M: Told + Drop>(blob: Option<Arc<Blob, Global>>) -> Option<Hand<M>>
    ensures { result ≡ option_map (λ content. Hand.Blob content) blob }
{
    match blob {
        Some(content) => Some(Hand::Blob(content)),
        None => None,
    }
}

// The hand of a Recalled of this file: its own content, or that of the file's Put where it has none of its own.
fn recalled_hand<M: Told + Drop>(
    contents: &[Option<Arc<Blob, Global>>],
    file: u32,
    blob: Option<Arc<Blob, Global>>,
) -> Result<Option<Hand<M>>, NoMemory>
    ensures { IfOk result (IsRecalledHand (content_at contents.now file) blob) }
{
    let Some(first) = content_of(contents, file) else {
        return Ok(None);
    };
    match blob {
        Some(own) => Ok(Some(Hand::Blob(own))),
        None => Ok(Some(Hand::Blob(first.clone()?))),
    }
}

// The hand of an End: a label of the tape of its mount, where this is open.
fn end_hand(archive: &Archive<Label>, mount: u32) -> Option<Hand<Label>>
    ensures hand { (fault : Option Fault) → IfSome result (HandIn ⟦<Label as Told>⟧.told archive.now.history (ask.End mount fault)) }
    ensures none { (fault : Option Fault) → IsFit archive.now.site archive.now.history (ask.End mount fault) → IsOpenAtEnd archive.now.history (ask.End mount fault) → IsNone result → ⊥ }
{
    match archive.mount(mount) {
        Some(mount) => Some(Hand::Medium(Label { tape: mount.tape })),
        None => None,
    }
}

// The hand that goes in with an ask, of which none is there only where the ask is refused. A record's own content is that of a Put, and
// of a Recalled that was told Done; a Recalled that was told Stale brings the content of its file's Put.
pub(crate) fn hand_for(
    archive: &Archive<Label>,
    contents: &[Option<Arc<Blob, Global>>],
    ask: &Ask,
    blob: Option<Arc<Blob, Global>>,
) -> Result<Option<Hand<Label>>, NoMemory>
    requires contents { AreContents archive.now.history contents.now }
    ensures hand { (a : Answer) → option_map sum_of_blob blob ≡ content_sum archive.now.history ask.now a → IfOk result (λ hand. IfSome hand (HandIn ⟦<Label as Told>⟧.told archive.now.history ask.now)) }
    ensures none { (a : Answer) → option_map sum_of_blob blob ≡ content_sum archive.now.history ask.now a → IsFit archive.now.site archive.now.history ask.now → IsOpenAtEnd archive.now.history ask.now
        → IfOk result (λ hand. IsNone hand → IsRefused archive.now.site archive.now.history ask.now) }
{
    archive.keeps_history();
    match ask {
        Ask::Put { .. } => Ok(put_hand(blob)),
        Ask::Recalled { job, .. } => recalled_hand(contents, job.file, blob),
        Ask::End { mount, .. } => Ok(end_hand(archive, *mount)),
        _ => Ok(Some(Hand::Nothing)),
    }
}
