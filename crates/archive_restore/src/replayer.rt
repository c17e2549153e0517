// The replay of a log.
ghost use Rattle.std.specs.Prelude.{◌≡◌, ◌≤◌, ◌∷◌, ◌++◌, [], ℕ, IfOk, IfSome, IsErrOf, IsNone, OnOk, false, option_map, true};
ghost use Rattle.cta_model.specs.declared.answers.Answer.{Answer};
ghost use Rattle.cta_model.specs.Bare.{bare_entry};
ghost use Rattle.cta_model.specs.Hands.{HandIn, sum_of_blob};
ghost use Rattle.cta_model.specs.History as histories;
ghost use Rattle.cta_model.specs.Legal.{IsFit, IsNext, greatest_moment};
ghost use Rattle.archive_turns.specs.Fits.{IsOpenAtEnd};
ghost use Rattle.archive_restore.specs.Asked.{CanTake, IsRefused};
ghost use Rattle.archive_restore.specs.Contents.{AreContents, IsPutContent, content_sum};
ghost use Rattle.archive_restore.specs.Logs.{MayFollow};

use crate::asked::hand_for;
use crate::contents::{has_content, put_content};
use crate::error::RestoreError;
use crate::fitting::may_ask;
use crate::label::{Label, labels_of};
use crate::played::{next_number, play};
use archive::Archive;
use blob::Blob;
use cta_model::{Ask, Entry, Hand, NoMemory, Told};
use cta_records::Kept;
use cta_site::ValidSite;
use std::alloc::Global;
use std::hash::RandomState;
use std::sync::Arc;

// The archive so far, with labels for media, and the contents of all its files by the numbers of their Puts. It is let go by a call of its
// own, as an archive is.
pub(crate) struct Replayer {
    pub(crate) archive: Archive<Label>,
    pub(crate) contents: Vec<Option<Arc<Blob, Global>>>,
}

impl Replayer {
    // Nothing is replayed yet.
    pub(crate) fn new(
        alloc: Global,
        site: ValidSite,
        keys: RandomState,
    ) -> Result<Replayer, NoMemory>
        ensures site { IfOk result (λ r. r.archive.site ≡ site) }
        ensures history { IfOk result (λ r. r.archive.history ≡ []) }
        ensures contents { IfOk result (λ r. AreContents r.archive.history r.contents.items) }
    {
        site.keeps_rules();
        let labels = labels_of(alloc, site.tapes().len())?;
        let mut contents = Vec::new(alloc);
        contents.push(None)?;
        let archive = Archive::new(alloc, site, labels, keys)?;
        Ok(Replayer { archive, contents })
    }

    // Whether a record's ask may be made, and it has its content.
    fn may_take(&self, kept: &Kept) -> bool
        requires { AreContents self.now.archive.history self.now.contents.items }
        ensures fits { result ≡ true → CanTake self.now.archive.site self.now.archive.history kept.now }
        ensures wrong { result ≡ false → MayFollow self.now.archive.site self.now.archive.history kept.now → ⊥ }
    {
        self.archive.keeps_history();
        if !may_ask(&self.archive, kept.entry.at, &kept.entry.ask) {
            return false;
        }
        has_content(
            &self.contents,
            &kept.entry.ask,
            &kept.entry.answer,
            &kept.blob,
        )
    }

    // The hand that goes in with an ask, none where the ask is refused; and the content that is to be kept for its entry.
    fn ready(
        &self,
        ask: &Ask,
        blob: Option<Arc<Blob, Global>>,
    ) -> Result<(Option<Hand<Label>>, Option<Arc<Blob, Global>>), NoMemory>
        requires { AreContents self.now.archive.history self.now.contents.items }
        ensures content { IfOk result (λ r. IsPutContent ask.now blob r.1) }
        ensures hand { (a : Answer) → option_map sum_of_blob blob ≡ content_sum self.now.archive.history ask.now a
            → IfOk result (λ r. IfSome r.0 (HandIn ⟦<Label as Told>⟧.told self.now.archive.history ask.now)) }
        ensures none { (a : Answer) → option_map sum_of_blob blob ≡ content_sum self.now.archive.history ask.now a → IsFit self.now.archive.site self.now.archive.history ask.now
            → IsOpenAtEnd self.now.archive.history ask.now → IfOk result (λ r. IsNone r.0 → IsRefused self.now.archive.site self.now.archive.history ask.now) }
    {
        let content = put_content(ask, &blob)?;
        let hand = hand_for(&self.archive, &self.contents, ask, blob)?;
        Ok((hand, content))
    }

    // Plays an ask with its hand, and keeps the content of its entry.
    fn follow(
        &mut self,
        alloc: Global,
        entry: Entry,
        hand: Hand<Label>,
        content: Option<Arc<Blob, Global>>,
    ) -> Result<(), RestoreError>
        requires at { entry.at ≤ greatest_moment }
        requires fit { IsFit self.old.archive.site self.old.archive.history entry.ask }
        requires hand { HandIn ⟦<Label as Told>⟧.told self.old.archive.history entry.ask hand }
        ensures right { OnOk result (IsNext self.old.archive.site self.old.archive.history (bare_entry entry)) }
        ensures site { OnOk result (self.new.archive.site ≡ self.old.archive.site) }
        ensures history { OnOk result (self.new.archive.history ≡ bare_entry entry ∷ self.old.archive.history) }
        ensures contents { OnOk result (self.new.contents.items ≡ self.old.contents.items ++ content ∷ []) }
        ensures wrong { (n : ℕ) → IsErrOf result (RestoreError.Differs n)
            → (n ≡ histories.next_number self.old.archive.history) × (IsNext self.old.archive.site self.old.archive.history (bare_entry entry) → ⊥) }
    {
        play(alloc, &mut self.archive, entry, hand)?;
        self.contents.push(content)?;
        Ok(())
    }

    // Replays one record more. After an error nothing is said of what was replayed.
    pub(crate) fn take(&mut self, alloc: Global, kept: Kept) -> Result<(), RestoreError>
        requires { AreContents self.old.archive.history self.old.contents.items }
        ensures right { OnOk result (MayFollow self.old.archive.site self.old.archive.history kept) }
        ensures site { OnOk result (self.new.archive.site ≡ self.old.archive.site) }
        ensures history { OnOk result (self.new.archive.history ≡ bare_entry kept.entry ∷ self.old.archive.history) }
        ensures contents { OnOk result (AreContents self.new.archive.history self.new.contents.items) }
        ensures wrong { (n : ℕ) → IsErrOf result (RestoreError.Differs n)
            → (n ≡ histories.next_number self.old.archive.history) × (MayFollow self.old.archive.site self.old.archive.history kept → ⊥) }
    {
        let number = next_number(&self.archive);
        if !self.may_take(&kept) {
            drop(kept);
            return Err(RestoreError::Differs { entry: number });
        }
        let Kept { entry, blob } = kept;
        let Ok((hand, content)) = self.ready(&entry.ask, blob) else {
            drop(entry);
            return Err(RestoreError::NoMemory);
        };
        let Some(hand) = hand else {
            drop(content);
            drop(entry);
            return Err(RestoreError::Differs { entry: number });
        };
        self.follow(alloc, entry, hand, content)
    }

    // The archive that was replayed.
    pub(crate) fn ended(self) -> Archive<Label>
        ensures { result ≡ self.archive }
    {
        let Replayer { archive, contents } = self;
        drop(contents);
        archive
    }

    // Lets all of it go.
    pub(crate) fn let_go(self) {
        let archive = self.ended();
        archive.let_go();
    }
}
