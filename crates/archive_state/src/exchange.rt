// The media of a state, given anew.
ghost use Rattle.std.specs.Prelude.{◌≡◌, ◌==◌, ◌+◌, ◌<◌, ◌^◌, ℕ, None, Some, OnOk, IfOk, filter, if◌then◌else◌, is_some, length, map, not, reverse, slice_set, true};
ghost use Rattle.std.specs.List.{AllByRecursion};
ghost use Rattle.blob.specs.Records.{medium_at};
ghost use Rattle.cta_model.specs.Mounts.{is_mounted, is_open, mount_of, open_after, open_mounts, tape_of_mount};
ghost use Rattle.cta_model.specs.Newest.{history_in};
ghost use Rattle.archive_state.specs.Shared.{AreMedia, AreShared};
ghost use Rattle.archive_state.specs.States.{AreShelved};

use crate::state::ArchiveState;
use blob::Told;
use cta_model::{Answer, Ask, Entry, Mount};
use cta_site::NoMemory;
use media_shelf::MediaShelf;
use std::alloc::Global;

// Takes a mount out of these.
fn without(mounts: &mut Vec<u32>, mount: u32)
    ensures { mounts.new.items ≡ filter (λ k. not (k == mount)) mounts.old.items }
{
    mounts.retain(|number| *number != mount);
}

// Moves the open mounts, newest first, behind an entry of this number.
fn move_mounts(
    mounts: &mut Vec<u32>,
    number: u32,
    ask: &Ask,
    answer: &Answer,
) -> Result<(), NoMemory>
    ensures { OnOk result (mounts.new.items ≡ open_after ask.now answer.now number mounts.old.items) }
{
    match (ask, answer) {
        (Ask::Next { .. }, Answer::Mounted { .. }) => mounts.insert(0, number)?,
        (Ask::End { mount, .. }, _) => without(mounts, *mount),
        _ => {}
    }
    Ok(())
}

// The mounts that are open behind these entries, newest first.
#[tactic(auto, using(cta_model::proofs::Newest::scans))]
fn mounts_behind(alloc: Global, entries: &[Entry]) -> Result<Vec<u32>, NoMemory>
    requires { length entries.now + 1 < 2 ^ 32 }
    ensures { IfOk result (λ mounts. mounts.items ≡ open_mounts (history_in entries.now)) }
{
    let mut mounts = Vec::new(alloc);
    for at in 0..entries.len() {
        let entry = &entries[at];
        move_mounts(&mut mounts, at as u32 + 1, &entry.ask, &entry.answer)?;
    }
    Ok(mounts)
}

impl<M: Told + Drop> ArchiveState<M> {
    /// An open mount, None exactly where the mount is not open. Its cost is the number of open mounts.
    pub fn mount(&self, number: u32) -> Option<Mount>
        ensures { result ≡ (if is_open self.now.history number then mount_of self.now.history number else None) }
    {
        let _history = &self.history;
        match self.parts.mounts.find(number) {
            Some(row) => Some(Mount {
                drive: row.drive,
                direction: row.direction,
                tape: row.tape,
            }),
            None => None,
        }
    }

    // Takes the medium of an open mount off a shelf, on which it is.
    fn take_for<N: Told + Drop>(&self, number: u32, shelf: &mut MediaShelf<N>) -> N
        requires mounted { is_open self.now.history number ≡ true }
        requires there { is_some (medium_at shelf.old (tape_of_mount self.now.history number)) ≡ true }
        ensures told { medium_at shelf.old (tape_of_mount self.now.history number) ≡ Some (N.told result) }
        ensures places { shelf.new ≡ slice_set shelf.old (tape_of_mount self.now.history number) None }
    {
        self.keeps_history();
        let Some(mount) = self.mount(number) else {
            unreachable!();
        };
        match shelf.take(mount.tape) {
            Some(medium) => medium,
            None => unreachable!(),
        }
    }

    // Takes the media of open mounts, which are given newest first, off a shelf that has all media.
    fn take_mounted<N: Told + Drop>(
        &self,
        numbers: &[u32],
        shelf: &mut MediaShelf<N>,
    ) -> Result<Vec<(u32, N)>, NoMemory>
        requires mounts { numbers.now ≡ open_mounts self.now.history }
        requires places { length shelf.old ≡ length self.now.site.tapes.items }
        requires full { (v : ℕ) → v < length self.now.site.tapes.items → is_some (medium_at shelf.old v) ≡ true }
        ensures places { length shelf.new ≡ length shelf.old }
        ensures shelf { OnOk result ((v : ℕ) → medium_at shelf.new v ≡ (if is_mounted self.now.history v then None else medium_at shelf.old v)) }
        ensures numbers { IfOk result (λ mounts. map (λ (x : ℕ × N). x.0) mounts.items ≡ reverse (open_mounts self.now.history)) }
        ensures media { IfOk result (λ mounts. AllByRecursion (λ (x : ℕ × N). medium_at shelf.old (tape_of_mount self.now.history x.0) ≡ Some (N.told x.1)) mounts.items) }
    {
        self.keeps_history();
        let mut mounts = Vec::new(self.alloc);
        for at in 0..numbers.len() {
            let number = numbers[at];
            let medium = self.take_for(number, shelf);
            mounts.insert(0, (number, medium))?;
        }
        Ok(mounts)
    }

    // Shares media out to the shelf and to the open mounts.
    fn share<N: Told + Drop>(
        &self,
        media: Vec<N>,
    ) -> Result<(MediaShelf<N>, Vec<(u32, N)>), NoMemory>
        requires { AreMedia N.told self.now.site self.now.history media.items }
        ensures { IfOk result (λ r. AreShared N.told self.now.history media.items r.0 r.1.items) }
    {
        let numbers = mounts_behind(self.alloc, self.history.entries())?;
        let mut shelf = MediaShelf::new(self.alloc, media)?;
        let mounts = self.take_mounted(numbers.as_slice(), &mut shelf)?;
        Ok((shelf, mounts))
    }

    // The same state with this shelf.
    fn with_shelf<N: Told + Drop>(self, shelf: MediaShelf<N>) -> ArchiveState<N>
        requires { AreShelved self.site self.history shelf }
        ensures { result ≡ record self { shelf = shelf } }
    {
        let ArchiveState {
            alloc,
            site,
            history,
            parts,
            shelf: before,
        } = self;
        drop(before);
        ArchiveState {
            alloc,
            site,
            history,
            parts,
            shelf,
        }
    }

    /// The same state with these media, one for each tape of the site in order of their numbers, each true for the history where it tells
    /// its records; and each open mount, in order of their numbers, with the medium of its tape. The media that the state had are
    /// dropped, and after NoMemory the state and these too. Its cost is that of going through the history and the tapes.
    pub fn with_media<N: Told + Drop>(
        self,
        media: Vec<N>,
    ) -> Result<(ArchiveState<N>, Vec<(u32, N)>), NoMemory>
        requires { AreMedia N.told self.site self.history media.items }
        ensures site { IfOk result (λ r. r.0.site ≡ self.site) }
        ensures history { IfOk result (λ r. r.0.history ≡ self.history) }
        ensures media { IfOk result (λ r. AreShared N.told self.history media.items r.0.shelf r.1.items) }
    {
        match self.share(media) {
            Ok((shelf, mounts)) => Ok((self.with_shelf(shelf), mounts)),
            Err(error) => {
                drop(self);
                Err(error)
            }
        }
    }
}
