// The archive.
ghost use Rattle.std.specs.Prelude.{◌≡◌, ◌+◌, ◌<◌, ◌^◌, [], IfOk, None, Some, if◌then◌else◌, length, map, option_map};
ghost use Rattle.cta_site.specs.Listed.{Listed};
ghost use Rattle.cta_model.specs.declared.asks.Direction.{Direction};
ghost use Rattle.cta_model.specs.declared.asks.Job.{Job};
ghost use Rattle.cta_model.specs.Buffer.{is_resident};
ghost use Rattle.cta_model.specs.Files.{sum_of};
ghost use Rattle.cta_model.specs.Hands.{sum_of_blob};
ghost use Rattle.cta_model.specs.Legal.{IsLegal};
ghost use Rattle.cta_model.specs.Mounts.{is_open, mount_of};
ghost use Rattle.cta_model.specs.Newest.{history_in};
ghost use Rattle.archive_state.specs.ClaimedJobs.{claimed_of};
ghost use Rattle.archive_state.specs.Shared.{AreMedia, AreShared};
ghost use Rattle.archive_state.specs.States.{AreFirstMedia, AreShelved};
ghost use Rattle.cta_laws.specs.Holding.{HoldsLaws};

use archive_state::ArchiveState;
use blob::Blob;
use cta_laws::legal_histories_hold;
use cta_model::{Direction, Entry, Job, Mount, NoMemory, Told};
use cta_site::{Rows, ValidSite};
use std::alloc::Global;
use std::hash::RandomState;
use std::marker::Model;
use std::sync::Arc;

/// An archive of one site. Contracts see it as its site, its history, newest entry first, and its shelf: the media that no drive has, by
/// the numbers of their tapes. The history is legal: each entry's answer is that of the sequential archive on the entries before it.
/// This project's own.
#[derive(Drop)]
pub struct Archive<M: Told + Drop> {
    pub(crate) alloc: Global,
    pub(crate) state: ArchiveState<M>,
}

impl<M: Told + Drop> Model for Archive<M> {
    ghost use Rattle.cta_model.specs.Kept.{Kept};

    ghost Value = { Kept };

    ghost view = { λ a. a.state };
}

impl<M: Told + Drop> Archive<M> {
    /// An archive with an empty history, in which all drives are up, with the medium of each tape of the site, in order of their numbers.
    /// Paths are hashed with these keys. After NoMemory the site and the media are dropped. Its cost is the size of the site.
    pub fn new(
        alloc: Global,
        site: ValidSite,
        media: Vec<M>,
        keys: RandomState,
    ) -> Result<Archive<M>, NoMemory>
        requires { AreFirstMedia M.told site media.items }
        ensures { IfOk result (λ archive. archive ≡ record { site = site; history = []; shelf = map (λ m. Some (M.told m)) media.items }) }
    {
        let state = ArchiveState::new(alloc, site, media, keys)?;
        Ok(Archive { alloc, state })
    }

    /// The site, in constant time.
    pub fn site(&self) -> &ValidSite
        ensures { result.now ≡ self.now.site }
    {
        self.state.site()
    }

    /// The entries of the history, oldest first: the entry of number n, from 1, stands at n - 1. In constant time.
    pub fn entries(&self) -> &[Entry]
        ensures history { history_in result.now ≡ self.now.history }
        ensures few { length result.now + 1 < 2 ^ 32 }
    {
        self.state.history.entries()
    }

    /// An open mount, None exactly where the mount is not open. Its cost is the number of open mounts.
    pub fn mount(&self, number: u32) -> Option<Mount>
        ensures { result ≡ (if is_open self.now.history number then mount_of self.now.history number else None) }
    {
        self.state.mount(number)
    }

    /// The content of a file, which is named by the number of its Put, None exactly where the file is not in the buffer. In constant time.
    pub fn content(&self, file: u32) -> Option<&Arc<Blob>>
        ensures { option_map (λ b. sum_of_blob b.now) result ≡ (if is_resident self.now.history file then Some (sum_of self.now.history file) else None) }
    {
        self.state.content(file)
    }

    /// Which way an open mount goes, and the jobs that it claims, in order of birth, file and copy: those of its Claims that it has not
    /// ended by a Flushed, a Recalled or a Failed, whether they are live or not. None exactly where the mount is not open, and NoMemory
    /// gives nothing. It is for restarts, and its cost is that of `ArchiveState::claimed`.
    pub fn claimed(&self, mount: u32) -> Result<Option<(Direction, Rows<Job>)>, NoMemory>
        ensures { IfOk result (λ told. option_map (λ (x : Direction × Listed Job). (x.0, x.1.items)) told ≡ claimed_of self.now.site self.now.history mount) }
    {
        self.state.claimed(mount)
    }

    /// The same archive with these media, one for each tape of the site in order of their numbers, each true for the history where it
    /// tells its records: those of mounted tapes come out, each with the number of its mount, in order of these, and all others lie on the
    /// shelf. The media that the archive had are dropped, and after NoMemory the archive and these too. Its cost is that of going through
    /// the history and the tapes.
    pub fn with_media<N: Told + Drop>(
        self,
        media: Vec<N>,
    ) -> Result<(Archive<N>, Vec<(u32, N)>), NoMemory>
        requires { AreMedia N.told self.site self.history media.items }
        ensures site { IfOk result (λ r. r.0.site ≡ self.site) }
        ensures history { IfOk result (λ r. r.0.history ≡ self.history) }
        ensures media { IfOk result (λ r. AreShared N.told self.history media.items r.0.shelf r.1.items) }
    {
        let Archive { alloc, state } = self;
        let (state, mounts) = state.with_media(media)?;
        Ok((Archive { alloc, state }, mounts))
    }

    /// Lets the archive go, with its media. Whoever owns an archive calls it in place of letting it go out of scope: that all of it is
    /// dropped is then proved here once, and not in each function where that may be. Its cost is the size of the archive.
    pub fn let_go(self) {
        drop(self);
    }

    /// That the history is legal for the site: a law, which does nothing when it runs.
    pub fn keeps_history(&self)
        ensures { IsLegal self.now.site self.now.history }
    {
        self.state.keeps_history();
    }

    /// That the laws of the archive hold of the history, whatever was asked: a file is said to be on tape only where each copy was flushed,
    /// and a live file is in the buffer or each of its copies was flushed once; a recall ends at most once; a live job is queued once or
    /// claimed once; each Next mounted the choice within the quotas; and a copy that had a place keeps one, on a tape that is not reclaimed
    /// under it, through repacks too. A law, which does nothing when it runs.
    pub fn holds_laws(&self)
        ensures { HoldsLaws self.now.site self.now.history }
    {
        legal_histories_hold();
        self.keeps_history();
    }

    /// That each tape of the site that no open mount has has its medium on the shelf, which is true for the history where it tells its
    /// records: a law, which does nothing when it runs.
    pub fn keeps_media(&self)
        ensures { AreShelved self.now.site self.now.history self.now.shelf }
    {
        self.state.keeps_media();
    }
}
