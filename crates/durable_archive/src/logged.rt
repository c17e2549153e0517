// An archive that keeps a journal of its history.
ghost use Rattle.std.specs.Prelude.{◌≡◌, List, ℕ, None, Some, true};
ghost use Rattle.cta_journal.specs.Disk.{LeavesOnly};
ghost use Rattle.cta_journal.specs.Standing.{StandsFor, disk_of, is_open_of};
ghost use Rattle.archive_turns.specs.Fits.{CanPlay};

use crate::back::{CloseCause, LoggedBack};
use crate::calls::{adds, hand_of, hand_out};
use crate::keeping::keep_last;
use archive::Archive;
use archive_turns::ArchiveCall;
use cta_journal::{Disk, Journal};
use cta_model::Told;
use std::alloc::Global;
use std::marker::Model;
use std::snapshot::Snapshot;

/// An archive and the journal of its history: each entry is in the journal before its call is answered. Contracts see the archive, the
/// journal, why it is closed if it is, and the journal as it was at first. Where the disk told a log then, the journal stands for the
/// archive's history as long as it is open; and behind a failed append a crash leaves the records of the history, of which at most that
/// of the last entry is missing. This project's own.
#[derive(Drop)]
pub struct Logged<M: Told + Drop, K: Disk> {
    pub(crate) alloc: Global,
    pub(crate) archive: Archive<M>,
    pub(crate) journal: Journal<K>,
    pub(crate) closed: Option<CloseCause>,
    first: Snapshot<Journal<K>>,
}

impl<M: Told + Drop, K: Disk> Model for Logged<M, K> {
    ghost use Rattle.cta_journal.specs.Standing.{disk_of};
    ghost use Rattle.durable_archive.specs.Journaled.{IsCountedFrom, IsLogged, LoggedView};

    ghost Value = { LoggedView K };

    ghost view = { λ l. record { archive = l.archive; journal = l.journal; closed = l.closed; first = l.first.value } };

    ghost invariant = { λ l. IsLogged K.content K.may_leave l.archive.site l.archive.history l.journal l.closed l.first.value
        × IsCountedFrom (K.fault_count (disk_of l.first.value)) l.closed (K.fault_count (disk_of l.journal)) };
}

impl<M: Told + Drop, K: Disk> Logged<M, K> {
    ghost use Rattle.durable_archive.specs.Journaled.{IsCountedFrom, LogIsHistory, sure_of};
    ghost use Rattle.durable_archive.specs.Records.{KeepsBetween, KeepsHistory};
    ghost use Rattle.durable_archive.specs.Turns.{LoggedKeeps, MovesBy};

    /// An archive with the open journal of its history. It takes no memory and constant time.
    pub fn new(alloc: Global, archive: Archive<M>, journal: Journal<K>) -> Logged<M, K>
        requires open { is_open_of journal ≡ true }
        requires log { LogIsHistory K.content K.may_leave journal archive.site archive.history }
        ensures { result ≡ record { archive = archive; journal = journal; closed = None; first = journal } }
    {
        let first = Snapshot::of(&journal);
        Logged {
            alloc,
            archive,
            journal,
            closed: None,
            first,
        }
    }

    /// Why the journal is closed, None as long as it is open. The cause holds of the disk's count of failures since the journal was as at
    /// first. In constant time.
    pub fn closed(&self) -> Option<CloseCause>
        ensures is { result ≡ self.now.closed }
        ensures counted { IsCountedFrom (K.fault_count (disk_of self.now.first)) result (K.fault_count (disk_of self.now.journal)) }
    {
        self.closed
    }

    /// The archive, in constant time.
    pub fn archive(&self) -> &Archive<M>
        ensures { result.now ≡ self.now.archive }
    {
        &self.archive
    }

    /// That a crash at this moment leaves the records of a history that has all entries which are surely on the disk, where the disk told a
    /// log at first: a law, which does nothing when it runs.
    pub fn keeps_log(&self)
        ensures { (begun : List (List ℕ)) → StandsFor K.content K.may_leave self.now.first begun → (file : List ℕ) → K.may_leave (disk_of self.now.journal) file
            → KeepsBetween self.now.archive.site begun (sure_of self.now.closed self.now.archive.history) self.now.archive.history file }
    {
        let _journal = &self.journal;
    }

    /// The journal's disk. The archive is dropped. It takes no memory. Where the journal is open, and the disk told a log at first, the
    /// disk's content has the records of the history, which begin with that log.
    pub fn end(self) -> K
        ensures disk { result ≡ disk_of self.journal }
        ensures log { self.closed ≡ None → (begun : List (List ℕ)) → StandsFor K.content K.may_leave self.first begun → (file : List ℕ) × (K.content result ≡ Some file) × KeepsHistory self.archive.site begun self.archive.history file }
    {
        let Logged {
            alloc: _,
            archive,
            journal,
            closed: _,
            first: _,
        } = self;
        archive.let_go();
        journal.end()
    }

    /// Makes a call of the archive. An entry that it adds is in the journal before the call is answered; where that append fails, the
    /// journal is closed, and this call and each later one are answered Closed. The archive isn't called any more then. Its cost is that of the archive's call,
    /// and, where it adds an entry, that of `last_kept` and of an append.
    pub fn call(&mut self, call: ArchiveCall<M>) -> LoggedBack<M>
        requires { CanPlay M.told self.old.archive.site self.old.archive.history call }
        ensures kept { LoggedKeeps M.told self.old.archive call result self.new.archive }
        ensures moves { MovesBy K.fault_count self.old.closed self.old result self.new }
        ensures first { self.new.first ≡ self.old.first }
        ensures site { self.new.archive.site ≡ self.old.archive.site }
        ensures any_moment { (begun : List (List ℕ)) → StandsFor K.content K.may_leave self.old.first begun
            → LeavesOnly K.moment K.left_since (disk_of self.old.journal) (disk_of self.new.journal) (KeepsBetween self.old.archive.site begun (sure_of self.old.closed self.old.archive.history) self.new.archive.history) }
    {
        if let Some(cause) = self.closed {
            return LoggedBack::Closed {
                cause,
                hand: hand_of(call),
                added: Snapshot::of(&false),
            };
        }
        let back = self.archive.call(call);
        if !adds(&back) {
            return LoggedBack::Answered(back);
        }
        match keep_last(self.alloc, &self.archive, &mut self.journal) {
            Ok(()) => LoggedBack::Answered(back),
            Err(cause) => {
                self.closed = Some(cause);
                LoggedBack::Closed {
                    cause,
                    hand: hand_out(back),
                    added: Snapshot::of(&true),
                }
            }
        }
    }
}
