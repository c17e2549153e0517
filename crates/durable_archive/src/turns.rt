// An archive with a journal that a hall keeps.
use crate::back::LoggedBack;
use crate::logged::Logged;
use archive::{Archive, turns_in_order};
use archive_turns::ArchiveCall;
use cta_journal::{Disk, Journal};
use cta_model::{Entry, Told};
use cta_site::ValidSite;
use turn_hall::Keeps;

/// What stays the same for an archive with a journal: the site, and the journal as it was at first. Contracts alone speak of it: no value of it is made.
pub struct LoggedSite<K: Disk> {
    pub site: ValidSite,
    pub first: Journal<K>,
}

/// An archive with a journal, in turns. The history is the archive's, told oldest entry first; its calls and its laws are those of an
/// archive, and an answer may also be Closed.
impl<M: Told + Drop, K: Disk> Keeps for Logged<M, K> {
    ghost use Rattle.std.specs.Prelude.{reverse};
    ghost use Rattle.archive_turns.specs.Topics.{topic_of};
    ghost use Rattle.archive_turns.specs.Plays.{call_asks};
    ghost use Rattle.archive.specs.InOrder.{CanPlayInOrder, IsFitInOrder, IsLegalInOrder};
    ghost use Rattle.durable_archive.specs.Turns.{LoggedPlays, logged_adds};

    type Site = LoggedSite<K>;

    type Entry = Entry;

    type Call = ArchiveCall<M>;

    type Back = LoggedBack<M>;

    ghost site = { λ l. record { site = l.archive.site; first = l.first } };

    ghost history = { λ l. reverse l.archive.history };

    ghost legal = { λ s. IsLegalInOrder s.site };

    ghost can_play = { λ s. CanPlayInOrder M.told s.site };

    ghost plays = { λ s. LoggedPlays M.told s.site };

    ghost adds = { logged_adds };

    ghost topic = { topic_of };

    ghost asks = { call_asks };

    ghost fits = { λ s. IsFitInOrder M.told s.site };

    fn play(&mut self, call: ArchiveCall<M>) -> LoggedBack<M> {
        self.call(call)
    }

    fn keeps_history(&self) {
        self.archive.keeps_history();
    }

    fn keeps_laws() {
        turns_in_order::<M>();
    }
}
