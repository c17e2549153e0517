// An archive that a hall keeps.
ghost use Rattle.std.specs.Prelude.{◌≡◌, ◌≤◌, reverse};
ghost use Rattle.cta_model.specs.Hands.{HandIn};
ghost use Rattle.cta_model.specs.Legal.{IsFit, greatest_moment};
ghost use Rattle.archive_turns.specs.Topics.{topic_of};
ghost use Rattle.archive_turns.specs.Fits.{CanPlay};
ghost use Rattle.archive_turns.specs.Plays.{call_adds, call_asks, kept_with, Returns};
ghost use Rattle.archive.specs.InOrder.{IsLegalInOrder, CanPlayInOrder, IsFitInOrder, PlaysInOrder};

use crate::archive::Archive;
use crate::order::turns_in_order;
use archive_turns::{ArchiveBack, ArchiveCall};
use cta_model::{Ask, Entry, Hand, Look, Told};
use cta_site::ValidSite;
use turn_hall::Keeps;

impl<M: Told + Drop> Archive<M> {
    // An ask of a turn, and what comes back.
    fn asked(&mut self, at: u64, ask: Ask, hand: Hand<M>) -> ArchiveBack<M>
        requires at { at ≤ greatest_moment }
        requires fit { IsFit self.old.site self.old.history ask }
        requires hand { HandIn M.told self.old.history ask hand }
        ensures returns { Returns M.told self.old.site self.old.history (ArchiveCall.Ask at ask hand) result self.new.history }
        ensures kept { self.new ≡ kept_with M.told self.old (ArchiveCall.Ask at ask hand) result }
    {
        ArchiveBack::Ask(self.ask(at, ask, hand))
    }

    // A look of a turn, and what comes back.
    fn looked(&self, at: u64, look: &Look) -> ArchiveBack<M>
        requires { at ≤ greatest_moment }
        ensures returns { Returns M.told self.now.site self.now.history (ArchiveCall.Look at look.now) result self.now.history }
        ensures kept { self.now ≡ kept_with M.told self.now (ArchiveCall.Look at look.now) result }
    {
        ArchiveBack::Look(self.look(at, look))
    }

    /// Makes a call: an ask with its hand, or a look. What comes back, and what is kept then, is what `ask` or `look` says of it, at its
    /// cost. After NoMemory nothing has changed.
    pub fn call(&mut self, call: ArchiveCall<M>) -> ArchiveBack<M>
        requires { CanPlay M.told self.old.site self.old.history call }
        ensures returns { Returns M.told self.old.site self.old.history call result self.new.history }
        ensures kept { self.new ≡ kept_with M.told self.old call result }
    {
        match call {
            ArchiveCall::Ask { at, ask, hand } => self.asked(at, ask, hand),
            ArchiveCall::Look { at, look } => self.looked(at, &look),
        }
    }
}

/// An archive in turns. Its history is told oldest entry first, its laws are those of `archive_turns`, and each call is answered as
/// `Archive::ask` and `Archive::look` answer it, at their cost.
impl<M: Told + Drop> Keeps for Archive<M> {
    type Site = ValidSite;

    type Entry = Entry;

    type Call = ArchiveCall<M>;

    type Back = ArchiveBack<M>;

    ghost site = { λ a. a.site };

    ghost history = { λ a. reverse a.history };

    ghost legal = { IsLegalInOrder };

    ghost can_play = { CanPlayInOrder M.told };

    ghost plays = { PlaysInOrder M.told };

    ghost adds = { call_adds };

    ghost topic = { topic_of };

    ghost asks = { call_asks };

    ghost fits = { IsFitInOrder M.told };

    fn play(&mut self, call: ArchiveCall<M>) -> ArchiveBack<M> {
        self.call(call)
    }

    fn keeps_history(&self) {
        self.state.keeps_history();
    }

    fn keeps_laws() {
        turns_in_order::<M>();
    }
}
