// The front of an archive with a journal that a hall keeps.
use crate::alarm::Alarm;
use archive_front::{Called, Question, call_of, callers_are_served, reply_to_back};
use archive_turns::ArchiveCall;
use cta_journal::Disk;
use cta_model::Told;
use cta_site::{NoMemory, ValidSite};
use durable_archive::{CloseCause, Logged, LoggedBack};
use link_crew::Callers;
use link_loop::{Front, Routed, Said};
use std::alloc::Global;
use std::marker::Model;
use std::snapshot::Snapshot;
use tape_routes::Routes;
use turn_hall::Hall;
use wire_http::Request;

/// The front of an archive with a journal: its site, the alarm that is told where the journal is closed, and, for contracts alone, its hall.
/// Its tools are the routes by which requests reach the archive.
#[derive(Drop)]
pub struct LoggedFront<'a, M: Told + Drop, K: Disk, A> {
    pub(crate) site: &'a ValidSite,
    pub(crate) alarm: &'a A,
    pub(crate) hall: Snapshot<Hall<Logged<M, K>>>,
}

impl<'a, M: Told + Drop, K: Disk, A> Model for LoggedFront<'a, M, K, A> {
    ghost use Rattle.std.specs.Prelude.{◌≡◌};
    ghost use Rattle.durable_archive.specs.declared.turns.LoggedSite.{LoggedSite};
    ghost use Rattle.turn_hall.specs.Handles.{first_of};

    ghost Value = { LoggedSite K };

    ghost view = { λ f. record { site = (first_of f.hall.value).archive.site; first = (first_of f.hall.value).first } };

    ghost invariant = { λ f. f.site.now ≡ (first_of f.hall.value).archive.site };
}

impl<'a, M: Told + Drop, K: Disk, A> LoggedFront<'a, M, K, A> {
    ghost use Rattle.std.specs.Prelude.{◌≡◌};
    ghost use Rattle.turn_hall.specs.Handles.{first_of};

    /// The front of a hall that keeps an archive of this site with its journal. It takes no memory and constant time.
    pub fn new(
        site: &'a ValidSite,
        hall: &Hall<Logged<M, K>>,
        alarm: &'a A,
    ) -> LoggedFront<'a, M, K, A>
        requires { site.now ≡ (first_of hall.now).archive.site }
        ensures { result ≡ record { site = (first_of hall.now).archive.site; first = (first_of hall.now).first } }
    {
        LoggedFront {
            site,
            alarm,
            hall: Snapshot::of(hall),
        }
    }
}

impl<'a, M: Told + Drop, K: Disk, A: Alarm> Front<Logged<M, K>> for LoggedFront<'a, M, K, A> {
    ghost use Rattle.archive_front.specs.Questions.{question_of};
    ghost use Rattle.durable_server.specs.Fronts.{IsForCallers, needs_within, says_within};

    type Question = Question;

    type Cause = CloseCause;

    type Tools = Routes;

    ghost site = { λ f. f };

    ghost question = { question_of };

    ghost needs = { needs_within };

    ghost gets = { λ s. IsForCallers };

    ghost says = { says_within };

    fn tools(&self, alloc: Global) -> Result<Routes, NoMemory> {
        Routes::new(alloc)
    }

    fn put_away(tools: Routes) {
        drop(tools);
    }

    fn route(
        &self,
        tools: &Routes,
        alloc: Global,
        moment: u64,
        request: Request,
    ) -> Result<Routed<ArchiveCall<M>>, NoMemory> {
        callers_are_served::<M>();
        match call_of(alloc, tools, self.site, moment, request)? {
            Called::Call(call) => Ok(Routed::Call(call)),
            Called::Reply(reply) => Ok(Routed::Reply(reply)),
        }
    }

    fn told(
        &self,
        alloc: Global,
        back: LoggedBack<M>,
        close: bool,
    ) -> Result<Said<CloseCause>, NoMemory> {
        match back {
            LoggedBack::Answered(back) => {
                let reply = reply_to_back(alloc, self.site, back, close)?;
                Ok(Said::Reply(reply))
            }
            LoggedBack::Closed { cause, .. } => {
                self.alarm.ring();
                Ok(Said::Stop(cause))
            }
        }
    }

    fn let_go(_cause: CloseCause) {}
}

impl<'a, M: Told + Drop, K: Disk, A: Alarm> Callers<Logged<M, K>> for LoggedFront<'a, M, K, A> {
    ghost use Rattle.link_server.specs.Callers.{is_callers};

    ghost is_callers = { is_callers };

    fn callers_ask(&self) {
        tape_routes::callers_ask();
    }
}
