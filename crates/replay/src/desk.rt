// A desk: an archive behind its routes, and the drives of its site with their sessions.
ghost use Rattle.std.specs.Prelude.{◌≡◌, ◌≤◌, ◌<◌, None, Some, true, false, map, length, IfOk, OnOk};
ghost use Rattle.cta_model.specs.Bare.{bare_ask};
ghost use Rattle.cta_model.specs.Legal.{IsLegal, greatest_moment};
ghost use Rattle.drive_session.specs.Answers.{is_asking, is_memory};
ghost use Rattle.drive_session.specs.Fits.{FitsOpen};
ghost use Rattle.tape_routes.specs.Answering.{IsReplyTo, request_keeps};
ghost use Rattle.drive_session.specs.Steps.{medium_left};
ghost use Rattle.archive_opening.specs.Made.{AreNewDrives};
ghost use Rattle.archive_opening.specs.SiteReading.{IsOpened};
ghost use Rattle.replay.specs.Desk.{AreFree, AreManned, Begins, IsAskedOf, IsIdleFor, IsManned, IsTurn, StepsOn};
ghost use Rattle.replay.specs.Steps.{kept_in, with_kept};

use crate::service::Service;
use archive::Archive;
use archive_opening::drives_of;
use cta_model::{Ask, Hand, NoMemory};
use cta_site::ValidSite;
use drive_session::{Session, StepLine, answers_lead_by_phase, steps_hear_answers};
use media::{Bench, TapeDrive};
use session_laws::{answered_session_fits, asks_are_fit, asks_are_known, session_stays};
use std::alloc::Global;
use std::marker::Model;
use tape_routes::{Routes, callers_ask};
use wire_http::Request;

// An archive behind its routes, and the drives of its site, by number, each with its session. Once a step or a request has
// found no memory, it is not used again. It is let go by `let_go` alone.
pub(crate) struct Desk<D: TapeDrive + Drop> {
    service: Service<D::Medium>,
    sessions: Vec<Session<D>>,
    drives: Vec<D>,
    // Whether each session is between two steps.
    ready: bool,
}

impl<D: TapeDrive + Drop> Model for Desk<D> {
    ghost use Rattle.std.specs.Prelude.{◌≡◌, map, true};
    ghost use Rattle.replay.specs.Desk.{AreManned, DeskView, desk_of};

    ghost Value = { DeskView };

    ghost view = { λ d. desk_of D.Medium.told d.service.archive d.sessions.items (map D.seen d.drives.items) d.ready };

    ghost invariant = { λ d. d.ready ≡ true → AreManned D.Medium.told d.service.archive.site d.service.archive.history d.sessions.items (map D.seen d.drives.items) };
}

// A session that is free for each of so many drives, by number.
fn sessions_of<D: TapeDrive>(alloc: Global, count: u32) -> Result<Vec<Session<D>>, NoMemory>
    ensures { IfOk result (λ sessions. AreFree count sessions.items) }
{
    let mut sessions = Vec::new(alloc);
    for drive in 0..count {
        sessions.push(Session::new(alloc, drive))?;
    }
    Ok(sessions)
}

// What a desk has beside its archive.
#[derive(Drop)]
struct DeskParts<D: TapeDrive + Drop> {
    routes: Routes,
    sessions: Vec<Session<D>>,
    drives: Vec<D>,
}

// The routes, and the drives of a site, made by a bench, each with a session that is free.
fn parts_for<D: TapeDrive + Drop, B: Bench<D>>(
    alloc: Global,
    site: &ValidSite,
    bench: &mut B,
) -> Result<DeskParts<D>, NoMemory>
    ensures drives { IfOk result (λ made. AreNewDrives (B.tells bench.old) site.now (map D.seen made.drives.items)) }
    ensures sessions { IfOk result (λ made. AreFree (length site.now.drives.items) made.sessions.items) }
{
    site.keeps_rules();
    let routes = Routes::new(alloc)?;
    let drives = drives_of(alloc, site, bench)?;
    let sessions = sessions_of(alloc, site.drives().len() as u32)?;
    Ok(DeskParts {
        routes,
        sessions,
        drives,
    })
}

// Asks what a session asks, with what goes with it, and gives it the answer: the line that it leads to.
fn answered<D: TapeDrive>(
    archive: &mut Archive<D::Medium>,
    session: &mut Session<D>,
    moment: u64,
    asked: (Ask, Hand<D::Medium>),
) -> Result<StepLine, NoMemory>
    requires moment { moment ≤ greatest_moment }
    requires asks { FitsOpen D.Medium.told archive.old.site archive.old.history session.old.number session.old.state session.old.asked asked.0 asked.1 }
    requires open { is_asking session.old.asked ≡ true }
    requires idle { IsIdleFor archive.old.history session.old.number (bare_ask asked.0) }
    requires kept { session.old.kept ≡ None }
    ensures answered { IfOk result (λ l. IsAskedOf D.Medium.told archive.old archive.new session.old session.new moment (bare_ask asked.0) (medium_left D.Medium.told session.old.state (Some asked)) l) }
{
    asks_are_fit::<D>();
    asks_are_known::<D>();
    answered_session_fits::<D>();
    answers_lead_by_phase::<D>();
    archive.keeps_history();
    let (ask, hand) = asked;
    match archive.ask(moment, ask, hand) {
        Ok(back) => Ok(session.take(Ok(back))),
        Err((error, _, _)) => Err(error),
    }
}

// The line of a step that asked nothing. One that wanted memory has none.
fn unasked(line: StepLine) -> Result<StepLine, NoMemory>
    ensures { IfOk result (λ l. (l ≡ line) × (is_memory l ≡ false)) }
{
    match line {
        StepLine::Memory => Err(NoMemory),
        _ => Ok(line),
    }
}

// One step of the session of the drive of this number, with its line.
fn turned<D: TapeDrive>(
    archive: &mut Archive<D::Medium>,
    session: &mut Session<D>,
    drive: &mut D,
    number: u32,
    moment: u64,
) -> Result<StepLine, NoMemory>
    requires moment { moment ≤ greatest_moment }
    requires manned { IsManned D.Medium.told archive.old.site archive.old.history number session.old (D.seen drive.old) }
    ensures { IfOk result (λ l. IsTurn D.Medium.told archive.old archive.new session.old session.new (D.seen drive.old) (D.seen drive.new) number moment l) }
{
    steps_hear_answers();
    let report = session.work(drive);
    match report.ask {
        Some(asked) => answered(archive, session, moment, asked),
        None => unasked(session.line()),
    }
}

impl<D: TapeDrive + Drop> Desk<D> {
    // A desk for an archive that has kept nothing yet, over drives that a bench makes. NoMemory lets the archive go.
    pub(crate) fn new<B: Bench<D>>(
        alloc: Global,
        archive: Archive<D::Medium>,
        bench: &mut B,
    ) -> Result<Desk<D>, NoMemory>
        requires { IsOpened (B.tells bench.old) archive }
        ensures { IfOk result (λ desk. Begins (B.tells bench.old) archive.site desk) }
    {
        match parts_for(alloc, archive.site(), bench) {
            Ok(
                DeskParts {
                    routes,
                    sessions,
                    drives,
                },
            ) => Ok(Desk {
                service: Service { archive, routes },
                sessions,
                drives,
                ready: true,
            }),
            Err(error) => {
                archive.let_go();
                Err(error)
            }
        }
    }

    // Lets the archive go, and the drives with their sessions.
    pub(crate) fn let_go(self) {
        let Desk {
            service,
            sessions: _sessions,
            drives: _drives,
            ready: _,
        } = self;
        let Service {
            archive,
            routes: _routes,
        } = service;
        archive.let_go();
    }

    // The site, in constant time.
    pub(crate) fn site(&self) -> &ValidSite
        ensures { result.now ≡ self.now.run.site }
    {
        self.service.archive.site()
    }

    // That the history is legal for the site: a law, which does nothing when it runs.
    pub(crate) fn keeps_history(&self)
        ensures { IsLegal self.now.run.site self.now.run.history }
    {
        self.service.archive.keeps_history();
    }

    // The text of the reply to a request, given at a moment, in seconds since 1970. An ask that is accepted is kept. After
    // NoMemory it may have been kept, and the reply is lost.
    pub(crate) fn answer(
        &mut self,
        alloc: Global,
        moment: u64,
        request: Request,
    ) -> Result<Vec<u8>, NoMemory>
        requires { moment ≤ greatest_moment }
        ensures text { IfOk result (λ text. IsReplyTo (kept_in self.old.run) moment request text.items) }
        ensures kept { OnOk result (self.new.run ≡ with_kept self.old.run (request_keeps (kept_in self.old.run) moment request)) }
        ensures ready { OnOk result (self.new.ready ≡ self.old.ready) }
    {
        callers_ask();
        session_stays::<D>();
        let ready = self.ready;
        self.ready = false;
        let text = self.service.answer(alloc, moment, request)?;
        self.service.archive.keeps_history();
        self.ready = ready;
        Ok(text)
    }

    // One step of the session of a drive of the site at a moment, in seconds since 1970, and its line.
    pub(crate) fn step(&mut self, drive: u32, moment: u64) -> Result<StepLine, NoMemory>
        requires drive { drive < length self.old.run.site.drives.items }
        requires moment { moment ≤ greatest_moment }
        requires ready { self.old.ready ≡ true }
        ensures stepped { IfOk result (λ l. StepsOn self.old.run self.new.run drive moment l) }
        ensures ready { OnOk result (self.new.ready ≡ true) }
    {
        session_stays::<D>();
        let at = drive as usize;
        self.ready = false;
        let turned = turned(
            &mut self.service.archive,
            &mut self.sessions[at],
            &mut self.drives[at],
            drive,
            moment,
        );
        self.service.archive.keeps_history();
        self.service.archive.keeps_media();
        self.ready = turned.is_ok();
        turned
    }
}
