// A first step of sessions, with ample memory.
ghost use Rattle.std.specs.Prelude.{◌<◌, ◌≡◌, IfSome, length, true};
ghost use Rattle.media.specs.Memory.{mem_drive};
ghost use Rattle.drive_session.specs.Answers.{is_asking};

use cta_model::{Answer, Ask, Direction, Hand, Refusal};
use cta_site::{NoMemory, ValidSite};
use drive_session::{Report, Session, StepLine};
use media::{MemDrive, MemMedium};
use site_json::read_site;
use std::alloc::Global;

const SITE: &str =
    r#"{"classes":[{"copies":1,"name":"raw","vo":"atlas"}],"defaultPolicy":"std","directories":[{"class":"raw","path":"/atlas"}],"drives":[{"library":"L1","name":"d1"}],"endpoint":"https://tape.example.org/api/v1","libraries":["L1"],"limits":{"archiveBytes":100,"archiveFiles":1,"batchFiles":10,"buffer":1000,"file":1000,"history":1000,"lifetime":60,"retrieveBytes":100,"retrieveFiles":1,"tries":3},"policies":[{"archiveMinAge":10,"archivePriority":1,"name":"std","retrieveMinAge":10,"retrievePriority":1}],"pools":[{"name":"p1","vo":"atlas"}],"repackPolicy":"std","routes":[{"class":"raw","copy":1,"pool":"p1"}],"sitename":"T1","tapes":[{"capacity":1000,"library":"L1","pool":"p1","state":"ACTIVE","vid":"V1"}],"version":1,"vos":[{"name":"atlas","readDrives":1,"writeDrives":1}]}"#;

pub(crate) fn site_of(alloc: Global) -> Option<ValidSite> {
    let site = read_site(alloc, SITE.as_bytes()).ok()?;
    site.check(alloc).ok()
}

// Whether a report is a Next of the first drive alone.
fn asks_next(report: &Report<MemMedium>) -> bool {
    report.device.is_none() && matches!(&report.ask, Some((Ask::Next { drive: 0 }, Hand::Nothing)))
}

// A session whose first Next is open.
fn started(alloc: Global, site: &ValidSite) -> Option<Session<MemDrive>>
    requires { 0 < length site.now.drives.items }
    ensures { IfSome result (λ s. is_asking s.asked ≡ true) }
{
    let mut session: Session<MemDrive> = Session::new(alloc, 0);
    let mut drive = MemDrive::new(alloc, Vec::new(alloc));
    let report = session.work(&mut drive);
    let is_open = report.ask.is_some() && asks_next(&report);
    drop(report);
    drop(drive);
    if is_open {
        Some(session)
    } else {
        drop(session);
        None
    }
}

// The line of an answer, which the session tells again.
fn answered(
    mut session: Session<MemDrive>,
    answer: Answer,
    hand: Hand<MemMedium>,
) -> Option<StepLine>
    requires { is_asking session.asked ≡ true }
{
    let line = session.take(Ok((answer, hand)));
    let told = session.line();
    drop(session);
    if told == line { Some(line) } else { None }
}

// The line of a first step whose Next comes back with this answer.
fn first_line(
    alloc: Global,
    site: &ValidSite,
    answer: Answer,
    hand: Hand<MemMedium>,
) -> Option<StepLine>
    requires { 0 < length site.now.drives.items }
{
    match started(alloc, site) {
        Some(session) => answered(session, answer, hand),
        None => None,
    }
}

// Whether a Next that found no memory is asked again.
fn asks_again(alloc: Global, site: &ValidSite) -> bool
    requires { 0 < length site.now.drives.items }
{
    match started(alloc, site) {
        Some(session) => repeats(session),
        None => false,
    }
}

// Whether a session whose ask found no memory tells so.
fn repeats(mut session: Session<MemDrive>) -> bool
    requires { is_asking session.asked ≡ true }
{
    let ask = Ask::Next { drive: 0 };
    let line = session.take(Err((NoMemory, ask, Hand::Nothing)));
    drop(session);
    line == StepLine::Memory
}

fn refused_lines(alloc: Global, site: &ValidSite) -> bool
    requires { 0 < length site.now.drives.items }
{
    let full = Answer::Refused(Refusal::HistoryFull);
    first_line(alloc, site, Answer::Idle, Hand::Nothing) == Some(StepLine::Idle)
        && first_line(alloc, site, Answer::DriveDown, Hand::Nothing) == Some(StepLine::Down)
        && first_line(alloc, site, Answer::DriveBusy, Hand::Nothing) == Some(StepLine::Busy)
        && first_line(alloc, site, full, Hand::Nothing) == Some(StepLine::Full)
}

fn mounts(alloc: Global, site: &ValidSite) -> bool
    requires { 0 < length site.now.drives.items }
{
    let (direction, tape) = (Direction::Archive, 0);
    let answer = Answer::Mounted {
        mount: 1,
        direction,
        tape,
    };
    let hand = Hand::Medium(MemMedium::new(alloc, 0));
    first_line(alloc, site, answer, hand) == Some(StepLine::Mount { direction, tape })
}

fn are_told(alloc: Global, site: &ValidSite) -> bool {
    !site.drives().is_empty()
        && refused_lines(alloc, site)
        && mounts(alloc, site)
        && asks_again(alloc, site)
}

fn run(alloc: Global) -> Option<bool> {
    let site = site_of(alloc)?;
    let told = are_told(alloc, &site);
    drop(site);
    Some(told)
}

#[test]
fn first_steps(rt: HostRuntime) {
    assert_eq!(rt; run(rt.alloc()), Some(true));
}
