// The session.
ghost use Rattle.std.specs.Prelude.{◌≡◌, None, is_err, true};
ghost use Rattle.blob.specs.Records.{TapeRecords};
ghost use Rattle.cta_model.specs.History.{History};
ghost use Rattle.cta_site.specs.declared.site.Site.{Site};
ghost use Rattle.drive_session.specs.Answers.{is_asking, is_memory, said};
ghost use Rattle.drive_session.specs.Steps.{FitsReport, FitsSome, IsStep, is_loaded_in};
ghost use Rattle.drive_session.specs.Works.{FitsMemo, IsTaken, IsWork, MayWork, is_free};

use crate::mounts::{claim_step, load_step, next_step, unload_step};
use crate::reading::read_step;
use crate::reports::{Report, StepLine};
use crate::states::{Asked, State, Step};
use crate::taking::taken;
use crate::writing::{begin_step, write_step};
use cta_model::{Answer, Ask, Hand};
use cta_site::NoMemory;
use media::TapeDrive;
use std::alloc::Global;
use std::marker::Model;
use std::mem;

/// What a session keeps between its steps: the number of its drive, its state, what its open ask is about, and an ask that
/// found no memory with what goes with it. While an ask is open the state is the one behind it.
#[derive(Drop)]
pub struct Memo<M> {
    pub number: u32,
    pub state: State<M>,
    pub asked: Asked,
    pub kept: Option<(Ask, Hand<M>)>,
}

/// The session of a drive. Contracts see what it keeps. This project's own.
#[derive(Drop)]
pub struct Session<D: TapeDrive> {
    alloc: Global,
    memo: Memo<D::Medium>,
}

impl<D: TapeDrive> Model for Session<D> {
    ghost use Rattle.drive_session.specs.declared.session.Memo.{Memo};

    ghost Value = { Memo D.Medium };

    ghost view = { λ s. s.memo };
}

impl<D: TapeDrive> Session<D> {
    /// A session of the drive of this number that is Free. It takes no memory and constant time.
    pub fn new(alloc: Global, drive: u32) -> Session<D>
        ensures { result ≡ record { number = drive; state = State.Free; asked = Asked.Nothing StepLine.Idle; kept = None } }
    {
        Session {
            alloc,
            memo: Memo {
                number: drive,
                state: State::Free,
                asked: Asked::Nothing(StepLine::Idle),
                kept: None,
            },
        }
    }

    /// One step: at most one call of the device, and then at most one ask. A kept ask is repeated, with no call. A step that
    /// finds no memory leaves the session as it was. Where no ask is kept, the last one must have been answered by `take`.
    ///
    /// It takes memory before the first write of a batch, for two lists of its jobs, and at each read, for one job, the content
    /// and its owner; all other steps take none. Beside the device's, its cost is the number of items at the first write and
    /// after a fault of a write, and otherwise constant.
    pub fn work(&mut self, drive: &mut D) -> Report<D::Medium>
        requires loaded { (D.seen drive.old).loaded ≡ is_loaded_in self.old.state }
        requires fits { MayWork D.Medium.told self.old }
        ensures work { IsWork D.Medium.told (D.seen drive.old) (D.seen drive.new) self.old self.new result }
        ensures loaded { (D.seen drive.new).loaded ≡ is_loaded_in self.new.state }
        ensures fits { (site : Site) (h : History) → FitsMemo D.Medium.told site h self.old → FitsReport D.Medium.told site h self.new.number self.new.state self.new.asked result.ask }
    {
        if let Some((ask, hand)) = mem::replace(&mut self.memo.kept, None) {
            return Report {
                device: None,
                ask: Some((ask, hand)),
            };
        }
        let state = mem::replace(&mut self.memo.state, State::Free);
        let step = step_of(self.alloc, self.memo.number, state, drive);
        self.memo.state = step.state;
        self.memo.asked = step.asked;
        step.report
    }

    /// The line of a step whose ask was answered, and the state behind the answer. A want of memory keeps the ask with what
    /// goes with it, and its line is `Memory`, which comes for nothing else. It takes no memory; its cost is the number of
    /// items for an answered flush, and otherwise constant.
    pub fn take(
        &mut self,
        back: Result<(Answer, Hand<D::Medium>), (NoMemory, Ask, Hand<D::Medium>)>,
    ) -> StepLine
        requires { is_asking self.old.asked ≡ true }
        ensures taken { IsTaken self.old self.new back result }
        ensures memory { is_memory result ≡ is_err back }
    {
        match back {
            Err(wanting) => {
                let (_, ask, hand) = wanting;
                drop(mem::replace(&mut self.memo.kept, Some((ask, hand))));
                StepLine::Memory
            }
            Ok(answered) => {
                let (answer, hand) = answered;
                let state = mem::replace(&mut self.memo.state, State::Free);
                let (state, line) = taken(self.memo.asked, state, answer, hand);
                drop(mem::replace(&mut self.memo.state, state));
                self.memo.asked = Asked::Nothing(line);
                line
            }
        }
    }

    /// The line of the last step, where it had no ask or its ask is answered; `Idle` before the first step and while an ask is
    /// open. It takes constant time.
    pub fn line(&self) -> StepLine
        ensures { result ≡ said self.now.asked }
    {
        match self.memo.asked {
            Asked::Nothing(line) => line,
            _ => StepLine::Idle,
        }
    }

    /// Whether the session is Free and keeps no ask, so that its drive has no mount and nothing is left to repeat. While an ask is
    /// open it tells of the state behind it. It takes constant time.
    pub fn is_free(&self) -> bool
        ensures { result ≡ is_free self.now }
    {
        match self.memo.state {
            State::Free => self.memo.kept.is_none(),
            _ => false,
        }
    }
}

// The step of a state.
fn step_of<D: TapeDrive>(
    alloc: Global,
    number: u32,
    state: State<D::Medium>,
    drive: &mut D,
) -> Step<D::Medium>
    requires loaded { (D.seen drive.old).loaded ≡ is_loaded_in state }
    requires fits { FitsSome D.Medium.told number state }
    ensures { IsStep D.Medium.told number state (D.seen drive.old) (D.seen drive.new) result }
{
    match state {
        State::Free => next_step(number, drive),
        State::Held(x) => load_step(number, x, drive),
        State::Ready(x) => claim_step(number, x, drive),
        State::Claimed(x, items, blobs) => begin_step(alloc, number, x, items, blobs, drive),
        State::Writing(x, b) => write_step(number, x, b, drive),
        State::Reading(x, items, at) => read_step(alloc, number, x, items, at, drive),
        State::Leaving(x) => unload_step(number, x, drive),
    }
}
