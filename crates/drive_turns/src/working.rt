// The worker of a drive.
ghost use Rattle.std.specs.Prelude.{◌≡◌, ◌<◌, [], false, length};
ghost use Rattle.turn_hall.specs.Handles.{IsPassOf, first_of, view};
ghost use Rattle.drive_turns.specs.Seats.{IsSeated};
ghost use Rattle.drive_turns.specs.Turns.{AreOfSessions};

use crate::front::DriveFront;
use crate::turn::drive_turn;
use cta_model::Told;
use drive_session::{Session, StepLine};
use media::TapeDrive;
use outside::{Clock, Gate};
use std::alloc::Global;
use std::sync::Wait;
use turn_hall::{Hall, Keeps, Pass};

// Whether a drive had nothing to do in the step with this line, or found no memory.
fn is_idle(line: StepLine) -> bool {
    matches!(
        line,
        StepLine::Idle | StepLine::Down | StepLine::Busy | StepLine::Full | StepLine::Memory
    )
}

// Makes one step after the other, until the gate says to stop or the front that nothing more is asked.
fn repeat_steps<
    T: Keeps,
    M: Told + Drop,
    D: TapeDrive<Medium = M>,
    F: DriveFront<T, M>,
    C: Clock,
    G: Gate,
    R: Wait,
>(
    rt: &R,
    hall: &Hall<T>,
    gate: &G,
    front: &F,
    worker: u32,
    pass: &mut Pass<T>,
    session: &mut Session<D>,
    drive: &mut D,
    clock: &mut C,
)
    requires here { IsPassOf T.site hall.now pass.old }
    requires seated { IsSeated M.told F.history T.topic T.adds (F.site (T.site (first_of hall.now))) (view pass.old) session.old (D.seen drive.old) }
    requires sessions { AreOfSessions F.asking (view pass.old).mine }
    ensures here { IsPassOf T.site hall.now pass.new }
    ensures seats { pass.new.seats ≡ pass.old.seats }
    ensures sessions { AreOfSessions F.asking (view pass.new).mine }
{
    let mut idle = false;
    for _ in rt.forever() {
        if !gate.pass(worker, idle) {
            return;
        }
        match drive_turn(rt, hall, pass, front, session, drive, clock) {
            Ok(line) => idle = is_idle(line),
            Err(cause) => {
                F::let_go(cause);
                return;
            }
        }
    }
    unreachable!()
}

/// The worker of a drive: it makes one step after the other with a session of its own, until the gate tells it to stop or a front says that
/// nothing more is asked. All calls that are added to the pass's own are asks of a session. It waits at the gate and at the hall, and lets the
/// drive and the session go at the end, with the medium of a mount that is open then.
pub fn work_drive<
    T: Keeps,
    M: Told + Drop,
    D: TapeDrive<Medium = M> + Drop,
    F: DriveFront<T, M>,
    C: Clock + Drop,
    G: Gate,
    R: Wait,
>(
    rt: &R,
    alloc: Global,
    hall: &Hall<T>,
    gate: &G,
    front: &F,
    worker: u32,
    number: u32,
    pass: Pass<T>,
    drive: D,
    clock: C,
) -> Pass<T>
    requires here { IsPassOf T.site hall.now pass }
    requires number { number < length (F.site (T.site (first_of hall.now))).drives.items }
    requires unloaded { (D.seen drive).loaded ≡ false }
    requires sessions { AreOfSessions F.asking (view pass).mine }
    ensures here { IsPassOf T.site hall.now result }
    ensures seats { result.seats ≡ pass.seats }
    ensures sessions { AreOfSessions F.asking (view result).mine }
{
    let mut pass = pass;
    let mut drive = drive;
    let mut clock = clock;
    let mut session = Session::<D>::new(alloc, number);
    repeat_steps(
        rt,
        hall,
        gate,
        front,
        worker,
        &mut pass,
        &mut session,
        &mut drive,
        &mut clock,
    );
    drop(session);
    drop(drive);
    drop(clock);
    pass
}
