// A drive that steps through a phase.
ghost use Rattle.std.specs.Prelude.{◌≡◌, ◌<◌, IfSome, false, length, true};
ghost use Rattle.turn_hall.specs.Handles.{IsPassOf, first_of, view};
ghost use Rattle.drive_turns.specs.Seats.{IsSeated};

use crate::phase_clock::PhaseClock;
use cta_model::Told;
use drive_turns::{DriveFront, Session, StepLine, drive_turn};
use media::TapeDrive;
use outside::Gate;
use std::alloc::Global;
use std::sync::Wait;
use std::sync::atomic::{AtomicBool, Ordering};
use turn_hall::{Hall, Keeps, Pass};

// Whether a drive found nothing to do in the step with this line.
fn found_nothing(line: StepLine) -> bool {
    matches!(
        line,
        StepLine::Idle | StepLine::Down | StepLine::Busy | StepLine::Full
    )
}

// Makes one step after the other, until all callers had ended before a step that found nothing to do, and the session is Free; or until the
// front says that nothing more is asked. Whether its session is Free then.
fn step_through<
    R: Wait,
    T: Keeps,
    M: Told + Drop,
    D: TapeDrive<Medium = M>,
    X: DriveFront<T, M>,
    G: Gate,
>(
    rt: &R,
    hall: &Hall<T>,
    gate: &G,
    front: &X,
    ended: &AtomicBool,
    worker: u32,
    pass: &mut Pass<T>,
    session: &mut Session<D>,
    drive: &mut D,
    clock: &mut PhaseClock,
) -> bool
    requires here { IsPassOf T.site hall.now pass.old }
    requires seated { IsSeated M.told X.history T.topic T.adds (X.site (T.site (first_of hall.now))) (view pass.old) session.old (D.seen drive.old) }
    ensures here { IsPassOf T.site hall.now pass.new }
    ensures seats { pass.new.seats ≡ pass.old.seats }
    ensures unloaded { result ≡ true → (D.seen drive.new).loaded ≡ false }
{
    let mut idle = false;
    for _ in rt.forever() {
        gate.pass(worker, idle);
        // A job that was there in a step behind this look, and is not found by it, is another drive's, which goes on.
        let last = ended.load(Ordering::SeqCst);
        match drive_turn(rt, hall, pass, front, session, drive, clock) {
            Ok(line) => {
                let nothing = found_nothing(line);
                idle = nothing || line == StepLine::Memory;
                if last && nothing {
                    if session.is_free() {
                        return true;
                    }
                }
            }
            Err(cause) => {
                X::let_go(cause);
                return false;
            }
        }
    }
    unreachable!()
}

// The steps of a drive through a phase, with a session of its own. The drive comes back, with no medium, where its session was Free at the
// end; otherwise it is let go.
pub(crate) fn drive_phase<
    R: Wait,
    T: Keeps,
    M: Told + Drop,
    D: TapeDrive<Medium = M> + Drop,
    X: DriveFront<T, M>,
    G: Gate,
>(
    rt: &R,
    alloc: Global,
    hall: &Hall<T>,
    gate: &G,
    front: &X,
    ended: &AtomicBool,
    worker: u32,
    number: u32,
    pass: &mut Pass<T>,
    drive: D,
    clock: PhaseClock,
) -> Option<D>
    requires here { IsPassOf T.site hall.now pass.old }
    requires number { number < length (X.site (T.site (first_of hall.now))).drives.items }
    requires unloaded { (D.seen drive).loaded ≡ false }
    ensures here { IsPassOf T.site hall.now pass.new }
    ensures seats { pass.new.seats ≡ pass.old.seats }
    ensures unloaded { IfSome result (λ d. (D.seen d).loaded ≡ false) }
{
    let mut drive = drive;
    let mut clock = clock;
    let mut session = Session::<D>::new(alloc, number);
    let free = step_through(
        rt,
        hall,
        gate,
        front,
        ended,
        worker,
        pass,
        &mut session,
        &mut drive,
        &mut clock,
    );
    drop(session);
    if free { Some(drive) } else { None }
}
