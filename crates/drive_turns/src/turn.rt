// One step of a drive.
ghost use Rattle.std.specs.Prelude.{◌≡◌, IfOk};
ghost use Rattle.turn_hall.specs.Handles.{IsPassOf, first_of, view};
ghost use Rattle.drive_turns.specs.Seats.{IsSeated};
ghost use Rattle.drive_turns.specs.Turns.{IsDriveTurn};

use crate::front::DriveFront;
use crate::steps::{begin_step, end_step};
use drive_session::{Session, StepLine};
use media::TapeDrive;
use outside::Clock;
use std::sync::Wait;
use turn_hall::{Hall, Keeps, Pass};

/// One step of the session of a drive, at what a hall keeps: at most one call of the device, and then at most one ask, which is the one
/// call that is added to the pass's own calls. The line of the step says what the device answered in this step, or in the step that
/// first had a repeated ask. It waits for its turn where it asks, and takes no memory but what `Session::work` takes.
///
/// The session and the drive are seated with the pass, before it and after it (`IsSeated`): the session fits the history that the pass
/// has seen, the drive is loaded as the session says, and the Next of the session's open mount is among the pass's own calls. An error
/// says why nothing more is asked, and comes exactly where this step's own turn gave it; the session is of no use then, and is to be let
/// go.
pub fn drive_turn<T: Keeps, D: TapeDrive, F: DriveFront<T, D::Medium>, C: Clock, R: Wait>(
    rt: &R,
    hall: &Hall<T>,
    pass: &mut Pass<T>,
    front: &F,
    session: &mut Session<D>,
    drive: &mut D,
    clock: &mut C,
) -> Result<StepLine, F::Cause>
    requires here { IsPassOf T.site hall.now pass.old }
    requires seated { IsSeated D.Medium.told F.history T.topic T.adds (F.site (T.site (first_of hall.now))) (view pass.old) session.old (D.seen drive.old) }
    ensures here { IsPassOf T.site hall.now pass.new }
    ensures seats { pass.new.seats ≡ pass.old.seats }
    ensures seated { IfOk result (λ line. IsSeated D.Medium.told F.history T.topic T.adds (F.site (T.site (first_of hall.now))) (view pass.new) session.new (D.seen drive.new)) }
    ensures step { IsDriveTurn D.Medium.told F.asking F.hears (T.legal (T.site (first_of hall.now))) (T.plays (T.site (first_of hall.now))) T.topic T.adds (view pass.old) (view pass.new)
        session.old session.new (D.seen drive.old) (D.seen drive.new) result }
{
    match begin_step::<T, D, F, C>(front, session, drive, clock) {
        Some(call) => {
            let back = hall.turn(rt, pass, call);
            end_step::<T, D, F>(front, session, back)
        }
        None => Ok(session.line()),
    }
}
