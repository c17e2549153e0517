// The halves of a step: what is asked before the turn, and what is heard behind it.
ghost use Rattle.std.specs.Prelude.{◌≡◌, IfNone, IfOk, IfSome, IsSome, Ok, Some, true};
ghost use Rattle.drive_session.specs.Answers.{is_asking, said};
ghost use Rattle.drive_session.specs.declared.session.Memo.{Memo};
ghost use Rattle.media.specs.Drives.{DriveView};
ghost use Rattle.turn_hall.specs.declared.view.View.{View};
ghost use Rattle.turn_hall.specs.Promises.{Opened, Turned};
ghost use Rattle.drive_turns.specs.Seats.{IsSeated};
ghost use Rattle.drive_turns.specs.Turns.{HasBegun, HasTaken, IsDriveTurn};

use crate::front::{Came, DriveFront};
use drive_session::{Session, StepLine};
use media::TapeDrive;
use outside::Clock;
use session_laws::{answered_session_fits, asking_session_stays, asks_are_fit, asks_are_known};
use turn_hall::Keeps;

/// The first half of a step: the session works, with at most one call of the device, and what it asks comes as a call of what the hall
/// keeps, at the moment that the clock tells then. The call may be made in a turn of each pass with which session and drive are seated,
/// and what comes back is for `end_step`. Where nothing is asked, the step is done, and its line is `Session::line`.
///
/// The cost is that of `Session::work`.
pub fn begin_step<T: Keeps, D: TapeDrive, F: DriveFront<T, D::Medium>, C: Clock>(
    front: &F,
    session: &mut Session<D>,
    drive: &mut D,
    clock: &mut C,
) -> Option<T::Call>
    requires seated { (s : T.Site) × ((v : View T.Site T.Entry T.Call T.Back) × IsSeated D.Medium.told F.history T.topic T.adds (F.site s) v session.old (D.seen drive.old)) }
    ensures begun { HasBegun D.Medium.told F.asking session.old session.new (D.seen drive.old) (D.seen drive.new) result }
    ensures waits { IfSome result (λ call. is_asking session.new.asked ≡ true) }
    ensures fits { IfSome result (λ call. (s : T.Site) (v : View T.Site T.Entry T.Call T.Back) → IsSeated D.Medium.told F.history T.topic T.adds (F.site s) v session.old (D.seen drive.old)
        → T.fits s v.seen call × Opened T.topic T.adds (T.asks call) v) }
    ensures heard { IfSome result (λ call. (s : T.Site) (v w : View T.Site T.Entry T.Call T.Back) (back : T.Back) → Turned (T.legal s) (T.plays s) T.topic T.adds v call back w → IsSome (F.hears back)) }
    ensures quiet { IfNone result ((s : T.Site) (v : View T.Site T.Entry T.Call T.Back) → IsSeated D.Medium.told F.history T.topic T.adds (F.site s) v session.old (D.seen drive.old)
        → IsSeated D.Medium.told F.history T.topic T.adds (F.site s) v session.new (D.seen drive.new)
        × IsDriveTurn D.Medium.told F.asking F.hears (T.legal s) (T.plays s) T.topic T.adds v v session.old session.new (D.seen drive.old) (D.seen drive.new) (Ok (said session.new.asked))) }
{
    F::front_laws();
    asks_are_fit::<D>();
    let report = session.work(drive);
    match report.ask {
        Some(asked) => Some(front.call_of(clock.now(), asked)),
        None => None,
    }
}

/// The second half of a step: the session takes what came back from the call of `begin_step`, which was made in a turn. The line of the
/// step, and session and drive are seated with the pass again; or the cause why nothing more is asked, with which the session is as
/// it was.
///
/// The cost is that of `Session::take`.
pub fn end_step<T: Keeps, D: TapeDrive, F: DriveFront<T, D::Medium>>(
    front: &F,
    session: &mut Session<D>,
    back: T::Back,
) -> Result<StepLine, F::Cause>
    requires waits { is_asking session.old.asked ≡ true }
    requires heard { IsSome (F.hears back) }
    ensures taken { IfSome (F.hears back) (λ came. HasTaken session.old session.new came result) }
    ensures turned { (s : T.Site) (v w : View T.Site T.Entry T.Call T.Back) (m : Memo D.Medium) (d d' : DriveView) (call : T.Call) → IsSeated D.Medium.told F.history T.topic T.adds (F.site s) v m d
        → HasBegun D.Medium.told F.asking m session.old d d' (Some call) → Turned (T.legal s) (T.plays s) T.topic T.adds v call back w
        → IfOk result (λ line. IsSeated D.Medium.told F.history T.topic T.adds (F.site s) w session.new d')
        × IsDriveTurn D.Medium.told F.asking F.hears (T.legal s) (T.plays s) T.topic T.adds v w m session.new d d' result }
{
    F::front_laws();
    asks_are_known::<D>();
    asking_session_stays::<D>();
    answered_session_fits::<D>();
    match front.hear(back) {
        Came::Back(answer) => Ok(session.take(answer)),
        Came::Stop(cause) => Err(cause),
    }
}
