// The drives of an archive with a journal that a hall keeps.
ghost use Rattle.std.specs.Prelude.{◌≡◌, ◌≤◌, reverse};
ghost use Rattle.cta_model.specs.Legal.{greatest_moment};
ghost use Rattle.archive_turns.specs.declared.calls.ArchiveCall.TheVariants as call;
ghost use Rattle.durable_server.specs.Drives.{heard_of, site_within};

use crate::alarm::Alarm;
use archive_turns::{ArchiveBack, ArchiveCall, entries_name_their_mounts};
use cta_journal::Disk;
use cta_model::{Ask, Hand, Told};
use drive_turns::{Came, DriveFront};
use durable_archive::{CloseCause, Logged, LoggedBack};
use turn_hall::topics_stay_opened;

/// The front of an archive with a journal for its drives: what a session asks is an ask of the archive, and what it hears is what the
/// archive answered, or that the journal is closed, which an alarm is told.
#[derive(Clone, Copy, Drop)]
pub struct LoggedDrives<'a, A> {
    alarm: &'a A,
}

impl<'a, A> LoggedDrives<'a, A> {
    /// The front with this alarm. It takes no memory and constant time.
    pub fn new(alarm: &'a A) -> LoggedDrives<'a, A> {
        LoggedDrives { alarm }
    }
}

impl<'a, M: Told + Drop, K: Disk, A: Alarm> DriveFront<Logged<M, K>, M> for LoggedDrives<'a, A> {
    type Cause = CloseCause;

    ghost site = { site_within };

    ghost history = { reverse };

    ghost asking = { call.Ask };

    ghost hears = { heard_of };

    fn call_of(&self, at: u64, asked: (Ask, Hand<M>)) -> ArchiveCall<M>
        requires { at ≤ greatest_moment }
        ensures { result ≡ call.Ask at asked.0 asked.1 }
    {
        let (ask, hand) = asked;
        ArchiveCall::Ask { at, ask, hand }
    }

    fn hear(&self, back: LoggedBack<M>) -> Came<M, CloseCause> {
        match back {
            LoggedBack::Answered(ArchiveBack::Ask(answer)) => Came::Back(answer),
            LoggedBack::Answered(ArchiveBack::Look(_)) => unreachable!(),
            LoggedBack::Closed { cause, .. } => {
                self.alarm.ring();
                Came::Stop(cause)
            }
        }
    }

    fn let_go(_cause: CloseCause) {}

    fn front_laws() {
        topics_stay_opened::<Logged<M, K>>();
        entries_name_their_mounts::<M>();
    }
}
