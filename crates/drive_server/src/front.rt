// The drives of an archive that a hall keeps.
ghost use Rattle.std.specs.Prelude.{◌≡◌, ◌≤◌, reverse};
ghost use Rattle.cta_model.specs.Legal.{greatest_moment};
ghost use Rattle.archive_turns.specs.declared.calls.ArchiveCall.TheVariants as call;
ghost use Rattle.drive_server.specs.Drives.{heard_of};

use archive::{Archive, own_mount_stays};
use archive_turns::{ArchiveBack, ArchiveCall};
use cta_model::{Ask, Hand, Told};
use drive_turns::{Came, DriveFront};

/// The front of an archive for its drives: what a session asks is an ask of the archive, and what it hears is what the archive answered.
#[derive(Clone, Copy, Debug, PartialEq, Eq)]
pub struct ArchiveDrives;

impl<M: Told + Drop> DriveFront<Archive<M>, M> for ArchiveDrives {
    type Cause = ();

    ghost site = { λ s. s };

    ghost history = { reverse };

    ghost asking = { call.Ask };

    ghost hears = { heard_of };

    fn call_of(&self, at: u64, asked: (Ask, Hand<M>)) -> ArchiveCall<M>
        requires { at ≤ greatest_moment }
        ensures { result ≡ call.Ask at asked.0 asked.1 }
    {
        let (ask, hand) = asked;
        ArchiveCall::Ask { at, ask, hand }
    }

    fn hear(&self, back: ArchiveBack<M>) -> Came<M, ()> {
        match back {
            ArchiveBack::Ask(answer) => Came::Back(answer),
            ArchiveBack::Look(_) => unreachable!(),
        }
    }

    fn let_go(_cause: ()) {}

    fn front_laws() {
        own_mount_stays::<M>();
    }
}
