// One step of a drive of an archive.
ghost use Rattle.std.specs.Prelude.{◌≡◌};
ghost use Rattle.turn_hall.specs.Handles.{IsPassOf, first_of, view};
ghost use Rattle.drive_server.specs.Drives.{IsArchiveTurn, IsSeatedAt};

use crate::front::ArchiveDrives;
use archive::Archive;
use drive_session::{Session, StepLine};
use media::TapeDrive;
use outside::Clock;
use std::sync::Wait;
use turn_hall::{Hall, Keeps, Pass};

/// One step of the session of a drive, at an archive that a hall keeps: at most one call of the device, and then, in a turn of the hall, at
/// most one ask, which is the one call that is added to the pass's own calls. The line of the step says what the device answered in this
/// step, or in the step that first had a repeated ask. It waits for its turn where it asks, and takes no memory but what `Session::work`
/// and the archive take; where either finds none, the line is `Memory`, and the next step goes on from there.
///
/// The session and the drive are seated with the pass, before it and after it (`IsSeatedAt`): the session fits the history that the pass
/// has seen, the drive is loaded as the session says, and the Next of the session's open mount is among the pass's own calls.
pub fn drive_turn<D: TapeDrive, C: Clock, R: Wait>(
    rt: &R,
    hall: &Hall<Archive<D::Medium>>,
    pass: &mut Pass<Archive<D::Medium>>,
    session: &mut Session<D>,
    drive: &mut D,
    clock: &mut C,
) -> StepLine
    requires here { IsPassOf ⟦<Archive<D::Medium> as Keeps>⟧.site hall.now pass.old }
    requires seated { IsSeatedAt D.Medium.told (first_of hall.now).site (view pass.old) session.old (D.seen drive.old) }
    ensures here { IsPassOf ⟦<Archive<D::Medium> as Keeps>⟧.site hall.now pass.new }
    ensures seats { pass.new.seats ≡ pass.old.seats }
    ensures seated { IsSeatedAt D.Medium.told (first_of hall.now).site (view pass.new) session.new (D.seen drive.new) }
    ensures step { IsArchiveTurn D.Medium.told (first_of hall.now).site (view pass.old) (view pass.new) session.old session.new (D.seen drive.old) (D.seen drive.new) result }
{
    match drive_turns::drive_turn(rt, hall, pass, &ArchiveDrives, session, drive, clock) {
        Ok(line) => line,
        Err(_) => unreachable!(),
    }
}
