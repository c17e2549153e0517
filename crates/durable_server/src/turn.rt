// One step of a drive of an archive with a journal.
ghost use Rattle.std.specs.Prelude.{◌≡◌};
ghost use Rattle.turn_hall.specs.Handles.{IsPassOf, first_of, view};
ghost use Rattle.durable_server.specs.Drives.{IfLine, IsDurableTurn, IsSeatedAt};

use crate::alarm::NoAlarm;
use crate::drives::LoggedDrives;
use crate::line::DurableLine;
use cta_journal::Disk;
use drive_session::Session;
use durable_archive::Logged;
use media::TapeDrive;
use outside::Clock;
use std::sync::Wait;
use turn_hall::{Hall, Keeps, Pass};

/// One step of the session of a drive, as `drive_turn` makes it, at an archive with a journal that a hall keeps: what the step asks is
/// answered once its entry is in the journal. `Closed` comes exactly where this step's own turn gave it, with that turn's cause; the
/// session is of no use then, and is to be let go. Where a line comes, session and drive are seated with the pass as before.
pub fn durable_turn<D: TapeDrive, K: Disk, C: Clock, R: Wait>(
    rt: &R,
    hall: &Hall<Logged<D::Medium, K>>,
    pass: &mut Pass<Logged<D::Medium, K>>,
    session: &mut Session<D>,
    drive: &mut D,
    clock: &mut C,
) -> DurableLine
    requires here { IsPassOf ⟦<Logged<D::Medium, K> as Keeps>⟧.site hall.now pass.old }
    requires seated { IsSeatedAt D.Medium.told (first_of hall.now).archive.site (view pass.old) session.old (D.seen drive.old) }
    ensures here { IsPassOf ⟦<Logged<D::Medium, K> as Keeps>⟧.site hall.now pass.new }
    ensures seats { pass.new.seats ≡ pass.old.seats }
    ensures seated { IfLine result (IsSeatedAt D.Medium.told (first_of hall.now).archive.site (view pass.new) session.new (D.seen drive.new)) }
    ensures step { IsDurableTurn D.Medium.told (first_of hall.now).archive.site (view pass.old) (view pass.new) session.old session.new (D.seen drive.old) (D.seen drive.new) result }
{
    let front = LoggedDrives::new(&NoAlarm);
    match drive_turns::drive_turn(rt, hall, pass, &front, session, drive, clock) {
        Ok(line) => DurableLine::Line(line),
        Err(cause) => DurableLine::Closed { cause },
    }
}
