// One record of a script, read and answered.
ghost use Rattle.std.specs.Prelude.{◌≡◌, ◌≤◌, ◌<◌, List, length, true, IfNone};
ghost use Rattle.links.specs.Run.{Turn};
ghost use Rattle.links.specs.Standing.{StandFor};
ghost use Rattle.replay.specs.Intake.{budget};
ghost use Rattle.replay.specs.Line.{http_text, IsDriveStep, IsHttp};
ghost use Rattle.replay.specs.Script.{ended};
ghost use Rattle.replay.specs.Seen.{script_view, sink_view, world};
ghost use Rattle.replay.specs.RecordTurns.{Turns, TurnsAfter, TookLf, stop_status, unwritten_status};
ghost use Rattle.replay.specs.StepRecords.{HasStepped};

use crate::feeding::{FeedEnd, feed_record};
use crate::front::Front;
use crate::intake::{LINE, LineEnd, Stop, take_byte, take_line};
use crate::line::{HttpLine, ScriptLine, line_of};
use crate::output::Unwritten;
use crate::step_lines::put_line;
use archive_opening::Status;
use links::runs_follow;
use media::TapeDrive;
use outside::{Sink, Source};
use std::alloc::Global;

// The status for a script that gave no further byte.
fn stopped(why: Stop, taken: u64) -> Status
    ensures { result ≡ stop_status why taken }
{
    match why {
        Stop::End => Status::Script { offset: taken },
        Stop::Fault => Status::ReadFault,
        Stop::Full => Status::TooLong,
        Stop::Memory => Status::NoMemory,
    }
}

// The status where replies were not written.
fn unwritten(why: Unwritten) -> Status
    ensures { result ≡ unwritten_status why }
{
    match why {
        Unwritten::Broken => Status::WriteFault,
        Unwritten::Wanting => Status::NoMemory,
    }
}

// The last LF of a record.
fn last_lf<S: Source>(script: &mut S, taken: &mut u64) -> Option<Status>
    requires { taken.old ≤ budget }
    ensures lf { TookLf result (script_view (S.left script.old) taken.old (S.faults script.old)) (script_view (S.left script.new) taken.new (S.faults script.new)) }
    ensures later { S.faults script.old ≤ S.faults script.new }
    ensures within { taken.new ≤ budget }
{
    let at = *taken;
    match take_byte(script, taken) {
        Ok(b'\n') => None,
        Ok(_) => Some(Status::Script { offset: at }),
        Err(why) => Some(stopped(why, *taken)),
    }
}

// An `http` record behind its line.
fn http_record<S: Source, K: Sink, D: TapeDrive + Drop>(
    alloc: Global,
    front: &mut Front<D>,
    script: &mut S,
    taken: &mut u64,
    out: &mut K,
    buffer: &mut [u8],
    line: HttpLine,
) -> Option<Status>
    requires http { IsHttp line.link line.moment line.len }
    requires begun { length (ended (http_text line.link line.moment line.len)) ≤ taken.old }
    requires within { taken.old ≤ budget }
    requires buffer { 0 < length buffer.old }
    ensures turns { (before : List Turn) → StandFor front.old.links front.old.desk.run.site.limits.file before
        → TurnsAfter result front.new.links front.old.desk.run front.new.desk.run before (ended (http_text line.link line.moment line.len))
        (world (script_view (S.left script.old) taken.old (S.faults script.old)) (sink_view (K.written out.old) (K.faults out.old)))
        (world (script_view (S.left script.new) taken.new (S.faults script.new)) (sink_view (K.written out.new) (K.faults out.new))) }
    ensures ready { IfNone result (front.new.desk.ready ≡ front.old.desk.ready) }
    ensures later { (S.faults script.old ≤ S.faults script.new) × (K.faults out.old ≤ K.faults out.new) }
    ensures within { taken.new ≤ budget }
{
    runs_follow();
    match feed_record(alloc, front, script, taken, out, buffer, line) {
        FeedEnd::All => last_lf(script, taken),
        FeedEnd::Part(why) => Some(stopped(why, *taken)),
        FeedEnd::Unanswered(why) => Some(unwritten(why)),
    }
}

// A `step` record behind its line: the step is made, and its line written.
fn step_record<K: Sink, D: TapeDrive + Drop>(
    alloc: Global,
    front: &mut Front<D>,
    out: &mut K,
    drive: u32,
    moment: u64,
) -> Option<Status>
    requires step { IsDriveStep front.old.desk.run.site drive moment }
    requires ready { front.old.desk.ready ≡ true }
    ensures stepped { HasStepped result front.old.desk.run front.new.desk.run drive moment
        (sink_view (K.written out.old) (K.faults out.old)) (sink_view (K.written out.new) (K.faults out.new)) }
    ensures links { front.new.links ≡ front.old.links }
    ensures ready { IfNone result (front.new.desk.ready ≡ true) }
    ensures later { K.faults out.old ≤ K.faults out.new }
{
    match front.desk.step(drive, moment) {
        Ok(line) => match put_line(alloc, front.desk.site(), out, drive, line) {
            Ok(()) => None,
            Err(why) => Some(unwritten(why)),
        },
        Err(_) => Some(Status::NoMemory),
    }
}

// Reads one record and answers what it completes, or ends the script. `buffer` is room for a piece of a record's bytes.
pub(crate) fn one_record<S: Source, K: Sink, D: TapeDrive + Drop>(
    alloc: Global,
    front: &mut Front<D>,
    script: &mut S,
    taken: &mut u64,
    out: &mut K,
    buffer: &mut [u8],
) -> Option<Status>
    requires within { taken.old ≤ budget }
    requires buffer { 0 < length buffer.old }
    requires ready { front.old.desk.ready ≡ true }
    ensures turns { (before : List Turn) → StandFor front.old.links front.old.desk.run.site.limits.file before
        → Turns result front.new.links front.old.desk.run front.new.desk.run before
        (world (script_view (S.left script.old) taken.old (S.faults script.old)) (sink_view (K.written out.old) (K.faults out.old)))
        (world (script_view (S.left script.new) taken.new (S.faults script.new)) (sink_view (K.written out.new) (K.faults out.new))) }
    ensures ready { IfNone result (front.new.desk.ready ≡ true) }
    ensures later { (S.faults script.old ≤ S.faults script.new) × (K.faults out.old ≤ K.faults out.new) }
    ensures within { taken.new ≤ budget }
{
    let start = *taken;
    let mut line = [0u8; LINE];
    match take_line(script, taken, &mut line) {
        LineEnd::Stopped(why) => Some(stopped(why, *taken)),
        LineEnd::Long => Some(Status::Script { offset: start }),
        LineEnd::Whole(n) => match line_of(&line[..n], front.desk.site()) {
            None => Some(Status::Script { offset: start }),
            Some(ScriptLine::End) => Some(Status::Ok),
            Some(ScriptLine::Step { drive, moment }) => step_record(
                alloc, front, out, drive, moment,
            ),
            Some(ScriptLine::Http(http)) => http_record(
                alloc, front, script, taken, out, buffer, http,
            ),
        },
    }
}
