// The bytes of a record, taken from the script and fed to their link as they come.
ghost use Rattle.std.specs.Prelude.{◌≡◌, ◌≤◌, ◌<◌, ◌++◌, ◌∷◌, [], ℕ, List, length, OnOk};
ghost use Rattle.replay.specs.declared.feeding.FeedEnd.TheVariants as fed;
ghost use Rattle.cta_model.specs.Legal.{greatest_moment};
ghost use Rattle.conn.specs.Cut.{Event};
ghost use Rattle.links.specs.Run.{Turn};
ghost use Rattle.links.specs.Standing.{StandFor, HasRoomOn};
ghost use Rattle.replay.specs.Line.{IsHttp};
ghost use Rattle.replay.specs.Intake.{budget};
ghost use Rattle.replay.specs.Run.{turn_with};
ghost use Rattle.replay.specs.Seen.{script_view, sink_view, world};
ghost use Rattle.replay.specs.RecordTurns.{Feeds, Delivers};

use crate::front::Front;
use crate::intake::{BUDGET, Stop, take_piece};
use crate::line::HttpLine;
use crate::output::{Unwritten, answer_events};
use links::begins_empty;
use media::TapeDrive;
use outside::{Sink, Source};
use std::alloc::Global;

// How the feeding of a record's bytes ended.
#[derive(Clone, Copy, Debug, PartialEq, Eq)]
pub(crate) enum FeedEnd {
    // All bytes were fed and answered.
    All,
    // Only some bytes came; they were fed and answered.
    Part(Stop),
    // Not all replies were written.
    Unanswered(Unwritten),
}

// Feeds a piece to a link, behind the bytes of its record that were fed before, and answers all events that it completes.
fn feed_piece<K: Sink, D: TapeDrive + Drop>(
    alloc: Global,
    front: &mut Front<D>,
    out: &mut K,
    link: u32,
    moment: u64,
    piece: &[u8],
) -> Result<(), Unwritten>
    requires link { link < 1024 }
    requires moment { moment ≤ greatest_moment }
    requires room { HasRoomOn front.old.links link (length piece.now) }
    ensures feeds { (limit : ℕ) (before : List Turn) (bytes : List ℕ) (events : List Event) → StandFor front.old.links limit (before ++ turn_with link moment bytes events ∷ [])
        → Feeds result front.new.links limit front.old.desk.run front.new.desk.run before link moment (bytes ++ piece.now) events
        (sink_view (K.written out.old) (K.faults out.old)) (sink_view (K.written out.new) (K.faults out.new)) }
    ensures ready { OnOk result (front.new.desk.ready ≡ front.old.desk.ready) }
    ensures later { K.faults out.old ≤ K.faults out.new }
{
    match front.links.turn(alloc, link, piece) {
        Ok(events) => answer_events(alloc, &mut front.desk, out, link, moment, events),
        Err(_) => Err(Unwritten::Wanting),
    }
}

// Takes the bytes of a record, and feeds them to its link as they come; each event that they complete is answered at the
// record's moment. Room is made before a byte is taken, so that what was taken can be fed. `buffer` is room for a piece.
pub(crate) fn feed_record<S: Source, K: Sink, D: TapeDrive + Drop>(
    alloc: Global,
    front: &mut Front<D>,
    script: &mut S,
    taken: &mut u64,
    out: &mut K,
    buffer: &mut [u8],
    line: HttpLine,
) -> FeedEnd
    requires http { IsHttp line.link line.moment line.len }
    requires within { taken.old ≤ budget }
    requires buffer { 0 < length buffer.old }
    ensures delivers { (before : List Turn) → StandFor front.old.links front.old.desk.run.site.limits.file before
        → Delivers result front.new.links front.old.desk.run front.new.desk.run before line.link line.moment line.len
        (world (script_view (S.left script.old) taken.old (S.faults script.old)) (sink_view (K.written out.old) (K.faults out.old)))
        (world (script_view (S.left script.new) taken.new (S.faults script.new)) (sink_view (K.written out.new) (K.faults out.new))) }
    ensures ready { result ≡ fed.All → front.new.desk.ready ≡ front.old.desk.ready }
    ensures later { (S.faults script.old ≤ S.faults script.new) × (K.faults out.old ≤ K.faults out.new) }
    ensures within { taken.new ≤ budget }
{
    begins_empty();
    let mut wanted = line.len as usize;
    while wanted > 0 {
        if *taken == BUDGET {
            return FeedEnd::Part(Stop::Full);
        }
        let most = wanted.min(buffer.len()).min((BUDGET - *taken) as usize);
        let Ok(()) = front.links.reserve(line.link, most) else {
            return FeedEnd::Part(Stop::Memory);
        };
        let count = match take_piece(script, taken, &mut buffer[..most]) {
            Ok(count) => count,
            Err(why) => return FeedEnd::Part(why),
        };
        let piece = &buffer[..count];
        if let Err(why) = feed_piece(alloc, front, out, line.link, line.moment, piece) {
            return FeedEnd::Unanswered(why);
        }
        wanted -= count;
    }
    FeedEnd::All
}
