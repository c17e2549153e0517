// A whole script, record by record.
ghost use Rattle.std.specs.Prelude.{◌≡◌, ◌<◌, [], Bool, length, true};
ghost use Rattle.cta_site.specs.declared.site.Site.{Site};
ghost use Rattle.links.specs.Standing.{LinksStand};
ghost use Rattle.archive_opening.specs.Seen.{source_view};
ghost use Rattle.replay.specs.Desk.{Begins};
ghost use Rattle.replay.specs.Seen.{sink_view};
ghost use Rattle.replay.specs.Outcome.{Replays};

use crate::front::Front;
use crate::laws::runs_keep_promises;
use crate::record::one_record;
use archive_opening::Status;
use links::runs_follow;
use media::TapeDrive;
use outside::{Sink, Source};
use std::alloc::Global;

// The most bytes of a record that are taken at a time.
const PIECE: usize = 16_384;

// Reads a script up to its end, and writes what is answered on links of which nothing was read, and the lines of drives that
// are free.
fn run_records<S: Source, K: Sink, D: TapeDrive + Drop>(
    alloc: Global,
    front: &mut Front<D>,
    script: &mut S,
    out: &mut K,
    buffer: &mut [u8],
) -> Status
    requires ready { front.old.desk.ready ≡ true }
    requires links { LinksStand front.old.links front.old.desk.run.site.limits.file (λ link. []) (λ link. []) }
    requires buffer { 0 < length buffer.old }
    ensures { (tells : Bool) (site : Site) → Begins tells site front.old.desk → Replays tells result site (source_view (S.left script.old) (S.faults script.old)) (source_view (S.left script.new) (S.faults script.new))
        (sink_view (K.written out.old) (K.faults out.old)) (sink_view (K.written out.new) (K.faults out.new)) }
{
    runs_follow();
    runs_keep_promises();
    front.desk.site().keeps_rules();
    let mut taken = 0;
    'records: loop {
        if let Some(status) = one_record(alloc, front, script, &mut taken, out, buffer) {
            return status;
        }
    }
}

// Reads a script up to its end, and writes what is answered on links of which nothing was read, and the lines of drives that
// are free.
pub(crate) fn run_script<S: Source, K: Sink, D: TapeDrive + Drop>(
    alloc: Global,
    front: &mut Front<D>,
    script: &mut S,
    out: &mut K,
) -> Status
    requires ready { front.old.desk.ready ≡ true }
    requires links { LinksStand front.old.links front.old.desk.run.site.limits.file (λ link. []) (λ link. []) }
    ensures { (tells : Bool) (site : Site) → Begins tells site front.old.desk → Replays tells result site (source_view (S.left script.old) (S.faults script.old)) (source_view (S.left script.new) (S.faults script.new))
        (sink_view (K.written out.old) (K.faults out.old)) (sink_view (K.written out.new) (K.faults out.new)) }
{
    front.desk.site().keeps_rules();
    match vec![in alloc; 0u8; PIECE] {
        Ok(mut buffer) => run_records(alloc, front, script, out, &mut buffer),
        Err(_) => Status::NoMemory,
    }
}
