// The run of the program.
ghost use Rattle.std.specs.Prelude.{map, string_bytes};
ghost use Rattle.archive_opening.specs.Seen.{source_view};
ghost use Rattle.archive_opening.specs.SiteReading.{IsOpened};
ghost use Rattle.replay.specs.Outcome.{Replays};
ghost use Rattle.replay.specs.Seen.{sink_view};
ghost use Rattle.replay.specs.Top.{handed, HasReplayed, Runs};

use crate::front::Front;
use crate::run::run_script;
use crate::words::is_replay_form;
use archive::Archive;
use archive_opening::{Status, read_archive};
use cta_site::one_numbering;
use media::{Bench, TapeDrive};
use outside::{Sink, Source};
use std::alloc::Global;
use std::hash::RandomState;

// Runs a script for an archive that has kept nothing yet, over drives that the bench makes, and lets both go.
fn run_archive<S: Source, K: Sink, D: TapeDrive + Drop, B: Bench<D>>(
    alloc: Global,
    archive: Archive<D::Medium>,
    script: &mut S,
    out: &mut K,
    bench: &mut B,
) -> Status
    requires { IsOpened (B.tells bench.old) archive }
    ensures { Replays (B.tells bench.old) result archive.site (source_view (S.left script.old) (S.faults script.old)) (source_view (S.left script.new) (S.faults script.new))
        (sink_view (K.written out.old) (K.faults out.old)) (sink_view (K.written out.new) (K.faults out.new)) }
{
    archive.site().keeps_rules();
    match Front::new(alloc, archive, bench) {
        Ok(mut front) => {
            let status = run_script(alloc, &mut front, script, out);
            front.let_go();
            status
        }
        Err(_) => Status::NoMemory,
    }
}

// The run, with the clause that holds its outcome.
fn replay_site<A: Source, S: Source, K: Sink, D: TapeDrive + Drop, B: Bench<D>>(
    alloc: Global,
    words: &[String],
    site_bytes: &mut A,
    script: &mut S,
    out: &mut K,
    bench: &mut B,
    keys: RandomState,
) -> Status
    ensures { Runs (B.tells bench.old) result (map string_bytes words.now)
        (handed (A.left site_bytes.old) (A.faults site_bytes.old) (S.left script.old) (S.faults script.old) (K.written out.old) (K.faults out.old))
        (handed (A.left site_bytes.new) (A.faults site_bytes.new) (S.left script.new) (S.faults script.new) (K.written out.new) (K.faults out.new)) }
{
    let Ok(is_form) = is_replay_form(alloc, words) else {
        return Status::NoMemory;
    };
    if !is_form {
        return Status::Usage;
    }
    match read_archive(alloc, site_bytes, bench, keys) {
        Ok(archive) => run_archive(alloc, archive, script, out, bench),
        Err(status) => status,
    }
}

/// Runs a script for a site: the run of `cta replay SITE` (this project's own form).
///
/// `words` are the words of the command line behind the program's name; their one form is `replay` and a word that is
/// not empty and begins with no `-`. `site_bytes` gives the site file, of at most 16,777,216 bytes, and `script` the
/// script. A script is a list of records up to the line `end`, whose bytes after its LF are not read.
/// - The record `http LINK MOMENT LENGTH` LF, LENGTH bytes, LF gives its bytes to the connection of the link LINK (0 to 1,023) at the
///   MOMENT (seconds since 1970, up to 253,402,300,799), as they come: a request may be cut over records, and a record may complete
///   several. Each 100 Continue, refusal and request that its bytes complete (RFC 9112, in the profile of `conn`) is answered in
///   order: a request is routed by the route table of `tape_routes` and asked of an archive of the site. A refusal and a closing request
///   end their link, whose later bytes are dropped. `out` takes for each reply the line `reply LINK LENGTH`, the LENGTH bytes of the
///   reply and LF.
/// - The record `step DRIVE MOMENT` LF makes one step of the session of this drive, which the bench made: by the table of
///   `drive_session` at most one call of the device, and then at most one ask of the archive. `out` takes the line `step DRIVE`, a space,
///   the words of the step, and LF.
///
/// The statuses are looked at in the order in which the work meets them: words, site file, then the script record by
/// record.
/// - `Ok`: the script was read to its line `end`, what follows is left in the source, and all that is due was written.
/// - `Usage`: the words are of another form. Nothing was read or written.
/// - `Site`: the site file breaks this rule, of the thirty rules of a site file the first, and first at this item of its
///   list (0 where the rule speaks of no element). The script is untouched and nothing was written.
/// - `Script`: at this offset no record begins or goes on, or the script ended there, in a record or before `end`. A
///   record that is cut has fed what it held. All that was due was written.
/// - `ReadFault`: the count of faults of the site file's source rose in this call, the script is untouched and nothing
///   was written; or that of the script's, and all that was due was written.
/// - `WriteFault`: the count of faults of `out` rose in this call. A front of what is due was written.
/// - `NoMemory`: memory was wanted. Whole replies and lines were written, from the first on.
/// - `TooLong`: 2^32 bytes of the script were taken without `end`. All that was due was written.
///
/// Whichever calls of devices fail, behind each step each tape of the site has its medium, by its label, on the shelf or with the drive
/// that has it mounted, which is true for what is kept where it tells its records; each job that a fault gave back, and that has not ended,
/// stands in its queue again right behind it; what a drive reads that tells its plan is the item's content, altered exactly where the plan
/// says so; and over a bench that tells, a drive that is honest meets no mismatch.
///
/// `ListenFault` is not answered. It always returns.
///
/// These are true of the body and stand in no clause: an event is answered once its bytes are taken, before more are; of a record's bytes
/// no more than 16,384 are taken at a time, and none before there is room for them; the memory is that of the archive, of the links, of the
/// media and of one body on each link; and the time is that of the archive's asks and looks beside the bytes, of which one of a body is
/// moved twice and hashed once, and one of a head, a chunk line or a trailer that isn't whole is read again at each piece.
pub fn replay_top<A: Source, S: Source, K: Sink, D: TapeDrive + Drop, B: Bench<D>>(
    alloc: Global,
    words: &[String],
    site_bytes: &mut A,
    script: &mut S,
    out: &mut K,
    bench: &mut B,
    keys: RandomState,
) -> Status
    // Which status comes when, what was taken then and what was written; and a whole script is run to its end, unless something fails
    // or memory is wanted.
    ensures { HasReplayed (B.tells bench.old) result (map string_bytes words.now)
        (handed (A.left site_bytes.old) (A.faults site_bytes.old) (S.left script.old) (S.faults script.old) (K.written out.old) (K.faults out.old))
        (handed (A.left site_bytes.new) (A.faults site_bytes.new) (S.left script.new) (S.faults script.new) (K.written out.new) (K.faults out.new)) }
{
    one_numbering();
    replay_site(alloc, words, site_bytes, script, out, bench, keys)
}
