// What the definitions of a script and of its output say.
ghost use Rattle.cta_site.specs.declared.site.Site.{Site};
ghost use Rattle.cta_site.specs.ValidSite.{IsValidSite};
ghost use Rattle.replay.specs.Script.{HasOneReading};
ghost use Rattle.replay.specs.Laws.{HasLinksApart, HasOneOutput, KeepsLegalHistories, LiveReadsAreDone, OutputsFollow, RunsKeepPromises};

use cta_laws::{claimer_moves, claims_nothing_after_end, is_queued_or_claimed, true_medium_stays};
use cta_model::histories_stay_legal;
use cta_site::valid_is_well_formed;
use links::one_run;
use tape_routes::callers_ask;

/// The bytes of a script that was cut somewhere are read in one way: for a valid site, two cuts with the same bytes are
/// one cut, with the same whole records and the same tail. So the bytes that a run has taken tell what it brought. A law
/// (this project's own), which does nothing when it runs.
pub fn one_reading()
    ensures { (site : Site) → IsValidSite site → HasOneReading site }
{
    valid_is_well_formed();
}

/// The bytes of a script, and the contents that go out, tell what is written for it, but for the two exceptions of a
/// connection: inside a target that is malformed, and after a 65th field of a head or a trailer, a cut may wait where another
/// refuses. A law, which does nothing when it runs.
pub fn one_output()
    ensures { (site : Site) → IsValidSite site → HasOneOutput site }
{
    one_reading();
    one_run();
}

/// The replies on one link don't depend on the bytes of another, as long as what is kept stays as it is: so with looks, and with
/// asks that are refused. A law, which does nothing when it runs.
pub fn links_apart()
    ensures { HasLinksApart }
{}

/// What happens is answered one after the other, on what was kept behind what happened before it: the output for what happens
/// first and then for more is that for the first, and then that for the others. A law, which does nothing when it runs.
pub fn outputs_follow()
    ensures { OutputsFollow }
{}

/// The history that an archive has kept behind a run of records is legal for its site, so that each law of every legal
/// history holds of it. A law, which does nothing when it runs.
pub fn runs_keep_legal_histories()
    ensures { KeepsLegalHistories }
{
    histories_stay_legal();
    callers_ask();
}

/// A run of records over drives and media that a bench has made, in which each step is sound, keeps what a run keeps whichever calls of
/// devices fail: its history is legal; each tape has its medium, on the shelf or with the drive that has it mounted, which is true for it
/// where it tells its records; each job that a Failed names, and that has not ended, stands in its queue again right behind it; behind the
/// End of a mount each live job stands in its queue, or another open mount claims it; and over a bench that tells, a drive that is honest
/// meets no mismatch, and what it reads of a live job is done unless the device fails. A law, which does nothing when it runs.
pub fn runs_keep_promises()
    ensures { RunsKeepPromises }
{
    histories_stay_legal();
    callers_ask();
    true_medium_stays();
    is_queued_or_claimed();
    claimer_moves();
    claims_nothing_after_end();
    live_reads_are_done();
}

/// What is read of a live job is done, where the device neither fails nor gives other bytes than the file's. A law, which does nothing
/// when it runs.
pub fn live_reads_are_done()
    ensures { LiveReadsAreDone }
{}
