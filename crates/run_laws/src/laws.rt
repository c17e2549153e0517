// What two runs of one script have in common.
ghost use Rattle.cta_site.specs.ValidSite.{IsValidSite};
ghost use Rattle.cta_site.specs.declared.site.Site.{Site};
ghost use Rattle.run_laws.specs.Laws.{ChangesAreTold, HasAlikeEnds, HasAlikeRuns, TextsAreOutput};

use links::one_run;
use replay::one_reading;
use tape_routes::callers_ask;

/// Two runs of the same script bytes on a valid site, over what benches that tell their plans and their records have made, in which each
/// step is sound and carried out, so that none ran out of memory, and in which an altered read is told, are alike: their histories are the
/// same but for what mismatches have found; and their lines and replies are the same but for the bytes of files that a Fetch gives, which
/// have the same length and SHA-256. But for the two exceptions of a connection: inside a target that is malformed, and after a 65th field
/// of a head or a trailer, a cut may wait where another refuses. A law (this project's own), which does nothing when it runs.
pub fn alike_runs()
    ensures { (site : Site) → IsValidSite site → HasAlikeRuns site }
{
    one_reading();
    one_run();
    callers_ask();
}

/// Two runs of one script that have both ended with status 0 are alike in this way, where an altered read is told in both: what
/// `replay_top` says of such a run is all else that it takes. A law, which does nothing when it runs.
pub fn alike_ends()
    ensures { HasAlikeEnds }
{
    one_run();
    callers_ask();
}

/// Over a bench that tells, a read that the plan alters is told, where the item isn't empty; or a content is known that isn't empty and has
/// the same SHA-256 with its first byte altered. A law, which does nothing when it runs.
pub fn changes_are_told()
    ensures { ChangesAreTold }
{
    callers_ask();
}

/// The output of a run is the texts of what happens in it, one after the other: the line of each step, and the frame of each reply. A
/// law, which does nothing when it runs.
pub fn texts_are_output()
    ensures { TextsAreOutput }
{}
