// A Stage that is accepted, carried out.
ghost use Rattle.std.specs.Prelude.{◌≡◌, ◌≤◌, ◌<◌, ◌+◌, ◌*◌, ◌^◌, ◌∷◌, ℕ, List, Some, true, false, length, slice_get, codes, IfErr};
ghost use Rattle.std.specs.List.{AllByRecursion};
ghost use Rattle.cta_site.specs.Listed.{rows};
ghost use Rattle.cta_model.specs.declared.asks.Wanted.{Wanted};
ghost use Rattle.cta_model.specs.declared.asks.Who.{Who};
ghost use Rattle.cta_model.specs.declared.states.Place.{Place};
ghost use Rattle.cta_model.specs.Files.{size_of};
ghost use Rattle.cta_model.specs.History.{History, entry_of, moment_of};
ghost use Rattle.cta_model.specs.Legal.{IsLegal, new_entry};
ghost use Rattle.cta_model.specs.Mounts.{has_job};
ghost use Rattle.cta_model.specs.Recalls.{recall_job};
ghost use Rattle.cta_model.specs.Stages.{stage_files};
ghost use Rattle.cta_laws.specs.Stages.{files_staged};
ghost use Rattle.job_queues.specs.Waiting.{bytes_of, jobs_of};
ghost use Rattle.kept_history.specs.Puts.{is_put};
ghost use Rattle.part_model.specs.JobRows.{book_in};
ghost use Rattle.part_model.specs.Queues.{lines_in};
ghost use Rattle.part_model.specs.Requests.{Requests, RequestsAgree, add_request};
ghost use Rattle.tape_table.specs.Sources.{sources_in};
ghost use Rattle.archive_parts.specs.Called.{AreKeptCalled};
ghost use Rattle.archive_parts.specs.Carrying.{CanCarryOut, IsCarriedOut};
ghost use Rattle.archive_parts.specs.PartsKept.{ArePartsKept};
ghost use Rattle.caller_asks.specs.Sorted.{IsSorted};
ghost use Rattle.part_moves.specs.Texts.{AreAll};
ghost use Rattle.caller_asks.specs.Wanted.{AreOnce};

use crate::asked::make_ready;
use crate::births::{bear_all, join_all, queue_all};
use crate::pins::pin_files;
use crate::sorting::Sorted;
use crate::statuses::{complete_all, fail_all, start_all};
use archive_parts::{ArchiveParts, kept_parts_move, same_parts_are_kept};
use cta_laws::{places_are_of_copies, places_are_on_site, stays_short};
use cta_model::{Actor, Answer, Ask, Wanted, Who};
use cta_site::{NoMemory, Rows, Text, ValidSite};
use kept_history::KeptHistory;
use part_laws::{files_fit_buffer, lines_are_small};
use site_index::SiteIndex;
use std::alloc::Global;

// Makes the calls for a Stage whose entry, of this number, the history has, and whose request the book has: its files are STARTED and
// ended that need not wait, it waits for the recalls of the others, of which those that are not live are born and queued, and it pins
// the files that are COMPLETED.
fn settle_stage(
    site: &ValidSite,
    history: &KeptHistory,
    parts: &mut ArchiveParts,
    at: u64,
    number: u32,
    numbers: &[u32],
    sorted: &Sorted,
    errors: Vec<Text>,
)
    requires many { length errors.items ≡ length sorted.now.lost.items }
    requires same { AreAll (codes "no tape is left") errors.items }
    requires sorted { IsSorted parts.old.buffer.held.value parts.old.tapes.value (book_in parts.old.book.value) numbers.now sorted.now }
    requires recalled_once { AreOnce sorted.now.recalled.items }
    requires bearing_once { AreOnce sorted.now.bearing.items }
    requires jobs { length sorted.now.recalled.items + length sorted.now.bearing.items ≤ parts.old.book.room }
    requires reads { length sorted.now.bearing.items ≤ parts.old.recalls.room }
    requires pins { length numbers.now ≤ parts.old.buffer.held.room }
    requires puts { AllByRecursion (λ (f : ℕ). is_put (entry_of history.now.value f) ≡ true) sorted.now.bearing.items }
    requires keys { (f : ℕ) (p : Place) → slice_get (sources_in parts.old.tapes.value f) 0 ≡ Some p → p.tape < length parts.old.recalls.value }
    requires lacks { (f k : ℕ) → has_job (recall_job number f) (jobs_of (lines_in parts.old.recalls.value k)) ≡ false }
    requires small { (f : ℕ) → size_of history.now.value f ≤ 2147483648 }
    requires bytes { (k : ℕ) → bytes_of (lines_in parts.old.recalls.value k) + 2147483648 * length sorted.now.bearing.items < 2 ^ 64 }
    ensures { (h : History) (t : ℕ) (who : Who) (wanted : List Wanted) (requests : Requests) → IsLegal site.now (new_entry h t (Ask.Stage who (rows wanted)) (Answer.Staged number) ∷ h)
        → history.now.value ≡ new_entry h t (Ask.Stage who (rows wanted)) (Answer.Staged number) ∷ h → at ≡ moment_of h t → number ≡ length h + 1
        → ArePartsKept site.now h (record parts.old { requests = requests }) → RequestsAgree parts.old.requests (add_request number at (stage_files site.now h wanted) requests)
        → numbers.now ≡ files_staged site.now h wanted
        → AreKeptCalled site.now h (new_entry h t (Ask.Stage who (rows wanted)) (Answer.Staged number)) (record parts.old { requests = requests }) parts.new }
{
    places_are_of_copies();
    places_are_on_site();
    site.numbers_are_known();
    start_all(&mut parts.requests, number, sorted.started.as_slice(), at);
    complete_all(&mut parts.requests, number, sorted.here.as_slice(), at);
    fail_all(
        &mut parts.requests,
        number,
        sorted.lost.as_slice(),
        errors,
        at,
    );
    let bearing = sorted.bearing.as_slice();
    join_all(&mut parts.book, number, sorted.recalled.as_slice());
    bear_all(&mut parts.book, number, bearing);
    queue_all(
        site,
        history,
        &parts.tapes,
        &mut parts.recalls,
        number,
        bearing,
    );
    pin_files(&mut parts.buffer, &parts.requests, number, numbers);
}

/// Makes a stage request: carries out the accepted `Stage` of these files at a moment, in seconds since 1970. The answer tells the number
/// of the request, which is that of its entry. Each path is a file of the request once, with the lifetime that it is first named with, or
/// else the site's. A file in the buffer is COMPLETED and pinned for its lifetime from then on; a path that names no file and a file of
/// which no tape is left FAIL; any other file waits for its recall, which is born and queued where none is live, and is STARTED where a
/// Claim has named the recall. NoMemory changes nothing, and gives back what was handed in. Its cost is that of the rooms that it
/// makes, the length of the paths, and the number of the files, each with the logarithm of the number of paths, of files and pins of the
/// buffer, and of queued recalls, and with the site's policies, of which there are at most 64. WLCG Tape REST API v1; lifetimes and the
/// order of files are this project's own.
pub fn stage(
    alloc: Global,
    site: &SiteIndex,
    history: &mut KeptHistory,
    parts: &mut ArchiveParts,
    at: u64,
    who: Who,
    wanted: Rows<Wanted>,
) -> Result<Answer, (NoMemory, Who, Rows<Wanted>)>
    requires { CanCarryOut site.now history.old.value parts.old at (Ask.Stage who (rows wanted.items)) }
    ensures carried { IsCarriedOut site.now history.old.value at (Ask.Stage who (rows wanted.items)) result history.new.value parts.new }
    ensures back { IfErr result (λ e. (e.1 ≡ who) × (e.2 ≡ wanted)) }
{
    kept_parts_move();
    same_parts_are_kept();
    files_fit_buffer();
    lines_are_small();
    places_are_on_site();
    stays_short();
    let rules = site.site();
    rules.keeps_rules();
    let now = history.moment_of(at);
    let number = history.next_number();
    let lifetime = rules.limits().lifetime;
    let asked = match make_ready(alloc, history, parts, &who, lifetime, wanted.as_slice()) {
        Ok(asked) => asked,
        Err(error) => return Err((error, who, wanted)),
    };
    if let Err(error) = parts.requests.add(number, now, Rows::of(asked.files)) {
        return Err((error, who, wanted));
    }
    history.append(
        at,
        Actor::Caller(asked.caller),
        Ask::Stage { who, files: wanted },
        Answer::Staged { id: number },
    );
    let errors = asked.errors;
    settle_stage(
        rules,
        history,
        parts,
        now,
        number,
        asked.numbers.as_slice(),
        &asked.sorted,
        errors,
    );
    Ok(Answer::Staged { id: number })
}
