// A file that was read for a live recall.
ghost use Rattle.std.specs.Prelude.{ℕ, ◌≡◌, ◌+◌, ◌*◌, ◌<◌, ◌≤◌, ◌^◌, ◌∷◌, false, true, IfOk, IfErr, filter, length};
ghost use Rattle.std.specs.List.{range_with_len};
ghost use Rattle.blob.specs.Sums.{sum_of};
ghost use Rattle.cta_model.specs.Files as files;
ghost use Rattle.cta_model.specs.Files.{copies_of_file, size_of};
ghost use Rattle.cta_model.specs.History.{History, entry_of, moment_of};
ghost use Rattle.cta_model.specs.Legal.{IsLegal, new_entry};
ghost use Rattle.cta_model.specs.Recalls.{live_recall};
ghost use Rattle.cta_model.specs.RepackItems.{is_repacked, waiting_for};
ghost use Rattle.job_book.specs.Live.{lives};
ghost use Rattle.job_queues.specs.Waiting as queued;
ghost use Rattle.kept_history.specs.Puts.{is_put};
ghost use Rattle.part_model.specs.Held.{bytes_of, is_held};
ghost use Rattle.part_model.specs.JobRows.{book_in};
ghost use Rattle.part_model.specs.Queues.{lines_in};
ghost use Rattle.repack_book.specs.NamedRepacks.{repacks_of};
ghost use Rattle.archive_parts.specs.Called.{AreKeptCalled};
ghost use Rattle.archive_parts.specs.Carrying.{CanCarryOut, IsCarriedOut};
ghost use Rattle.archive_parts.specs.PartsKept.{ArePartsKept};
ghost use Rattle.drive_asks.specs.Reading.{CanQueue, copies_read};

use crate::arrival::{bring_in, pin_all_of};
use crate::births::{bear_all, queue_all};
use crate::repacks::{copies_read, mark_repacks};
use crate::waiters::complete_all;
use archive_parts::{ArchiveParts, Needs, kept_parts_move, same_parts_are_kept};
use blob::Blob;
use cta_laws::{
    buffer_has_room, claimed_bytes_move, job_file_has_put, job_file_is_live, recall_is_away,
    stays_short, subscribers_wait,
};
use cta_model::{Actor, Answer, Ask, Direction, Fate, Job};
use cta_site::{NoMemory, Rows, ValidSite};
use kept_history::KeptHistory;
use part_answers::is_safe;
use part_laws::{files_fit_buffer, lines_are_small};
use part_moves::{copies_of, mount_at, waiting_for};
use site_index::SiteIndex;
use std::alloc::Global;
use std::sync::Arc;

// What a Recalled takes along: how many copies its file has, the entries that wait for the recall, and the copies that repacks among
// them are READING.
#[derive(Drop)]
struct Waited {
    copies: u8,
    ids: Rows<u32>,
    born: Vec<u8>,
}

// Finds what a Recalled of a file takes along. NoMemory gives nothing.
fn find_waited(
    alloc: Global,
    site: &ValidSite,
    history: &KeptHistory,
    parts: &ArchiveParts,
    file: u32,
) -> Result<Waited, NoMemory>
    requires { length (waiting_for ((book_in parts.now.book.value).recall file)) < 2 ^ 32 }
    ensures copies { IfOk result (λ found. found.copies ≡ copies_of_file site.now history.now.value file) }
    ensures few { IfOk result (λ found. found.copies ≤ 4) }
    ensures ids { IfOk result (λ found. found.ids.items ≡ waiting_for ((book_in parts.now.book.value).recall file)) }
    ensures born { IfOk result (λ found. found.born.items ≡ copies_read (repacks_of parts.now.repacks) found.ids.items file found.copies) }
{
    let copies = copies_of(site, history, file);
    let ids = waiting_for(alloc, &parts.book, file)?;
    let born = copies_read(alloc, &parts.repacks, ids.as_slice(), file, copies)?;
    Ok(Waited { copies, ids, born })
}

// Makes the calls for a Recalled whose entry, of this number, the history has: the requests and the repacks that waited go on, the
// recall ends, archive jobs of the copies that repacks were READING are born and queued, and the file comes into the buffer.
fn settle_read(
    site: &ValidSite,
    history: &KeptHistory,
    parts: &mut ArchiveParts,
    at: u64,
    job: Job,
    blob: Arc<Blob>,
    number: u32,
    found: &Waited,
)
    requires few { found.now.copies ≤ 4 }
    requires aside { length blob.value ≤ parts.old.buffer.held.value.aside }
    requires lacks { is_held parts.old.buffer.held.value job.file ≡ false }
    requires fits { bytes_of parts.old.buffer.held.value.files + parts.old.buffer.held.value.aside < 2 ^ 64 }
    requires files { 2 * length found.now.ids.items + 1 ≤ parts.old.buffer.held.room }
    requires births { length found.now.born.items ≤ parts.old.book.room }
    requires writes { length found.now.born.items ≤ parts.old.pools.room }
    requires put { is_put (entry_of history.now.value job.file) ≡ true }
    requires keys { length parts.old.pools.value ≡ length site.now.pools.items }
    requires jobs { CanQueue site.now history.now.value (lines_in parts.old.pools.value) number job.file found.now.born.items }
    requires small { size_of history.now.value job.file ≤ 2147483648 }
    requires bytes { (k : ℕ) → queued.bytes_of (lines_in parts.old.pools.value k) + 2147483648 * length found.now.born.items < 2 ^ 64 }
    ensures { (h : History) (t m : ℕ) → IsLegal site.now (new_entry h t (Ask.Recalled m job) (Answer.Arrived Fate.Done) ∷ h)
        → history.now.value ≡ new_entry h t (Ask.Recalled m job) (Answer.Arrived Fate.Done) ∷ h → at ≡ moment_of h t → ArePartsKept site.now h parts.old → number ≡ length h + 1
        → sum_of blob.value ≡ files.sum_of h job.file → found.now.copies ≡ copies_of_file site.now h job.file → found.now.ids.items ≡ waiting_for (live_recall site.now h job.file)
        → found.now.born.items ≡ filter (is_repacked site.now h job.file) (range_with_len 1 found.now.copies)
        → AreKeptCalled site.now h (new_entry h t (Ask.Recalled m job) (Answer.Arrived Fate.Done)) parts.old parts.new }
{
    let ids = found.ids.as_slice();
    let born = found.born.as_slice();
    complete_all(&mut parts.requests, ids, job.file, at);
    mark_repacks(&mut parts.repacks, ids, job.file, found.copies);
    parts.book.give_back(job);
    parts.book.end(job);
    bear_all(&mut parts.book, number, job.file, born);
    queue_all(site, history, &mut parts.pools, number, job.file, born);
    let safe = is_safe(&parts.tapes, &parts.book, job.file, found.copies);
    let len = blob.sum().len;
    // The pins come first: then the file enters with their end, and its place in the buffer is not written again for each.
    pin_all_of(
        &mut parts.buffer,
        &parts.requests,
        &parts.repacks,
        ids,
        job.file,
    );
    bring_in(&mut parts.buffer, job.file, blob, len, safe);
}

// What the parts are to have room for.
fn needs_of(found: &Waited) -> Needs
    requires ids { length found.now.ids.items ≤ 2000000 }
    requires born { length found.now.born.items ≤ 4 }
    ensures jobs { result.jobs ≡ length found.now.born.items }
    ensures writes { result.writes ≡ length found.now.born.items }
    ensures files { result.files ≡ 2 * length found.now.ids.items + 1 }
{
    let born = found.born.len() as u32;
    Needs {
        jobs: born,
        writes: born,
        files: 2 * found.ids.len() as u32 + 1,
        ..Needs::default()
    }
}

// Carries out an accepted Recalled of a job that is live, with the content of its file: the file comes into the buffer, pinned by those
// that waited for it, the recall ends, the files of requests are COMPLETED, and what repacks were READING they are WRITING, with its
// archive jobs.
pub(crate) fn read_done(
    alloc: Global,
    site: &SiteIndex,
    history: &mut KeptHistory,
    parts: &mut ArchiveParts,
    at: u64,
    mount: u32,
    job: Job,
    blob: Arc<Blob>,
) -> Result<Answer, (NoMemory, Arc<Blob>)>
    requires carrying { CanCarryOut site.now history.old.value parts.old at (Ask.Recalled mount job) }
    requires live { lives job (book_in parts.old.book.value) ≡ true }
    requires content { sum_of blob.value ≡ files.sum_of history.old.value job.file }
    ensures carried { IsCarriedOut site.now history.old.value at (Ask.Recalled mount job) result history.new.value parts.new }
    ensures back { IfErr result (λ e. e.1 ≡ blob) }
{
    kept_parts_move();
    same_parts_are_kept();
    buffer_has_room();
    claimed_bytes_move();
    files_fit_buffer();
    job_file_has_put();
    lines_are_small();
    recall_is_away();
    stays_short();
    subscribers_wait();
    let rules = site.site();
    rules.keeps_rules();
    let now = history.moment_of(at);
    let number = history.next_number();
    let found = match find_waited(alloc, rules, history, parts, job.file) {
        Ok(found) => found,
        Err(error) => return Err((error, blob)),
    };
    let needs = needs_of(&found);
    if let Err(error) = parts.make_room(history, needs) {
        return Err((error, blob));
    }
    let mounted = mount_at(&parts.mounts, mount);
    history.append(
        at,
        Actor::Drive(mounted.drive),
        Ask::Recalled { mount, job },
        Answer::Arrived { fate: Fate::Done },
    );
    settle_read(rules, history, parts, now, job, blob, number, &found);
    Ok(Answer::Arrived { fate: Fate::Done })
}
