// The parts of an archive.
ghost use Rattle.std.specs.Prelude.{ℕ, [], ◌<◌, ◌≤◌, ◌≡◌, IfOk, OnOk, length, map};
ghost use Rattle.cta_site.specs.declared.site.Site.{Site};
ghost use Rattle.cta_model.specs.declared.asks.Direction.{Direction};
ghost use Rattle.cta_model.specs.History.{History};
ghost use Rattle.disk_buffer.specs.Stored.{nothing_held};
ghost use Rattle.job_queues.specs.Waiting.{AreStarted};
ghost use Rattle.part_model.specs.Counts.{count_in};
ghost use Rattle.tape_table.specs.Rows.{fresh_row};
ghost use Rattle.part_model.specs.JobBook.{TellSame};
ghost use Rattle.part_model.specs.JobRows.{book_in};
ghost use Rattle.archive_parts.specs.PartsKept.{ArePartsKept};
ghost use Rattle.archive_parts.specs.Rooms.{HaveRoom};
ghost use Rattle.archive_parts.specs.Same.{TellSameParts};

use crate::laws::same_parts_are_kept;
use crate::needs::Needs;
use cta_site::{NoMemory, ValidSite};
use disk_buffer::DiskBuffer;
use failed_copies::FailedCopies;
use job_book::JobBook;
use job_queues::JobQueues;
use kept_history::KeptHistory;
use open_mounts::{OpenMounts, VoQuota};
use path_index::PathIndex;
use repack_book::RepackBook;
use stage_book::StageBook;
use std::alloc::Global;
use std::hash::RandomState;
use tape_table::TapeTable;

// Makes room for jobs in the book and in the queues.
fn reserve_jobs(
    book: &mut JobBook,
    pools: &mut JobQueues,
    recalls: &mut JobQueues,
    needs: Needs,
) -> Result<(), NoMemory>
    ensures book { TellSame (book_in book.new.value) (book_in book.old.value) }
    ensures pools { pools.new.value ≡ pools.old.value }
    ensures recalls { recalls.new.value ≡ recalls.old.value }
    ensures jobs_room { OnOk result (needs.jobs ≤ book.new.room) }
    ensures writes_room { OnOk result (needs.writes ≤ pools.new.room) }
    ensures reads_room { OnOk result (needs.reads ≤ recalls.new.room) }
{
    book.reserve(needs.jobs)?;
    pools.reserve(needs.writes)?;
    recalls.reserve(needs.reads)
}

/// The parts of an archive: what is known of its files, tapes, jobs, mounts and requests at the end of its history. This
/// project's own.
#[derive(Drop)]
pub struct ArchiveParts {
    /// The live file of each path.
    pub names: PathIndex,
    /// The tapes, and the places of copies on them.
    pub tapes: TapeTable,
    /// The disk buffer, with the contents of the files that it holds.
    pub buffer: DiskBuffer,
    /// The stage requests.
    pub requests: StageBook,
    /// The repacks.
    pub repacks: RepackBook,
    /// The live jobs, who claims them and who waits for them.
    pub book: JobBook,
    /// The jobs that wait to be written, by pool.
    pub pools: JobQueues,
    /// The recalls that wait to be read, by tape.
    pub recalls: JobQueues,
    /// The open mounts of each virtual organisation.
    pub counts: VoQuota,
    /// The open mounts, and the drives that are down.
    pub mounts: OpenMounts,
    /// The failed copies.
    pub failed: FailedCopies,
}

// The queues and the counts of open mounts at the start.
fn first_queues(
    alloc: Global,
    site: &ValidSite,
) -> Result<(JobQueues, JobQueues, VoQuota), NoMemory>
    ensures pools { IfOk result (λ r. AreStarted (length site.now.pools.items) r.0.value) }
    ensures recalls { IfOk result (λ r. AreStarted (length site.now.tapes.items) r.1.value) }
    ensures counts { IfOk result (λ r. (way : Direction) (vo : ℕ) → count_in r.2 way vo ≡ 0) }
    ensures vos { IfOk result (λ r. length r.2.archive ≡ length site.now.vos.items) }
{
    // So the numbers of pools and tapes fit in 32 bits.
    site.keeps_rules();
    let pools = JobQueues::new(alloc, site.pools().len() as u32)?;
    let recalls = JobQueues::new(alloc, site.tapes().len() as u32)?;
    let counts = VoQuota::new(alloc, site)?;
    Ok((pools, recalls, counts))
}

// The table of tapes and the buffer at the start.
fn first_space(alloc: Global, site: &ValidSite) -> Result<(TapeTable, DiskBuffer), NoMemory>
    ensures rows { IfOk result (λ r. r.0.value.rows ≡ map fresh_row site.now.tapes.items) }
    ensures places { IfOk result (λ r. r.0.value.places ≡ []) }
    ensures held { IfOk result (λ r. r.1.held.value ≡ nothing_held site.now.limits.buffer) }
    ensures contents { IfOk result (λ r. r.1.contents ≡ []) }
{
    let tapes = TapeTable::new(alloc, site)?;
    let buffer = DiskBuffer::new(alloc, site.limits().buffer)?;
    Ok((tapes, buffer))
}

// The repacks, the open mounts and the failed copies at the start.
fn first_lists(
    alloc: Global,
    site: &ValidSite,
) -> Result<(RepackBook, OpenMounts, FailedCopies), NoMemory>
    ensures repacks { IfOk result (λ r. r.0 ≡ []) }
    ensures mounts { IfOk result (λ r. r.1.value ≡ record { rows = []; downs = []; drives = length site.now.drives.items }) }
    ensures failed { IfOk result (λ r. r.2.value ≡ []) }
{
    let repacks = RepackBook::new(alloc)?;
    let mounts = OpenMounts::new(alloc, site)?;
    let failed = FailedCopies::new(alloc)?;
    Ok((repacks, mounts, failed))
}

impl ArchiveParts {
    /// The parts of an archive of this site with no history: no path names a file, all drives are up, and the tapes are empty and in
    /// their first states. Paths are hashed with these keys. NoMemory leaves nothing. Its cost is the size of the site.
    pub fn new(alloc: Global, site: &ValidSite, keys: RandomState) -> Result<ArchiveParts, NoMemory>
        ensures { IfOk result (λ parts. ArePartsKept site.now [] parts) }
    {
        let (pools, recalls, counts) = first_queues(alloc, site)?;
        let (tapes, buffer) = first_space(alloc, site)?;
        let (repacks, mounts, failed) = first_lists(alloc, site)?;
        Ok(ArchiveParts {
            names: PathIndex::new(alloc, keys),
            tapes,
            buffer,
            requests: StageBook::new(alloc, keys),
            repacks,
            book: JobBook::new(alloc),
            pools,
            recalls,
            counts,
            mounts,
            failed,
        })
    }

    /// Makes room for at least so many more additions of each kind, and never makes a room smaller. NoMemory changes nothing that the
    /// parts tell. Its cost is the size of a part where that takes memory, and else constant; room for additions one by one costs a
    /// constant for each on average.
    pub fn reserve(&mut self, needs: Needs) -> Result<(), NoMemory>
        ensures same { TellSameParts self.new self.old }
        ensures room { OnOk result (HaveRoom needs self.new) }
    {
        self.tapes.reserve(needs.places)?;
        reserve_jobs(&mut self.book, &mut self.pools, &mut self.recalls, needs)?;
        self.buffer.reserve(needs.files)?;
        self.mounts.reserve(needs.mounts)?;
        self.failed.reserve(needs.failed)
    }

    /// Makes room for one more entry of the history and for these additions to the parts. NoMemory changes nothing that either tells. Its
    /// cost is that of both `reserve`.
    pub fn make_room(&mut self, history: &mut KeptHistory, needs: Needs) -> Result<(), NoMemory>
        ensures entries { history.new.value ≡ history.old.value }
        ensures entry_room { OnOk result (0 < history.new.room) }
        ensures same { TellSameParts self.new self.old }
        ensures kept { (site : Site) (h : History) → ArePartsKept site h self.old → ArePartsKept site h self.new }
        ensures room { OnOk result (HaveRoom needs self.new) }
    {
        same_parts_are_kept();
        self.reserve(needs)?;
        history.reserve(1)
    }
}
