// What the state tells of a mount and of what it claims.
ghost use Rattle.std.specs.Prelude.{None, Some, ◌≡◌, ◌≤◌, ◌&&◌, if◌then◌else◌, length, option_map, true, IfOk};
ghost use Rattle.std.specs.List.{list_all};
ghost use Rattle.cta_model.specs.declared.asks.Direction.TheVariants as direction;
ghost use Rattle.cta_model.specs.declared.asks.Item.{Item};
ghost use Rattle.cta_model.specs.declared.states.Mount.{Mount};
ghost use Rattle.cta_model.specs.Answers.{is_known, is_last_batch, same_item, same_items};
ghost use Rattle.cta_model.specs.Batches.{batch_of};
ghost use Rattle.cta_model.specs.History.{is_empty, moment_of};
ghost use Rattle.cta_model.specs.Legal.{IsMountOf, greatest_moment};
ghost use Rattle.cta_model.specs.Mounts.{claimed_items, is_open, item_jobs, last_batch, mount_of};
ghost use Rattle.part_model.specs.Mounts.{last_items};
ghost use Rattle.part_laws.specs.Sessions.{claims_told};
ghost use Rattle.archive_state.specs.Contents.{AreInBuffer};

use crate::state::ArchiveState;
use crate::twice::is_same_job;
use blob::Told;
use cta_laws::{
    archive_is_resident, claims_no_job_twice, fseqs_are_low, job_file_has_put, tapes_have_room,
};
use cta_model::{Direction, Item, Job};
use cta_site::{NoMemory, Rows};
use job_book::JobBook;
use part_answers::{taken_jobs, written_batch};
use part_model::OpenMount;

// Whether two items are the same.
fn is_same_item(a: &Item, b: &Item) -> bool
    ensures { result ≡ same_item a.now b.now }
{
    is_same_job(a.job, b.job)
        && a.fseq == b.fseq
        && a.sum.len == b.sum.len
        && a.sum.digest == b.sum.digest
}

// Whether two lists have the same items in the same order.
fn are_same_items(items: &[Item], last: &[Item]) -> bool
    ensures { result ≡ same_items items.now last.now }
{
    if items.len() != last.len() {
        return false;
    }
    for at in 0..items.len() {
        if !is_same_item(&items[at], &last[at]) {
            return false;
        }
    }
    true
}

// Whether these are the items of the last Claim of the mount with this row.
fn is_last(row: &OpenMount, items: &[Item]) -> bool
    ensures { result ≡ is_last_batch (last_items row.now) items.now }
{
    match &row.last {
        Some(last) => are_same_items(items, last.as_slice()),
        None => false,
    }
}

// Whether a mount claims a job.
pub(crate) fn claims(book: &JobBook, mount: u32, job: Job) -> bool
    ensures { result ≡ claims_told book.now.value mount job }
{
    match book.claimer(job) {
        Some(claimer) => mount == claimer,
        None => false,
    }
}

// Whether a mount claims the job of each of these items.
fn claims_all(book: &JobBook, mount: u32, items: &[Item]) -> bool
    ensures { result ≡ list_all (λ (i : Item). claims_told book.now.value mount i.job) items.now }
{
    items.iter().all(|item| claims(book, mount, item.job))
}

impl<M: Told + Drop> ArchiveState<M> {
    /// Which way a mount goes, None exactly where it is not open. Its cost is the number of open mounts.
    pub fn direction_of(&self, mount: u32) -> Option<Direction>
        ensures { result ≡ (if is_open self.now.history mount then option_map (λ (x : Mount). x.direction) (mount_of self.now.history mount) else None) }
    {
        let _history = &self.history;
        match self.parts.mounts.find(mount) {
            Some(row) => Some(row.direction),
            None => None,
        }
    }

    /// Whether a mount is open and claims nothing, so that it may end. Its cost is the number of open mounts.
    pub fn may_end(&self, mount: u32) -> bool
        ensures { result ≡ (is_open self.now.history mount && is_empty (claimed_items self.now.history mount)) }
    {
        let _history = &self.history;
        match self.parts.mounts.find(mount) {
            Some(_) => !self.parts.book.has_claims(mount),
            None => false,
        }
    }

    /// Whether a Flushed of these items is known: the mount is open, claims the jobs of all of them, none twice, and they are the items
    /// of its last Claim in their order. Its cost is the number of open mounts and that of the items.
    pub fn knows(&self, mount: u32, items: &[Item]) -> bool
        ensures { result ≡ (is_known self.now.history mount (item_jobs items.now) && is_last_batch (last_batch self.now.history mount) items.now) }
    {
        claims_no_job_twice();
        let _history = &self.history;
        match self.parts.mounts.find(mount) {
            Some(row) => {
                if !is_last(row, items) {
                    return false;
                }
                claims_all(&self.parts.book, mount, items)
            }
            None => false,
        }
    }

    /// The batch that a Claim of an open mount that writes takes at this moment, in seconds since 1970, or at the last entry's where
    /// that is later: no items where nothing that waits fits on the tape. NoMemory gives nothing. Its cost is the number of the items,
    /// each with the logarithm of the number of queued jobs.
    pub fn batch_to_write(&self, at: u64, mount: u32) -> Result<Rows<Item>, NoMemory>
        requires at { at ≤ greatest_moment }
        requires open { is_open self.now.history mount ≡ true }
        requires writes { IsMountOf direction.Archive (mount_of self.now.history mount) }
        ensures batch { IfOk result (λ items. (x : Mount) → mount_of self.now.history mount ≡ Some x → items.items ≡ batch_of self.now.site self.now.history (moment_of self.now.history at) x) }
        ensures held { IfOk result (λ items. AreInBuffer self.now.history items.items) }
    {
        archive_is_resident();
        fseqs_are_low();
        job_file_has_put();
        tapes_have_room();
        let rules = self.site.site();
        rules.keeps_rules();
        let Some(row) = self.parts.mounts.find(mount) else {
            unreachable!();
        };
        let limits = rules.limits();
        let tape = self.parts.tapes.row(row.tape);
        let room = self.site.capacity(row.tape) - tape.used;
        let queues = &self.parts.pools;
        let taken = taken_jobs(self.alloc, queues, row.key, limits.batch_files, room)?;
        written_batch(self.alloc, &self.history, taken.jobs.as_slice(), tape.next)
    }
}
