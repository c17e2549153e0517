// What sessions tell of the faults that they met, and the Failed that is accepted.
ghost use Rattle.std.specs.Prelude.{◌≡◌, ◌≤◌, ◌<◌, ◌+◌, ◌++◌, ◌&&◌, not, length, true, IfOk, IfErr, OnErr};
ghost use Rattle.std.specs.List.{list_all};
ghost use Rattle.cta_site.specs.Listed.{rows};
ghost use Rattle.cta_model.specs.declared.asks.Ask.TheVariants as ask;
ghost use Rattle.cta_model.specs.Answers.{answer_of, is_accepted, is_known, names_twice};
ghost use Rattle.cta_model.specs.Bare.{bare_answer};
ghost use Rattle.cta_model.specs.Kept.{kept_after};
ghost use Rattle.cta_model.specs.Legal.{IsFaultOf, greatest_moment};
ghost use Rattle.cta_model.specs.Mounts.{mount_of};
ghost use Rattle.part_laws.specs.Sessions.{claims_told};

use crate::claims::claims;
use crate::state::ArchiveState;
use crate::twice::name_twice;
use blob::Told;
use cta_model::{Answer, Direction, Fault, Job};
use cta_site::{NoMemory, Rows};
use fault_asks::{fail_reads, fail_writes};
use job_book::JobBook;

// Whether a mount claims each of these jobs.
fn claims_jobs(book: &JobBook, mount: u32, jobs: &[Job]) -> bool
    ensures { result ≡ list_all (claims_told book.now.value mount) jobs.now }
{
    jobs.iter().all(|job| claims(book, mount, *job))
}

// Whether a mount claims each job of two lists, of which none is named twice.
fn claims_once(book: &JobBook, mount: u32, jobs: &[Job], others: &[Job]) -> bool
    ensures { result ≡ (list_all (claims_told book.now.value mount) (jobs.now ++ others.now) && not (names_twice (jobs.now ++ others.now))) }
{
    if !claims_jobs(book, mount, jobs) {
        return false;
    }
    if !claims_jobs(book, mount, others) {
        return false;
    }
    !name_twice(jobs, others)
}

impl<M: Told + Drop> ArchiveState<M> {
    /// Whether a Failed that charges these jobs and returns those is known: the mount is open and claims them all, none twice. Its cost
    /// is the number of open mounts, and the square of the number of the jobs.
    pub fn knows_jobs(&self, mount: u32, charged: &[Job], returned: &[Job]) -> bool
        ensures { result ≡ is_known self.now.history mount (charged.now ++ returned.now) }
    {
        let _history = &self.history;
        match self.parts.mounts.find(mount) {
            Some(_) => claims_once(&self.parts.book, mount, charged, returned),
            None => false,
        }
    }

    /// Carries out a Failed that is accepted at this moment, in seconds since 1970, or at the last entry's where that is later: the jobs
    /// are charged and returned, as a mount that writes or one that reads does it. NoMemory changes nothing, and gives the jobs back. Its
    /// cost is that of `fail_writes` or `fail_reads`.
    pub fn fail(
        &mut self,
        at: u64,
        mount: u32,
        fault: Fault,
        charged: Rows<Job>,
        returned: Rows<Job>,
    ) -> Result<Answer, (NoMemory, Rows<Job>, Rows<Job>)>
        requires at { at ≤ greatest_moment }
        requires fault { IsFaultOf fault (mount_of self.old.history mount) }
        requires named { 0 < length charged.items + length returned.items }
        requires accepted { is_accepted (answer_of self.old.site self.old.history at (ask.Failed mount fault (rows charged.items) (rows returned.items))) ≡ true }
        ensures answer { IfOk result (λ a. bare_answer a ≡ answer_of self.old.site self.old.history at (ask.Failed mount fault (rows charged.items) (rows returned.items))) }
        ensures kept { IfOk result (λ a. self.new ≡ kept_after self.old at (ask.Failed mount fault (rows charged.items) (rows returned.items)) (bare_answer a) None) }
        ensures back { IfErr result (λ e. (e.1 ≡ charged) × (e.2 ≡ returned)) }
        ensures same { OnErr result (self.new ≡ self.old) }
    {
        match self.direction_of(mount) {
            Some(Direction::Archive) => fail_writes(
                self.alloc,
                &self.site,
                &mut self.history,
                &mut self.parts,
                at,
                mount,
                fault,
                charged,
                returned,
            ),
            Some(Direction::Retrieve) => fail_reads(
                self.alloc,
                &self.site,
                &mut self.history,
                &mut self.parts,
                at,
                mount,
                fault,
                charged,
                returned,
            ),
            None => unreachable!(),
        }
    }
}
