// The jobs that a mount claims, told by the entries since it was opened.
ghost use Rattle.std.specs.Prelude.{◌≡◌, ◌≤◌, ◌++◌, ◌∷◌, [], IfOk, OnOk, drop, length, option_map, reverse, take, true};
ghost use Rattle.std.specs.List.{list_any};
ghost use Rattle.cta_site.specs.Listed.{Listed};
ghost use Rattle.cta_model.specs.declared.asks.Direction.{Direction};
ghost use Rattle.cta_model.specs.declared.asks.Item.{Item};
ghost use Rattle.cta_model.specs.declared.asks.Job.{Job};
ghost use Rattle.cta_model.specs.Bare.{bare_answer, bare_ask};
ghost use Rattle.cta_model.specs.Mounts.{claimed_items, is_open, item_jobs, same_job};
ghost use Rattle.cta_model.specs.Newest.{history_in};
ghost use Rattle.part_model.specs.Order as order;
ghost use Rattle.archive_state.specs.ClaimedJobs.{claimed_jobs, claimed_of, jobs_after};

use crate::state::ArchiveState;
use crate::twice::{is_among, is_same_job};
use blob::Told;
use cta_model::{Answer, Ask, Direction, Entry, Item, Job};
use cta_site::{NoMemory, Rows};
use std::alloc::Global;

// Whether a job is that of one of these items.
fn is_of_items(job: Job, items: &[Item]) -> bool
    ensures { result ≡ list_any (λ (i : Item). same_job job i.job) items.now }
{
    items.iter().any(|item| is_same_job(job, item.job))
}

// Adds the jobs of items.
fn add_items(jobs: &mut Vec<Job>, items: &[Item]) -> Result<(), NoMemory>
    ensures { OnOk result (jobs.new.items ≡ jobs.old.items ++ item_jobs items.now) }
{
    for item in items {
        jobs.push(item.job)?;
    }
    Ok(())
}

// Takes the jobs of items out of these.
fn take_items(jobs: &mut Vec<Job>, items: &[Item])
    ensures { jobs.new.items ≡ order.leave_out (item_jobs items.now) jobs.old.items }
{
    jobs.retain(|job| !is_of_items(*job, items));
}

// Takes jobs out of these.
fn take_jobs(jobs: &mut Vec<Job>, gone: &[Job])
    ensures { jobs.new.items ≡ order.leave_out gone.now jobs.old.items }
{
    jobs.retain(|job| !is_among(*job, gone));
}

// Moves the jobs that a mount claims behind an entry.
fn move_jobs(jobs: &mut Vec<Job>, mount: u32, ask: &Ask, answer: &Answer) -> Result<(), NoMemory>
    ensures { OnOk result (jobs.new.items ≡ jobs_after (bare_ask ask.now) (bare_answer answer.now) mount jobs.old.items) }
{
    match (ask, answer) {
        (Ask::Claim { mount: of }, Answer::Batch { items, .. }) => {
            if *of == mount {
                add_items(jobs, items.as_slice())?;
            }
        }
        (Ask::Flushed { mount: of, items }, _) => {
            if *of == mount {
                take_items(jobs, items.as_slice());
            }
        }
        (Ask::Recalled { mount: of, job }, _) => {
            if *of == mount {
                take_jobs(jobs, &[*job]);
            }
        }
        (
            Ask::Failed {
                mount: of,
                charged,
                returned,
                ..
            },
            _,
        ) => {
            if *of == mount {
                take_jobs(jobs, charged.as_slice());
                take_jobs(jobs, returned.as_slice());
            }
        }
        _ => {}
    }
    Ok(())
}

// The jobs of the items that a mount claims behind these entries, in the order of the items. Behind the first entries, which are so many,
// it claims nothing.
fn claimed_behind(
    alloc: Global,
    entries: &[Entry],
    first: usize,
    mount: u32,
) -> Result<Vec<Job>, NoMemory>
    requires few { first ≤ length entries.now }
    requires begins { claimed_items (history_in (take first entries.now)) mount ≡ [] }
    ensures { IfOk result (λ jobs. jobs.items ≡ item_jobs (claimed_items (history_in entries.now) mount)) }
{
    let mut jobs = Vec::new(alloc);
    for at in first..entries.len() {
        let entry = &entries[at];
        move_jobs(&mut jobs, mount, &entry.ask, &entry.answer)?;
    }
    Ok(jobs)
}

// Whether a job comes before another: earlier birth, then lower file, then lower copy.
fn goes_before(a: Job, b: Job) -> bool
    ensures { result ≡ order.goes_before a b }
{
    if a.birth != b.birth {
        return a.birth < b.birth;
    }
    if a.file != b.file {
        return a.file < b.file;
    }
    a.copy < b.copy
}

// Where a job stands among others in order: before the first that it goes before.
fn place_of(job: Job, jobs: &[Job]) -> usize
    ensures bound { result ≤ length jobs.now }
    ensures place { order.insert_job job jobs.now ≡ take result jobs.now ++ job ∷ drop result jobs.now }
{
    for at in 0..jobs.len() {
        if goes_before(job, jobs[at]) {
            return at;
        }
    }
    jobs.len()
}

// Inserts a job at its place among others in order.
fn insert(jobs: &mut Vec<Job>, job: Job) -> Result<(), NoMemory>
    ensures { OnOk result (jobs.new.items ≡ order.insert_job job jobs.old.items) }
{
    let at = place_of(job, jobs.as_slice());
    jobs.insert(at, job)?;
    Ok(())
}

// Jobs in order of birth, file and copy.
fn in_order(alloc: Global, jobs: &[Job]) -> Result<Vec<Job>, NoMemory>
    ensures { IfOk result (λ sorted. sorted.items ≡ order.insert_jobs (reverse jobs.now) []) }
{
    let mut sorted = Vec::new(alloc);
    for job in jobs {
        insert(&mut sorted, *job)?;
    }
    Ok(sorted)
}

impl<M: Told + Drop> ArchiveState<M> {
    // The jobs that an open mount claims, in order of birth, file and copy.
    fn claimed_jobs(&self, mount: u32) -> Result<Rows<Job>, NoMemory>
        requires { is_open self.now.history mount ≡ true }
        ensures { IfOk result (λ jobs. jobs.items ≡ claimed_jobs self.now.site self.now.history mount) }
    {
        self.keeps_history();
        let first = mount.saturating_sub(1) as usize;
        let claimed = claimed_behind(self.alloc, self.history.entries(), first, mount)?;
        let sorted = in_order(self.alloc, claimed.as_slice())?;
        Ok(Rows::of(sorted))
    }

    /// Which way an open mount goes, and the jobs that it claims, in order of birth, file and copy: those of its Claims that it has not
    /// ended by a Flushed, a Recalled or a Failed, whether they are live or not. None exactly where the mount is not open, and NoMemory
    /// gives nothing. It is for restarts: its cost is the number of the open mounts and of the entries since the mount was opened, for
    /// each job that was given back the number of those that the mount claimed then, and the square of the number of those that it claims
    /// now.
    pub fn claimed(&self, mount: u32) -> Result<Option<(Direction, Rows<Job>)>, NoMemory>
        ensures { IfOk result (λ told. option_map (λ (x : Direction × Listed Job). (x.0, x.1.items)) told ≡ claimed_of self.now.site self.now.history mount) }
    {
        let Some(direction) = self.direction_of(mount) else {
            return Ok(None);
        };
        let jobs = self.claimed_jobs(mount)?;
        Ok(Some((direction, jobs)))
    }
}
