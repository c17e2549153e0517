// The lists of jobs that asks name.
ghost use Rattle.std.specs.Prelude.{◌<◌, ◌∷◌, ◌≡◌, IfOk, OnSome, [], length, remove, slice_get, slice_index_or};
ghost use Rattle.cta_model.specs.Mounts.{item_jobs};
ghost use Rattle.drive_session.specs.Steps.{AreSameIf, is_no_memory};

use blob::Sum256;
use cta_model::{Item, Job};
use cta_site::{NoMemory, Rows};
use media::DeviceErr;
use std::alloc::Global;

// The jobs of the items, and a list of one job.
pub(crate) fn rows_of(alloc: Global, items: &[Item]) -> Result<(Vec<Job>, Vec<Job>), NoMemory>
    ensures { IfOk result (λ rows. (rows.0.items ≡ item_jobs items.now) × (length rows.1.items ≡ 1)) }
{
    let mut jobs = Vec::new(alloc);
    for item in items {
        if jobs.push(item.job).is_err() {
            return Err(NoMemory);
        }
    }
    let nobody = Job {
        birth: 0,
        file: 0,
        copy: 0,
    };
    let Ok(one) = vec![in alloc; nobody] else {
        return Err(NoMemory);
    };
    Ok((jobs, one))
}

// The job at this place alone, and the others in their order. It takes no memory.
pub(crate) fn parted(jobs: Vec<Job>, one: Vec<Job>, at: usize) -> (Rows<Job>, Rows<Job>)
    requires at { at < length jobs.items }
    requires one { length one.items ≡ 1 }
    ensures charged { result.0.items ≡ slice_index_or jobs.items at (record { birth = 0; file = 0; copy = 0 }) ∷ [] }
    ensures returned { result.1.items ≡ remove jobs.items at }
{
    let mut jobs = jobs;
    let mut one = one;
    let job = jobs.remove(at);
    one[0] = job;
    (Rows::of(one), Rows::of(jobs))
}

// The item at a place, if there is one.
pub(crate) fn item_at(items: &[Item], at: usize) -> Option<Item>
    ensures item { result ≡ slice_get items.now at }
    ensures within { OnSome result (at < length items.now) }
{
    items.get(at).copied()
}

// Whether a call wanted memory.
pub(crate) fn is_no_memory(error: DeviceErr) -> bool
    ensures { result ≡ is_no_memory error }
{
    matches!(error, DeviceErr::NoMemory)
}

// Whether two sums are the same.
pub(crate) fn is_same(a: &Sum256, b: &Sum256) -> bool
    ensures { AreSameIf result a.now b.now }
{
    a == b
}
