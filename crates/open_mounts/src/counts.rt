// A row of counts.
ghost use Rattle.std.specs.Prelude.{◌≡◌, ℕ, ◌+◌, ◌-◌, ◌<◌, ◌^◌, if◌then◌else◌, ◌==◌, length, replicate, IfOk};
ghost use Rattle.std.specs.List.{slice_index_or};

use cta_site::NoMemory;
use std::alloc::Global;

// So many counts of 0. NoMemory leaves nothing.
pub(crate) fn zeros(alloc: Global, count: usize) -> Result<Vec<u32>, NoMemory>
    ensures { IfOk result (λ counts. counts.items ≡ replicate count 0) }
{
    Ok(vec![in alloc; 0; count]?)
}

// A count, 0 beyond the last.
pub(crate) fn count_at(counts: &[u32], at: u32) -> u32
    ensures { result ≡ slice_index_or counts.now at 0 }
{
    counts.get(at as usize).copied().unwrap_or(0)
}

// Raises a count by one.
pub(crate) fn raise(counts: &mut [u32], at: u32)
    requires known { at < length counts.old }
    requires few { slice_index_or counts.old at 0 + 1 < 2 ^ 32 }
    ensures { (k : ℕ) → slice_index_or counts.new k 0 ≡ (if at == k then slice_index_or counts.old k 0 + 1 else slice_index_or counts.old k 0) }
{
    counts[at as usize] += 1;
}

// Lowers a count by one; 0 stays.
pub(crate) fn lower(counts: &mut [u32], at: u32)
    ensures { (k : ℕ) → slice_index_or counts.new k 0 ≡ (if at == k then slice_index_or counts.old k 0 - 1 else slice_index_or counts.old k 0) }
{
    let at = at as usize;
    if at < counts.len() {
        counts[at] = counts[at].saturating_sub(1);
    }
}
