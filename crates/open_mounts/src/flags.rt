// A flag for each drive.
ghost use Rattle.std.specs.Prelude.{◌≡◌, ℕ, ◌<◌, if◌then◌else◌, ◌==◌, length, replicate, true, false, IfOk};
ghost use Rattle.std.specs.List.{slice_index_or};

use cta_site::NoMemory;
use std::alloc::Global;

// So many flags, none of them set. NoMemory leaves nothing.
pub(crate) fn no_flags(alloc: Global, count: usize) -> Result<Vec<bool>, NoMemory>
    ensures { IfOk result (λ flags. flags.items ≡ replicate count false) }
{
    Ok(vec![in alloc; false; count]?)
}

// A flag, unset beyond the last.
pub(crate) fn flag_at(flags: &[bool], at: u32) -> bool
    ensures { result ≡ slice_index_or flags.now at false }
{
    flags.get(at as usize).copied().unwrap_or(false)
}

// Sets a flag.
pub(crate) fn raise(flags: &mut Vec<bool>, at: u32)
    requires { at < length flags.old.items }
    ensures flags { (k : ℕ) → slice_index_or flags.new.items k false ≡ (if at == k then true else slice_index_or flags.old.items k false) }
    ensures len { length flags.new.items ≡ length flags.old.items }
{
    flags[at as usize] = true;
}

// Unsets a flag; beyond the last none is set.
pub(crate) fn lower(flags: &mut Vec<bool>, at: u32)
    ensures flags { (k : ℕ) → slice_index_or flags.new.items k false ≡ (if at == k then false else slice_index_or flags.old.items k false) }
    ensures len { length flags.new.items ≡ length flags.old.items }
{
    let at = at as usize;
    if at < flags.len() {
        flags[at] = false;
    }
}
