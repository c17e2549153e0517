// The bodies of records.
ghost use Rattle.std.specs.Prelude.{◌≡◌, ◌++◌, List, ℕ, OnOk};
ghost use Rattle.record_fields.specs.Fields.{TookRightly, TookUpTo};
ghost use Rattle.cta_records.specs.Records.{kept_before, PartsFit};
ghost use Rattle.cta_records.specs.declared.kept.Kept.{Kept};

use crate::contents::{put_blob, take_blob};
use crate::entries::{put_entry, take_entry};
use crate::kept::Kept;
use record_fields::{NoMemory, TakeError};
use std::alloc::Global;

// Adds the body of a record.
pub(crate) fn put_kept(kept: &Kept, out: &mut Vec<u8>) -> Result<(), NoMemory>
    ensures fits { OnOk result (PartsFit kept.now) }
    ensures bytes { OnOk result ((rest : List ℕ) → out.new.items ++ rest ≡ out.old.items ++ kept_before kept.now rest) }
{
    put_entry(&kept.entry, out)?;
    put_blob(&kept.blob, out)
}

// What is kept by the body at the front, and what follows it.
pub(crate) fn take_kept(alloc: Global, bytes: &[u8]) -> Result<(Kept, &[u8]), TakeError>
    ensures right { TookRightly kept_before PartsFit (λ rest. rest.now) bytes.now result }
    ensures again { (v : Kept) (rest : List ℕ) → PartsFit v → bytes.now ≡ kept_before v rest → TookUpTo (λ rest. rest.now) rest result }
{
    let (entry, rest) = take_entry(alloc, bytes)?;
    let (blob, rest) = take_blob(alloc, rest)?;
    Ok((Kept { entry, blob }, rest))
}
