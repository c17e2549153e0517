// Records are written.
ghost use Rattle.std.specs.Prelude.{◌≡◌, IfOk, OnOk, length};
ghost use Rattle.record_fields.specs.Numbers.{long_number, IsLong};
ghost use Rattle.cta_records.specs.Records.{body_of, record_of, PartsFit, KeptFits};

use crate::bodies::put_kept;
use crate::kept::Kept;
use record_fields::{Field, NoMemory};
use std::alloc::Global;

// The body of a record.
fn body_bytes(alloc: Global, kept: &Kept) -> Result<Vec<u8>, NoMemory>
    ensures fits { OnOk result (PartsFit kept.now) }
    ensures body { IfOk result (λ body. body.items ≡ body_of kept.now) }
{
    let mut body = Vec::new(alloc);
    put_kept(kept, &mut body)?;
    Ok(body)
}

// The number of some bytes, and the bytes.
fn counted(alloc: Global, body: &[u8]) -> Result<Vec<u8>, NoMemory>
    ensures long { OnOk result (IsLong (length body.now)) }
    ensures bytes { IfOk result (λ bytes. bytes.items ≡ long_number (length body.now) body.now) }
{
    let mut out = Vec::new(alloc);
    (body.len() as u64).put_field(&mut out)?;
    out.extend_from_slice(body)?;
    Ok(out)
}

/// The record of what is kept: the length of its body in eight bytes, and the body. `NoMemory` is the answer too where a
/// text or a list has a length of more than four bytes, so that there is no record. Its cost is the length of the record.
pub fn write_record(alloc: Global, kept: &Kept) -> Result<Vec<u8>, NoMemory>
    ensures fits { OnOk result (KeptFits kept.now) }
    ensures record { IfOk result (λ bytes. bytes.items ≡ record_of kept.now) }
{
    let body = body_bytes(alloc, kept)?;
    counted(alloc, &body)
}
