// Contents.
ghost use Rattle.std.specs.Prelude.{◌≡◌, ◌++◌, List, ℕ, OnOk, Option};
ghost use Rattle.std.specs.declared.alloc.Global.{Global};
ghost use Rattle.std.specs.declared.sync.Arc.{Arc};
ghost use Rattle.record_fields.specs.Fields.{TookRightly, TookUpTo};
ghost use Rattle.record_fields.specs.Lists.{option_before, OptionFits};
ghost use Rattle.cta_records.specs.Records.{content, ContentFits, content_before, BlobFits};

use blob::Blob;
use record_fields::{Field, NoMemory, TakeError};
use std::alloc::Global;
use std::sync::Arc;

// Adds the bytes of a content, without their number.
fn put_bytes(blob: &Blob, out: &mut Vec<u8>) -> Result<(), NoMemory>
    ensures { OnOk result (out.new.items ≡ out.old.items ++ blob.now) }
{
    let from = out.len();
    let count = blob.sum().len;
    let Some(end) = from.checked_add(count as usize) else {
        return Err(NoMemory);
    };
    out.resize(end, 0)?;
    blob.piece(0, &mut out[from..]);
    Ok(())
}

// Adds the number of a content's bytes, and the bytes.
fn put_content(blob: &Blob, out: &mut Vec<u8>) -> Result<(), NoMemory>
    ensures fits { OnOk result (ContentFits blob.now) }
    ensures bytes { OnOk result ((rest : List ℕ) → out.new.items ++ rest ≡ out.old.items ++ content blob.now rest) }
{
    blob.sum().len.put_field(out)?;
    put_bytes(blob, out)
}

// The content at the front, and what follows it.
fn take_content(alloc: Global, bytes: &[u8]) -> Result<(Arc<Blob, Global>, &[u8]), TakeError>
    ensures right { TookRightly content_before BlobFits (λ rest. rest.now) bytes.now result }
    ensures again { (blob : List ℕ) (rest : List ℕ) → ContentFits blob → bytes.now ≡ content blob rest → TookUpTo (λ rest. rest.now) rest result }
{
    let (count, rest) = u64::take_field(alloc, bytes)?;
    let count = count as usize;
    if rest.len() < count {
        return Err(TakeError::Bad);
    }
    let (front, rest) = rest.split_at(count);
    let copied = Vec::from_slice(alloc, front)?;
    let Ok(blob) = Blob::of(copied) else {
        return Err(TakeError::NoMemory);
    };
    Ok((Arc::new(alloc, blob)?, rest))
}

// Adds the content of a record, if there is one.
pub(crate) fn put_blob(blob: &Option<Arc<Blob, Global>>, out: &mut Vec<u8>) -> Result<(), NoMemory>
    ensures fits { OnOk result (OptionFits BlobFits blob.now) }
    ensures bytes { OnOk result ((rest : List ℕ) → out.new.items ++ rest ≡ out.old.items ++ option_before content_before blob.now rest) }
{
    match blob {
        None => out.push(0)?,
        Some(blob) => {
            out.push(1)?;
            put_content(blob, out)?;
        }
    }
    Ok(())
}

// The content of a record, if there is one, and what follows it.
pub(crate) fn take_blob(
    alloc: Global,
    bytes: &[u8],
) -> Result<(Option<Arc<Blob, Global>>, &[u8]), TakeError>
    ensures right { TookRightly (option_before content_before) (OptionFits BlobFits) (λ rest. rest.now) bytes.now result }
    ensures again { (v : Option (Arc (List ℕ) Global)) (rest : List ℕ) → OptionFits BlobFits v → bytes.now ≡ option_before content_before v rest → TookUpTo (λ rest. rest.now) rest result }
{
    match bytes {
        [0, rest @ ..] => Ok((None, rest)),
        [1, rest @ ..] => {
            let (blob, rest) = take_content(alloc, rest)?;
            Ok((Some(blob), rest))
        }
        _ => Err(TakeError::Bad),
    }
}
