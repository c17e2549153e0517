// Records are read.
ghost use Rattle.std.specs.Prelude.{◌≡◌, [], IfOk, MatchOption};
ghost use Rattle.cta_records.specs.Reads.{HasBody, IsShort, IsNoBody, Reads};
ghost use Rattle.cta_records.specs.Records.{body_of, PartsFit};

use crate::bodies::take_kept;
use crate::kept::{Kept, RecordRead};
use record_fields::{NoMemory, TakeError};
use std::alloc::Global;

// As many bytes as the length in front of them says, if it and they are there.
fn body_in(bytes: &[u8]) -> Option<&[u8]>
    ensures { MatchOption result (IsShort bytes.now) (λ body. HasBody bytes.now body.now) }
{
    if bytes.len() < 8 {
        return None;
    }
    let (front, rest) = bytes.split_at(8);
    let count = u64::from_be_bytes([
        front[0], front[1], front[2], front[3], front[4], front[5], front[6], front[7],
    ]) as usize;
    if rest.len() < count {
        return None;
    }
    let (body, _) = rest.split_at(count);
    Some(body)
}

// What was taken, if nothing follows it.
fn alone(kept: Kept, rest: &[u8]) -> Option<Kept>
    ensures { MatchOption result (rest.now ≡ [] → ⊥) (λ found. (found ≡ kept) × (rest.now ≡ [])) }
{
    if rest.is_empty() { Some(kept) } else { None }
}

// What is kept by a body, which ends where the bytes do.
fn kept_in(alloc: Global, body: &[u8]) -> Result<Option<Kept>, NoMemory>
    ensures { IfOk result (λ found. MatchOption found (IsNoBody body.now) (λ kept. PartsFit kept × (body.now ≡ body_of kept))) }
{
    match take_kept(alloc, body) {
        Ok((kept, rest)) => Ok(alone(kept, rest)),
        Err(TakeError::Bad) => Ok(None),
        Err(TakeError::NoMemory) => Err(NoMemory),
    }
}

/// What the bytes begin with: a record, too few bytes for the length in front, or no record. `NoMemory` says nothing of
/// them. Its cost is the length of the record.
pub fn read_record(alloc: Global, bytes: &[u8]) -> Result<RecordRead, NoMemory>
    ensures { IfOk result (λ read. Reads bytes.now read) }
{
    let Some(body) = body_in(bytes) else {
        return Ok(RecordRead::Need);
    };
    let len = body.len() as u64 + 8;
    match kept_in(alloc, body)? {
        Some(kept) => Ok(RecordRead::Record { kept, len }),
        None => Ok(RecordRead::Bad),
    }
}
