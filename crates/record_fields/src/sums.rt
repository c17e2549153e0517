// Sums of contents.
ghost use Rattle.std.specs.Prelude.{◌≡◌, ◌++◌, List, ℕ, length};
ghost use Rattle.record_fields.specs.Fields.{TookRightly, TookUpTo};
ghost use Rattle.record_fields.specs.Values.{sum_before, SumFits};

use crate::field::{Field, TakeError};
use blob::Sum256;
use cta_values::NoMemory;
use std::alloc::Global;

// The 32 bytes of a digest, and what follows them.
fn take_digest(bytes: &[u8]) -> Result<([u8; 32], &[u8]), TakeError>
    ensures right { TookRightly (λ d rest. d ++ rest) (λ d. Unit {0}) (λ rest. rest.now) bytes.now result }
    ensures again { (d : List ℕ) (rest : List ℕ) → length d ≡ 32 → bytes.now ≡ d ++ rest → TookUpTo (λ rest. rest.now) rest result }
{
    if bytes.len() < 32 {
        return Err(TakeError::Bad);
    }
    let (front, rest) = bytes.split_at(32);
    let mut digest = [0u8; 32];
    digest.copy_from_slice(front);
    Ok((digest, rest))
}

impl Field for Sum256 {
    ghost before = { sum_before };

    ghost fits = { SumFits };

    fn put_field(&self, out: &mut Vec<u8>) -> Result<(), NoMemory> {
        self.len.put_field(out)?;
        out.extend_from_slice(&self.digest)?;
        Ok(())
    }

    fn take_field(alloc: Global, bytes: &[u8]) -> Result<(Sum256, &[u8]), TakeError> {
        let (len, rest) = u64::take_field(alloc, bytes)?;
        let (digest, rest) = take_digest(rest)?;
        Ok((Sum256 { len, digest }, rest))
    }
}
