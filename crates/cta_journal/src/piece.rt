// The bytes of records, as an append writes them.
ghost use Rattle.std.specs.Prelude.{◌≡◌, ◌++◌, [], ◌∷◌, ◌<◌, All, length, map, IfOk, OnOk};
ghost use Rattle.cta_journal.specs.Log.{counted};
ghost use Rattle.cta_journal.specs.Standing.{log_file};

use crate::record::Record;
use std::alloc::{AllocError, Global};

// The length and the body of a record, and a closed gate.
pub(crate) fn piece_of<R: Record>(alloc: Global, kept: &R) -> Result<Vec<u8>, AllocError>
    ensures fits { OnOk result (R.fits kept.now) }
    ensures bytes { IfOk result (λ v. v.items ≡ counted (R.body kept.now) ++ 0 ∷ []) }
{
    let mut piece = kept.write_record(alloc)?;
    piece.push(0)?;
    Ok(piece)
}

// Several records with their gates, and a closed gate.
pub(crate) fn pieces_of<R: Record>(alloc: Global, kept: &[R]) -> Result<Vec<u8>, AllocError>
    ensures fits { OnOk result (All R.fits kept.now) }
    ensures bytes { IfOk result (λ v. v.items ≡ log_file (map R.body kept.now)) }
    ensures some { IfOk result (λ v. 0 < length v.items) }
{
    let mut pieces = Vec::new(alloc);
    for one in kept {
        pieces.push(1)?;
        pieces.extend_from_slice(&one.write_record(alloc)?)?;
    }
    pieces.push(0)?;
    Ok(pieces)
}
