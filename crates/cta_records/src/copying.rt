// An entry once more.
ghost use Rattle.std.specs.Prelude.{◌≡◌, IfOk, OnOk};
ghost use Rattle.cta_model.specs.Bare.{bare_entry};
ghost use Rattle.cta_records.specs.Records.{EntryFits};

use crate::entries::{put_entry, take_entry};
use cta_model::Entry;
use record_fields::{NoMemory, TakeError};
use std::alloc::Global;

/// The same entry once more, but for the room in its lists. It is copied through its bytes, so `NoMemory` is the answer too where it has
/// no record. Its cost is the length of its record.
pub fn copy_entry(alloc: Global, entry: &Entry) -> Result<Entry, NoMemory>
    ensures fits { OnOk result (EntryFits entry.now) }
    ensures copy { IfOk result (λ copy. bare_entry copy ≡ bare_entry entry.now) }
{
    let mut bytes = Vec::new(alloc);
    put_entry(entry, &mut bytes)?;
    match take_entry(alloc, &bytes) {
        Ok((copy, _)) => Ok(copy),
        Err(TakeError::NoMemory) => Err(NoMemory),
        Err(TakeError::Bad) => unreachable!(),
    }
}
