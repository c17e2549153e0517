// Whether two records say the same, by their bytes.
ghost use Rattle.std.specs.Prelude.{◌≡◌, IfOk};
ghost use Rattle.std.specs.Bool.{Decides};
ghost use Rattle.cta_records.specs.Laws.{plain_kept};

use cta_model::NoMemory;
use cta_records::{Kept, records_tell_apart, write_record};
use std::alloc::Global;

// Whether two records keep the same, but for the room in their lists.
pub(crate) fn is_same(alloc: Global, one: &Kept, other: &Kept) -> Result<bool, NoMemory>
    ensures { IfOk result (λ same. Decides same (plain_kept one.now ≡ plain_kept other.now)) }
{
    records_tell_apart();
    let one = write_record(alloc, one)?;
    let other = write_record(alloc, other)?;
    Ok(one.as_slice() == other.as_slice())
}
