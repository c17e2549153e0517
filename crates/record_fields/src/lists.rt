// Lists.
ghost use Rattle.std.specs.Prelude.{◌≡◌, ◌++◌, List, ℕ, OnOk, length};
ghost use Rattle.std.specs.List.{AllByRecursion};
ghost use Rattle.record_fields.specs.Fields.{TookRightly, TookUpTo};
ghost use Rattle.record_fields.specs.Lists.{each_before, list_before, ListFits};

use crate::field::{Field, TakeError};
use cta_values::{NoMemory, Rows};
use std::alloc::Global;

// Adds the bytes of each value.
fn put_each<F: Field>(items: &[F], out: &mut Vec<u8>) -> Result<(), NoMemory>
    ensures fits { OnOk result (AllByRecursion F.fits items.now) }
    ensures bytes { OnOk result ((rest : List ℕ) → out.new.items ++ rest ≡ out.old.items ++ each_before F.before items.now rest) }
{
    for item in items {
        item.put_field(out)?;
    }
    Ok(())
}

// So many values, and what follows them.
fn take_each<F: Field>(
    alloc: Global,
    count: u32,
    bytes: &[u8],
) -> Result<(Vec<F>, &[u8]), TakeError>
    ensures right { TookRightly (λ v. each_before F.before v.items) (λ v. AllByRecursion F.fits v.items × (length v.items ≡ count)) (λ rest. rest.now) bytes.now result }
    ensures again { (vs : List F) (rest : List ℕ) → AllByRecursion F.fits vs → length vs ≡ count → bytes.now ≡ each_before F.before vs rest → TookUpTo (λ rest. rest.now) rest result }
{
    let mut items = Vec::new(alloc);
    let mut rest = bytes;
    for _ in 0..count {
        let (item, after) = F::take_field(alloc, rest)?;
        items.push(item)?;
        rest = after;
    }
    Ok((items, rest))
}

impl<F: Field> Field for Rows<F> {
    ghost before = { λ v rest. list_before F.before v.items rest };

    ghost fits = { λ v. ListFits F.fits v.items };

    fn put_field(&self, out: &mut Vec<u8>) -> Result<(), NoMemory> {
        let items = self.as_slice();
        let Ok(count) = u32::try_from(self.len()) else {
            return Err(NoMemory);
        };
        count.put_field(out)?;
        put_each(items, out)
    }

    fn take_field(alloc: Global, bytes: &[u8]) -> Result<(Rows<F>, &[u8]), TakeError> {
        let (count, rest) = u32::take_field(alloc, bytes)?;
        let (items, rest) = take_each(alloc, count, rest)?;
        Ok((Rows::of(items), rest))
    }
}
