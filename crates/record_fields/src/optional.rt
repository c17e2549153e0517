// Values that may be there.
ghost use Rattle.record_fields.specs.Lists.{option_before, OptionFits};

use crate::field::{Field, TakeError};
use cta_values::NoMemory;
use std::alloc::Global;

impl<F: Field> Field for Option<F> {
    ghost before = { λ v rest. option_before F.before v rest };

    ghost fits = { λ v. OptionFits F.fits v };

    fn put_field(&self, out: &mut Vec<u8>) -> Result<(), NoMemory> {
        match self {
            None => out.push(0)?,
            Some(value) => {
                out.push(1)?;
                value.put_field(out)?;
            }
        }
        Ok(())
    }

    fn take_field(alloc: Global, bytes: &[u8]) -> Result<(Option<F>, &[u8]), TakeError> {
        match bytes {
            [0, rest @ ..] => Ok((None, rest)),
            [1, rest @ ..] => {
                let (value, rest) = F::take_field(alloc, rest)?;
                Ok((Some(value), rest))
            }
            _ => Err(TakeError::Bad),
        }
    }
}
