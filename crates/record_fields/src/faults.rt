// Faults.
ghost use Rattle.record_fields.specs.Values.{fault_before, FaultFits};

use crate::field::{Field, TakeError};
use crate::groups::put_two;
use blob::Sum256;
use cta_model::Fault;
use cta_values::NoMemory;
use std::alloc::Global;

impl Field for Fault {
    ghost before = { fault_before };

    ghost fits = { FaultFits };

    fn put_field(&self, out: &mut Vec<u8>) -> Result<(), NoMemory> {
        match self {
            Fault::Load => out.push(0)?,
            Fault::Write => out.push(1)?,
            Fault::Flush => out.push(2)?,
            Fault::Read => out.push(3)?,
            Fault::Unload => out.push(4)?,
            Fault::Mismatch { found, wanted } => put_two(5, found, wanted, out)?,
        }
        Ok(())
    }

    fn take_field(alloc: Global, bytes: &[u8]) -> Result<(Fault, &[u8]), TakeError> {
        match bytes {
            [0, rest @ ..] => Ok((Fault::Load, rest)),
            [1, rest @ ..] => Ok((Fault::Write, rest)),
            [2, rest @ ..] => Ok((Fault::Flush, rest)),
            [3, rest @ ..] => Ok((Fault::Read, rest)),
            [4, rest @ ..] => Ok((Fault::Unload, rest)),
            [5, rest @ ..] => {
                let (found, rest) = Sum256::take_field(alloc, rest)?;
                let (wanted, rest) = Sum256::take_field(alloc, rest)?;
                Ok((Fault::Mismatch { found, wanted }, rest))
            }
            _ => Err(TakeError::Bad),
        }
    }
}
