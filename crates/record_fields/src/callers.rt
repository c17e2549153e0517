// Who asks.
ghost use Rattle.record_fields.specs.Values.{who_before, WhoFits};

use crate::field::{Field, TakeError};
use cta_model::Who;
use cta_values::{NoMemory, Text};
use std::alloc::Global;

impl Field for Who {
    ghost before = { who_before };

    ghost fits = { WhoFits };

    fn put_field(&self, out: &mut Vec<u8>) -> Result<(), NoMemory> {
        self.requester.put_field(out)?;
        self.group.put_field(out)
    }

    fn take_field(alloc: Global, bytes: &[u8]) -> Result<(Who, &[u8]), TakeError> {
        let (requester, rest) = Text::take_field(alloc, bytes)?;
        let (group, rest) = Text::take_field(alloc, rest)?;
        Ok((Who { requester, group }, rest))
    }
}
