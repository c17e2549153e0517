// Where files are kept.
ghost use Rattle.record_fields.specs.Reports.{place_info_before, PlaceInfoFits};

use crate::field::{Field, TakeError};
use cta_model::{Locality, PlaceInfo};
use cta_values::{NoMemory, Text};
use std::alloc::Global;

impl Field for PlaceInfo {
    ghost before = { place_info_before };

    ghost fits = { PlaceInfoFits };

    fn put_field(&self, out: &mut Vec<u8>) -> Result<(), NoMemory> {
        self.path.put_field(out)?;
        self.locality.put_field(out)?;
        self.error.put_field(out)
    }

    fn take_field(alloc: Global, bytes: &[u8]) -> Result<(PlaceInfo, &[u8]), TakeError> {
        let (path, rest) = Text::take_field(alloc, bytes)?;
        let (locality, rest) = Option::<Locality>::take_field(alloc, rest)?;
        let (error, rest) = Option::<Text>::take_field(alloc, rest)?;
        Ok((
            PlaceInfo {
                path,
                locality,
                error,
            },
            rest,
        ))
    }
}
