// How repacks and their items stand, and the copies that failed.
ghost use Rattle.record_fields.specs.Reports.{repack_item_before, RepackItemFits, repack_info_before, RepackInfoFits, failed_copy_before, FailedCopyFits};

use crate::field::{Field, TakeError};
use cta_model::{FailedCopy, ItemState, RepackInfo, RepackItem};
use cta_values::{NoMemory, Rows, Text};
use std::alloc::Global;

impl Field for RepackItem {
    ghost before = { repack_item_before };

    ghost fits = { RepackItemFits };

    fn put_field(&self, out: &mut Vec<u8>) -> Result<(), NoMemory> {
        self.path.put_field(out)?;
        self.copy.put_field(out)?;
        self.state.put_field(out)
    }

    fn take_field(alloc: Global, bytes: &[u8]) -> Result<(RepackItem, &[u8]), TakeError> {
        let (path, rest) = Text::take_field(alloc, bytes)?;
        let (copy, rest) = u8::take_field(alloc, rest)?;
        let (state, rest) = ItemState::take_field(alloc, rest)?;
        Ok((RepackItem { path, copy, state }, rest))
    }
}

impl Field for RepackInfo {
    ghost before = { repack_info_before };

    ghost fits = { RepackInfoFits };

    fn put_field(&self, out: &mut Vec<u8>) -> Result<(), NoMemory> {
        self.id.put_field(out)?;
        self.vid.put_field(out)?;
        self.items.put_field(out)
    }

    fn take_field(alloc: Global, bytes: &[u8]) -> Result<(RepackInfo, &[u8]), TakeError> {
        let (id, rest) = u32::take_field(alloc, bytes)?;
        let (vid, rest) = Text::take_field(alloc, rest)?;
        let (items, rest) = Rows::<RepackItem>::take_field(alloc, rest)?;
        Ok((RepackInfo { id, vid, items }, rest))
    }
}

impl Field for FailedCopy {
    ghost before = { failed_copy_before };

    ghost fits = { FailedCopyFits };

    fn put_field(&self, out: &mut Vec<u8>) -> Result<(), NoMemory> {
        self.path.put_field(out)?;
        self.copy.put_field(out)?;
        self.errors.put_field(out)
    }

    fn take_field(alloc: Global, bytes: &[u8]) -> Result<(FailedCopy, &[u8]), TakeError> {
        let (path, rest) = Text::take_field(alloc, bytes)?;
        let (copy, rest) = u8::take_field(alloc, rest)?;
        let (errors, rest) = Rows::<Text>::take_field(alloc, rest)?;
        Ok((FailedCopy { path, copy, errors }, rest))
    }
}
