// Tapes and queues.
ghost use Rattle.record_fields.specs.Reports.{tape_info_before, TapeInfoFits, queue_info_before, QueueInfoFits};

use crate::field::{Field, TakeError};
use cta_model::{Direction, QueueInfo, TapeInfo, TapeState};
use cta_values::{NoMemory, Text};
use std::alloc::Global;

impl Field for TapeInfo {
    ghost before = { tape_info_before };

    ghost fits = { TapeInfoFits };

    fn put_field(&self, out: &mut Vec<u8>) -> Result<(), NoMemory> {
        self.vid.put_field(out)?;
        self.state.put_field(out)?;
        self.used.put_field(out)?;
        self.files.put_field(out)?;
        self.next_fseq.put_field(out)
    }

    fn take_field(alloc: Global, bytes: &[u8]) -> Result<(TapeInfo, &[u8]), TakeError> {
        let (vid, rest) = Text::take_field(alloc, bytes)?;
        let (state, rest) = TapeState::take_field(alloc, rest)?;
        let (used, rest) = u64::take_field(alloc, rest)?;
        let (files, rest) = u32::take_field(alloc, rest)?;
        let (next_fseq, rest) = u32::take_field(alloc, rest)?;
        Ok((
            TapeInfo {
                vid,
                state,
                used,
                files,
                next_fseq,
            },
            rest,
        ))
    }
}

impl Field for QueueInfo {
    ghost before = { queue_info_before };

    ghost fits = { QueueInfoFits };

    fn put_field(&self, out: &mut Vec<u8>) -> Result<(), NoMemory> {
        self.direction.put_field(out)?;
        self.key.put_field(out)?;
        self.files.put_field(out)?;
        self.bytes.put_field(out)?;
        self.oldest.put_field(out)
    }

    fn take_field(alloc: Global, bytes: &[u8]) -> Result<(QueueInfo, &[u8]), TakeError> {
        let (direction, rest) = Direction::take_field(alloc, bytes)?;
        let (key, rest) = Text::take_field(alloc, rest)?;
        let (files, rest) = u32::take_field(alloc, rest)?;
        let (bytes, rest) = u64::take_field(alloc, rest)?;
        let (oldest, rest) = u64::take_field(alloc, rest)?;
        Ok((
            QueueInfo {
                direction,
                key,
                files,
                bytes,
                oldest,
            },
            rest,
        ))
    }
}
