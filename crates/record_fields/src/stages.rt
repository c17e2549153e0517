// How stage requests and their files stand.
ghost use Rattle.record_fields.specs.Reports.{stage_file_before, StageFileInfoFits, stage_info_before, StageInfoFits};

use crate::field::{Field, TakeError};
use cta_model::{FileState, StageFileInfo, StageInfo};
use cta_values::{NoMemory, Rows, Text};
use std::alloc::Global;

impl Field for StageFileInfo {
    ghost before = { stage_file_before };

    ghost fits = { StageFileInfoFits };

    fn put_field(&self, out: &mut Vec<u8>) -> Result<(), NoMemory> {
        self.path.put_field(out)?;
        self.state.put_field(out)?;
        self.on_disk.put_field(out)?;
        self.started_at.put_field(out)?;
        self.finished_at.put_field(out)?;
        self.error.put_field(out)
    }

    fn take_field(alloc: Global, bytes: &[u8]) -> Result<(StageFileInfo, &[u8]), TakeError> {
        let (path, rest) = Text::take_field(alloc, bytes)?;
        let (state, rest) = FileState::take_field(alloc, rest)?;
        let (on_disk, rest) = bool::take_field(alloc, rest)?;
        let (started_at, rest) = Option::<u64>::take_field(alloc, rest)?;
        let (finished_at, rest) = Option::<u64>::take_field(alloc, rest)?;
        let (error, rest) = Option::<Text>::take_field(alloc, rest)?;
        Ok((
            StageFileInfo {
                path,
                state,
                on_disk,
                started_at,
                finished_at,
                error,
            },
            rest,
        ))
    }
}

impl Field for StageInfo {
    ghost before = { stage_info_before };

    ghost fits = { StageInfoFits };

    fn put_field(&self, out: &mut Vec<u8>) -> Result<(), NoMemory> {
        self.id.put_field(out)?;
        self.created_at.put_field(out)?;
        self.started_at.put_field(out)?;
        self.completed_at.put_field(out)?;
        self.files.put_field(out)
    }

    fn take_field(alloc: Global, bytes: &[u8]) -> Result<(StageInfo, &[u8]), TakeError> {
        let (id, rest) = u32::take_field(alloc, bytes)?;
        let (created_at, rest) = u64::take_field(alloc, rest)?;
        let (started_at, rest) = Option::<u64>::take_field(alloc, rest)?;
        let (completed_at, rest) = Option::<u64>::take_field(alloc, rest)?;
        let (files, rest) = Rows::<StageFileInfo>::take_field(alloc, rest)?;
        Ok((
            StageInfo {
                id,
                created_at,
                started_at,
                completed_at,
                files,
            },
            rest,
        ))
    }
}
