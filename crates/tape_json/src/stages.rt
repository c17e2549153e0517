// Reports of stage requests.
ghost use Rattle.tape_json.specs.Reports.{file_report, stage_report};

use crate::ids::id_member;
use crate::members::{count_member, count_member_if, flag_member, text_member, text_member_if};
use crate::names::file_state_name;
use crate::reported::{Reported, list_member};
use cta_model::{StageFileInfo, StageInfo};
use json::Writer;
use std::alloc::AllocError;

impl Reported for StageFileInfo {
    ghost report = { file_report };

    ghost levels = { 1 };

    fn write(&self, out: &mut Writer) -> Result<(), AllocError> {
        out.begin_object()?;
        text_member_if(out, "error", &self.error)?;
        count_member_if(out, "finishedAt", self.finished_at)?;
        flag_member(out, "onDisk", self.on_disk)?;
        text_member(out, "path", self.path.as_str())?;
        count_member_if(out, "startedAt", self.started_at)?;
        text_member(out, "state", file_state_name(self.state))?;
        out.end_object()
    }
}

impl Reported for StageInfo {
    ghost report = { stage_report };

    ghost levels = { 3 };

    fn write(&self, out: &mut Writer) -> Result<(), AllocError> {
        out.begin_object()?;
        count_member_if(out, "completedAt", self.completed_at)?;
        count_member(out, "createdAt", self.created_at)?;
        list_member(out, "files", self.files.as_slice())?;
        id_member(out, "id", self.id)?;
        count_member_if(out, "startedAt", self.started_at)?;
        out.end_object()
    }
}
