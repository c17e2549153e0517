// Reports of tapes, of their repacks and of queues.
ghost use Rattle.tape_json.specs.Reports.{repack_item_report, repack_report, tape_report, queue_report};

use crate::ids::id_member;
use crate::members::{count_member, text_member};
use crate::names::{direction_name, item_state_name, tape_state_name};
use crate::reported::{Reported, list_member};
use cta_model::{QueueInfo, RepackInfo, RepackItem, TapeInfo};
use json::Writer;
use std::alloc::AllocError;

impl Reported for RepackItem {
    ghost report = { repack_item_report };

    ghost levels = { 1 };

    fn write(&self, out: &mut Writer) -> Result<(), AllocError> {
        out.begin_object()?;
        count_member(out, "copy", self.copy as u64)?;
        text_member(out, "path", self.path.as_str())?;
        text_member(out, "state", item_state_name(self.state))?;
        out.end_object()
    }
}

impl Reported for RepackInfo {
    ghost report = { repack_report };

    ghost levels = { 3 };

    fn write(&self, out: &mut Writer) -> Result<(), AllocError> {
        out.begin_object()?;
        id_member(out, "id", self.id)?;
        list_member(out, "items", self.items.as_slice())?;
        text_member(out, "vid", self.vid.as_str())?;
        out.end_object()
    }
}

impl Reported for TapeInfo {
    ghost report = { tape_report };

    ghost levels = { 1 };

    fn write(&self, out: &mut Writer) -> Result<(), AllocError> {
        out.begin_object()?;
        count_member(out, "files", self.files as u64)?;
        count_member(out, "nextFseq", self.next_fseq as u64)?;
        text_member(out, "state", tape_state_name(self.state))?;
        count_member(out, "used", self.used)?;
        text_member(out, "vid", self.vid.as_str())?;
        out.end_object()
    }
}

impl Reported for QueueInfo {
    ghost report = { queue_report };

    ghost levels = { 1 };

    fn write(&self, out: &mut Writer) -> Result<(), AllocError> {
        out.begin_object()?;
        count_member(out, "bytes", self.bytes)?;
        text_member(out, "direction", direction_name(self.direction))?;
        count_member(out, "files", self.files as u64)?;
        text_member(out, "key", self.key.as_str())?;
        count_member(out, "oldest", self.oldest)?;
        out.end_object()
    }
}
