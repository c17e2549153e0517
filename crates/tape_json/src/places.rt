// Reports of paths: where their files are kept, and which of their copies failed.
ghost use Rattle.std.specs.Prelude.{codes, option_map};
ghost use Rattle.serde_json.specs.Data.{string};
ghost use Rattle.tape_json.specs.Reports.{locality_name, place_report, failed_report};
ghost use Rattle.tape_json.specs.Shown.{shown, Appends};

use crate::members::{count_member, text_member, text_member_if};
use crate::names::locality_name;
use crate::reported::{Reported, list_member};
use cta_model::{FailedCopy, Locality, PlaceInfo};
use json::Writer;
use std::alloc::AllocError;

fn locality_member(out: &mut Writer, locality: Option<Locality>) -> Result<(), AllocError>
    ensures { Appends result out.old out.new (shown (codes "locality") (option_map (λ l. string (locality_name l)) locality)) }
{
    match locality {
        Some(locality) => text_member(out, "locality", locality_name(locality)),
        None => Ok(()),
    }
}

impl Reported for PlaceInfo {
    ghost report = { place_report };

    ghost levels = { 1 };

    fn write(&self, out: &mut Writer) -> Result<(), AllocError> {
        out.begin_object()?;
        text_member_if(out, "error", &self.error)?;
        locality_member(out, self.locality)?;
        text_member(out, "path", self.path.as_str())?;
        out.end_object()
    }
}

impl Reported for FailedCopy {
    ghost report = { failed_report };

    ghost levels = { 2 };

    fn write(&self, out: &mut Writer) -> Result<(), AllocError> {
        out.begin_object()?;
        count_member(out, "copy", self.copy as u64)?;
        list_member(out, "errors", self.errors.as_slice())?;
        text_member(out, "path", self.path.as_str())?;
        out.end_object()
    }
}
