// What is said of a charge of a job.
ghost use Rattle.std.specs.Prelude.{◌≡◌, ◌++◌, string_bytes, OnOk};
ghost use Rattle.cta_site.specs.Lookups as names;
ghost use Rattle.cta_model.specs.Stages as said;

use cta_model::{Charge, Fault};
use cta_site::{NoMemory, ValidSite};

// What is said of a fault that a job was charged for.
fn fault_text(fault: Fault) -> &'static str
    ensures { result.now ≡ said.fault_text fault }
{
    match fault {
        Fault::Load => "",
        Fault::Write => "write fault",
        Fault::Flush => "flush fault",
        Fault::Read => "read fault",
        Fault::Unload => "",
        Fault::Mismatch { .. } => "mismatch",
    }
}

// The name of a drive, empty where there is none.
fn drive_name(site: &ValidSite, drive: u32) -> &str
    ensures { result.now ≡ names.drive_name site.now drive }
{
    match site.drives().get(drive as usize) {
        Some(drive) => drive.name.as_str(),
        None => "",
    }
}

// The VID of a tape, empty where there is none.
fn vid_of(site: &ValidSite, tape: u32) -> &str
    ensures { result.now ≡ names.vid_of site.now tape }
{
    match site.tapes().get(tape as usize) {
        Some(tape) => tape.vid.as_str(),
        None => "",
    }
}

/// Adds what is said of a charge behind a text: its fault, its drive and its tape. After NoMemory some of it is added. Its cost is the length of
/// that. This project's own.
pub fn add_charge(site: &ValidSite, charge: Charge, out: &mut String) -> Result<(), NoMemory>
    ensures { OnOk result (string_bytes out.new ≡ string_bytes out.old ++ said.charge_text site.now charge) }
{
    out.push_str(fault_text(charge.fault))?;
    out.push_str(" on ")?;
    out.push_str(drive_name(site, charge.drive))?;
    out.push_str(" ")?;
    out.push_str(vid_of(site, charge.tape))?;
    Ok(())
}
