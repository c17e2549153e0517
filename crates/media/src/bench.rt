// Benches, which make drives and media.
ghost use Rattle.std.specs.Prelude.{◌<◌, ◌≡◌, Bool, IfOk, length, true};
ghost use Rattle.media.specs.Made.{IsNewDrive, IsNewMedium, planned_for};

use crate::drive::TapeDrive;
use crate::mem_drive::MemDrive;
use crate::mem_medium::MemMedium;
use crate::planned::Planned;
use cta_site::{Failure, NoMemory, ValidSite};
use std::alloc::Global;

/// Makes the drives and the media of a site, by their numbers in it. This project's own.
pub trait Bench<D: TapeDrive> {
    // Whether its drives tell their plans, and its media their records.
    ghost tells: { Self → Bool };

    /// A drive that is not loaded and was not called. Where drives tell, its plan is what the site plans for it.
    fn drive(&mut self, site: &ValidSite, drive: u32) -> Result<D, NoMemory>
        requires { drive < length site.now.drives.items }
        ensures made { IfOk result (λ d. IsNewDrive (tells self.old) site.now drive (D.seen d)) }
        ensures tells { tells self.new ≡ tells self.old };

    /// The medium of a tape, with the tape's number on its label. Where media tell, it has no records.
    fn medium(&mut self, site: &ValidSite, tape: u32) -> Result<D::Medium, NoMemory>
        requires { tape < length site.now.tapes.items }
        ensures made { IfOk result (λ m. IsNewMedium (tells self.old) tape (D.Medium.told m)) }
        ensures tells { tells self.new ≡ tells self.old };
}

/// A bench in memory, whose drives and media tell. `drive` takes memory for the drive's planned failures and time in
/// proportion to all of the site's; `medium` takes no memory and constant time.
#[derive(Drop)]
pub struct MemBench {
    alloc: Global,
}

impl MemBench {
    /// A bench. It takes no memory and constant time.
    pub fn new(alloc: Global) -> MemBench {
        MemBench { alloc }
    }
}

impl Bench<MemDrive> for MemBench {
    ghost tells = { λ _. true };

    fn drive(&mut self, site: &ValidSite, drive: u32) -> Result<MemDrive, NoMemory> {
        let name = site.drives()[drive as usize].name.as_bytes();
        let plan = planned_for(self.alloc, site.failures(), name)?;
        Ok(MemDrive::new(self.alloc, plan))
    }

    fn medium(&mut self, _site: &ValidSite, tape: u32) -> Result<MemMedium, NoMemory> {
        Ok(MemMedium::new(self.alloc, tape))
    }
}

// The failures that are planned for the drive of this name.
fn planned_for(alloc: Global, failures: &[Failure], name: &[u8]) -> Result<Vec<Planned>, NoMemory>
    ensures { IfOk result (λ plan. plan.items ≡ planned_for name.now failures.now) }
{
    let mut plan = Vec::new(alloc);
    for failure in failures {
        if failure.drive.is(name) {
            plan.push(Planned {
                call: failure.call,
                number: failure.number,
                alter: failure.alter,
            })?;
        }
    }
    Ok(plan)
}
