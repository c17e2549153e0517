// The drives of a site, which a bench makes.
ghost use Rattle.std.specs.Prelude.{◌≡◌, IfOk, map};
ghost use Rattle.archive_opening.specs.Made.{AreNewDrives};

use cta_model::NoMemory;
use cta_site::ValidSite;
use media::{Bench, TapeDrive};
use std::alloc::Global;

/// The drives of a site, made by a bench, by number. NoMemory lets those go that were made. This project's own.
pub fn drives_of<D: TapeDrive + Drop, B: Bench<D>>(
    alloc: Global,
    site: &ValidSite,
    bench: &mut B,
) -> Result<Vec<D>, NoMemory>
    ensures drives { IfOk result (λ drives. AreNewDrives (B.tells bench.old) site.now (map D.seen drives.items)) }
    ensures tells { B.tells bench.new ≡ B.tells bench.old }
{
    site.keeps_rules();
    let mut drives = Vec::new(alloc);
    for drive in 0..site.drives().len() {
        let made = bench.drive(site, drive as u32)?;
        drives.push(made)?;
    }
    Ok(drives)
}
