// An archive that has kept nothing yet, with the media that a bench makes.
ghost use Rattle.std.specs.Prelude.{◌≡◌, IfOk, map};
ghost use Rattle.archive_opening.specs.Made.{AreNewMedia};
ghost use Rattle.archive_opening.specs.SiteReading.{IsOpened};

use archive::Archive;
use cta_model::NoMemory;
use cta_site::ValidSite;
use media::{Bench, TapeDrive};
use std::alloc::Global;
use std::hash::RandomState;

/// The medium of each tape of a site, in order of their numbers, as the bench makes them. NoMemory lets those go that were made. Its cost is
/// the number of tapes, and what each medium costs the bench. This project's own.
pub fn media_of<D: TapeDrive, B: Bench<D>>(
    alloc: Global,
    site: &ValidSite,
    bench: &mut B,
) -> Result<Vec<D::Medium>, NoMemory>
    ensures media { IfOk result (λ media. AreNewMedia (B.tells bench.old) site.now (map D.Medium.told media.items)) }
    ensures tells { B.tells bench.new ≡ B.tells bench.old }
{
    site.keeps_rules();
    let mut media = Vec::new(alloc);
    for tape in 0..site.tapes().len() {
        let medium = bench.medium(site, tape as u32)?;
        media.push(medium)?;
    }
    Ok(media)
}

/// An archive of a site that has kept nothing yet, with the medium of each tape, in order of their numbers, as a bench makes them. Paths
/// are hashed with these keys. NoMemory lets the site and the media go. Its cost is the size of the site. This project's own.
pub fn open_archive<D: TapeDrive, B: Bench<D>>(
    alloc: Global,
    site: ValidSite,
    bench: &mut B,
    keys: RandomState,
) -> Result<Archive<D::Medium>, NoMemory>
    ensures site { IfOk result (λ archive. archive.site ≡ site) }
    ensures opened { IfOk result (λ archive. IsOpened (B.tells bench.old) archive) }
    ensures tells { B.tells bench.new ≡ B.tells bench.old }
{
    let media = media_of(alloc, &site, bench)?;
    Archive::new(alloc, site, media, keys)
}
