// Records that a folder holds from before.
ghost use Rattle.std.specs.Prelude.{◌≡◌, Err, IfOk, None, length, replicate};
ghost use Rattle.file_media.specs.Disks.{Listed, after_call};
ghost use Rattle.file_media.specs.Earlier.{HasListed, HasListedOrFailed, IsNotedBy};

use crate::disk::{Disk, DiskErr};
use crate::names::parts_of;
use cta_site::{NoMemory, ValidSite};
use std::alloc::Global;

// Notes the record that has this name, where it is behind the last one of its tape so far.
fn note(site: &ValidSite, name: &[u8], last: &mut Vec<u32>)
    requires { length last.old.items ≡ length site.now.tapes.items }
    ensures len { length last.new.items ≡ length last.old.items }
    ensures noted { IsNotedBy site.now name.now last.old.items last.new.items }
{
    site.names_differ();
    if let Some((len, fseq)) = parts_of(name) {
        if let Some(tape) = site.tape_of(&name[..len]) {
            let known = last[tape as usize];
            last[tape as usize] = known.max(fseq);
        }
    }
}

// A list that tells of so many tapes that they have no record.
fn no_records(alloc: Global, count: usize) -> Result<Vec<u32>, NoMemory>
    ensures { IfOk result (λ last. last.items ≡ replicate count 0) }
{
    let last = vec![in alloc; 0u32; count]?;
    Ok(last)
}

/// Lists the folder once and tells of each tape of the site, by its number, the fSeq of the last record of it that the folder
/// holds, 0 where it holds none. It takes memory for all names, and time in proportion to them and the logarithm of the number of
/// tapes.
pub fn last_records<D: Disk>(
    alloc: Global,
    disk: &mut D,
    site: &ValidSite,
) -> Result<Vec<u32>, DiskErr>
    ensures listed { IfOk result (HasListed site.now (D.done disk.old) (D.done disk.new)) }
    ensures cause { result ≡ Err DiskErr.Fault → D.done disk.new ≡ after_call (Listed None) (D.done disk.old) }
{
    let names = disk.names()?;
    let mut last = no_records(alloc, site.tapes().len())?;
    for name in &names {
        note(site, name.as_slice(), &mut last);
    }
    Ok(last)
}

// As `last_records`, and nothing of any tape where the listing failed: then each tape counts as one with records.
pub(crate) fn found_records<D: Disk>(
    alloc: Global,
    disk: &mut D,
    site: &ValidSite,
) -> Result<Vec<u32>, NoMemory>
    ensures { IfOk result (HasListedOrFailed site.now (D.done disk.old) (D.done disk.new)) }
{
    match last_records(alloc, disk, site) {
        Ok(last) => Ok(last),
        Err(DiskErr::Fault) => Ok(Vec::new(alloc)),
        Err(DiskErr::NoMemory) => Err(NoMemory),
    }
}
