// Numbered lists in the order of their names.
ghost use Rattle.std.specs.Prelude.{◌≡◌, OnOk};
ghost use Rattle.std.specs.List.Sorted.{IsPermutation};
ghost use Rattle.cta_values.specs.ByName.{IsByName};
ghost use Rattle.cta_site.specs.Numbering.{IsInOrder, Rearranges};

use crate::site::Site;
use cta_values::NoMemory;

// Sorts each numbered list of a site by name. After NoMemory the lists that came before are sorted.
pub(crate) fn sort_site(site: &mut Site) -> Result<(), NoMemory>
    ensures rearranged { OnOk result (Rearranges site.old site.new) }
    ensures sorted { OnOk result (IsInOrder site.new) }
{
    site.vos.sort()?;
    site.classes.sort()?;
    site.pools.sort()?;
    site.policies.sort()?;
    site.libraries.sort()?;
    site.tapes.sort()?;
    site.drives.sort()?;
    Ok(())
}
