// The first rule that a site breaks.
ghost use Rattle.std.specs.Prelude.{◌≡◌, ◌<◌, ◌≤◌, ◌^◌, IfOk, IfSome, map};
ghost use Rattle.cta_site.specs.Faults.{element_fault, first_fault};
ghost use Rattle.cta_site.specs.References as said;
ghost use Rattle.cta_site.specs.Names.{class_names, drive_names, policy_names, pool_names, vo_names};
ghost use Rattle.cta_site.specs.WellFormed.{AreCounts};

use crate::forms::{counts_kept, form_fault, size_fault};
use crate::index::places_of;
use crate::items::{fault, item, unless};
use crate::keys::{repeat_of, route_repeat, rule_repeat};
use crate::named::names_of;
use crate::names::Names;
use crate::references::{
    class_without_routes, class_without_vo, directory_without_class, drive_without_library,
    failure_without_drive, pool_without_vo, route_across_vos, route_without_class,
    route_without_pool, rule_without_policy, tape_without_home,
};
use crate::site::Site;
use cta_values::{Named, NoMemory};
use std::alloc::Global;

// The names that elements have, to be looked up.
fn known<T: Named>(alloc: Global, items: &[T]) -> Result<Names<'_>, NoMemory>
    ensures { IfOk result (λ names. names ≡ map T.name_of items.now) }
{
    let names = names_of(alloc, items)?;
    Names::of(alloc, names)
}

// The first broken one of rules 9 to 12.
fn store_repeat(alloc: Global, site: &Site) -> Result<Option<(u8, u32)>, NoMemory>
    requires { AreCounts site.now }
    ensures { IfOk result (λ f. f ≡ said.store_repeat site.now) }
{
    let vos = repeat_of(alloc, 9, site.vos.as_slice())?;
    let classes = repeat_of(alloc, 10, site.classes.as_slice())?;
    let pools = repeat_of(alloc, 11, site.pools.as_slice())?;
    let policies = repeat_of(alloc, 12, site.policies.as_slice())?;
    Ok(vos.or(classes.or(pools.or(policies))))
}

// The first broken one of rules 13 to 16.
fn device_repeat(alloc: Global, site: &Site) -> Result<Option<(u8, u32)>, NoMemory>
    requires { AreCounts site.now }
    ensures { IfOk result (λ f. f ≡ said.device_repeat site.now) }
{
    let libraries = repeat_of(alloc, 13, site.libraries.as_slice())?;
    let tapes = repeat_of(alloc, 14, site.tapes.as_slice())?;
    let drives = repeat_of(alloc, 15, site.drives.as_slice())?;
    let directories = repeat_of(alloc, 16, site.directories.as_slice())?;
    Ok(libraries.or(tapes.or(drives.or(directories))))
}

// The first broken one of rules 17 to 19.
fn class_fault(alloc: Global, site: &Site) -> Result<Option<(u8, u32)>, NoMemory>
    requires { AreCounts site.now }
    ensures { IfOk result (λ f. f ≡ said.class_fault site.now) }
{
    let vos = known(alloc, site.vos.as_slice())?;
    let classes = fault(17, item(class_without_vo(site.classes.as_slice(), &vos)));
    let pools = fault(18, item(pool_without_vo(site.pools.as_slice(), &vos)));
    let routes = fault(19, item(class_without_routes(alloc, site)?));
    Ok(classes.or(pools.or(routes)))
}

// The first broken one of rules 20 to 23.
fn route_fault(alloc: Global, site: &Site) -> Result<Option<(u8, u32)>, NoMemory>
    requires { AreCounts site.now }
    ensures { IfOk result (λ f. f ≡ said.route_fault site.now) }
{
    let classes = places_of(alloc, site.classes.as_slice())?;
    let pools = places_of(alloc, site.pools.as_slice())?;
    let names = known(alloc, site.pools.as_slice())?;
    let ends = route_repeat(alloc, 23, site.routes.as_slice())?;
    let class = fault(20, item(route_without_class(site, &classes)));
    let pool = fault(21, item(route_without_pool(site.routes.as_slice(), &names)));
    let vo = fault(22, item(route_across_vos(site, &classes, &pools)));
    Ok(class.or(pool.or(vo.or(ends))))
}

// The first broken one of rules 24 to 27.
fn policy_fault(alloc: Global, site: &Site) -> Result<Option<(u8, u32)>, NoMemory>
    requires { AreCounts site.now }
    ensures { IfOk result (λ f. f ≡ said.policy_fault site.now) }
{
    let policies = known(alloc, site.policies.as_slice())?;
    let callers = rule_repeat(alloc, 27, site.rules.as_slice())?;
    let default = fault(24, unless(policies.has(site.default_policy.as_bytes())));
    let repack = fault(25, unless(policies.has(site.repack_policy.as_bytes())));
    let rules = fault(
        26,
        item(rule_without_policy(site.rules.as_slice(), &policies)),
    );
    Ok(default.or(repack.or(rules.or(callers))))
}

// The places of the first drive without its library, and then of the first failure without its drive.
fn drive_item(alloc: Global, site: &Site, libraries: &Names) -> Result<Option<u32>, NoMemory>
    requires counts { AreCounts site.now }
    requires names { libraries.now ≡ site.now.libraries.items }
    ensures { IfOk result (λ i. i ≡ said.drive_item site.now) }
{
    let names = known(alloc, site.drives.as_slice())?;
    let drives = item(drive_without_library(site.drives.as_slice(), libraries));
    let failures = item(failure_without_drive(site.failures.as_slice(), &names));
    Ok(drives.or(failures))
}

// The first broken one of rules 28 to 30.
fn device_fault(alloc: Global, site: &Site) -> Result<Option<(u8, u32)>, NoMemory>
    requires { AreCounts site.now }
    ensures { IfOk result (λ f. f ≡ said.device_fault site.now) }
{
    let pools = known(alloc, site.pools.as_slice())?;
    let classes = known(alloc, site.classes.as_slice())?;
    let libraries = known(alloc, site.libraries.as_slice())?;
    let drives = fault(29, drive_item(alloc, site, &libraries)?);
    let tapes = fault(
        28,
        item(tape_without_home(site.tapes.as_slice(), &pools, &libraries)),
    );
    let directories = fault(
        30,
        item(directory_without_class(site.directories.as_slice(), &classes)),
    );
    Ok(tapes.or(drives.or(directories)))
}

// The first broken one of rules 7 to 30.
fn element_fault(alloc: Global, site: &Site) -> Result<Option<(u8, u32)>, NoMemory>
    requires { AreCounts site.now }
    ensures { IfOk result (λ f. f ≡ element_fault site.now) }
{
    let forms = form_fault(site);
    let stores = store_repeat(alloc, site)?;
    let devices = device_repeat(alloc, site)?;
    let classes = class_fault(alloc, site)?;
    let routes = route_fault(alloc, site)?;
    let policies = policy_fault(alloc, site)?;
    let tapes = device_fault(alloc, site)?;
    Ok(forms.or(stores.or(devices.or(classes.or(routes.or(policies.or(tapes)))))))
}

// The first of rules 3 to 30 that a site breaks, and the item that breaks it. Its cost is the size of the site's texts
// and lists, and the number of names times its logarithm.
pub(crate) fn first_fault(alloc: Global, site: &Site) -> Result<Option<(u8, u32)>, NoMemory>
    ensures { IfOk result (λ f. f ≡ first_fault site.now) }
{
    match size_fault(site) {
        Some(fault) => Ok(Some(fault)),
        None => {
            counts_kept(site);
            element_fault(alloc, site)
        }
    }
}
