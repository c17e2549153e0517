// The site.
ghost use Rattle.std.specs.Prelude.{◌≡◌, IfOk};
ghost use Rattle.cta_site.specs.Bare.{bare_site};
ghost use Rattle.cta_site.specs.ValidSite.{IsValidSite};
ghost use Rattle.load_mill.specs.Sites.{mill_site};

use crate::elements::{
    classes, directories, drives, libraries, limits, policies, pools, routes, tapes, text, vos,
};
use cta_site::{
    Class, Drive, NoMemory, Route, Rows, Site, SiteError, Tape, TapePool, Text, ValidSite, Vo,
    one_numbering,
};
use std::alloc::Global;

// The site's name and address.
fn names(alloc: Global) -> Result<(Text, Text), NoMemory>
    ensures { IfOk result (λ t. (t.0 ≡ mill_site.sitename) × (t.1 ≡ mill_site.endpoint)) }
{
    let sitename = text(alloc, "T1")?;
    let endpoint = text(alloc, "https://tape.example.org/api/v1")?;
    Ok((sitename, endpoint))
}

// The names of the site's two policies.
fn policy_names(alloc: Global) -> Result<(Text, Text), NoMemory>
    ensures { IfOk result (λ t. (t.0 ≡ mill_site.default_policy) × (t.1 ≡ mill_site.repack_policy)) }
{
    let default_policy = text(alloc, "std")?;
    let repack_policy = text(alloc, "std")?;
    Ok((default_policy, repack_policy))
}

// What files belong to.
fn stores(alloc: Global) -> Result<(Rows<Vo>, Rows<Class>, Rows<TapePool>, Rows<Route>), NoMemory>
    ensures { IfOk result (λ t. (t.0.items ≡ mill_site.vos.items) × (t.1.items ≡ mill_site.classes.items) × (t.2.items ≡ mill_site.pools.items) × (t.3.items ≡ mill_site.routes.items)) }
{
    let vos = vos(alloc)?;
    let classes = classes(alloc)?;
    let pools = pools(alloc)?;
    let routes = routes(alloc)?;
    Ok((vos, classes, pools, routes))
}

// What files are written with.
fn devices(alloc: Global) -> Result<(Rows<Text>, Rows<Tape>, Rows<Drive>), NoMemory>
    ensures { IfOk result (λ t. (t.0.items ≡ mill_site.libraries.items) × (t.1.items ≡ mill_site.tapes.items) × (t.2.items ≡ mill_site.drives.items)) }
{
    let libraries = libraries(alloc)?;
    let tapes = tapes(alloc)?;
    let drives = drives(alloc)?;
    Ok((libraries, tapes, drives))
}

// The site as a site file would say it.
fn written_site(alloc: Global) -> Result<Site, NoMemory>
    ensures { IfOk result (λ site. bare_site site ≡ mill_site) }
{
    let (sitename, endpoint) = names(alloc)?;
    let (default_policy, repack_policy) = policy_names(alloc)?;
    let (vos, classes, pools, routes) = stores(alloc)?;
    let policies = policies(alloc)?;
    let (libraries, tapes, drives) = devices(alloc)?;
    let directories = directories(alloc)?;
    Ok(Site {
        version: 1,
        sitename,
        endpoint,
        default_policy,
        repack_policy,
        limits: limits(),
        vos,
        classes,
        pools,
        routes,
        policies,
        rules: Rows::of(Vec::new(alloc)),
        libraries,
        tapes,
        drives,
        directories,
        failures: Rows::of(Vec::new(alloc)),
    })
}

/// The site of a mill keeps the rules of a site, with its numbered lists in order: a law, which does nothing when it
/// runs.
pub fn mill_site_is_valid()
    ensures { IsValidSite mill_site }
{}

/// The site of a mill (this project's own): one storage class of two copies under `/mill`, two pools with two tapes
/// each, and four drives. It keeps the rules of a site, so that nothing but want of memory is answered in its place.
/// Its cost is constant; NoMemory leaves nothing.
pub fn mill_site(alloc: Global) -> Result<ValidSite, NoMemory>
    ensures { IfOk result (λ site. site ≡ mill_site) }
{
    let site = written_site(alloc)?;
    mill_site_is_valid();
    one_numbering();
    match site.check(alloc) {
        Ok(valid) => Ok(valid),
        Err(SiteError::NoMemory) => Err(NoMemory),
        Err(SiteError::Fault { .. }) => unreachable!(),
    }
}
