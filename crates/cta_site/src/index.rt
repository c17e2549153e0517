// Where the elements of a site stand, by name.
ghost use Rattle.std.specs.Prelude.{◌≡◌, ◌≤◌, ℕ, List, IfOk, length};
ghost use Rattle.cta_site.specs.Lookups.{same_kind};
ghost use Rattle.cta_site.specs.Index.{HasPlaces, HasRoutes, HasAllRoutes, HasRules, IsIndexOf};
ghost use Rattle.cta_site.specs.WellFormed.{AreCounts};

use crate::name_map::NameMap;
use crate::site::{Route, Rule, RuleKind, Site};
use cta_values::{Named, NoMemory};
use std::alloc::Global;

// The routes of the classes: for each copy, the place of the first route of a class.
#[derive(Drop)]
pub(crate) struct RouteIndex {
    pub(crate) first: NameMap,
    pub(crate) second: NameMap,
    pub(crate) third: NameMap,
    pub(crate) fourth: NameMap,
}

// The places of a site's elements in their lists, by name.
#[derive(Drop)]
pub(crate) struct Index {
    pub(crate) classes: NameMap,
    pub(crate) pools: NameMap,
    pub(crate) policies: NameMap,
    pub(crate) tapes: NameMap,
    pub(crate) drives: NameMap,
    pub(crate) directories: NameMap,
    pub(crate) routes: RouteIndex,
    pub(crate) requesters: NameMap,
    pub(crate) groups: NameMap,
}

// The place of the first element of each name.
pub(crate) fn places_of<T: Named>(alloc: Global, items: &[T]) -> Result<NameMap, NoMemory>
    requires { length items.now ≤ 4096 }
    ensures { IfOk result (λ map. HasPlaces map T.name_of items.now) }
{
    let mut places = NameMap::new(alloc);
    for (place, item) in items.iter().enumerate() {
        places.add(alloc, item.name(), place as u32)?;
    }
    Ok(places)
}

// The place of the first route of each class for this copy.
fn routes_of(alloc: Global, routes: &[Route], copy: u8) -> Result<NameMap, NoMemory>
    requires { length routes.now ≤ 4096 }
    ensures { IfOk result (λ map. HasRoutes map routes.now copy) }
{
    let mut places = NameMap::new(alloc);
    for (place, route) in routes.iter().enumerate() {
        if route.copy == copy {
            places.add(alloc, route.class.as_bytes(), place as u32)?;
        }
    }
    Ok(places)
}

// Whether a rule is of this kind.
fn is_of_kind(rule: &Rule, kind: RuleKind) -> bool
    ensures { result ≡ same_kind rule.now.kind kind }
{
    rule.kind == kind
}

// The place of the first rule of this kind for each name.
fn rules_of(alloc: Global, rules: &[Rule], kind: RuleKind) -> Result<NameMap, NoMemory>
    requires { length rules.now ≤ 4096 }
    ensures { IfOk result (λ map. HasRules map rules.now kind) }
{
    let mut places = NameMap::new(alloc);
    for (place, rule) in rules.iter().enumerate() {
        if is_of_kind(rule, kind) {
            places.add(alloc, rule.name.as_bytes(), place as u32)?;
        }
    }
    Ok(places)
}

impl RouteIndex {
    fn of(alloc: Global, routes: &[Route]) -> Result<RouteIndex, NoMemory>
        requires { length routes.now ≤ 4096 }
        ensures { IfOk result (λ index. HasAllRoutes index routes.now) }
    {
        let first = routes_of(alloc, routes, 1)?;
        let second = routes_of(alloc, routes, 2)?;
        let third = routes_of(alloc, routes, 3)?;
        let fourth = routes_of(alloc, routes, 4)?;
        Ok(RouteIndex {
            first,
            second,
            third,
            fourth,
        })
    }
}

impl Index {
    // The places of a site's elements.
    pub(crate) fn of(alloc: Global, site: &Site) -> Result<Index, NoMemory>
        requires { AreCounts site.now }
        ensures { IfOk result (λ index. IsIndexOf index site.now) }
    {
        let classes = places_of(alloc, site.classes.as_slice())?;
        let pools = places_of(alloc, site.pools.as_slice())?;
        let policies = places_of(alloc, site.policies.as_slice())?;
        let tapes = places_of(alloc, site.tapes.as_slice())?;
        let drives = places_of(alloc, site.drives.as_slice())?;
        let directories = places_of(alloc, site.directories.as_slice())?;
        let routes = RouteIndex::of(alloc, site.routes.as_slice())?;
        let requesters = rules_of(alloc, site.rules.as_slice(), RuleKind::Requester)?;
        let groups = rules_of(alloc, site.rules.as_slice(), RuleKind::Group)?;
        Ok(Index {
            classes,
            pools,
            policies,
            tapes,
            drives,
            directories,
            routes,
            requesters,
            groups,
        })
    }
}
