// The rules on what elements say of one another.
ghost use Rattle.std.specs.Prelude.{◌≡◌, ◌<◌, ◌≤◌, ◌==◌, ◌^◌, ◌&&◌, bytes_eq, find, length, nat_le, not, ◌||◌, IfOk, IfSome};
ghost use Rattle.cta_site.specs.Items.{first_failing, is_among};
ghost use Rattle.cta_site.specs.Index.{HasPlaces, HasCounts, HasAllCounts};
ghost use Rattle.cta_site.specs.Lookups.{vo_name};
ghost use Rattle.cta_site.specs.NameMap.{count_in};
ghost use Rattle.cta_site.specs.Paths.{is_path};
ghost use Rattle.cta_site.specs.References as said;
ghost use Rattle.cta_site.specs.WellFormed.{AreCounts};
ghost use Rattle.cta_site.specs.declared.site.Class.{Class};
ghost use Rattle.cta_site.specs.declared.site.TapePool.{TapePool};
ghost use Rattle.cta_site.specs.declared.site.Rule.{Rule};
ghost use Rattle.cta_site.specs.declared.site.Tape.{Tape};
ghost use Rattle.cta_site.specs.declared.site.Drive.{Drive};
ghost use Rattle.cta_site.specs.declared.site.Directory.{Directory};
ghost use Rattle.cta_site.specs.declared.site.Failure.{Failure};
ghost use Rattle.cta_site.specs.declared.site.Route.{Route};
ghost use Rattle.cta_site.specs.declared.site.Site.{Site};

use crate::lookups::element_of;
use crate::name_map::NameMap;
use crate::names::Names;
use crate::paths::is_path;
use crate::site::{Class, Directory, Drive, Failure, Route, Rule, Site, Tape, TapePool};
use crate::tally::Tally;
use cta_values::NoMemory;
use std::alloc::Global;

// How many routes each class has for this copy.
fn routes_counted(alloc: Global, routes: &[Route], copy: u8) -> Result<Tally, NoMemory>
    requires { length routes.now ≤ 4096 }
    ensures { IfOk result (λ tally. HasCounts tally routes.now copy) }
{
    let mut tally = Tally::new(alloc);
    for route in routes {
        if route.copy == copy {
            tally.add(alloc, route.class.as_bytes())?;
        }
    }
    Ok(tally)
}

// How many routes each class has, for each copy.
#[derive(Drop)]
struct RouteCounts {
    first: Tally,
    second: Tally,
    third: Tally,
    fourth: Tally,
}

impl RouteCounts {
    fn of(alloc: Global, routes: &[Route]) -> Result<RouteCounts, NoMemory>
        requires { length routes.now ≤ 4096 }
        ensures { IfOk result (λ counts. HasAllCounts counts routes.now) }
    {
        let first = routes_counted(alloc, routes, 1)?;
        let second = routes_counted(alloc, routes, 2)?;
        let third = routes_counted(alloc, routes, 3)?;
        let fourth = routes_counted(alloc, routes, 4)?;
        Ok(RouteCounts {
            first,
            second,
            third,
            fourth,
        })
    }
}

// Whether a copy is beyond a class's copies, or was counted exactly once.
fn is_routed(counts: &Tally, class: &Class, copy: u8) -> bool
    ensures { result ≡ (not (nat_le copy class.now.copies) || count_in counts.now class.now.name == 1) }
{
    copy > class.copies || counts.count(class.name.as_bytes()) == 1
}

// Whether each of a class's copies has exactly one route.
fn class_has_routes(counts: &RouteCounts, class: &Class) -> bool
    ensures { (site : Site) → HasAllCounts counts.now site.routes.items → result ≡ said.class_has_routes site class.now }
{
    is_routed(&counts.first, class, 1)
        && is_routed(&counts.second, class, 2)
        && is_routed(&counts.third, class, 3)
        && is_routed(&counts.fourth, class, 4)
}

// The virtual organisation of the class of this name, empty where there is none.
fn class_vo<'a>(places: &NameMap, classes: &'a [Class], name: &[u8]) -> &'a [u8]
    requires { HasPlaces places.now (λ (c : Class). c.name) classes.now }
    ensures { result.now ≡ said.class_vo (find (λ (c : Class). bytes_eq c.name name.now) classes.now) }
{
    match element_of(places, classes, name) {
        Some(class) => class.vo.as_bytes(),
        None => b"",
    }
}

// The virtual organisation of the pool of this name, empty where there is none.
fn pool_vo<'a>(places: &NameMap, pools: &'a [TapePool], name: &[u8]) -> &'a [u8]
    requires { HasPlaces places.now (λ (p : TapePool). p.name) pools.now }
    ensures { result.now ≡ vo_name (find (λ (p : TapePool). bytes_eq p.name name.now) pools.now) }
{
    match element_of(places, pools, name) {
        Some(pool) => pool.vo.as_bytes(),
        None => b"",
    }
}

// Whether a route's class exists, and has its copy.
fn route_has_class(site: &Site, classes: &NameMap, route: &Route) -> bool
    requires { HasPlaces classes.now (λ (c : Class). c.name) site.now.classes.items }
    ensures { result ≡ said.route_has_class site.now route.now }
{
    match element_of(classes, site.classes.as_slice(), route.class.as_bytes()) {
        Some(class) => route.copy <= class.copies,
        None => false,
    }
}

// Whether a route's pool has the virtual organisation of its class.
fn route_keeps_vo(site: &Site, classes: &NameMap, pools: &NameMap, route: &Route) -> bool
    requires classes { HasPlaces classes.now (λ (c : Class). c.name) site.now.classes.items }
    requires pools { HasPlaces pools.now (λ (p : TapePool). p.name) site.now.pools.items }
    ensures { result ≡ said.route_keeps_vo site.now route.now }
{
    class_vo(classes, site.classes.as_slice(), route.class.as_bytes())
        == pool_vo(pools, site.pools.as_slice(), route.pool.as_bytes())
}

// Whether a tape's pool and library exist.
fn tape_has_home(pools: &Names, libraries: &Names, tape: &Tape) -> bool
    ensures { result ≡ (is_among pools.now tape.now.pool && is_among libraries.now tape.now.library) }
{
    pools.has(tape.pool.as_bytes()) && libraries.has(tape.library.as_bytes())
}

// Whether a directory's path is a path, and its class exists.
fn directory_has_class(classes: &Names, directory: &Directory) -> bool
    ensures { result ≡ (is_path directory.now.path && is_among classes.now directory.now.class) }
{
    is_path(directory.path.as_str()) && classes.has(directory.class.as_bytes())
}

// The place of the first class whose virtual organisation doesn't exist.
pub(crate) fn class_without_vo(classes: &[Class], vos: &Names) -> Option<usize>
    requires { length classes.now ≤ 4096 }
    ensures value { result ≡ first_failing (λ (c : Class). is_among vos.now c.vo) classes.now }
    ensures within { IfSome result (λ i. i < 2 ^ 32) }
{
    classes.iter().position(|c| !vos.has(c.vo.as_bytes()))
}

// The place of the first pool whose virtual organisation doesn't exist.
pub(crate) fn pool_without_vo(pools: &[TapePool], vos: &Names) -> Option<usize>
    requires { length pools.now ≤ 4096 }
    ensures value { result ≡ first_failing (λ (p : TapePool). is_among vos.now p.vo) pools.now }
    ensures within { IfSome result (λ i. i < 2 ^ 32) }
{
    pools.iter().position(|p| !vos.has(p.vo.as_bytes()))
}

// The place of the first route whose pool doesn't exist.
pub(crate) fn route_without_pool(routes: &[Route], pools: &Names) -> Option<usize>
    requires { length routes.now ≤ 4096 }
    ensures value { result ≡ first_failing (λ (r : Route). is_among pools.now r.pool) routes.now }
    ensures within { IfSome result (λ i. i < 2 ^ 32) }
{
    routes.iter().position(|r| !pools.has(r.pool.as_bytes()))
}

// The place of the first rule whose policy doesn't exist.
pub(crate) fn rule_without_policy(rules: &[Rule], policies: &Names) -> Option<usize>
    requires { length rules.now ≤ 4096 }
    ensures value { result ≡ first_failing (λ (r : Rule). is_among policies.now r.policy) rules.now }
    ensures within { IfSome result (λ i. i < 2 ^ 32) }
{
    rules
        .iter()
        .position(|r| !policies.has(r.policy.as_bytes()))
}

// The place of the first tape whose pool or library doesn't exist.
pub(crate) fn tape_without_home(tapes: &[Tape], pools: &Names, libraries: &Names) -> Option<usize>
    requires { length tapes.now ≤ 4096 }
    ensures value { result ≡ first_failing (λ (t : Tape). is_among pools.now t.pool && is_among libraries.now t.library) tapes.now }
    ensures within { IfSome result (λ i. i < 2 ^ 32) }
{
    tapes
        .iter()
        .position(|t| !tape_has_home(pools, libraries, t))
}

// The place of the first drive whose library doesn't exist.
pub(crate) fn drive_without_library(drives: &[Drive], libraries: &Names) -> Option<usize>
    requires { length drives.now ≤ 4096 }
    ensures value { result ≡ first_failing (λ (d : Drive). is_among libraries.now d.library) drives.now }
    ensures within { IfSome result (λ i. i < 2 ^ 32) }
{
    drives
        .iter()
        .position(|d| !libraries.has(d.library.as_bytes()))
}

// The place of the first failure whose drive doesn't exist.
pub(crate) fn failure_without_drive(failures: &[Failure], drives: &Names) -> Option<usize>
    requires { length failures.now ≤ 4096 }
    ensures value { result ≡ first_failing (λ (f : Failure). is_among drives.now f.drive) failures.now }
    ensures within { IfSome result (λ i. i < 2 ^ 32) }
{
    failures
        .iter()
        .position(|f| !drives.has(f.drive.as_bytes()))
}

// The place of the first directory whose path is none or whose class doesn't exist.
pub(crate) fn directory_without_class(directories: &[Directory], classes: &Names) -> Option<usize>
    requires { length directories.now ≤ 4096 }
    ensures value { result ≡ first_failing (λ (d : Directory). is_path d.path && is_among classes.now d.class) directories.now }
    ensures within { IfSome result (λ i. i < 2 ^ 32) }
{
    directories
        .iter()
        .position(|d| !directory_has_class(classes, d))
}

// The place of the first class of which a copy doesn't have exactly one route.
pub(crate) fn class_without_routes(alloc: Global, site: &Site) -> Result<Option<usize>, NoMemory>
    requires { AreCounts site.now }
    ensures value { IfOk result (λ place. place ≡ first_failing (said.class_has_routes site.now) site.now.classes.items) }
    ensures within { IfOk result (λ place. IfSome place (λ i. i < 2 ^ 32)) }
{
    let counts = RouteCounts::of(alloc, site.routes.as_slice())?;
    Ok(class_uncounted(&counts, site))
}

// The place of the first class of which a copy wasn't counted exactly once.
fn class_uncounted(counts: &RouteCounts, site: &Site) -> Option<usize>
    requires small { length site.now.classes.items ≤ 4096 }
    requires counts { HasAllCounts counts.now site.now.routes.items }
    ensures value { result ≡ first_failing (said.class_has_routes site.now) site.now.classes.items }
    ensures within { IfSome result (λ i. i < 2 ^ 32) }
{
    site.classes
        .as_slice()
        .iter()
        .position(|c| !class_has_routes(counts, c))
}

// The place of the first route whose class doesn't exist or hasn't its copy.
pub(crate) fn route_without_class(site: &Site, classes: &NameMap) -> Option<usize>
    requires small { length site.now.routes.items ≤ 4096 }
    requires classes { HasPlaces classes.now (λ (c : Class). c.name) site.now.classes.items }
    ensures value { result ≡ first_failing (said.route_has_class site.now) site.now.routes.items }
    ensures within { IfSome result (λ i. i < 2 ^ 32) }
{
    site.routes
        .as_slice()
        .iter()
        .position(|r| !route_has_class(site, classes, r))
}

// The place of the first route whose pool has another virtual organisation than its class.
pub(crate) fn route_across_vos(site: &Site, classes: &NameMap, pools: &NameMap) -> Option<usize>
    requires small { length site.now.routes.items ≤ 4096 }
    requires classes { HasPlaces classes.now (λ (c : Class). c.name) site.now.classes.items }
    requires pools { HasPlaces pools.now (λ (p : TapePool). p.name) site.now.pools.items }
    ensures value { result ≡ first_failing (said.route_keeps_vo site.now) site.now.routes.items }
    ensures within { IfSome result (λ i. i < 2 ^ 32) }
{
    site.routes
        .as_slice()
        .iter()
        .position(|r| !route_keeps_vo(site, classes, pools, r))
}
