// The site that an object tells.
ghost use Rattle.std.specs.Prelude.{◌≡◌, IfOk, codes, map, true};
ghost use Rattle.serde_json.specs.View.{view};
ghost use Rattle.cta_site.specs.Bare.{bare_site};
ghost use Rattle.site_json.specs.Elements as element;
ghost use Rattle.site_json.specs.File as said;
ghost use Rattle.site_json.specs.Members as member;
ghost use Rattle.site_json.specs.Tested.{AreGood};

use crate::element::elements;
use crate::members::{list, number, small, text};
use crate::rules::limits_in;
use cta_site::{
    Class, Directory, Drive, Failure, Limits, NoMemory, Policy, Route, Rows, Rule, Site, Tape,
    TapePool, Text, Vo,
};
use serde_json::Value;
use std::alloc::Global;

// What the limits say.
fn limits_of(limits: &Value) -> Limits
    requires { said.has_limits (view limits.now) ≡ true }
    ensures { result ≡ said.limits_of (view limits.now) }
{
    Limits {
        buffer: number(limits, "buffer"),
        file: number(limits, "file"),
        archive_bytes: number(limits, "archiveBytes"),
        retrieve_bytes: number(limits, "retrieveBytes"),
        archive_files: small(limits, 1_000_000, "archiveFiles"),
        retrieve_files: small(limits, 1_000_000, "retrieveFiles"),
        batch_files: small(limits, 1000, "batchFiles"),
        tries: small(limits, 16, "tries") as u8,
        history: small(limits, 1_000_000, "history"),
        lifetime: number(limits, "lifetime"),
    }
}

// The site's name, its address, and the names of its default policy and its repack policy.
fn texts(alloc: Global, file: &Value) -> Result<(Text, Text, Text, Text), NoMemory>
    ensures { IfOk result (λ t. (t.0 ≡ member.text (codes "sitename") (view file.now)) × (t.1 ≡ member.text (codes "endpoint") (view file.now)) × (t.2 ≡ member.text (codes "defaultPolicy") (view file.now)) × (t.3 ≡ member.text (codes "repackPolicy") (view file.now))) }
{
    let sitename = text(alloc, file, "sitename")?;
    let endpoint = text(alloc, file, "endpoint")?;
    let default_policy = text(alloc, file, "defaultPolicy")?;
    let repack_policy = text(alloc, file, "repackPolicy")?;
    Ok((sitename, endpoint, default_policy, repack_policy))
}

// The lists that say what is stored where.
fn stores(
    alloc: Global,
    file: &Value,
) -> Result<(Rows<Vo>, Rows<Class>, Rows<TapePool>, Rows<Route>), NoMemory>
    requires { AreGood (view file.now) }
    ensures { IfOk result (λ s. (s.0.items ≡ map element.vo_told (member.list (codes "vos") (view file.now))) × (s.1.items ≡ map element.class_told (member.list (codes "classes") (view file.now))) × (s.2.items ≡ map element.pool_told (member.list (codes "pools") (view file.now))) × (s.3.items ≡ map element.route_told (member.list (codes "routes") (view file.now)))) }
{
    let vos = elements(alloc, list(file, "vos"))?;
    let classes = elements(alloc, list(file, "classes"))?;
    let pools = elements(alloc, list(file, "pools"))?;
    let routes = elements(alloc, list(file, "routes"))?;
    Ok((vos, classes, pools, routes))
}

// The lists that say for whom.
fn callers(
    alloc: Global,
    file: &Value,
) -> Result<(Rows<Policy>, Rows<Rule>, Rows<Directory>), NoMemory>
    requires { AreGood (view file.now) }
    ensures { IfOk result (λ c. (c.0.items ≡ map element.policy_told (member.list (codes "policies") (view file.now))) × (c.1.items ≡ map element.rule_told (member.list (codes "rules") (view file.now))) × (c.2.items ≡ map element.directory_told (member.list (codes "directories") (view file.now)))) }
{
    let policies = elements(alloc, list(file, "policies"))?;
    let rules = elements(alloc, list(file, "rules"))?;
    let directories = elements(alloc, list(file, "directories"))?;
    Ok((policies, rules, directories))
}

// The lists that say what there is to store with.
fn devices(
    alloc: Global,
    file: &Value,
) -> Result<(Rows<Text>, Rows<Tape>, Rows<Drive>, Rows<Failure>), NoMemory>
    requires { AreGood (view file.now) }
    ensures { IfOk result (λ d. (d.0.items ≡ map element.library_told (member.list (codes "libraries") (view file.now))) × (d.1.items ≡ map element.tape_told (member.list (codes "tapes") (view file.now))) × (d.2.items ≡ map element.drive_told (member.list (codes "drives") (view file.now))) × (d.3.items ≡ map element.failure_told (member.list (codes "failures") (view file.now)))) }
{
    let libraries = elements(alloc, list(file, "libraries"))?;
    let tapes = elements(alloc, list(file, "tapes"))?;
    let drives = elements(alloc, list(file, "drives"))?;
    let failures = elements(alloc, list(file, "failures"))?;
    Ok((libraries, tapes, drives, failures))
}

// The site that an object tells that keeps rules 2 to 7.
pub(crate) fn site_told(alloc: Global, file: &Value) -> Result<Site, NoMemory>
    requires { AreGood (view file.now) }
    ensures { IfOk result (λ site. bare_site site ≡ said.site_told (view file.now)) }
{
    let none = Value::Null;
    let limits = limits_of(limits_in(file, &none));
    let (sitename, endpoint, default_policy, repack_policy) = texts(alloc, file)?;
    let (vos, classes, pools, routes) = stores(alloc, file)?;
    let (policies, rules, directories) = callers(alloc, file)?;
    let (libraries, tapes, drives, failures) = devices(alloc, file)?;
    Ok(Site {
        version: 1,
        sitename,
        endpoint,
        default_policy,
        repack_policy,
        limits,
        vos,
        classes,
        pools,
        routes,
        policies,
        rules,
        libraries,
        tapes,
        drives,
        directories,
        failures,
    })
}
