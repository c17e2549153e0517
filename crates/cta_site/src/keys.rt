// Byte strings that tell routes and rules apart.
ghost use Rattle.std.specs.Prelude.{◌≡◌, ◌<◌, ◌≤◌, IfOk, length, map};
ghost use Rattle.cta_site.specs.Items.{fault, first_repeat, first_same};
ghost use Rattle.cta_site.specs.Keys as said;
ghost use Rattle.cta_site.specs.References.{same_ends, same_caller};

use crate::items::{fault, item};
use crate::named::names_of;
use crate::names::first_repeat;
use crate::site::{Route, Rule, RuleKind};
use cta_values::{Named, NoMemory};
use std::alloc::Global;

// A text with each byte behind a 1, and a 0 behind all.
fn closed_text(alloc: Global, text: &[u8]) -> Result<Vec<u8>, NoMemory>
    ensures { IfOk result (λ bytes. bytes.items ≡ said.closed_text text.now) }
{
    let mut bytes = Vec::new(alloc);
    for byte in text {
        bytes.push(1)?;
        bytes.push(*byte)?;
    }
    bytes.push(0)?;
    Ok(bytes)
}

// What tells a route apart by its class and pool.
fn route_ends(alloc: Global, route: &Route) -> Result<Vec<u8>, NoMemory>
    ensures { IfOk result (λ bytes. bytes.items ≡ said.route_ends route.now) }
{
    let mut bytes = closed_text(alloc, route.class.as_bytes())?;
    bytes.extend_from_slice(route.pool.as_bytes())?;
    Ok(bytes)
}

// A kind of rule as a byte.
fn kind_byte(kind: RuleKind) -> u8
    ensures { result ≡ said.kind_byte kind }
{
    match kind {
        RuleKind::Requester => 0,
        RuleKind::Group => 1,
    }
}

// What tells a rule apart by its kind and name.
fn rule_caller(alloc: Global, rule: &Rule) -> Result<Vec<u8>, NoMemory>
    ensures { IfOk result (λ bytes. bytes.items ≡ said.rule_caller rule.now) }
{
    let mut bytes = Vec::new(alloc);
    bytes.push(kind_byte(rule.kind))?;
    bytes.extend_from_slice(rule.name.as_bytes())?;
    Ok(bytes)
}

// What tells the routes apart, in their order.
fn all_route_ends(alloc: Global, routes: &[Route]) -> Result<Vec<Vec<u8>>, NoMemory>
    ensures { IfOk result (λ keys. map (λ k. k.items) keys.items ≡ map said.route_ends routes.now) }
{
    let mut keys = Vec::new(alloc);
    for route in routes {
        let key = route_ends(alloc, route)?;
        keys.push(key)?;
    }
    Ok(keys)
}

// What tells the rules apart, in their order.
fn all_rule_callers(alloc: Global, rules: &[Rule]) -> Result<Vec<Vec<u8>>, NoMemory>
    ensures { IfOk result (λ keys. map (λ k. k.items) keys.items ≡ map said.rule_caller rules.now) }
{
    let mut keys = Vec::new(alloc);
    for rule in rules {
        let key = rule_caller(alloc, rule)?;
        keys.push(key)?;
    }
    Ok(keys)
}

// The fault of names that are to differ.
fn repeat_in(alloc: Global, rule: u8, names: &[&[u8]]) -> Result<Option<(u8, u32)>, NoMemory>
    requires { length names.now ≤ 4096 }
    ensures { IfOk result (λ f. f ≡ fault rule (first_repeat (map (λ b. b.now) names.now))) }
{
    let place = first_repeat(alloc, names)?;
    Ok(fault(rule, item(place)))
}

// The fault of elements whose names are to differ.
pub(crate) fn repeat_of<T: Named>(
    alloc: Global,
    rule: u8,
    items: &[T],
) -> Result<Option<(u8, u32)>, NoMemory>
    requires { length items.now ≤ 4096 }
    ensures { IfOk result (λ f. f ≡ fault rule (first_repeat (map T.name_of items.now))) }
{
    let names = names_of(alloc, items)?;
    repeat_in(alloc, rule, names.as_slice())
}

// The fault of routes that are to go from one class to different pools.
pub(crate) fn route_repeat(
    alloc: Global,
    rule: u8,
    routes: &[Route],
) -> Result<Option<(u8, u32)>, NoMemory>
    requires { length routes.now ≤ 4096 }
    ensures { IfOk result (λ f. f ≡ fault rule (first_same same_ends routes.now)) }
{
    let keys = all_route_ends(alloc, routes)?;
    repeat_of(alloc, rule, keys.as_slice())
}

// The fault of rules that are to be of different kinds or names.
pub(crate) fn rule_repeat(
    alloc: Global,
    rule: u8,
    rules: &[Rule],
) -> Result<Option<(u8, u32)>, NoMemory>
    requires { length rules.now ≤ 4096 }
    ensures { IfOk result (λ f. f ≡ fault rule (first_same same_caller rules.now)) }
{
    let keys = all_rule_callers(alloc, rules)?;
    repeat_of(alloc, rule, keys.as_slice())
}
