// Searches in the lists of a site, by the places of names.
ghost use Rattle.std.specs.Prelude.{◌≡◌, ◌<◌, ◌≤◌, ◌^◌, List, length, bytes_eq, filter, find, option_copied, slice_get, IfSome};
ghost use Rattle.std.specs.Option.{option_and_then, option_map};
ghost use Rattle.std.specs.List.{position};
ghost use Rattle.cta_site.specs.Index.{HasPlaces, HasAllRoutes, HasRules};
ghost use Rattle.cta_site.specs.Lookups.{index_by, is_under, longest, copies_in, is_route_of, rule_policy, policy_name_in};
ghost use Rattle.cta_site.specs.declared.site.Directory.{Directory};
ghost use Rattle.cta_site.specs.declared.site.Route.{Route};
ghost use Rattle.cta_site.specs.declared.site.Rule.{Rule};
ghost use Rattle.cta_site.specs.declared.site.RuleKind.{RuleKind};
ghost use Rattle.cta_site.specs.declared.site.RuleKind.TheVariants.{Requester, Group};

use crate::index::RouteIndex;
use crate::name_map::NameMap;
use crate::site::{Class, Directory, Route, Rule};
use cta_values::Named;

// The item at a place, where there is one.
fn item_at<T>(items: &[T], place: Option<u32>) -> Option<&T>
    ensures { option_copied result ≡ option_and_then (slice_get items.now) place }
{
    match place {
        Some(place) => items.get(place as usize),
        None => None,
    }
}

// The first element of this name.
pub(crate) fn element_of<'a, T: Named>(
    places: &NameMap,
    items: &'a [T],
    name: &[u8],
) -> Option<&'a T>
    requires { HasPlaces places.now T.name_of items.now }
    ensures { option_copied result ≡ find (λ x. bytes_eq (T.name_of x) name.now) items.now }
{
    item_at(items, places.number(name))
}

// The place of the first element of this name, or their number where there is none.
pub(crate) fn number_of<T: Named>(places: &NameMap, items: &[T], name: &[u8]) -> u32
    requires places { HasPlaces places.now T.name_of items.now }
    requires small { length items.now < 2 ^ 32 }
    ensures { result ≡ index_by T.name_of items.now name.now }
{
    match places.number(name) {
        Some(place) => place,
        None => items.len() as u32,
    }
}

// How many copies the class at this place has, 0 past the end.
pub(crate) fn copies_at(classes: &[Class], class: u32) -> u8
    ensures { result ≡ copies_in (slice_get classes.now class) }
{
    match classes.get(class as usize) {
        Some(class) => class.copies,
        None => 0,
    }
}

// The place of the first route of this class and copy, by the places of the copy's routes.
fn route_place(index: &RouteIndex, class: &[u8], copy: u8) -> Option<u32>
    requires from { 1 ≤ copy }
    requires to { copy ≤ 4 }
    ensures { (routes : List Route) → HasAllRoutes index.now routes → result ≡ position (is_route_of class.now copy) routes }
{
    match copy {
        1 => index.first.number(class),
        2 => index.second.number(class),
        3 => index.third.number(class),
        _ => index.fourth.number(class),
    }
}

// The first route of this class and copy.
pub(crate) fn route_of<'a>(
    index: &RouteIndex,
    routes: &'a [Route],
    class: &[u8],
    copy: u8,
) -> Option<&'a Route>
    requires index { HasAllRoutes index.now routes.now }
    requires from { 1 ≤ copy }
    requires to { copy ≤ 4 }
    ensures { option_copied result ≡ find (is_route_of class.now copy) routes.now }
{
    item_at(routes, route_place(index, class, copy))
}

// The name of the policy of the rule at this place.
fn policy_at(rules: &[Rule], place: Option<u32>) -> Option<&[u8]>
    ensures { option_copied result ≡ option_map (λ (r : Rule). r.policy) (option_and_then (slice_get rules.now) place) }
{
    match item_at(rules, place) {
        Some(rule) => Some(rule.policy.as_bytes()),
        None => None,
    }
}

// The name of the policy that the rule for this name gives, by the places of a kind's rules.
fn policy_by_rule<'a>(places: &NameMap, rules: &'a [Rule], name: &[u8]) -> Option<&'a [u8]>
    ensures { (kind : RuleKind) → HasRules places.now rules.now kind → option_copied result ≡ rule_policy rules.now kind name.now }
{
    policy_at(rules, places.number(name))
}

// The name of a caller's policy.
pub(crate) fn policy_name<'a>(
    requesters: &NameMap,
    groups: &NameMap,
    rules: &'a [Rule],
    default: &'a [u8],
    requester: &[u8],
    group: &[u8],
) -> &'a [u8]
    requires requesters { HasRules requesters.now rules.now Requester }
    requires groups { HasRules groups.now rules.now Group }
    ensures { result.now ≡ policy_name_in rules.now default.now requester.now group.now }
{
    match policy_by_rule(requesters, rules, requester) {
        Some(policy) => policy,
        None => match policy_by_rule(groups, rules, group) {
            Some(policy) => policy,
            None => default,
        },
    }
}

// The directory with the longest path of those that the path is under: each front of the path before a slash is looked
// up, the longest first.
pub(crate) fn directory_of<'a>(
    places: &NameMap,
    directories: &'a [Directory],
    path: &[u8],
) -> Option<&'a Directory>
    requires { HasPlaces places.now (λ (d : Directory). d.path) directories.now }
    ensures { option_copied result ≡ longest (filter (λ (d : Directory). is_under d.path path.now) directories.now) }
{
    for end in (0..path.len()).rev() {
        if path[end] == b'/' {
            if let Some(place) = places.number(&path[..end]) {
                return item_at(directories, Some(place));
            }
        }
    }
    None
}
