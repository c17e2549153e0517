// The items that break a rule.
ghost use Rattle.std.specs.Prelude.{◌≡◌, ◌<◌, ◌^◌, IfSome};
ghost use Rattle.cta_site.specs.Items as said;

/// Whether a number is in a range, both ends included.
pub fn is_within(low: u64, high: u64, number: u64) -> bool
    ensures { result ≡ said.is_within low high number }
{
    low <= number && number <= high
}

/// The item of a rule that speaks of no element: 0 where the rule is broken, None where it is kept.
pub fn unless(kept: bool) -> Option<u32>
    ensures { result ≡ said.unless kept }
{
    if kept { None } else { Some(0) }
}

// A place as the item of a rule.
pub(crate) fn item(place: Option<usize>) -> Option<u32>
    requires { IfSome place (λ i. i < 2 ^ 32) }
    ensures { result ≡ place }
{
    match place {
        Some(place) => Some(place as u32),
        None => None,
    }
}

/// A rule with the item that breaks it, None where none does.
pub fn fault(rule: u8, item: Option<u32>) -> Option<(u8, u32)>
    ensures { result ≡ said.fault rule item }
{
    match item {
        Some(item) => Some((rule, item)),
        None => None,
    }
}
