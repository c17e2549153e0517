// Elements of lists.
ghost use Rattle.std.specs.Prelude.{◌≡◌, ◌≤◌, ◌<◌, ◌^◌, Bool, IfOk, IfSome, length, map, true};
ghost use Rattle.serde_json.specs.Data.{Data};
ghost use Rattle.serde_json.specs.View.{view};
ghost use Rattle.cta_site.specs.Items.{first_failing};

use cta_site::{NoMemory, Rows};
use serde_json::Value;
use std::alloc::Global;

// What stands in a list of a site file.
pub(crate) trait Element: Drop {
    ghost is_element: { Data → Bool };

    ghost element_of: { Data → Self };

    // Whether a value is such an element.
    fn is(value: &Value) -> bool
        ensures { result ≡ is_element (view value.now) };

    // The element that a value is.
    fn of(alloc: Global, value: &Value) -> Result<Self, NoMemory>
        requires { is_element (view value.now) ≡ true }
        ensures { IfOk result (λ element. element ≡ element_of (view value.now)) };
}

// The place of the first value that is no such element.
fn place_of_bad<T: Element>(values: &[Value]) -> Option<usize>
    ensures value { result ≡ first_failing (λ v. T.is_element (view v)) values.now }
    ensures within { IfSome result (λ i. i < length values.now) }
{
    values.iter().position(|v| !T::is(v))
}

// The place of the first value that is no such element, of values whose places are small.
#[tactic(auto, using(crate::proofs::Lists::places))]
pub(crate) fn first_bad<T: Element>(values: &[Value]) -> Option<u32>
    requires { length (map view values.now) ≤ 4096 }
    ensures { result ≡ first_failing T.is_element (map view values.now) }
{
    match place_of_bad::<T>(values) {
        Some(place) => Some(place as u32),
        None => None,
    }
}

// The elements that values are, in their order.
pub(crate) fn elements<T: Element>(alloc: Global, values: &[Value]) -> Result<Rows<T>, NoMemory>
    requires { first_failing T.is_element (map view values.now) ≡ None }
    ensures { IfOk result (λ rows. rows.items ≡ map T.element_of (map view values.now)) }
{
    let mut items = Vec::new(alloc);
    for value in values {
        let item = T::of(alloc, value)?;
        items.push(item)?;
    }
    Ok(Rows::of(items))
}
