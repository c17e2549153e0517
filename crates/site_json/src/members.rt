// Members of JSON objects.
ghost use Rattle.std.specs.Prelude.{◌≡◌, ◌≤◌, IfOk, map, option_map};
ghost use Rattle.serde_json.specs.View.{view};
ghost use Rattle.site_json.specs.Members as said;

use cta_site::{NoMemory, Text, is_name, is_within};
use serde_json::Value;
use std::alloc::Global;

// The text that a member is, where it is one.
#[tactic(auto, unfolding(crate::specs::Members::text_at))]
pub(crate) fn text_at<'v>(value: &'v Value, name: &str) -> Option<&'v str>
    ensures { option_map (λ t. t.now) result ≡ said.text_at name.now (view value.now) }
{
    match value.get(name) {
        Some(member) => member.as_str(),
        None => None,
    }
}

// The number that a member is, where it is one.
#[tactic(auto, unfolding(crate::specs::Members::number_at))]
fn number_at(value: &Value, name: &str) -> Option<u64>
    ensures { result ≡ said.number_at name.now (view value.now) }
{
    match value.get(name) {
        Some(member) => member.as_u64(),
        None => None,
    }
}

// The list that a member is, where it is one.
#[tactic(auto, unfolding(crate::specs::Members::list_at))]
fn list_at<'v>(value: &'v Value, name: &str) -> Option<&'v [Value]>
    ensures { option_map (λ l. map view l.now) result ≡ said.list_at name.now (view value.now) }
{
    match value.get(name) {
        Some(member) => match member.as_array() {
            Some(list) => Some(list.as_slice()),
            None => None,
        },
        None => None,
    }
}

// Whether a member is a text.
#[tactic(auto, unfolding(crate::specs::Members::is_text))]
pub(crate) fn is_text(value: &Value, name: &str) -> bool
    ensures { result ≡ said.is_text name.now (view value.now) }
{
    text_at(value, name).is_some()
}

// Whether a member is a text of this many bytes, both ends included.
#[tactic(auto, unfolding(crate::specs::Members::has_text))]
pub(crate) fn has_text(value: &Value, low: u64, high: u64, name: &str) -> bool
    ensures { result ≡ said.has_text low high name.now (view value.now) }
{
    match text_at(value, name) {
        Some(text) => is_within(low, high, text.len() as u64),
        None => false,
    }
}

// Whether a member is a text that has the form of a name.
#[tactic(auto, unfolding(crate::specs::Members::has_name))]
pub(crate) fn has_name(value: &Value, name: &str) -> bool
    ensures { result ≡ said.has_name name.now (view value.now) }
{
    match text_at(value, name) {
        Some(text) => is_name(text.as_bytes()),
        None => false,
    }
}

// Whether a member is a number in this range, both ends included.
#[tactic(auto, unfolding(crate::specs::Members::has_number))]
pub(crate) fn has_number(value: &Value, low: u64, high: u64, name: &str) -> bool
    ensures { result ≡ said.has_number low high name.now (view value.now) }
{
    match number_at(value, name) {
        Some(number) => is_within(low, high, number),
        None => false,
    }
}

// Whether a member is a list of at most this many elements.
#[tactic(auto, unfolding(crate::specs::Members::has_list))]
pub(crate) fn has_list(value: &Value, most: usize, name: &str) -> bool
    ensures { result ≡ said.has_list most name.now (view value.now) }
{
    match list_at(value, name) {
        Some(list) => list.len() <= most,
        None => false,
    }
}

// Whether a member is absent.
#[tactic(auto, unfolding(crate::specs::Members::is_absent))]
pub(crate) fn is_absent(value: &Value, name: &str) -> bool
    ensures { result ≡ said.is_absent name.now (view value.now) }
{
    value.get(name).is_none()
}

// The bytes of a member's text, none where it is none.
#[tactic(auto, unfolding(crate::specs::Members::text))]
pub(crate) fn text_bytes<'v>(value: &'v Value, name: &str) -> &'v [u8]
    ensures { result.now ≡ said.text name.now (view value.now) }
{
    match text_at(value, name) {
        Some(text) => text.as_bytes(),
        None => &[],
    }
}

// A text of these characters.
pub(crate) fn text_of(alloc: Global, characters: &str) -> Result<Text, NoMemory>
    ensures { IfOk result (λ text. text ≡ characters.now) }
{
    let string = String::from_str(alloc, characters)?;
    Ok(Text::of(string))
}

// A member's text, empty where it is none.
#[tactic(auto, unfolding(crate::specs::Members::text))]
pub(crate) fn text(alloc: Global, value: &Value, name: &str) -> Result<Text, NoMemory>
    ensures { IfOk result (λ text. text ≡ said.text name.now (view value.now)) }
{
    match text_at(value, name) {
        Some(characters) => text_of(alloc, characters),
        None => text_of(alloc, ""),
    }
}

// A member's number, 0 where it is none.
#[tactic(auto, unfolding(crate::specs::Members::number))]
pub(crate) fn number(value: &Value, name: &str) -> u64
    ensures { result ≡ said.number name.now (view value.now) }
{
    match number_at(value, name) {
        Some(number) => number,
        None => 0,
    }
}

// A member's number, which is at most this.
pub(crate) fn small(value: &Value, high: u32, name: &str) -> u32
    requires { said.number name.now (view value.now) ≤ high }
    ensures number { result ≡ said.number name.now (view value.now) }
    ensures most { result ≤ high }
{
    number(value, name) as u32
}

// A member's list, empty where it is none.
#[tactic(auto, unfolding(crate::specs::Members::list))]
pub(crate) fn list<'v>(value: &'v Value, name: &str) -> &'v [Value]
    ensures { map view result.now ≡ said.list name.now (view value.now) }
{
    match list_at(value, name) {
        Some(list) => list,
        None => &[],
    }
}
