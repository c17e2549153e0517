// Bodies with a list of paths.
ghost use Rattle.std.specs.Prelude.{◌≡◌, ◌≢◌, Ok, Err, Some, None, IfOk, IfErr, map, option_map, option_and_then};
ghost use Rattle.serde_json.specs.View.{view};
ghost use Rattle.serde_json.specs.Find.{as_str};
ghost use Rattle.tape_json.specs.Bodies.{all_read, list_under, paths_in, paths_of};

use crate::body::{BodyError, body_value, text_of};
use cta_site::{Rows, Text};
use serde_json::Value;
use std::alloc::Global;

// The items of the list under this name.
pub(crate) fn list_under<'v>(value: &'v Value, name: &str) -> Option<&'v [Value]>
    ensures { option_map (λ vs. map view vs.now) result ≡ list_under name.now (view value.now) }
{
    match value.get(name) {
        Some(member) => match member.as_array() {
            Some(items) => Some(items.as_slice()),
            None => None,
        },
        None => None,
    }
}

// The texts of a list, each of whose items is one.
fn texts_of(alloc: Global, items: &[Value]) -> Result<Vec<Text>, BodyError>
    ensures value { IfOk result (λ texts. all_read as_str (map view items.now) ≡ Some texts.items) }
    ensures cause { IfErr result (λ e. e ≢ BodyError.NoMemory
        → (e ≡ BodyError.BadBody) × (all_read as_str (map view items.now) ≡ None)) }
{
    let mut texts = Vec::new(alloc);
    'items: for item in items {
        match item.as_str() {
            Some(text) => texts.push(text_of(alloc, text)?)?,
            None => return Err(BodyError::BadBody),
        }
    }
    Ok(texts)
}

// The paths that a body says.
fn paths_in(alloc: Global, body: &Value) -> Result<Rows<Text>, BodyError>
    ensures value { IfOk result (λ paths. paths_in (view body.now) ≡ Ok paths.items) }
    ensures cause { IfErr result (λ e. e ≢ BodyError.NoMemory → paths_in (view body.now) ≡ Err e) }
{
    let Some(items) = list_under(body, "paths") else {
        return Err(BodyError::BadBody);
    };
    let texts = texts_of(alloc, items)?;
    if texts.is_empty() {
        return Err(BodyError::EmptyList);
    }
    Ok(Rows::of(texts))
}

/// The paths of a body of a cancel, release, archiveinfo or retry request (WLCG Tape REST v1): the texts of its member
/// `paths` in their order, repeats kept. BadBody, then EmptyList, where the body is not so. An error leaves nothing. Its
/// cost is the length of the body.
pub fn read_paths(alloc: Global, bytes: &[u8]) -> Result<Rows<Text>, BodyError>
    ensures value { IfOk result (λ paths. paths_of bytes.now ≡ Ok paths.items) }
    ensures cause { IfErr result (λ e. e ≢ BodyError.NoMemory → paths_of bytes.now ≡ Err e) }
{
    let body = body_value(alloc, bytes)?;
    paths_in(alloc, &body)
}
