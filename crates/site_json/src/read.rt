// The reader of a site file.
ghost use Rattle.std.specs.Prelude.{◌≡◌, IfOk, MatchResult, None, option_map};
ghost use Rattle.serde_json.specs.View.{view};
ghost use Rattle.cta_site.specs.Bare.{bare_site};
ghost use Rattle.cta_site.specs.Faults.{IsCauseOf};
ghost use Rattle.cta_site.specs.Forms.{out_of_range, size_fault};
ghost use Rattle.site_json.specs.File as said;

use crate::file::site_told;
use crate::rules::{elements_are_good, object_fault};
use cta_site::{NoMemory, Site, SiteError};
use serde_json::Value;
use std::alloc::Global;

const MOST_BYTES: usize = 16_777_216;

// A value, where it is an object.
fn object_alone(value: Value) -> Option<Value>
    ensures { option_map view result ≡ said.object_alone (view value) }
{
    if value.is_object() { Some(value) } else { None }
}

// What a file holds that keeps rule 1, None where it breaks it.
fn file_of(alloc: Global, bytes: &[u8]) -> Result<Option<Value>, NoMemory>
    ensures { IfOk result (λ file. option_map view file ≡ said.file_of bytes.now) }
{
    if bytes.len() > MOST_BYTES {
        return Ok(None);
    }
    match Value::from_slice(alloc, bytes) {
        Ok(value) => Ok(object_alone(value)),
        Err(error) => {
            if error.is_memory() {
                Err(NoMemory)
            } else {
                Ok(None)
            }
        }
    }
}

// The site that an object tells, or the first broken one of rules 2 to 7.
fn told(alloc: Global, file: &Value) -> Result<Site, SiteError>
    ensures value { MatchResult result (λ site. (said.object_fault (view file.now) ≡ None) × (bare_site site ≡ said.site_told (view file.now))) (λ e. IsCauseOf e (said.object_fault (view file.now))) }
    ensures kept { IfOk result (λ site. (size_fault site ≡ None) × (out_of_range site ≡ None)) }
{
    match object_fault(file) {
        Some((rule, item)) => Err(SiteError::Fault { rule, item }),
        None => {
            elements_are_good(file);
            let site = site_told(alloc, file)?;
            Ok(site)
        }
    }
}

/// The site that a site file tells (this project's own form): Ok exactly where its bytes break none of rules 1 to 7 of
/// a site file, Fault the first one that they break with the item that breaks it, and NoMemory where there is no memory
/// for it. An item is the place, from 0, of the first element that breaks the rule in its list, 0 where the rule speaks
/// of no element. A site that is read keeps rules 3 to 7 as `Site::check` tries them. Its cost is the number of bytes,
/// and for each look-up of a member the logarithm of its object's members.
pub fn read_site(alloc: Global, bytes: &[u8]) -> Result<Site, SiteError>
    ensures value { MatchResult result (λ site. (said.file_fault bytes.now ≡ None) × (bare_site site ≡ said.site_of bytes.now)) (λ e. IsCauseOf e (said.file_fault bytes.now)) }
    ensures kept { IfOk result (λ site. (size_fault site ≡ None) × (out_of_range site ≡ None)) }
{
    match file_of(alloc, bytes)? {
        Some(file) => told(alloc, &file),
        None => Err(SiteError::Fault { rule: 1, item: 0 }),
    }
}
