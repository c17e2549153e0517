// The body of a stage request.
ghost use Rattle.std.specs.Prelude.{◌≡◌, ◌≢◌, Ok, Err, Some, None, IfOk, IfErr, map, option_map, option_and_then};
ghost use Rattle.std.specs.List.{list_all};
ghost use Rattle.serde_json.specs.View.{view};
ghost use Rattle.tape_json.specs.Bodies.{all_read, has_path, wanted_of, files_wanted, stage_in, stage_of};

use crate::body::{BodyError, body_value, text_of};
use crate::lifetime::lifetime_of;
use crate::lists::list_under;
use crate::words::text_under;
use cta_model::Wanted;
use cta_site::Rows;
use serde_json::Value;
use std::alloc::Global;

// Whether the file has its path.
fn has_path(file: &Value) -> bool
    ensures { result ≡ has_path (view file.now) }
{
    text_under(file, "path").is_some()
}

// Whether each file has its path.
fn all_have_paths(files: &[Value]) -> bool
    ensures { result ≡ list_all (λ file. has_path (view file)) files.now }
{
    files.iter().all(|file| has_path(file))
}

// The path and the lifetime of a file that has its path.
fn wanted_of(alloc: Global, file: &Value) -> Result<Wanted, BodyError>
    ensures value { IfOk result (λ wanted. wanted_of (view file.now) ≡ Some wanted) }
    ensures cause { IfErr result (λ e. e ≢ BodyError.NoMemory
        → (e ≡ BodyError.BadLifetime) × (wanted_of (view file.now) ≡ None)) }
{
    let Some(path) = text_under(file, "path") else {
        return Err(BodyError::BadLifetime);
    };
    let Some(lifetime) = lifetime_of(file.get("diskLifetime")) else {
        return Err(BodyError::BadLifetime);
    };
    let path = text_of(alloc, path)?;
    Ok(Wanted { path, lifetime })
}

// The files of a list, each of which has its path.
fn all_wanted(alloc: Global, files: &[Value]) -> Result<Vec<Wanted>, BodyError>
    ensures value { IfOk result (λ wanted. all_read wanted_of (map view files.now) ≡ Some wanted.items) }
    ensures cause { IfErr result (λ e. e ≢ BodyError.NoMemory
        → (e ≡ BodyError.BadLifetime) × (all_read wanted_of (map view files.now) ≡ None)) }
{
    let mut wanted = Vec::new(alloc);
    'files: for file in files {
        match wanted_of(alloc, file) {
            Ok(next) => wanted.push(next)?,
            Err(error) => return Err(error),
        }
    }
    Ok(wanted)
}

// The files of a list.
fn files_wanted(alloc: Global, files: &[Value]) -> Result<Rows<Wanted>, BodyError>
    ensures value { IfOk result (λ wanted. files_wanted (Some (map view files.now)) ≡ Ok wanted.items) }
    ensures cause { IfErr result (λ e. e ≢ BodyError.NoMemory
        → files_wanted (Some (map view files.now)) ≡ Err e) }
{
    if !all_have_paths(files) {
        return Err(BodyError::BadBody);
    }
    match all_wanted(alloc, files) {
        Ok(wanted) => {
            if wanted.is_empty() {
                return Err(BodyError::EmptyList);
            }
            Ok(Rows::of(wanted))
        }
        Err(error) => Err(error),
    }
}

// The files that a body wants.
fn stage_in(alloc: Global, body: &Value) -> Result<Rows<Wanted>, BodyError>
    ensures value { IfOk result (λ files. stage_in (view body.now) ≡ Ok files.items) }
    ensures cause { IfErr result (λ e. e ≢ BodyError.NoMemory → stage_in (view body.now) ≡ Err e) }
{
    match list_under(body, "files") {
        Some(files) => files_wanted(alloc, files),
        None => Err(BodyError::BadBody),
    }
}

/// The files that the body of a stage request wants (WLCG Tape REST v1): in the order of its member `files`, repeats kept,
/// each with its `path` and the whole seconds of its `diskLifetime`, an ISO 8601 duration in weeks and smaller units, None
/// where that is absent or null. BadBody, then BadLifetime, then EmptyList, where the body is not so. An error leaves
/// nothing. Its cost is the length of the body.
pub fn read_stage(alloc: Global, bytes: &[u8]) -> Result<Rows<Wanted>, BodyError>
    ensures value { IfOk result (λ files. stage_of bytes.now ≡ Ok files.items) }
    ensures cause { IfErr result (λ e. e ≢ BodyError.NoMemory → stage_of bytes.now ≡ Err e) }
{
    let body = body_value(alloc, bytes)?;
    stage_in(alloc, &body)
}
