// Bodies with one word.
ghost use Rattle.std.specs.Prelude.{◌≡◌, ◌≢◌, Ok, Err, Some, None, IfOk, IfErr, option_map};
ghost use Rattle.serde_json.specs.View.{view};
ghost use Rattle.tape_json.specs.Bodies.{text_under, state_named, state_of, vid_of};

use crate::body::{BodyError, body_value, text_of};
use cta_site::{TapeState, Text};
use serde_json::Value;
use std::alloc::Global;

// The text under this name.
pub(crate) fn text_under<'v>(value: &'v Value, name: &str) -> Option<&'v str>
    ensures { option_map (λ t. t.now) result ≡ text_under name.now (view value.now) }
{
    match value.get(name) {
        Some(member) => member.as_str(),
        None => None,
    }
}

// The state that a word names.
fn state_named(word: &str) -> Result<TapeState, BodyError>
    ensures { result ≡ state_named word.now }
{
    match word {
        "ACTIVE" => Ok(TapeState::Active),
        "DISABLED" => Ok(TapeState::Disabled),
        "BROKEN" => Ok(TapeState::Broken),
        "REPACKING" => Ok(TapeState::Repacking),
        _ => Err(BodyError::BadBody),
    }
}

/// The state that the body of a change of a tape's state names in its member `state`: `ACTIVE`, `DISABLED`, `BROKEN` or
/// `REPACKING`. This project's own. BadBody where the body is not so. An error leaves nothing. Its cost is the length of the body.
pub fn read_state(alloc: Global, bytes: &[u8]) -> Result<TapeState, BodyError>
    ensures value { IfOk result (λ state. state_of bytes.now ≡ Ok state) }
    ensures cause { IfErr result (λ e. e ≢ BodyError.NoMemory → state_of bytes.now ≡ Err e) }
{
    let body = body_value(alloc, bytes)?;
    match text_under(&body, "state") {
        Some(word) => state_named(word),
        None => Err(BodyError::BadBody),
    }
}

/// The text of the member `vid` of a repack request's body. This project's own. BadBody where the body is not so. An error
/// leaves nothing. Its cost is the length of the body.
pub fn read_vid(alloc: Global, bytes: &[u8]) -> Result<Text, BodyError>
    ensures value { IfOk result (λ vid. vid_of bytes.now ≡ Ok vid) }
    ensures cause { IfErr result (λ e. e ≢ BodyError.NoMemory → vid_of bytes.now ≡ Err e) }
{
    let body = body_value(alloc, bytes)?;
    match text_under(&body, "vid") {
        Some(vid) => Ok(text_of(alloc, vid)?),
        None => Err(BodyError::BadBody),
    }
}
