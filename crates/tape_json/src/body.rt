// A body as JSON.
ghost use Rattle.std.specs.Prelude.{◌≡◌, ◌≢◌, Some, None, IfOk, IfErr};
ghost use Rattle.serde_json.specs.View.{view};
ghost use Rattle.tape_json.specs.Bodies.{body_data};

use cta_site::{NoMemory, Text};
use serde_json::Value;
use std::alloc::{AllocFailed, Global};

/// Why a body of a request is not read. Of the first three the first that holds is named, in their order.
#[derive(Clone, Copy, Debug, PartialEq, Eq)]
pub enum BodyError {
    /// It is no JSON text in UTF-8 (RFC 8259) that nests at most 127 deep, or has not the members of its form.
    BadBody,
    /// A lifetime is no ISO 8601 duration in weeks and smaller units, or is negative.
    BadLifetime,
    /// The list has no item.
    EmptyList,
    /// An allocation failed.
    NoMemory,
}

impl From<NoMemory> for BodyError {
    ghost use Rattle.std.specs.Prelude.{◌≡◌};
    ghost use Rattle.tape_json.specs.declared.body.BodyError.TheVariants.{NoMemory};

    ghost from_gives = { λ _ e. e ≡ NoMemory };

    fn from(_error: NoMemory) -> BodyError {
        BodyError::NoMemory
    }
}

impl<T: Drop> From<AllocFailed<T>> for BodyError {
    ghost use Rattle.std.specs.Prelude.{◌≡◌};
    ghost use Rattle.tape_json.specs.declared.body.BodyError.TheVariants.{NoMemory};

    ghost from_gives = { λ _ e. e ≡ NoMemory };

    fn from(_failed: AllocFailed<T>) -> BodyError {
        BodyError::NoMemory
    }
}

// The value of a body.
pub(crate) fn body_value(alloc: Global, bytes: &[u8]) -> Result<Value, BodyError>
    ensures value { IfOk result (λ v. body_data bytes.now ≡ Some (view v)) }
    ensures cause { IfErr result (λ e. e ≢ BodyError.NoMemory
        → (e ≡ BodyError.BadBody) × (body_data bytes.now ≡ None)) }
{
    match Value::from_slice(alloc, bytes) {
        Ok(value) => Ok(value),
        Err(error) => {
            if error.is_memory() {
                Err(BodyError::NoMemory)
            } else {
                Err(BodyError::BadBody)
            }
        }
    }
}

// A text of its own with these characters.
pub(crate) fn text_of(alloc: Global, text: &str) -> Result<Text, NoMemory>
    ensures { IfOk result (λ t. t ≡ text.now) }
{
    let string = String::from_str(alloc, text)?;
    Ok(Text::of(string))
}
