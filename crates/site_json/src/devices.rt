// The lists that say what there is to store with.
ghost use Rattle.std.specs.Prelude.{◌≡◌};
ghost use Rattle.serde_json.specs.View.{view};
ghost use Rattle.cta_site.specs.Forms as form;
ghost use Rattle.site_json.specs.Elements as said;

use crate::element::Element;
use crate::members::{has_number, is_text, number, small, text, text_of};
use crate::words::{alter_at, call_at, state_at};
use cta_site::{CallKind, Drive, Failure, NoMemory, Tape, TapeState, Text};
use serde_json::Value;
use std::alloc::Global;

impl Element for Text {
    ghost is_element = { said.tells_library };

    ghost element_of = { said.library_told };

    fn is(value: &Value) -> bool {
        value.is_string()
    }

    fn of(alloc: Global, value: &Value) -> Result<Text, NoMemory> {
        match value.as_str() {
            Some(name) => text_of(alloc, name),
            None => text_of(alloc, ""),
        }
    }
}

impl Element for Tape {
    ghost is_element = { said.tells_tape };

    ghost element_of = { said.tape_told };

    fn is(value: &Value) -> bool {
        is_text(value, "vid")
            && is_text(value, "pool")
            && is_text(value, "library")
            && has_number(value, 1, 1_125_899_906_842_624, "capacity")
            && state_at(value).is_some()
    }

    fn of(alloc: Global, value: &Value) -> Result<Tape, NoMemory> {
        let vid = text(alloc, value, "vid")?;
        let pool = text(alloc, value, "pool")?;
        let library = text(alloc, value, "library")?;
        Ok(Tape {
            vid,
            pool,
            library,
            capacity: number(value, "capacity"),
            state: state_at(value).unwrap_or(TapeState::Active),
        })
    }
}

impl Element for Drive {
    ghost is_element = { said.tells_drive };

    ghost element_of = { said.drive_told };

    fn is(value: &Value) -> bool {
        is_text(value, "name") && is_text(value, "library")
    }

    fn of(alloc: Global, value: &Value) -> Result<Drive, NoMemory> {
        let name = text(alloc, value, "name")?;
        let library = text(alloc, value, "library")?;
        Ok(Drive { name, library })
    }
}

// Whether a call is a read.
fn is_read(call: CallKind) -> bool
    ensures { result ≡ form.is_read call }
{
    match call {
        CallKind::Read => true,
        CallKind::Load | CallKind::Write | CallKind::Flush | CallKind::Unload => false,
    }
}

// A planned failure's call, the first where the member is none.
fn call(value: &Value) -> CallKind
    ensures { result ≡ said.call (view value.now) }
{
    call_at(value).unwrap_or(CallKind::Load)
}

// Whether bytes are altered, false where the member is absent or says neither.
fn alter(value: &Value) -> bool
    ensures { result ≡ said.alter (view value.now) }
{
    alter_at(value).unwrap_or(false)
}

impl Element for Failure {
    ghost is_element = { said.tells_failure };

    ghost element_of = { said.failure_told };

    fn is(value: &Value) -> bool {
        is_text(value, "drive")
            && call_at(value).is_some()
            && has_number(value, 1, 4_294_967_295, "number")
            && alter_at(value).is_some()
            && (!alter(value) || is_read(call(value)))
    }

    fn of(alloc: Global, value: &Value) -> Result<Failure, NoMemory> {
        let drive = text(alloc, value, "drive")?;
        Ok(Failure {
            drive,
            call: call(value),
            number: small(value, 4_294_967_295, "number"),
            alter: alter(value),
        })
    }
}
