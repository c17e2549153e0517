// Ids of requests.
ghost use Rattle.std.specs.Prelude.{◌≡◌, Some};
ghost use Rattle.serde_json.specs.Data.{string};
ghost use Rattle.tape_json.specs.Reports.{id_text};
ghost use Rattle.tape_json.specs.Shown.{shown, Appends};

use crate::members::text_member;
use json::Writer;
use std::alloc::AllocError;
use uuid::Uuid;

// The UUID of the request of number 0.
const FIRST_ID: u128 = 0x0000_0000_0000_8000_8000_0000_0000_0000;

// A member with the id of the request of this number.
pub(crate) fn id_member(out: &mut Writer, name: &str, n: u32) -> Result<(), AllocError>
    ensures { Appends result out.old out.new (shown name.now (Some (string (id_text n)))) }
{
    let id = Uuid::from_u128(FIRST_ID + n as u128).hyphenated();
    let mut buffer = Uuid::encode_buffer();
    text_member(out, name, id.encode_lower(&mut buffer))
}
