// Ids of requests.
ghost use Rattle.std.specs.Prelude.{◌≡◌, ◌++◌, OnOk, string_bytes};
ghost use Rattle.uuid.specs.Text.{parsed};
ghost use Rattle.tape_json.specs.Reports.{id_text};
ghost use Rattle.tape_routes.specs.Parameters.{numbered, number_of_id, request_number};

use cta_site::NoMemory;
use std::str;
use uuid::Uuid;

// The UUID of the request of number 0.
const FIRST_ID: u128 = 0x0000_0000_0000_8000_8000_0000_0000_0000;

// The number of the request whose UUID is this number.
fn numbered(id: u128) -> u32
    ensures { result ≡ numbered id }
{
    if id >= FIRST_ID && id - FIRST_ID < 0x1_0000_0000 {
        (id - FIRST_ID) as u32
    } else {
        0
    }
}

// The number of the request that a text names.
fn id_number(text: &str) -> u32
    ensures { result ≡ number_of_id (parsed text.now) }
{
    match Uuid::parse_str(text) {
        Ok(id) => numbered(id.as_u128()),
        Err(_) => 0,
    }
}

// The number of the request that these bytes name, 0 where they name none.
pub(crate) fn request_number(text: &[u8]) -> u32
    ensures { result ≡ request_number text.now }
{
    match str::from_utf8(text) {
        Ok(text) => id_number(text),
        Err(_) => 0,
    }
}

// Appends the id of a stage request.
pub(crate) fn push_id(out: &mut String, id: u32) -> Result<(), NoMemory>
    ensures { OnOk result (string_bytes out.new ≡ string_bytes out.old ++ id_text id) }
{
    let id = Uuid::from_u128(FIRST_ID + id as u128).hyphenated();
    let mut buffer = Uuid::encode_buffer();
    out.push_str(id.encode_lower(&mut buffer))?;
    Ok(())
}
