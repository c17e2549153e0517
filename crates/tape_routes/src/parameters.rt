// The parameters of targets.
ghost use Rattle.std.specs.Prelude.{◌≡◌, IfOk};
ghost use Rattle.percent_encoding.specs.Percent.{percent_decode};
ghost use Rattle.tape_routes.specs.Parameters.{drive_number, tape_number, text_in};

use cta_site::{NoMemory, Text, ValidSite};
use percent_encoding::percent_decode;
use std::alloc::Global;
use std::str;

// The bytes of a parameter, percent-decoded (RFC 3986, 2.1); a `%` that begins no escape stays.
pub(crate) fn decoded(alloc: Global, parameter: &[u8]) -> Result<Vec<u8>, NoMemory>
    ensures { IfOk result (λ bytes. bytes.items ≡ percent_decode parameter.now) }
{
    let mut bytes = Vec::new(alloc);
    percent_decode(parameter).append_to(&mut bytes)?;
    Ok(bytes)
}

// The number of the drive of this name, the greatest of 32 bits where no drive has it.
pub(crate) fn drive_number(site: &ValidSite, name: &[u8]) -> u32
    ensures { result ≡ drive_number site.now name.now }
{
    site.drive_of(name).unwrap_or(u32::MAX)
}

// The number of the tape of this VID, the greatest of 32 bits where no tape has it.
pub(crate) fn tape_number(site: &ValidSite, vid: &[u8]) -> u32
    ensures { result ≡ tape_number site.now vid.now }
{
    site.tape_of(vid).unwrap_or(u32::MAX)
}

// The path that these bytes are, None where they are no text.
pub(crate) fn path_in(alloc: Global, bytes: &[u8]) -> Result<Option<Text>, NoMemory>
    ensures { IfOk result (λ path. path ≡ text_in bytes.now) }
{
    let Ok(text) = str::from_utf8(bytes) else {
        return Ok(None);
    };
    let path = String::from_str(alloc, text)?;
    Ok(Some(Text::of(path)))
}
