// Whether bytes spell a name, or an address.
ghost use Rattle.std.specs.Prelude.{◌≡◌};
ghost use Rattle.std.specs.List.{list_all};
ghost use Rattle.cta_site.specs.Forms as said;
ghost use Rattle.cta_site.specs.Names.{is_name_byte};

use crate::items::is_within;

// Whether a byte may stand in a name.
fn is_name_byte(byte: u8) -> bool
    ensures { result ≡ is_name_byte byte }
{
    byte.is_ascii_alphanumeric() || byte == b'_' || byte == b'-' || byte == b'.'
}

// Whether the bytes may stand in a name.
fn are_name_bytes(text: &[u8]) -> bool
    ensures { result ≡ list_all is_name_byte text.now }
{
    text.iter().all(|b| is_name_byte(*b))
}

/// Whether a text has the form of a name (this project's own): 1 to 64 bytes, each an ASCII letter, a digit, `_`, `-` or
/// `.`. Its cost is the length of the text.
pub fn is_name(text: &[u8]) -> bool
    ensures { result ≡ said.is_name text.now }
{
    is_within(1, 64, text.len() as u64) && are_name_bytes(text)
}

/// Whether the bytes are printable ASCII, 0x21 to 0x7E. Its cost is their number.
pub fn are_address_bytes(text: &[u8]) -> bool
    ensures { result ≡ list_all said.is_address_byte text.now }
{
    text.iter().all(|b| is_within(33, 126, u64::from(*b)))
}
