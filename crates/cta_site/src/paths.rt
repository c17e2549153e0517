// Whether a text is a path.
ghost use Rattle.std.specs.Prelude.{◌≡◌, ◌++◌, ◌∷◌, MatchOption};
ghost use Rattle.std.specs.List.{list_all};
ghost use Rattle.cta_site.specs.Paths.{is_part, is_path, is_path_byte, parts_of};
ghost use Rattle.cta_site.specs.Bytes.{Without};
ghost use Rattle.cta_site.specs.Paths.{are_parts};

// Whether a byte may stand in a path.
fn is_path_byte(byte: u8) -> bool
    ensures { result ≡ is_path_byte byte }
{
    byte >= 0x20 && byte != 0x7F
}

// Whether all bytes may stand in a path.
fn are_path_bytes(bytes: &[u8]) -> bool
    ensures { result ≡ list_all is_path_byte bytes.now }
{
    bytes.iter().all(|byte| is_path_byte(*byte))
}

// Whether a text between slashes may stand in a path.
fn is_part(part: &[u8]) -> bool
    ensures { result ≡ is_part part.now }
{
    part != b"".as_slice() && part != b".".as_slice() && part != b"..".as_slice()
}

// The bytes before the first slash, and those behind it.
fn cut_at_slash(bytes: &[u8]) -> Option<(&[u8], &[u8])>
    ensures { MatchOption result (Without 47 bytes.now)
        (λ cut. Without 47 cut.0.now × (bytes.now ≡ cut.0.now ++ 47 ∷ cut.1.now)) }
{
    for (place, byte) in bytes.iter().enumerate() {
        if *byte == b'/' {
            return Some((&bytes[..place], &bytes[place + 1..]));
        }
    }
    None
}

// Whether each of the parts between slashes may stand in a path.
#[tactic(auto, using(crate::proofs::Parts::part_by_part))]
fn are_parts(bytes: &[u8]) -> bool
    ensures { result ≡ are_parts bytes.now }
{
    match cut_at_slash(bytes) {
        Some((part, rest)) => is_part(part) && are_parts(rest),
        None => is_part(bytes),
    }
}

/// Whether a text is a path (this project's own): it begins with `/`, has 2 to 1,024 bytes, none below 0x20 and none 0x7F,
/// and no part between its slashes is empty, `.` or `..`. Its cost is the length of the text.
pub fn is_path(text: &str) -> bool
    ensures { result ≡ is_path text.now }
{
    match text.as_bytes() {
        [b'/', rest @ ..] => {
            rest.len() >= 1 && rest.len() <= 1023 && are_path_bytes(rest) && are_parts(rest)
        }
        _ => false,
    }
}
