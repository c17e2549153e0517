// Parts of byte strings.
ghost use Rattle.std.specs.Prelude.{◌≡◌, ◌≢◌, ◌≤◌, ℕ, MatchOption, IsTrue, ◌↔◌};
ghost use Rattle.std.specs.Fmt.{decimal};
ghost use Rattle.cta_site.specs.Bytes.{Without};
ghost use Rattle.replay.specs.Bytes.{IsPlain, then_byte};

// The part before the first such byte, and what stands behind that byte.
pub(crate) fn first_part(bytes: &[u8], end: u8) -> Option<(&[u8], &[u8])>
    ensures { MatchOption result (Without end bytes.now)
        (λ parts. Without end parts.0.now × (bytes.now ≡ then_byte end parts.0.now parts.1.now)) }
{
    for (i, b) in bytes.iter().enumerate() {
        if *b == end {
            return Some((&bytes[..i], &bytes[i + 1..]));
        }
    }
    None
}

// That digits have no sign and no leading zero.
fn is_plain(bytes: &[u8]) -> bool
    ensures { IsTrue result ↔ IsPlain bytes.now }
{
    !matches!(bytes, [b'+', ..] | [b'0', _, ..])
}

// The number of at most so much that these digits spell, with no sign and no leading zero.
pub(crate) fn number_of(bytes: &[u8], most: u64) -> Option<u64>
    ensures { MatchOption result ((n : ℕ) → n ≤ most → decimal n ≢ bytes.now)
        (λ n. (n ≤ most) × (decimal n ≡ bytes.now)) }
{
    if !is_plain(bytes) {
        return None;
    }
    let text = match str::from_utf8(bytes) {
        Ok(text) => text,
        Err(_) => return None,
    };
    match text.parse::<u64>() {
        Ok(n) if n <= most => Some(n),
        _ => None,
    }
}
