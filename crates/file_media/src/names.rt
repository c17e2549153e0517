// Names of records.
ghost use Rattle.std.specs.Prelude.{◌≡◌, ◌≢◌, ◌≤◌, ℕ, List, IsTrue, MatchOption, ◌↔◌, take, length};
ghost use Rattle.std.specs.Fmt.{decimal};
ghost use Rattle.file_media.specs.Names.{IsPlain, LockIsApart, NamesHaveNoSlash, PartsAreApart, RecordsAreApart, greatest_fseq, record_name};

/// That one name of the folder is of one record, of one tape and one fSeq; that the names of what isn't whole and of the lock
/// `cta.lock` are of none, since they end with no number; and that a VID without a `/` makes names without one. A law, which
/// does nothing when it runs. This project's own.
pub fn names_are_apart()
    ensures records { RecordsAreApart }
    ensures parts { PartsAreApart }
    ensures lock { LockIsApart }
    ensures slash { NamesHaveNoSlash }
{}

// That digits have no sign and no leading zero.
fn is_plain(bytes: &[u8]) -> bool
    ensures { IsTrue result ↔ IsPlain bytes.now }
{
    !matches!(bytes, [b'+', ..] | [b'0', _, ..])
}

// The number of at most 2^32 - 1 that these digits spell, with no sign and no leading zero.
fn number_of(bytes: &[u8]) -> Option<u32>
    ensures { MatchOption result ((n : ℕ) → n ≤ greatest_fseq → decimal n ≢ bytes.now)
        (λ n. (n ≤ greatest_fseq) × (decimal n ≡ bytes.now)) }
{
    if !is_plain(bytes) {
        return None;
    }
    let text = match str::from_utf8(bytes) {
        Ok(text) => text,
        Err(_) => return None,
    };
    match text.parse::<u32>() {
        Ok(n) => Some(n),
        Err(_) => None,
    }
}

// How long the VID is in a name of a record, and the record's fSeq.
pub(crate) fn parts_of(name: &[u8]) -> Option<(usize, u32)>
    ensures { MatchOption result ((vid : List ℕ) (fseq : ℕ) → fseq ≤ greatest_fseq → record_name vid fseq ≢ name.now)
        (λ p. (p.0 ≤ length name.now) × (p.1 ≤ greatest_fseq) × (name.now ≡ record_name (take p.0 name.now) p.1)) }
{
    for (i, b) in name.iter().enumerate() {
        if *b == b'.' {
            if let Some(fseq) = number_of(&name[i + 1..]) {
                return Some((i, fseq));
            }
        }
    }
    None
}
