// The test of a word.
ghost use Rattle.std.specs.Prelude.{IsTrue, ◌↔◌, string_bytes};
ghost use Rattle.std.specs.List.{All};
ghost use Rattle.cta_words.specs.Words.{IsPlainWord};

// That a word is not empty and begins with no `-`.
fn is_plain_word(word: &[u8]) -> bool
    ensures { IsTrue result ↔ IsPlainWord word.now }
{
    match word {
        [] => false,
        [first, ..] => *first != b'-',
    }
}

// That each word is not empty and begins with no `-`.
pub(crate) fn are_plain(words: &[String]) -> bool
    ensures { IsTrue result ↔ All (λ word. IsPlainWord (string_bytes word)) words.now }
{
    words.iter().all(|word| is_plain_word(word.as_bytes()))
}
