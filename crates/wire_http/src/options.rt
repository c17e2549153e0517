// Values that are lists of options.
ghost use Rattle.std.specs.Prelude.{◌≡◌, length, map, All, reverse};
ghost use Rattle.std.specs.List.{list_any};
ghost use Rattle.httparse.specs.Grammar.{skip_ows, trim_ows};
ghost use Rattle.httparse.specs.Spans.{IsHeaderWithin, header_bytes};
ghost use Rattle.wire_http.specs.Fields.{values};
ghost use Rattle.wire_http.specs.Options.{has_option};

use crate::fields::is_word;
use httparse::is_space_or_tab;
use httparse::spans::HeaderSpan;

fn trim_start(mut text: &[u8]) -> &[u8]
    ensures { result.now ≡ skip_ows text.now }
{
    while let [first, rest @ ..] = text
        && is_space_or_tab(*first)
    {
        text = rest;
    }
    text
}

fn trim_end(mut text: &[u8]) -> &[u8]
    ensures { result.now ≡ reverse (skip_ows (reverse text.now)) }
{
    while let [rest @ .., last] = text
        && is_space_or_tab(*last)
    {
        text = rest;
    }
    text
}

fn trimmed(text: &[u8]) -> &[u8]
    ensures { result.now ≡ trim_ows text.now }
{
    trim_end(trim_start(text))
}

// Whether that word is one of the options of a value.
fn has_option(word: &[u8], value: &[u8]) -> bool
    ensures { result ≡ has_option word.now value.now }
{
    let mut rest = value;
    'options: loop {
        match rest.iter().position(|b| *b == b',') {
            Some(comma) => {
                if is_word(word, trimmed(&rest[..comma])) {
                    return true;
                }
                rest = &rest[comma + 1..];
            }
            None => return is_word(word, trimmed(rest)),
        }
    }
}

// Whether that word is one of the options of a field of that name.
pub(crate) fn any_has(buf: &[u8], headers: &[HeaderSpan], name: &[u8], word: &[u8]) -> bool
    requires { All (IsHeaderWithin (length buf.now)) headers.now }
    ensures { result ≡ list_any (has_option word.now) (values name.now (map (header_bytes buf.now) headers.now)) }
{
    for header in headers {
        if is_word(name, header.name.of(buf)) && has_option(word, header.value.of(buf)) {
            return true;
        }
    }
    false
}
