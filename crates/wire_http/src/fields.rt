// What stands in the fields of a head, by name.
ghost use Rattle.std.specs.Prelude.{◌≡◌, true, length, map, All};
ghost use Rattle.std.specs.List.{list_all, list_any};
ghost use Rattle.std.specs.Char.{is_ascii_digit};
ghost use Rattle.std.specs.Str.Parse.{digits_value};
ghost use Rattle.httparse.specs.Spans.{IsHeaderWithin, header_bytes};
ghost use Rattle.wire_http.specs.Fields.{values, first_of, is_word, is_length, lengths, number};

use httparse::spans::HeaderSpan;

// Whether two words are one, in any letter case.
#[tactic(auto, unfolding(crate::specs::Fields::is_word))]
pub(crate) fn is_word(word: &[u8], text: &[u8]) -> bool
    ensures { result ≡ is_word word.now text.now }
{
    text.eq_ignore_ascii_case(word)
}

// How many fields have that name.
pub(crate) fn count_of(buf: &[u8], headers: &[HeaderSpan], name: &[u8]) -> usize
    requires { All (IsHeaderWithin (length buf.now)) headers.now }
    ensures { result ≡ length (values name.now (map (header_bytes buf.now) headers.now)) }
{
    let mut count = 0;
    for header in headers {
        if is_word(name, header.name.of(buf)) {
            count += 1;
        }
    }
    count
}

// The value of the first field of that name, empty where there is none.
pub(crate) fn first_of<'a>(buf: &'a [u8], headers: &[HeaderSpan], name: &[u8]) -> &'a [u8]
    requires { All (IsHeaderWithin (length buf.now)) headers.now }
    ensures { result.now ≡ first_of (values name.now (map (header_bytes buf.now) headers.now)) }
{
    for header in headers {
        if is_word(name, header.name.of(buf)) {
            return header.value.of(buf);
        }
    }
    &[]
}

// Whether each field of that name has that word as its value.
pub(crate) fn all_are(buf: &[u8], headers: &[HeaderSpan], name: &[u8], word: &[u8]) -> bool
    requires { All (IsHeaderWithin (length buf.now)) headers.now }
    ensures { result ≡ list_all (is_word word.now) (values name.now (map (header_bytes buf.now) headers.now)) }
{
    for header in headers {
        if is_word(name, header.name.of(buf)) && !is_word(word, header.value.of(buf)) {
            return false;
        }
    }
    true
}

// Whether a field of that name has that word as its value.
pub(crate) fn any_is(buf: &[u8], headers: &[HeaderSpan], name: &[u8], word: &[u8]) -> bool
    requires { All (IsHeaderWithin (length buf.now)) headers.now }
    ensures { result ≡ list_any (is_word word.now) (values name.now (map (header_bytes buf.now) headers.now)) }
{
    for header in headers {
        if is_word(name, header.name.of(buf)) && is_word(word, header.value.of(buf)) {
            return true;
        }
    }
    false
}

fn all_digits(text: &[u8]) -> bool
    ensures { result ≡ list_all is_ascii_digit text.now }
{
    text.iter().all(|b| b.is_ascii_digit())
}

// Whether a value is 1 to 19 digits.
#[tactic(auto, unfolding(crate::specs::Fields::is_length))]
fn is_length(text: &[u8]) -> bool
    ensures { result ≡ is_length text.now }
{
    text.len() > 0 && text.len() <= 19 && all_digits(text)
}

// The number that 1 to 19 digits write.
fn number_at(text: &[u8]) -> u64
    requires { is_length text.now ≡ true }
    ensures { result ≡ digits_value 10 text.now }
{
    let mut n: u64 = 0;
    for b in text {
        n = n * 10 + u64::from(*b - b'0');
    }
    n
}

// Whether each stated length is 1 to 19 digits.
pub(crate) fn all_lengths(buf: &[u8], headers: &[HeaderSpan]) -> bool
    requires { All (IsHeaderWithin (length buf.now)) headers.now }
    ensures { result ≡ list_all is_length (lengths (map (header_bytes buf.now) headers.now)) }
{
    for header in headers {
        if is_word(b"content-length", header.name.of(buf)) && !is_length(header.value.of(buf)) {
            return false;
        }
    }
    true
}

// The first stated length, 0 where there is none.
pub(crate) fn stated_length(buf: &[u8], headers: &[HeaderSpan]) -> u64
    requires within { All (IsHeaderWithin (length buf.now)) headers.now }
    requires lengths { list_all is_length (lengths (map (header_bytes buf.now) headers.now)) ≡ true }
    ensures { result ≡ number (lengths (map (header_bytes buf.now) headers.now)) }
{
    for header in headers {
        if is_word(b"content-length", header.name.of(buf)) {
            return number_at(header.value.of(buf));
        }
    }
    0
}
