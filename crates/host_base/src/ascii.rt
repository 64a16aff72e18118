// Bytes as ASCII: case, blanks, comma lists, digits. None of this takes memory.
ghost use Rattle.std.specs.Prelude.{◌≡◌, ◌-◌, ◌<◌, [], ◌∷◌, length, Some, None, IfSome, IfNone, if◌then◌else◌, position};
ghost use Rattle.std.specs.List.{list_any, slice_split};
ghost use Rattle.std.specs.Char.{digit_value, is_ascii_digit, is_ascii_hexdigit};
ghost use Rattle.std.specs.Str.{str_eq_ignore_ascii_case};
ghost use Rattle.httparse.specs.Grammar.{is_ows, trim_ows, skip_ows};
ghost use Rattle.host_base.specs.Ascii.{comma_words, is_comma, is_listed_as, skip_end};

/// Whether two words are the same without regard to ASCII case, as names of fields and words of
/// their lists are compared (RFC 9110 5.1 and 5.6.1).
pub fn is_same_word(a: &[u8], b: &[u8]) -> bool
    ensures { result ≡ str_eq_ignore_ascii_case a.now b.now }
{
    a.eq_ignore_ascii_case(b)
}

fn is_blank(byte: u8) -> bool
    ensures { result ≡ is_ows byte }
{
    byte == b' ' || byte == b'\t'
}

/// The bytes without spaces and tabs at either end (OWS of RFC 9110 5.6.3).
#[tactic(auto, unfolding(httparse::specs::Grammar::trim_ows))]
pub fn trim(bytes: &[u8]) -> &[u8]
    ensures { result.now ≡ trim_ows bytes.now }
{
    trim_end(trim_start(bytes))
}

fn trim_start(bytes: &[u8]) -> &[u8]
    ensures { result.now ≡ skip_ows bytes.now }
{
    let mut bytes = bytes;
    while let [first, rest @ ..] = bytes {
        if !is_blank(*first) {
            break;
        }
        bytes = rest;
    }
    bytes
}

fn trim_end(bytes: &[u8]) -> &[u8]
    ensures { result.now ≡ skip_end bytes.now }
{
    let mut bytes = bytes;
    while let [rest @ .., last] = bytes {
        if !is_blank(*last) {
            break;
        }
        bytes = rest;
    }
    bytes
}

// Whether a part of a comma list is the word, once its blanks are dropped.
fn is_listed(word: &[u8], part: &[u8]) -> bool
    ensures { result ≡ is_listed_as word.now part.now }
{
    let trimmed = trim(part);
    !trimmed.is_empty() && is_same_word(word, trimmed)
}

// Where the first comma stands.
fn comma_at(value: &[u8]) -> Option<usize>
    ensures { result ≡ position is_comma value.now }
{
    value.iter().position(|byte| *byte == b',')
}

// The part before the first comma, and what follows it.
fn cut_at_comma(value: &[u8]) -> Option<(&[u8], &[u8])>
    ensures alone { IfNone result (slice_split is_comma value.now ≡ value.now ∷ []) }
    ensures parts { IfSome result (λ cut. slice_split is_comma value.now ≡ cut.0.now ∷ slice_split is_comma cut.1.now) }
    ensures shorter { IfSome result (λ cut. length cut.1.now < length value.now) }
{
    match comma_at(value) {
        Some(at) => Some((&value[..at], &value[at + 1..])),
        None => None,
    }
}

// Whether a part between commas is the word.
fn has_part(value: &[u8], word: &[u8]) -> bool
    ensures { result ≡ list_any (is_listed_as word.now) (slice_split is_comma value.now) }
{
    let mut rest = value;
    while let Some((part, more)) = cut_at_comma(rest) {
        if is_listed(word, part) {
            return true;
        }
        rest = more;
    }
    is_listed(word, rest)
}

/// Whether a comma list has a word, without regard to ASCII case (RFC 9110 5.6.1).
pub fn has_comma_word(value: &[u8], word: &[u8]) -> bool
    ensures { result ≡ list_any (str_eq_ignore_ascii_case word.now) (comma_words value.now) }
{
    has_part(value, word)
}

/// The value of a decimal digit.
pub fn decimal_digit(byte: u8) -> Option<u8>
    ensures { result ≡ (if is_ascii_digit byte then Some (byte - 48) else None) }
{
    if byte.is_ascii_digit() {
        Some(byte - b'0')
    } else {
        None
    }
}

/// The value of a hex digit, in upper or lower case.
pub fn hex_digit(byte: u8) -> Option<u8>
    ensures { result ≡ (if is_ascii_hexdigit byte then Some (digit_value byte) else None) }
{
    match byte {
        b'0'..=b'9' => Some(byte - b'0'),
        b'A'..=b'F' => Some(byte - b'A' + 10),
        b'a'..=b'f' => Some(byte - b'a' + 10),
        _ => None,
    }
}
