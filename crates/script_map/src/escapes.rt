// Percent-encoded bytes (RFC 3986 2.1). None of this takes memory.
ghost use Rattle.std.specs.Prelude.{◌≡◌};
ghost use Rattle.script_map.specs.Escapes.{begins_with_pair, is_hex_pair, has_whole_escapes, is_hidden_pair, has_hidden_escape};

// Whether the bytes begin with two hex digits.
fn begins_with_hex_pair(bytes: &[u8]) -> bool
    ensures { result ≡ begins_with_pair is_hex_pair bytes.now }
{
    match bytes {
        [high, low, ..] => high.is_ascii_hexdigit() && low.is_ascii_hexdigit(),
        _ => false,
    }
}

/// Whether two hex digits follow each `%`.
pub fn has_whole_escapes(bytes: &[u8]) -> bool
    ensures { result ≡ has_whole_escapes bytes.now }
{
    let mut rest = bytes;
    while let [first, more @ ..] = rest {
        if *first == b'%' && !begins_with_hex_pair(more) {
            return false;
        }
        rest = more;
    }
    true
}

// Whether the bytes begin with the digits of an escape for a slash or for NUL.
fn begins_with_hidden_pair(bytes: &[u8]) -> bool
    ensures { result ≡ begins_with_pair is_hidden_pair bytes.now }
{
    match bytes {
        [high, low, ..] => {
            (*high == b'2' && (*low == b'F' || *low == b'f')) || (*high == b'0' && *low == b'0')
        }
        _ => false,
    }
}

/// Whether an escape stands for a slash or for NUL.
pub fn has_hidden_escape(bytes: &[u8]) -> bool
    ensures { result ≡ has_hidden_escape bytes.now }
{
    let mut rest = bytes;
    while let [first, more @ ..] = rest {
        if *first == b'%' && begins_with_hidden_pair(more) {
            return true;
        }
        rest = more;
    }
    false
}
