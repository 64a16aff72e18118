// Which texts may stand at a key. None of this takes memory.
ghost use Rattle.std.specs.Prelude.{◌≡◌, ◌==◌, length, count_by};
ghost use Rattle.std.specs.List.{list_all, list_any, slice_split};
ghost use Rattle.script_map.specs.DotSegments.{is_slash};
ghost use Rattle.site_file.specs.Ranges.{is_host_name, is_period, is_octet, is_address, has_nul, is_program, is_folder, is_segment, is_script_path, is_kind, kind_named, word_of, are_1_to_100, is_extension_byte, is_extension, is_shown_byte, is_media_type};

use host_base::ScriptKind;
use script_map::{is_dot_segment, is_host};

/// Whether a text may be the name of a host (RFC 3986 3.2.2): it is a host, and not empty.
pub fn is_host_name(text: &str) -> bool
    ensures { result ≡ is_host_name text.now }
{
    is_host(text.as_bytes()) && !text.is_empty()
}

// Whether the bytes are a number from 0 to 255 without leading zeros (dec-octet of RFC 3986 3.2.2).
fn is_octet(part: &[u8]) -> bool
    ensures { result ≡ is_octet part.now }
{
    match part {
        [a] => a.is_ascii_digit(),
        [a, b] => (b'1'..=b'9').contains(a) && b.is_ascii_digit(),
        [a, b, c] => {
            (*a == b'1' && b.is_ascii_digit() && c.is_ascii_digit())
                || (*a == b'2' && (b'0'..=b'4').contains(b) && c.is_ascii_digit())
                || (*a == b'2' && *b == b'5' && (b'0'..=b'5').contains(c))
        }
        _ => false,
    }
}

fn period_count(text: &[u8]) -> usize
    ensures { result ≡ count_by is_period text.now }
{
    text.iter().filter(|byte| **byte == b'.').count()
}

fn are_octets(text: &[u8]) -> bool
    ensures { result ≡ list_all is_octet (slice_split is_period text.now) }
{
    text.split(|byte| *byte == b'.').all(is_octet)
}

/// Whether a text is an IPv4 address (IPv4address of RFC 3986 3.2.2).
pub fn is_address(text: &str) -> bool
    ensures { result ≡ is_address text.now }
{
    period_count(text.as_bytes()) == 3 && are_octets(text.as_bytes())
}

fn has_nul(text: &str) -> bool
    ensures { result ≡ has_nul text.now }
{
    text.as_bytes().contains(&0)
}

/// Whether a text names a program's file: it begins with `/`, doesn't end with `/`, and has no NUL.
pub fn is_program(text: &str) -> bool
    ensures { result ≡ is_program text.now }
{
    let bytes = text.as_bytes();
    bytes.starts_with(b"/".as_slice()) && !bytes.ends_with(b"/".as_slice()) && !has_nul(text)
}

/// Whether a text names a folder other than `/`: as a program's file, with at least 2 bytes.
pub fn is_folder(text: &str) -> bool
    ensures { result ≡ is_folder text.now }
{
    text.len() >= 2 && is_program(text)
}

fn is_segment(segment: &[u8]) -> bool
    ensures { result ≡ is_segment segment.now }
{
    !segment.is_empty() && !is_dot_segment(segment)
}

fn are_segments(path: &[u8]) -> bool
    ensures { result ≡ list_all is_segment (slice_split is_slash path.now) }
{
    path.split(|byte| *byte == b'/').all(is_segment)
}

/// Whether a script may be served under a path: it begins with `/`, none of its segments is empty, `.`
/// or `..`, and it has no NUL.
pub fn is_script_path(text: &str) -> bool
    ensures { result ≡ is_script_path text.now }
{
    match text.as_bytes().strip_prefix(b"/".as_slice()) {
        Some(rest) => are_segments(rest) && !has_nul(text),
        None => false,
    }
}

fn is_kind(word: &str) -> bool
    ensures { result ≡ is_kind word.now }
{
    word == "cgi" || word == "nph" || word == "websocket"
}

/// The kind that a word names; a word that names none is taken for `cgi`.
pub fn kind_named(word: &str) -> ScriptKind
    ensures { result ≡ kind_named word.now }
{
    if word == "websocket" {
        ScriptKind::WebSocket
    } else if word == "nph" {
        ScriptKind::Nph
    } else {
        ScriptKind::Cgi
    }
}

/// The word that names a kind.
pub fn word_of(kind: ScriptKind) -> &'static str
    ensures { result.now ≡ word_of kind }
{
    match kind {
        ScriptKind::Cgi => "cgi",
        ScriptKind::Nph => "nph",
        ScriptKind::WebSocket => "websocket",
    }
}

fn are_1_to_100(text: &str) -> bool
    ensures { result ≡ are_1_to_100 text.now }
{
    !text.is_empty() && text.len() <= 100
}

fn is_extension_byte(byte: u8) -> bool
    ensures { result ≡ is_extension_byte byte }
{
    byte.is_ascii_lowercase() || byte.is_ascii_digit()
}

fn are_extension_bytes(bytes: &[u8]) -> bool
    ensures { result ≡ list_all is_extension_byte bytes.now }
{
    bytes.iter().all(|byte| is_extension_byte(*byte))
}

/// Whether a text may be the extension of a file name: 1 to 100 lower-case letters and digits.
pub fn is_extension(text: &str) -> bool
    ensures { result ≡ is_extension text.now }
{
    are_1_to_100(text) && are_extension_bytes(text.as_bytes())
}

fn is_shown_byte(byte: u8) -> bool
    ensures { result ≡ is_shown_byte byte }
{
    (0x21..=0x7e).contains(&byte)
}

fn are_shown_bytes(bytes: &[u8]) -> bool
    ensures { result ≡ list_all is_shown_byte bytes.now }
{
    bytes.iter().all(|byte| is_shown_byte(*byte))
}

/// Whether a text may be a media type: 1 to 100 bytes from 0x21 to 0x7E.
pub fn is_media_type(text: &str) -> bool
    ensures { result ≡ is_media_type text.now }
{
    are_1_to_100(text) && are_shown_bytes(text.as_bytes())
}

/// The texts that may stand at a key.
#[derive(Clone, Copy)]
pub enum TextRange {
    HostName,
    Address,
    Folder,
    ScriptPath,
    Program,
    Kind,
}

impl TextRange {
    ghost use Rattle.site_file.specs.TextRanges.{admits};

    pub fn admits(self, text: &str) -> bool
        ensures { result ≡ admits self text.now }
    {
        match self {
            TextRange::HostName => is_host_name(text),
            TextRange::Address => is_address(text),
            TextRange::Folder => is_folder(text),
            TextRange::ScriptPath => is_script_path(text),
            TextRange::Program => is_program(text),
            TextRange::Kind => is_kind(text),
        }
    }
}
