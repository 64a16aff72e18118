// The request line in what a client sent.
ghost use Rattle.std.specs.Prelude.{◌≡◌, take, drop};
ghost use Rattle.head_reader.specs.RequestHead.{leading_crlf};
ghost use Rattle.log_line.specs.Requests.{request_line, is_head_only};

use head_lines::first_line;

// Of a longer request line so many bytes are told.
const LONGEST: usize = 8_192;

// The bytes without one CRLF before a head (RFC 9112 2.2).
fn after_crlf(bytes: &[u8]) -> &[u8]
    ensures { result.now ≡ drop (leading_crlf bytes.now) bytes.now }
{
    match bytes {
        [b'\r', b'\n', rest @ ..] => rest,
        _ => bytes,
    }
}

fn front(line: &[u8], most: usize) -> &[u8]
    ensures { result.now ≡ take most line.now }
{
    if line.len() <= most {
        line
    } else {
        &line[..most]
    }
}

/// The request line at the front of the bytes, without its end: up to the first LF, or all of them where there is none,
/// and at most 8,192 bytes of it.
pub fn request_line(bytes: &[u8]) -> &[u8]
    ensures { result.now ≡ request_line bytes.now }
{
    front(first_line(after_crlf(bytes)), LONGEST)
}

/// Whether a reply to this request line has no body (RFC 9110 9.3.2).
pub fn is_head_only(line: &[u8]) -> bool
    ensures { result ≡ is_head_only line.now }
{
    line.starts_with(b"HEAD ")
}
