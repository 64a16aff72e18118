// What the first bytes that were written of a reply tell of it.
ghost use Rattle.std.specs.Prelude.{◌≡◌, drop, take, true, IfSome};
ghost use Rattle.std.specs.Option.{option_copied};
ghost use Rattle.log_line.specs.Replies.{after_text, body_of, is_digit, is_full, is_said, number_of, said_by, status_of};

use head_lines::Search;
use host_base::Cause;

// Where the status code stands behind the version.
fn code_of(reply: &[u8]) -> &[u8]
    ensures { result.now ≡ take 3 (drop 9 reply.now) }
{
    if reply.len() < 9 {
        &[]
    } else if reply.len() < 12 {
        &reply[9..]
    } else {
        &reply[9..12]
    }
}

fn number_of(code: &[u8]) -> Option<u16>
    ensures { result ≡ number_of code.now }
{
    match code {
        [a, b, c] if is_digit(*a) && is_digit(*b) && is_digit(*c) => {
            Some(100 * u16::from(*a - b'0') + 10 * u16::from(*b - b'0') + u16::from(*c - b'0'))
        }
        _ => None,
    }
}

/// The status code of a status line at the front of the bytes (RFC 9112 4), where one stands there.
pub fn status_of(reply: &[u8]) -> Option<u16>
    ensures { result ≡ status_of reply.now }
{
    if reply.starts_with(b"HTTP/") {
        number_of(code_of(reply))
    } else {
        None
    }
}

fn is_digit(byte: u8) -> bool
    ensures { result ≡ is_digit byte }
{
    byte.is_ascii_digit()
}

// What follows the first empty line.
fn body_of(reply: &[u8]) -> &[u8]
    ensures { result.now ≡ body_of reply.now }
{
    match Search::new().front_end(reply) {
        Some(len) => behind(reply, len),
        None => &[],
    }
}

fn behind(bytes: &[u8], count: usize) -> &[u8]
    ensures { result.now ≡ drop count bytes.now }
{
    if count < bytes.len() {
        &bytes[count..]
    } else {
        &[]
    }
}

fn is_full(cause: Cause) -> bool
    ensures { result ≡ is_full cause }
{
    matches!(cause, Cause::Full { .. })
}

// What follows the text at the front of the body, where it stands there.
fn after_text<'b>(text: &[u8], body: &'b [u8]) -> Option<&'b [u8]>
    ensures { option_copied result ≡ after_text text.now body.now }
{
    body.strip_prefix(text)
}

// Whether the body is what the host says for the cause.
fn is_said(cause: Cause, body: &[u8]) -> bool
    ensures { result ≡ is_said cause body.now }
{
    match after_text(cause.text().as_bytes(), body) {
        Some(rest) => is_full(cause) || rest == b"\n".as_slice(),
        None => false,
    }
}

const CAUSES: [Cause; 37] = [
    Cause::BadHead,
    Cause::Incomplete,
    Cause::BadTarget,
    Cause::BadHost,
    Cause::BadFraming,
    Cause::BadChunk,
    Cause::BadPath,
    Cause::BadHandshake,
    Cause::BadScgi,
    Cause::BadParams,
    Cause::BadRecord,
    Cause::OriginRefused,
    Cause::NoScript,
    Cause::IdleTime,
    Cause::BodyTooLong,
    Cause::TargetTooLong,
    Cause::BadExpect,
    Cause::UnknownHost,
    Cause::UpgradeNeeded,
    Cause::HeadTooLong,
    Cause::TooManyFields,
    Cause::RedirectLoop,
    Cause::NotServed,
    Cause::CodingUnknown,
    Cause::StartFailed,
    Cause::OutputBroken,
    Cause::OutputTooLarge,
    Cause::NoOutput,
    Cause::HeaderIncomplete,
    Cause::HeaderTooLarge,
    Cause::HeaderLine,
    Cause::HeaderRepeated,
    Cause::BadStatus,
    Cause::BadLocation,
    Cause::NoneOfThree,
    Cause::Full { seen: 0 },
    Cause::RunTime,
];

/// The cause for which the host gives a reply of this status that begins with these bytes, where it gives one.
pub fn own_cause(status: u16, reply: &[u8]) -> Option<Cause>
    ensures { IfSome result (λ cause. said_by cause status reply.now ≡ true) }
{
    let body = body_of(reply);
    for cause in &CAUSES {
        if cause.status() == status && is_said(*cause, body) {
            return Some(*cause);
        }
    }
    None
}
