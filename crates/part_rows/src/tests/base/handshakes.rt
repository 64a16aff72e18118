// Requests, and what a server owes them by RFC 6455 4.2.1 and 4.2.2.
use super::super::tables::{bytes_of, is, push_field, text_of};
use super::cases::are_right_in;
use host_base::{Bytes, Cause, Fields, Framing, NoMemory, Request, Target, Texts, Version};
use std::alloc::Global;
use std::test::Fail;
use ws_handshake::{Accept, accept_text, check};

// The fields of the request that the cases change.
static FIELDS: [(&str, &str); 6] = [
    ("Host", "a"),
    ("Upgrade", "websocket"),
    ("Connection", "keep-alive, Upgrade"),
    ("Sec-WebSocket-Key", "dGhlIHNhbXBsZSBub25jZQ=="),
    ("Sec-WebSocket-Version", "13"),
    ("Origin", "http://example.com"),
];

// The accept value of the key above (RFC 6455 1.3).
const SAMPLE: &str = "s3pPLMBiTxaQ9kYGzzhZRbK+xOo=";

// A change of the request: the values that a name has in place of its own.
type Change<'a> = (&'a str, &'a [&'a str]);

fn put_all(
    alloc: Global,
    fields: &mut Fields,
    name: &str,
    values: &[&str],
) -> Result<(), NoMemory> {
    for value in values {
        push_field(alloc, fields, name.as_bytes(), value.as_bytes())?;
    }
    Ok(())
}

// The values that a name has by a change.
fn changed<'a>(changes: &[Change<'a>], name: &str) -> Option<&'a [&'a str]> {
    for (changed, values) in changes {
        if is(changed.as_bytes(), name.as_bytes()) {
            return Some(values);
        }
    }
    None
}

fn put(
    alloc: Global,
    fields: &mut Fields,
    changes: &[Change],
    name: &str,
    value: &str,
) -> Result<(), NoMemory> {
    match changed(changes, name) {
        Some(values) => put_all(alloc, fields, name, values),
        None => push_field(alloc, fields, name.as_bytes(), value.as_bytes()),
    }
}

fn fields_with(alloc: Global, changes: &[Change]) -> Result<Fields, NoMemory> {
    let mut fields = Fields::new(alloc);
    for (name, value) in FIELDS.iter() {
        put(alloc, &mut fields, changes, name, value)?;
    }
    Ok(fields)
}

fn target_of(alloc: Global) -> Result<Target, NoMemory> {
    let path = bytes_of(alloc, b"/ws")?;
    Ok(Target {
        path,
        query: None,
        host: None,
    })
}

// A method, a version and a framing.
type Start<'a> = (&'a str, Version, Framing);

fn request_of(alloc: Global, start: Start, changes: &[Change]) -> Result<Request, NoMemory> {
    Ok(Request {
        method: bytes_of(alloc, start.0.as_bytes())?,
        target: target_of(alloc)?,
        version: start.1,
        fields: fields_with(alloc, changes)?,
        framing: start.2,
        body: Bytes::new(alloc),
    })
}

fn texts_of(alloc: Global, words: &[&str]) -> Result<Texts, NoMemory> {
    let mut texts = Texts::new(alloc);
    for word in words {
        texts.push(text_of(alloc, word)?)?;
    }
    Ok(texts)
}

fn checked(request: &Request, origins: Option<&Texts>) -> Result<Accept, Cause> {
    check(request, origins)
}

fn is_accept(given: &Result<Accept, Cause>, value: &str) -> bool {
    match given {
        Ok(accept) => is(accept.value.as_slice(), value.as_bytes()),
        Err(_) => false,
    }
}

fn is_cause(given: &Result<Accept, Cause>, due: Cause) -> bool {
    match given {
        Ok(_) => false,
        Err(cause) => *cause == due,
    }
}

// Whether the check answers so, with these origins taken or, where there are none, any.
fn is_answered(request: &Request, origins: Option<&Texts>, answer: Result<&str, Cause>) -> bool {
    let given = checked(request, origins);
    match answer {
        Ok(value) => is_accept(&given, value),
        Err(due) => is_cause(&given, due),
    }
}

// What the fields say, and the answer where any origin is taken.
type ByFields = (&'static [Change<'static>], Result<&'static str, Cause>);

static BY_FIELDS: [ByFields; 38] = [
    (&[], Ok(SAMPLE)),
    // The words of lists, in any case and at any place.
    (&[("Upgrade", &["WebSocket"])], Ok(SAMPLE)),
    (&[("Upgrade", &["h2c, WEBSOCKET"])], Ok(SAMPLE)),
    (&[("Upgrade", &["h2c", "websocket"])], Ok(SAMPLE)),
    (&[("Upgrade", &["websockets"])], Err(Cause::UpgradeNeeded)),
    (&[("Upgrade", &["websocket/13"])], Err(Cause::UpgradeNeeded)),
    (&[("Upgrade", &[])], Err(Cause::UpgradeNeeded)),
    (&[("Connection", &["upgrade"])], Ok(SAMPLE)),
    (&[("Connection", &["close", "UPGRADE"])], Ok(SAMPLE)),
    (
        &[("Connection", &["keep-alive"])],
        Err(Cause::UpgradeNeeded),
    ),
    (
        &[("Connection", &["keep-alive Upgrade"])],
        Err(Cause::UpgradeNeeded),
    ),
    (&[("Connection", &[])], Err(Cause::UpgradeNeeded)),
    // The version, as it stands.
    (
        &[("Sec-WebSocket-Version", &["8"])],
        Err(Cause::UpgradeNeeded),
    ),
    (
        &[("Sec-WebSocket-Version", &[" 13"])],
        Err(Cause::UpgradeNeeded),
    ),
    (
        &[("Sec-WebSocket-Version", &["13, 8"])],
        Err(Cause::UpgradeNeeded),
    ),
    (
        &[("Sec-WebSocket-Version", &["013"])],
        Err(Cause::UpgradeNeeded),
    ),
    (
        &[("Sec-WebSocket-Version", &["13", "13"])],
        Err(Cause::UpgradeNeeded),
    ),
    (
        &[("Sec-WebSocket-Version", &["13", "8"])],
        Err(Cause::UpgradeNeeded),
    ),
    (&[("Sec-WebSocket-Version", &[])], Err(Cause::UpgradeNeeded)),
    // Keys of 16 zero bytes, of 16 bytes 255, with blanks around.
    (
        &[("Sec-WebSocket-Key", &["AAAAAAAAAAAAAAAAAAAAAA=="])],
        Ok("ICX+Yqv66kxgM0FcWaLWlFLwTAI="),
    ),
    (
        &[("Sec-WebSocket-Key", &["/////////////////////w=="])],
        Ok("XXpj4jYzLM2yUE0C7TIgMwTQh2g="),
    ),
    (
        &[("Sec-WebSocket-Key", &[" \tdGhlIHNhbXBsZSBub25jZQ== "])],
        Ok(SAMPLE),
    ),
    // Of 15 and 17 bytes, with a blank within, with broken padding, in another alphabet.
    (
        &[("Sec-WebSocket-Key", &["AAAAAAAAAAAAAAAAAAAA"])],
        Err(Cause::BadHandshake),
    ),
    (
        &[("Sec-WebSocket-Key", &["AAAAAAAAAAAAAAAAAAAAAAA="])],
        Err(Cause::BadHandshake),
    ),
    (
        &[("Sec-WebSocket-Key", &["dGhlIHNhbXBsZS Bub25jZQ=="])],
        Err(Cause::BadHandshake),
    ),
    (
        &[("Sec-WebSocket-Key", &["dGhlIHNhbXBsZSBub25jZQ"])],
        Err(Cause::BadHandshake),
    ),
    (
        &[("Sec-WebSocket-Key", &["dGhlIHNhbXBsZSBub25jZQ="])],
        Err(Cause::BadHandshake),
    ),
    (
        &[("Sec-WebSocket-Key", &["dGhlIHNhbXBsZSBub25jZQ==="])],
        Err(Cause::BadHandshake),
    ),
    (
        &[("Sec-WebSocket-Key", &["dGhlIHNhbXBsZSBub25jZR=="])],
        Err(Cause::BadHandshake),
    ),
    (
        &[("Sec-WebSocket-Key", &["_____________________w=="])],
        Err(Cause::BadHandshake),
    ),
    (&[("Sec-WebSocket-Key", &[""])], Err(Cause::BadHandshake)),
    (&[("Sec-WebSocket-Key", &[])], Err(Cause::BadHandshake)),
    (
        &[(
            "Sec-WebSocket-Key",
            &["dGhlIHNhbXBsZSBub25jZQ==", "dGhlIHNhbXBsZSBub25jZQ=="],
        )],
        Err(Cause::BadHandshake),
    ),
    // Any origin, and none.
    (&[("Origin", &[])], Ok(SAMPLE)),
    (&[("Origin", &["null", "http://a"])], Ok(SAMPLE)),
    // Two checks at once: the first gives the cause.
    (
        &[("Upgrade", &[]), ("Sec-WebSocket-Key", &["x"])],
        Err(Cause::UpgradeNeeded),
    ),
    (
        &[
            ("Sec-WebSocket-Version", &["8"]),
            ("Sec-WebSocket-Key", &[]),
        ],
        Err(Cause::UpgradeNeeded),
    ),
    (
        &[
            ("Connection", &["close"]),
            ("Sec-WebSocket-Version", &["12"]),
        ],
        Err(Cause::UpgradeNeeded),
    ),
];

const START: Start<'static> = ("GET", Version::V11, Framing::Empty);

// Whether a request is answered so where any origin is taken.
fn is_judged(
    alloc: Global,
    start: Start,
    changes: &[Change],
    answer: Result<&str, Cause>,
) -> Result<bool, NoMemory> {
    let request = request_of(alloc, start, changes)?;
    Ok(is_answered(&request, None, answer))
}

fn is_judged_by_fields(alloc: Global, (changes, answer): &ByFields) -> Result<bool, NoMemory> {
    is_judged(alloc, START, changes, *answer)
}

#[test]
fn fields_are_judged(rt: HostRuntime) -> Result<(), Fail> {
    are_right_in(&rt, rt.alloc(), &BY_FIELDS, is_judged_by_fields)
}

// Request lines and framings, and the answer.
type ByStart = (&'static str, Version, Framing, Result<&'static str, Cause>);

static BY_START: [ByStart; 8] = [
    ("GET", Version::V11, Framing::Length(0), Ok(SAMPLE)),
    (
        "GET",
        Version::V10,
        Framing::Empty,
        Err(Cause::UpgradeNeeded),
    ),
    (
        "POST",
        Version::V11,
        Framing::Empty,
        Err(Cause::UpgradeNeeded),
    ),
    (
        "HEAD",
        Version::V11,
        Framing::Empty,
        Err(Cause::UpgradeNeeded),
    ),
    (
        "get",
        Version::V11,
        Framing::Empty,
        Err(Cause::UpgradeNeeded),
    ),
    (
        "GET",
        Version::V11,
        Framing::Length(1),
        Err(Cause::BadHandshake),
    ),
    (
        "GET",
        Version::V11,
        Framing::Chunked,
        Err(Cause::BadHandshake),
    ),
    (
        "POST",
        Version::V11,
        Framing::Length(1),
        Err(Cause::UpgradeNeeded),
    ),
];

fn is_judged_by_start(
    alloc: Global,
    (method, version, framing, answer): &ByStart,
) -> Result<bool, NoMemory> {
    is_judged(alloc, (method, *version, *framing), &[], *answer)
}

#[test]
fn request_lines_and_bodies_are_judged(rt: HostRuntime) -> Result<(), Fail> {
    are_right_in(&rt, rt.alloc(), &BY_START, is_judged_by_start)
}

// What the fields say, the origins that are taken, and the answer.
type ByOrigin = (
    &'static [Change<'static>],
    &'static [&'static str],
    Result<&'static str, Cause>,
);

static BY_ORIGIN: [ByOrigin; 12] = [
    (&[], &["http://example.com"], Ok(SAMPLE)),
    (&[], &["http://a", "http://example.com"], Ok(SAMPLE)),
    (&[("Origin", &["null"])], &["null"], Ok(SAMPLE)),
    (&[], &[], Err(Cause::OriginRefused)),
    (
        &[("Origin", &[])],
        &["http://example.com"],
        Err(Cause::OriginRefused),
    ),
    (
        &[("Origin", &["http://Example.com"])],
        &["http://example.com"],
        Err(Cause::OriginRefused),
    ),
    (
        &[("Origin", &["http://example.com/"])],
        &["http://example.com"],
        Err(Cause::OriginRefused),
    ),
    (
        &[("Origin", &["http://example.co"])],
        &["http://example.com"],
        Err(Cause::OriginRefused),
    ),
    (
        &[("Origin", &["http://example.com", "http://example.com"])],
        &["http://example.com"],
        Err(Cause::OriginRefused),
    ),
    // Two checks at once: the first gives the cause.
    (
        &[("Origin", &["http://a"]), ("Sec-WebSocket-Key", &["x"])],
        &["http://example.com"],
        Err(Cause::BadHandshake),
    ),
    (
        &[("Origin", &[]), ("Sec-WebSocket-Version", &["8"])],
        &["http://example.com"],
        Err(Cause::UpgradeNeeded),
    ),
    (
        &[("Origin", &[]), ("Upgrade", &["h2c"])],
        &["http://example.com"],
        Err(Cause::UpgradeNeeded),
    ),
];

// Whether a request is answered so where these origins are taken.
fn is_judged_by_origin(
    alloc: Global,
    (changes, origins, answer): &ByOrigin,
) -> Result<bool, NoMemory> {
    let origins = texts_of(alloc, origins)?;
    let request = request_of(alloc, START, changes)?;
    Ok(is_answered(&request, Some(&origins), *answer))
}

#[test]
fn origins_are_judged(rt: HostRuntime) -> Result<(), Fail> {
    are_right_in(&rt, rt.alloc(), &BY_ORIGIN, is_judged_by_origin)
}

const SWITCHING: &[u8] =
    b"HTTP/1.1 101 Switching Protocols\r\nUpgrade: websocket\r\nConnection: Upgrade\r\nSec-WebSocket-Accept: s3pPLMBiTxaQ9kYGzzhZRbK+xOo=\r\n\r\n";

fn is_spelled(alloc: Global) -> Result<bool, NoMemory> {
    let accept = Accept {
        value: *b"s3pPLMBiTxaQ9kYGzzhZRbK+xOo=",
    };
    Ok(is(accept_text(alloc, &accept)?.as_slice(), SWITCHING))
}

// The reply of RFC 6455 1.3, without its subprotocol.
#[test]
fn accept_texts_are_spelled(rt: HostRuntime) -> Result<(), Fail> {
    assert!(rt; is_spelled(rt.alloc())?);
    Ok(())
}
