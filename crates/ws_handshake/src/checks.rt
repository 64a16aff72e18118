// The four checks of a handshake, in their order.
ghost use Rattle.std.specs.Prelude.{◌≡◌, ◌&&◌, ◌==◌, codes, option_map, MatchResult, Ok, Err};
ghost use Rattle.std.specs.List.{find, list_any};
ghost use Rattle.std.specs.Option.{option_copied};
ghost use Rattle.std.specs.Str.{bytes_eq};
ghost use Rattle.host_base.specs.FieldLists.{is_named, values_named};
ghost use Rattle.ws_handshake.specs.Handshake.{asks_version_13, asks_websocket, handshake, is_bodyless, is_origin_taken, key_of, only};

use crate::accept::Accept;
use crate::key::{accept_value, is_key};
use host_base::{Cause, Field, Fields, Framing, Request, Texts, Version, is_same_word, trim};

fn first_named<'a>(fields: &'a [Field], name: &[u8]) -> Option<&'a Field>
    ensures { option_copied result ≡ find (is_named name.now) fields.now }
{
    fields
        .iter()
        .find(|field| is_same_word(name, field.name.as_slice()))
}

// The value of a name, where exactly one field line has it.
fn only_value<'a>(fields: &'a Fields, name: &[u8]) -> Option<&'a [u8]>
    ensures { option_copied result ≡ only (values_named name.now fields.now) }
{
    match first_named(fields.as_slice(), name) {
        Some(field) if fields.count_named(name) == 1 => Some(field.value.as_slice()),
        _ => None,
    }
}

fn asks_websocket(request: &Request) -> bool
    ensures { result ≡ asks_websocket request.now }
{
    request.method.as_slice() == b"GET".as_slice()
        && request.version == Version::V11
        && request.fields.has_word(b"Upgrade", b"websocket")
        && request.fields.has_word(b"Connection", b"Upgrade")
}

fn asks_version_13(request: &Request) -> bool
    ensures { result ≡ asks_version_13 request.now }
{
    match only_value(&request.fields, b"Sec-WebSocket-Version") {
        Some(value) => value == b"13".as_slice(),
        None => false,
    }
}

// The text of the key, where there is exactly one.
fn key_of(request: &Request) -> Option<&[u8]>
    ensures { option_copied result ≡ key_of request.now }
{
    match only_value(&request.fields, b"Sec-WebSocket-Key") {
        Some(value) => Some(trim(value)),
        None => None,
    }
}

fn is_bodyless(framing: Framing) -> bool
    ensures { result ≡ is_bodyless framing }
{
    match framing {
        Framing::Empty => true,
        Framing::Length(count) => count == 0,
        Framing::Chunked => false,
    }
}

fn has_text(origins: &Texts, value: &[u8]) -> bool
    ensures { result ≡ list_any (bytes_eq value.now) origins.now }
{
    origins
        .as_slice()
        .iter()
        .any(|origin| value == origin.as_bytes())
}

fn is_origin_taken(request: &Request, origins: Option<&Texts>) -> bool
    ensures { result ≡ is_origin_taken (option_copied origins.entry) request.now }
{
    let Some(origins) = origins else {
        return true;
    };
    match only_value(&request.fields, b"Origin") {
        Some(value) => has_text(origins, value),
        None => false,
    }
}

/// Judges a request at a script that speaks WebSocket (RFC 6455 4.2.1 and 4.2.2). `origins` are the
/// values of Origin that the script takes; any is where there is no list. The first check that fails
/// gives the cause: UpgradeNeeded where it is no GET of HTTP/1.1 that asks for an upgrade, or its version
/// is not 13; BadHandshake where there isn't exactly one key of 16 bytes, or a body; OriginRefused.
#[tactic(auto, unfolding(crate::specs::Handshake::handshake))]
pub fn check(request: &Request, origins: Option<&Texts>) -> Result<Accept, Cause>
    ensures { MatchResult result
        (λ accept. handshake request.now (option_copied origins.entry) ≡ Ok accept.value)
        (λ cause. handshake request.now (option_copied origins.entry) ≡ Err cause) }
{
    if !asks_websocket(request) || !asks_version_13(request) {
        return Err(Cause::UpgradeNeeded);
    }
    let Some(key) = key_of(request) else {
        return Err(Cause::BadHandshake);
    };
    if !is_key(key) || !is_bodyless(request.framing) {
        return Err(Cause::BadHandshake);
    }
    if !is_origin_taken(request, origins) {
        return Err(Cause::OriginRefused);
    }
    Ok(Accept {
        value: accept_value(key),
    })
}
