// The target of a request head (RFC 9112 3.2).
ghost use Rattle.std.specs.Prelude.{◌≡◌, ◌==◌, ◌≤◌, length, take, drop, option_map, codes, count_by};
ghost use Rattle.std.specs.List.{list_any, find, position, position_or_len};
ghost use Rattle.std.specs.Option.{option_copied};
ghost use Rattle.std.specs.Result.{result_map_both};
ghost use Rattle.std.specs.Str.{is_utf8};
ghost use Rattle.host_base.specs.FieldLists.{is_named, values_named};
ghost use Rattle.script_map.specs.Targets.{is_unserved, host_named, is_question, is_hash, is_authority_end, place_after_scheme, has_http_scheme, place_of, query_of, is_text_or_none, asked_place, place_in};
ghost use Rattle.script_map.specs.Places.{said};

use crate::authority::host_of_authority;
use crate::bytes::begins_with;
use host_base::{Cause, Field, Head, Version, is_same_word};

/// Where a target points: the host, empty where none is known, and the path with its query.
#[derive(Clone, Copy, Debug)]
pub struct Spot<'a> {
    pub host: &'a [u8],
    pub rest: &'a [u8],
}

fn is_unserved(head: &Head) -> bool
    ensures { result ≡ is_unserved head.now }
{
    head.method.as_slice() == b"CONNECT".as_slice() || head.target.as_slice() == b"*".as_slice()
}

fn first_named<'a>(fields: &'a [Field], name: &[u8]) -> Option<&'a Field>
    ensures { option_copied result ≡ find (is_named name.now) fields.now }
{
    fields
        .iter()
        .find(|field| is_same_word(name, field.name.as_slice()))
}

fn has_one_host(head: &Head) -> bool
    ensures { result ≡ (count_by (is_named (codes "Host")) head.now.fields == 1) }
{
    head.fields.count_named(b"Host") == 1
}

// The host that the Host field names, empty where HTTP/1.0 has none.
fn host_named(head: &Head) -> Option<&[u8]>
    ensures { option_copied result ≡ host_named (values_named (codes "Host") head.now.fields) head.now.version }
{
    match first_named(head.fields.as_slice(), b"Host") {
        Some(field) if has_one_host(head) => host_of_authority(field.value.as_slice()),
        Some(_) => None,
        None => match head.version {
            Version::V10 => Some(b""),
            Version::V11 => None,
        },
    }
}

fn question_at(rest: &[u8]) -> Option<usize>
    ensures { result ≡ position is_question rest.now }
{
    rest.iter().position(|byte| *byte == b'?')
}

// What follows the first question mark.
pub fn query_of(rest: &[u8]) -> Option<&[u8]>
    ensures { option_copied result ≡ query_of rest.now }
{
    match question_at(rest) {
        Some(at) => Some(&rest[at + 1..]),
        None => None,
    }
}

fn has_hash(target: &[u8]) -> bool
    ensures { result ≡ list_any is_hash target.now }
{
    target.iter().any(|byte| *byte == b'#')
}

fn authority_end_at(text: &[u8]) -> Option<usize>
    ensures { result ≡ position is_authority_end text.now }
{
    text.iter().position(|byte| *byte == b'/' || *byte == b'?')
}

fn authority_len(text: &[u8]) -> usize
    ensures within { result ≤ length text.now }
    ensures value { result ≡ position_or_len is_authority_end text.now }
{
    authority_end_at(text).unwrap_or(text.len())
}

// What the authority after the scheme names, and what follows it.
fn spot_after_scheme(text: &[u8]) -> Option<Spot<'_>>
    ensures { option_map said result ≡ place_after_scheme text.now }
{
    let (authority, rest) = text.split_at(authority_len(text));
    match host_of_authority(authority) {
        Some(host) if !host.is_empty() => Some(Spot { host, rest }),
        Some(_) => None,
        None => None,
    }
}

fn has_http_scheme(target: &[u8]) -> bool
    ensures { result ≡ has_http_scheme target.now }
{
    target.len() >= 7 && is_same_word(&target[..7], b"http://")
}

#[tactic(auto, unfolding(crate::specs::Targets::place_of))]
fn spot_of<'a>(host: &'a [u8], target: &'a [u8]) -> Option<Spot<'a>>
    ensures { option_map said result ≡ place_of host.now target.now }
{
    if begins_with(target, b'/') {
        Some(Spot { host, rest: target })
    } else if has_http_scheme(target) {
        spot_after_scheme(&target[7..])
    } else {
        None
    }
}

fn is_text(bytes: &[u8]) -> bool
    ensures { result ≡ is_utf8 bytes.now }
{
    std::str::from_utf8(bytes).is_ok()
}

fn is_text_or_none(query: Option<&[u8]>) -> bool
    ensures { result ≡ is_text_or_none (option_copied query.entry) }
{
    match query {
        Some(query) => is_text(query),
        None => true,
    }
}

#[tactic(auto, unfolding(crate::specs::Targets::asked_place))]
fn asked_spot<'a>(host: &'a [u8], target: &'a [u8]) -> Option<Spot<'a>>
    ensures { option_map said result ≡ asked_place host.now target.now }
{
    if has_hash(target) {
        return None;
    }
    match spot_of(host, target) {
        Some(spot) if is_text_or_none(query_of(spot.rest)) => Some(spot),
        Some(_) => None,
        None => None,
    }
}

// The place that a head asks for, or the first cause to refuse it. It takes no memory.
#[tactic(auto, unfolding(crate::specs::Targets::place_in))]
pub fn spot_in(head: &Head) -> Result<Spot<'_>, Cause>
    ensures { result_map_both said (λ cause. cause) result ≡ place_in head.now }
{
    if is_unserved(head) {
        return Err(Cause::NotServed);
    }
    let Some(host) = host_named(head) else {
        return Err(Cause::BadHost);
    };
    match asked_spot(host, head.target.as_slice()) {
        Some(spot) => Ok(spot),
        None => Err(Cause::BadTarget),
    }
}
