// The script of a target (RFC 3875 3.3).
ghost use Rattle.std.specs.Prelude.{◌≡◌, ◌<◌, ◌^◌, ◌≤◌, length, drop, IfOk, OnErr, IsTrue, is_some, is_ok, ◌&&◌, option_map, None};
ghost use Rattle.std.specs.Cow.{cow_str_bytes};
ghost use Rattle.std.specs.List.{list_any, list_all, position, slice_split};
ghost use Rattle.std.specs.Option.{ok_or, option_copied};
ghost use Rattle.percent_encoding.specs.Percent.{percent_decode};
ghost use Rattle.host_base.specs.declared.cause.Cause.TheVariants.{NoScript};
ghost use Rattle.host_base.specs.SiteRules.{HasHosts};
ghost use Rattle.script_map.specs.Answers.{IsAnswer};
ghost use Rattle.script_map.specs.DotSegments.{is_slash, is_dot_segment};
ghost use Rattle.script_map.specs.Escapes.{is_percent, has_whole_escapes};
ghost use Rattle.script_map.specs.Mapping.{is_at_edge, fits, is_no_longer, is_longest, mapped_by, script_at, has_dot_segment, text_or_none, decoded_text, mapped_text, path_takes_memory, mapped_of, takes_memory, is_nul, decoded_mapped_text, decoded_mapped_of};

use crate::escapes::{has_hidden_escape, has_whole_escapes};
use crate::hosts::host_place;
use crate::segments::{cut_at_slash, is_dot_segment};
use host_base::{Cause, Mapped, NoMemory, Refusal, Script, Site, Target, Text};
use percent_encoding::{DecodeError, percent_decode};
use std::alloc::Global;
use std::borrow::CowStr;

fn is_at_edge(rest: &[u8]) -> bool
    ensures { result ≡ is_at_edge rest.now }
{
    match rest {
        [first, ..] => *first == b'/',
        [] => true,
    }
}

fn fits(path: &[u8], script: &Script) -> bool
    ensures { result ≡ fits path.now script.now }
{
    let name = script.path.as_bytes();
    path.starts_with(name) && is_at_edge(&path[name.len()..])
}

fn is_no_longer(path: &[u8], other: &Script, len: usize) -> bool
    ensures { result ≡ is_no_longer path.now len other.now }
{
    !fits(path, other) || other.path.len() <= len
}

fn are_no_longer(path: &[u8], scripts: &[Script], len: usize) -> bool
    ensures { result ≡ list_all (is_no_longer path.now len) scripts.now }
{
    scripts.iter().all(|other| is_no_longer(path, other, len))
}

// Whether the script fits, and no longer one does.
fn is_longest(path: &[u8], scripts: &[Script], script: &Script) -> bool
    ensures { result ≡ is_longest path.now scripts.now script.now }
{
    fits(path, script) && are_no_longer(path, scripts, script.path.len())
}

fn longest_at(path: &[u8], scripts: &[Script]) -> Option<usize>
    ensures { result ≡ position (is_longest path.now scripts.now) scripts.now }
{
    scripts
        .iter()
        .position(|script| is_longest(path, scripts, script))
}

fn has_dot_segment(path: &[u8]) -> bool
    ensures { result ≡ has_dot_segment path.now }
{
    let mut rest = path;
    while let Some((segment, more)) = cut_at_slash(rest) {
        if is_dot_segment(segment) {
            return true;
        }
        rest = more;
    }
    is_dot_segment(rest)
}

fn copy_mapped(
    alloc: Global,
    host: usize,
    path: &str,
    index: usize,
    script: &Script,
) -> Result<Mapped, NoMemory>
    requires few_hosts { host < 2 ^ 32 }
    requires few { index < 2 ^ 32 }
    requires fitting { IsTrue (fits path.now script.now) }
    ensures { IfOk result (λ mapped. mapped ≡ mapped_by host path.now index script.now) }
{
    Ok(Mapped {
        host: host as u32,
        index: index as u32,
        script_name: Text::copy_of(alloc, script.path.as_str())?,
        path_info: Text::copy_of(alloc, &path[script.path.len()..])?,
    })
}

// The script of a decoded path, among the scripts of the host at a place.
fn script_at(
    alloc: Global,
    host: usize,
    scripts: &[Script],
    path: &str,
) -> Result<Option<Mapped>, NoMemory>
    requires few_hosts { host < 2 ^ 32 }
    requires few { length scripts.now < 2 ^ 32 }
    ensures exact { IfOk result (λ mapped. mapped ≡ script_at host scripts.now path.now) }
    ensures memory { OnErr result (IsTrue (is_some (script_at host scripts.now path.now))) }
{
    match longest_at(path.as_bytes(), scripts) {
        Some(index) => Ok(Some(copy_mapped(alloc, host, path, index, &scripts[index])?)),
        None => Ok(None),
    }
}

// The same, where a script that isn't found is a cause.
fn found_script(
    alloc: Global,
    host: usize,
    scripts: &[Script],
    path: &str,
) -> Result<Mapped, Refusal>
    requires few_hosts { host < 2 ^ 32 }
    requires few { length scripts.now < 2 ^ 32 }
    ensures exact { IsAnswer (ok_or (script_at host scripts.now path.now) NoScript) result }
    ensures memory { result ≡ Err Refusal.NoMemory → IsTrue (is_some (script_at host scripts.now path.now)) }
{
    match script_at(alloc, host, scripts, path)? {
        Some(mapped) => Ok(mapped),
        None => Err(Refusal::Cause(Cause::NoScript)),
    }
}

// The bytes decoded, where that is a text.
fn decode(alloc: Global, path: &[u8]) -> Result<Option<CowStr<'_, Global>>, NoMemory>
    ensures exact { IfOk result (λ text. option_map cow_str_bytes text ≡ text_or_none (percent_decode path.now)) }
    ensures memory { OnErr result (IsTrue (list_any is_percent path.now)) }
{
    match percent_decode(path).decode_utf8(alloc) {
        Ok(text) => Ok(Some(text)),
        Err(DecodeError::OutOfMemory) => Err(NoMemory),
        Err(DecodeError::Utf8(_)) => Ok(None),
    }
}

/// Percent-encoded bytes as the text that they decode to (RFC 3986 2.1). None where a `%` is not followed by
/// two hex digits, or what they decode to is no UTF-8.
#[tactic(auto, unfolding(crate::specs::Mapping::decoded_text))]
pub fn decode_text(alloc: Global, bytes: &[u8]) -> Result<Option<CowStr<'_, Global>>, NoMemory>
    ensures exact { IfOk result (λ text. option_map cow_str_bytes text ≡ decoded_text bytes.now) }
    // Nothing but an escape that is decoded takes memory.
    ensures memory { OnErr result (IsTrue (has_whole_escapes bytes.now && list_any is_percent bytes.now)) }
{
    if has_whole_escapes(bytes) {
        decode(alloc, bytes)
    } else {
        Ok(None)
    }
}

// The script of a path in the host at a place.
fn script_of_path(
    alloc: Global,
    host: usize,
    scripts: &[Script],
    path: &[u8],
) -> Result<Mapped, Refusal>
    requires few_hosts { host < 2 ^ 32 }
    requires few { length scripts.now < 2 ^ 32 }
    ensures exact { IsAnswer (mapped_text host scripts.now path.now (decoded_text path.now)) result }
    ensures memory { result ≡ Err Refusal.NoMemory → IsTrue (path_takes_memory host scripts.now path.now) }
{
    let Some(decoded) = decode_text(alloc, path)? else {
        return Err(Refusal::Cause(Cause::BadPath));
    };
    if has_hidden_escape(path) || has_dot_segment(decoded.as_str().as_bytes()) {
        return Err(Refusal::Cause(Cause::NoScript));
    }
    found_script(alloc, host, scripts, decoded.as_str())
}

fn host_name(target: &Target) -> Option<&[u8]>
    ensures { option_copied result ≡ target.now.host }
{
    match &target.host {
        Some(name) => Some(name.as_slice()),
        None => None,
    }
}

/// The script of a target, with SCRIPT_NAME and PATH_INFO (RFC 3875 4.1.13 and 4.1.5). In this order: a
/// name that no host has, where none takes any, is `UnknownHost`; a `%` without two hex digits, or a
/// decoded path that is no UTF-8, is `BadPath`; an escape for `/` or NUL, a segment that decodes to `.` or
/// `..`, or a path that is no script's of that host and has none before a `/` is `NoScript`. Where several
/// scripts fit, the longest is taken.
pub fn map(alloc: Global, site: &Site, target: &Target) -> Result<Mapped, Refusal>
    requires { HasHosts site.now.hosts }
    ensures exact { IsAnswer (mapped_of site.now.hosts target.now) result }
    // Nothing else takes memory than an escape that is decoded and a script that is found.
    ensures memory { result ≡ Err Refusal.NoMemory → IsTrue (takes_memory site.now.hosts target.now) }
{
    let hosts = site.hosts.as_slice();
    match host_place(hosts, host_name(target)) {
        Some(place) => script_of_path(
            alloc,
            place,
            hosts[place].scripts.as_slice(),
            target.path.as_slice(),
        ),
        None => Err(Refusal::Cause(Cause::UnknownHost)),
    }
}

fn has_nul(bytes: &[u8]) -> bool
    ensures { result ≡ list_any is_nul bytes.now }
{
    bytes.iter().any(|byte| *byte == 0)
}

fn as_text(bytes: &[u8]) -> Option<&str>
    ensures { option_copied result ≡ text_or_none bytes.now }
{
    std::str::from_utf8(bytes).ok()
}

// The script of a decoded path in the host at a place.
fn script_of_decoded(
    alloc: Global,
    host: usize,
    scripts: &[Script],
    path: &[u8],
) -> Result<Mapped, Refusal>
    requires few_hosts { host < 2 ^ 32 }
    requires few { length scripts.now < 2 ^ 32 }
    ensures exact { IsAnswer (decoded_mapped_text host scripts.now (text_or_none path.now)) result }
    ensures memory { result ≡ Err Refusal.NoMemory → IsTrue (is_ok (decoded_mapped_text host scripts.now (text_or_none path.now))) }
{
    let Some(text) = as_text(path) else {
        return Err(Refusal::Cause(Cause::BadPath));
    };
    if has_nul(text.as_bytes()) || has_dot_segment(text.as_bytes()) {
        return Err(Refusal::Cause(Cause::NoScript));
    }
    found_script(alloc, host, scripts, text)
}

/// The script of a host's name and a path that is decoded already, as a gateway gives them. In this order: a
/// name that no host has, where none takes any, is `UnknownHost`; a path that is no UTF-8 is `BadPath`; a
/// NUL, a segment `.` or `..`, or a path that is no script's of that host and has none before a `/` is
/// `NoScript`.
pub fn map_decoded(
    alloc: Global,
    site: &Site,
    host: Option<&[u8]>,
    path: &[u8],
) -> Result<Mapped, Refusal>
    requires { HasHosts site.now.hosts }
    ensures exact { IsAnswer (decoded_mapped_of site.now.hosts (option_copied host.entry) path.now) result }
    // Nothing but a script that is found takes memory.
    ensures memory { result ≡ Err Refusal.NoMemory → IsTrue (is_ok (decoded_mapped_of site.now.hosts (option_copied host.entry) path.now)) }
{
    let hosts = site.hosts.as_slice();
    match host_place(hosts, host) {
        Some(place) => script_of_decoded(alloc, place, hosts[place].scripts.as_slice(), path),
        None => Err(Refusal::Cause(Cause::UnknownHost)),
    }
}
