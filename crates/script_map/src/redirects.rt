// Targets that are made: of a local redirect (RFC 3875 6.2.2), and of a path that a gateway gives.
ghost use Rattle.std.specs.Prelude.{◌≡◌, IfOk, IsTrue};
ghost use Rattle.std.specs.List.{list_all};
ghost use Rattle.std.specs.Option.{option_copied};
ghost use Rattle.script_map.specs.DotSegments.{IsRooted};
ghost use Rattle.script_map.specs.Redirects.{is_local_byte, is_local, redirected_target, target_of_path, named_host_of};

use crate::authority::host_of_authority;
use crate::bytes::begins_with;
use crate::segments::remove_dot_segments;
use crate::split::{copy_query, raw_path_of};
use host_base::{Bytes, NoMemory, Target};
use std::alloc::Global;

fn is_local_byte(byte: u8) -> bool
    ensures { result ≡ is_local_byte byte }
{
    byte.is_ascii_graphic() && byte != b'#'
}

fn are_local_bytes(bytes: &[u8]) -> bool
    ensures { result ≡ list_all is_local_byte bytes.now }
{
    bytes.iter().all(|byte| is_local_byte(*byte))
}

/// Whether a Location is a local one: it begins with `/`, and is of visible ASCII characters without `#`
/// (RFC 3875 6.3.2).
pub fn is_local(location: &[u8]) -> bool
    ensures { result ≡ is_local location.now }
{
    begins_with(location, b'/') && are_local_bytes(location)
}

fn copy_host(alloc: Global, host: Option<&[u8]>) -> Result<Option<Bytes>, NoMemory>
    ensures { IfOk result (λ copy. copy ≡ option_copied host.entry) }
{
    match host {
        Some(host) => Ok(Some(Bytes::from_slice(alloc, host)?)),
        None => Ok(None),
    }
}

/// The target of a local redirect (RFC 3875 6.2.2): the path and the query of the location, at the host of
/// the old target.
pub fn redirect_target(alloc: Global, location: &[u8], old: &Target) -> Result<Target, NoMemory>
    requires { IsTrue (is_local location.now) }
    ensures { IfOk result (λ target. target ≡ redirected_target location.now old.now) }
{
    Ok(Target {
        path: remove_dot_segments(alloc, raw_path_of(location))?,
        query: copy_query(alloc, location)?,
        host: old.host.clone()?,
    })
}

/// The target of a path as it was sent, at a host and without a query.
pub fn path_target(alloc: Global, path: &[u8], host: Option<&[u8]>) -> Result<Target, NoMemory>
    requires { IsRooted path.now }
    ensures { IfOk result (λ target. target ≡ target_of_path path.now (option_copied host.entry)) }
{
    Ok(Target {
        path: remove_dot_segments(alloc, path)?,
        query: None,
        host: copy_host(alloc, host)?,
    })
}

/// The host of an authority, `host [ ":" port ]` (RFC 3986 3.2), brackets kept. None where the value is no
/// authority or its host is empty.
pub fn authority_host(value: &[u8]) -> Option<&[u8]>
    ensures { option_copied result ≡ named_host_of value.now }
{
    match host_of_authority(value) {
        Some(host) if !host.is_empty() => Some(host),
        Some(_) => None,
        None => None,
    }
}
