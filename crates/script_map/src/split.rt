// A head's target, as values of its own.
ghost use Rattle.std.specs.Prelude.{◌≡◌, ◌∷◌, [], List, ℕ, length, take, drop, IfOk, IsTrue, is_ok, option_map};
ghost use Rattle.std.specs.List.{before_first};
ghost use Rattle.std.specs.Option.{option_copied};
ghost use Rattle.host_base.specs.declared.request.Target.{Target};
ghost use Rattle.script_map.specs.Answers.{IsAnswer};
ghost use Rattle.script_map.specs.DotSegments.{IsRooted};
ghost use Rattle.script_map.specs.Places.{said};
ghost use Rattle.script_map.specs.Targets.{host_or_none, is_question, raw_path_of, query_of, target_at, target_of};

use crate::bytes::len_before;
use crate::segments::remove_dot_segments;
use crate::targets::{Spot, query_of, spot_in};
use host_base::{Bytes, Head, NoMemory, Refusal, Target};
use std::alloc::Global;

// The path before the first question mark, which is `/` where it is empty.
pub fn raw_path_of(rest: &[u8]) -> &[u8]
    ensures { result.now ≡ raw_path_of rest.now }
{
    let path = &rest[..len_before(rest, b'?')];
    if path.is_empty() { b"/" } else { path }
}

pub fn copy_query(alloc: Global, rest: &[u8]) -> Result<Option<Bytes>, NoMemory>
    ensures { IfOk result (λ query. query ≡ query_of rest.now) }
{
    match query_of(rest) {
        Some(query) => Ok(Some(Bytes::from_slice(alloc, query)?)),
        None => Ok(None),
    }
}

fn copy_host(alloc: Global, host: &[u8]) -> Result<Option<Bytes>, NoMemory>
    ensures { IfOk result (λ copy. copy ≡ host_or_none host.now) }
{
    if host.is_empty() {
        return Ok(None);
    }
    Ok(Some(Bytes::from_slice(alloc, host)?))
}

fn copy_target(alloc: Global, spot: Spot<'_>) -> Result<Target, NoMemory>
    requires { IsRooted (raw_path_of spot.rest.now) }
    ensures { IfOk result (λ target. target ≡ target_at (said spot.entry)) }
{
    Ok(Target {
        path: remove_dot_segments(alloc, raw_path_of(spot.rest))?,
        query: copy_query(alloc, spot.rest)?,
        host: copy_host(alloc, spot.host)?,
    })
}

/// The target of a head (RFC 9112 3.2 and 3.3). In this order: the method CONNECT and the target `*` are
/// `NotServed`; two Host field lines, none in HTTP/1.1, or one that is no `host [ ":" port ]` are
/// `BadHost`; a target that is neither in origin form nor in absolute form with the scheme `http` and a
/// host, has a `#`, or a query that is no UTF-8 is `BadTarget`. In absolute form the host of the target
/// stands for that of the field.
pub fn split_target(alloc: Global, head: &Head) -> Result<Target, Refusal>
    ensures exact { IsAnswer (target_of head.now) result }
    // Nothing but a target takes memory.
    ensures memory { result ≡ Err Refusal.NoMemory → IsTrue (is_ok (target_of head.now)) }
{
    match spot_in(head) {
        Ok(spot) => Ok(copy_target(alloc, spot)?),
        Err(cause) => Err(Refusal::Cause(cause)),
    }
}
