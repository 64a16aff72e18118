// The request that a local redirect makes of one.
ghost use Rattle.std.specs.Prelude.{◌≡◌, ◌++◌, List, [], ◌∷◌, filter, IfOk, OnOk};
ghost use Rattle.request_reader.specs.Request.{begins_name, is_kept, is_left_out, redirected, redirected_method};

use host_base::{Bytes, Field, Fields, Framing, NoMemory, Request, Target, is_same_word};
use std::alloc::Global;

// Whether a name begins with these bytes, without regard to ASCII case.
fn begins_name(front: &[u8], field: &Field) -> bool
    ensures { result ≡ begins_name front.now field.now }
{
    let name = field.name.as_slice();
    is_same_word(front, &name[..front.len().min(name.len())])
}

// Whether a field line is about the first request's body or connection.
fn is_left_out(field: &Field) -> bool
    ensures { result ≡ is_left_out field.now }
{
    let name = field.name.as_slice();
    is_same_word(b"Content-Length", name)
        || is_same_word(b"Content-Type", name)
        || is_same_word(b"Transfer-Encoding", name)
        || is_same_word(b"Expect", name)
        || is_same_word(b"Upgrade", name)
        || is_same_word(b"Connection", name)
        || begins_name(b"Sec-WebSocket-", field)
}

// Adds a field line that is kept.
fn push_kept(kept: &mut Fields, field: &Field) -> Result<(), NoMemory>
    ensures { OnOk result (kept.new ≡ kept.old ++ filter is_kept (field.now ∷ [])) }
{
    if !is_left_out(field) {
        kept.push(field.clone()?)?;
    }
    Ok(())
}

// The field lines that are kept.
fn kept_fields(alloc: Global, fields: &[Field]) -> Result<Fields, NoMemory>
    ensures { IfOk result (λ kept. kept ≡ filter is_kept fields.now) }
{
    let mut kept = Fields::new(alloc);
    for field in fields {
        push_kept(&mut kept, field)?;
    }
    Ok(kept)
}

// HEAD stays HEAD.
fn redirected_method(method: &[u8]) -> &[u8]
    ensures { result.now ≡ redirected_method method.now }
{
    if method == b"HEAD".as_slice() {
        b"HEAD"
    } else {
        b"GET"
    }
}

/// The request that a local redirect makes of one (RFC 3875 6.2.2): a GET, or HEAD where it was HEAD, of
/// the new target in the same version and without a body. The field lines stay but for Content-Length,
/// Content-Type, Transfer-Encoding, Expect, Upgrade, Connection and those whose name begins with
/// `Sec-WebSocket-`, which are about the first request's body or connection.
pub fn redirected(alloc: Global, request: &Request, target: Target) -> Result<Request, NoMemory>
    ensures { IfOk result (λ made. made ≡ redirected request.now target) }
{
    Ok(Request {
        method: Bytes::from_slice(alloc, redirected_method(request.method.as_slice()))?,
        target,
        version: request.version,
        fields: kept_fields(alloc, request.fields.as_slice())?,
        framing: Framing::Empty,
        body: Bytes::new(alloc),
    })
}
