// What a whole output derives.
ghost use Rattle.std.specs.Prelude.{◌≡◌, IfOk};
ghost use Rattle.cgi_header.specs.ScriptHeader.{read_header};
ghost use Rattle.reply_kinds.specs.Kind.{kind_of};
ghost use Rattle.reply_kinds.specs.Derived.{derived_by_kind, derived_by_step, raw_of, derived_of, location_or_none};

use crate::{Derived, ReplyKind, kind_of, reply_of};
use cgi_header::{CgiHead, HdrStep, missing_cause, read_header};
use host_base::{Bytes, Cause, NoMemory, ScriptKind};
use std::alloc::Global;

fn copy_location(alloc: Global, head: &CgiHead) -> Result<Bytes, NoMemory>
    ensures { IfOk result (λ location. location ≡ location_or_none head.now.location) }
{
    match &head.location {
        Some(location) => Bytes::from_slice(alloc, location.as_slice()),
        None => Ok(Bytes::new(alloc)),
    }
}

// What a header and what follows it derive.
fn derive_by_kind(alloc: Global, head: &CgiHead, body: &[u8]) -> Result<Derived, NoMemory>
    ensures { IfOk result (λ derived. derived ≡ derived_by_kind head.now body.now (kind_of head.now)) }
{
    match kind_of(head) {
        Err(cause) => Ok(Derived::Bad(cause)),
        Ok(ReplyKind::LocalRedirect) => Ok(Derived::Hop(copy_location(alloc, head)?)),
        Ok(kind) => Ok(Derived::Reply(reply_of(alloc, head, kind, body)?)),
    }
}

// What an output derives that begins with a header.
fn derive_reply(alloc: Global, output: &[u8]) -> Result<Derived, NoMemory>
    ensures { IfOk result (λ derived. derived ≡ derived_by_step output.now (read_header output.now)) }
{
    match read_header(alloc, output)? {
        HdrStep::Whole { head, used } => derive_by_kind(alloc, &head, &output[used..]),
        HdrStep::More => Ok(Derived::Bad(missing_cause(output))),
        HdrStep::Bad(cause) => Ok(Derived::Bad(cause)),
    }
}

fn derive_raw(alloc: Global, output: &[u8]) -> Result<Derived, NoMemory>
    ensures { IfOk result (λ derived. derived ≡ raw_of output.now) }
{
    if output.is_empty() {
        Ok(Derived::Bad(Cause::NoOutput))
    } else {
        Ok(Derived::Raw(Bytes::from_slice(alloc, output)?))
    }
}

/// What the output of a script derives that has ended (RFC 3875 5 and 6). The program of a WebSocket gives
/// no reply: its output counts as none.
#[tactic(auto, unfolding(crate::specs::Derived::derived_of))]
pub fn derive(alloc: Global, kind: ScriptKind, output: &[u8]) -> Result<Derived, NoMemory>
    ensures { IfOk result (λ derived. derived ≡ derived_of kind output.now) }
{
    match kind {
        ScriptKind::Cgi => derive_reply(alloc, output),
        ScriptKind::Nph => derive_raw(alloc, output),
        ScriptKind::WebSocket => Ok(Derived::Bad(Cause::NoOutput)),
    }
}
