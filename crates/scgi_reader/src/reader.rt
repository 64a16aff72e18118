// A request of SCGI, of the whole of its bytes.
ghost use Rattle.std.specs.Prelude.{◌≡◌, ◌+◌, ◌<◌, ◌≤◌, ◌^◌, IfOk, length, drop};
ghost use Rattle.scgi_reader.specs.Scgi.{scgi_of, with_body};

use crate::head::{Head, WholeHead, read_head};
use host_base::{Bytes, Cause, Fields, Limits, NoMemory};
use std::alloc::Global;

/// A request: its variables in their order, and its body.
#[derive(Drop, Debug)]
pub struct ScgiRequest {
    pub fields: Fields,
    pub body: Bytes,
}

/// What the bytes so far are.
#[derive(Drop, Debug)]
pub enum ScgiStep {
    /// A request of the first `used` bytes.
    Whole { request: ScgiRequest, used: usize },
    /// It has not ended.
    More,
    /// No request begins so.
    Bad(Cause),
}

// With the bytes behind the head.
fn with_body(alloc: Global, head: WholeHead, rest: &[u8]) -> Result<ScgiStep, NoMemory>
    requires { head.used + length rest.now < 2 ^ 63 }
    ensures { IfOk result (λ step. step ≡ with_body head.fields head.used head.len rest.now) }
{
    let WholeHead { fields, used, len } = head;
    if len > rest.len() as u64 {
        return Ok(ScgiStep::More);
    }
    let len = len as usize;
    let body = Bytes::from_slice(alloc, &rest[..len])?;
    Ok(ScgiStep::Whole {
        request: ScgiRequest { fields, body },
        used: used + len,
    })
}

/// What the whole of these bytes is as a request of SCGI. `Bad` comes with the first cause as they are read:
/// `BadScgi` or `HeadTooLong` in the length of the head, `BadScgi` once the head and its comma are there, and
/// then `BodyTooLong`.
pub fn read_scgi(alloc: Global, buf: &[u8], limits: &Limits) -> Result<ScgiStep, NoMemory>
    ensures exact { IfOk result (λ step. step ≡ scgi_of limits.now buf.now) }
{
    match read_head(alloc, buf, limits)? {
        Head::More => Ok(ScgiStep::More),
        Head::Bad(cause) => Ok(ScgiStep::Bad(cause)),
        Head::Whole(head) => {
            let used = head.used;
            with_body(alloc, head, &buf[used..])
        }
    }
}
