// A run: one child, and what there is for its input.
ghost use Rattle.std.specs.Prelude.{◌≡◌, List, IfOk};
ghost use Rattle.host_trace.specs.declared.items.Item.{Item as AnItem};
ghost use Rattle.trace_child.specs.Run.{Offer};

use host_base::{Bytes, Limits, NoMemory, ScriptKind};
use host_trace::Item;
use std::alloc::Global;

/// What there is for a child's input after some items.
pub trait Offered {
    ghost offered: { Self → List AnItem → Offer };

    /// Whether all of the body was heard.
    fn is_whole(&self, front: &[Item]) -> Result<bool, NoMemory>
        ensures { IfOk result (λ whole. whole ≡ (offered self.now front.now).whole) };

    /// The body as far as it was heard.
    fn body(&self, alloc: Global, front: &[Item]) -> Result<Bytes, NoMemory>
        ensures { IfOk result (λ body. body ≡ (offered self.now front.now).body) };
}

/// No body, as after a local redirect (RFC 3875 6.2.2).
#[derive(Clone, Copy, Debug)]
pub struct NoBody;

impl Offered for NoBody {
    ghost use Rattle.trace_child.specs.Run.{no_body};

    ghost offered = { λ _. no_body };

    fn is_whole(&self, _: &[Item]) -> Result<bool, NoMemory> {
        Ok(true)
    }

    fn body(&self, alloc: Global, _: &[Item]) -> Result<Bytes, NoMemory> {
        Ok(Bytes::new(alloc))
    }
}

/// A child that was started for a connection, how its output is read, its limits, and what there is for its input.
pub struct Run<'r, O> {
    pub alloc: Global,
    pub conn: u64,
    pub child: u64,
    pub kind: ScriptKind,
    pub limits: &'r Limits,
    pub body: O,
}
