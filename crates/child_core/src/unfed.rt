// Bytes on their way to a child's input: added at the end, taken from the front in pieces.
ghost use Rattle.std.specs.Prelude.{◌≡◌, ◌≤◌, [], ◌++◌, length, take, drop, IfOk, OnOk, OnErr, ◌==◌};

use host_base::{Bytes, NoMemory};
use std::alloc::Global;
use std::marker::Model;

/// The bytes of `bytes` from `from` on.
#[derive(Drop)]
pub(crate) struct Unfed {
    alloc: Global,
    bytes: Bytes,
    from: usize,
}

impl Model for Unfed {
    ghost use Rattle.std.specs.Prelude.{List, ℕ, drop, length, ◌≤◌};

    ghost Value = { List ℕ };

    ghost view = { λ u. drop u.from u.bytes };

    ghost invariant = { λ u. u.from ≤ length u.bytes };
}

impl Unfed {
    pub fn new(alloc: Global) -> Self
        ensures { result ≡ [] }
    {
        Unfed {
            alloc,
            bytes: Bytes::new(alloc),
            from: 0,
        }
    }

    pub fn len(&self) -> usize
        ensures { result ≡ length self.now }
    {
        self.bytes.len() - self.from
    }

    /// Adds bytes at the end. For want of memory nothing changes.
    pub fn push(&mut self, bytes: &[u8]) -> Result<(), NoMemory>
        ensures ok { OnOk result (self.new ≡ self.old ++ bytes.now) }
        ensures err { OnErr result (self.new ≡ self.old) }
    {
        self.bytes.extend_from_slice(bytes)
    }

    /// A copy of the first bytes.
    pub fn front(&self, count: usize) -> Result<Bytes, NoMemory>
        requires { count ≤ length self.now }
        ensures { IfOk result (λ piece. piece ≡ take count self.now) }
    {
        let rest = &self.bytes.as_slice()[self.from..];
        Bytes::from_slice(self.alloc, &rest[..count])
    }

    /// Takes the first bytes away.
    pub fn advance(&mut self, count: usize)
        requires { count ≤ length self.old }
        ensures { self.new ≡ drop count self.old }
    {
        let len = self.bytes.len();
        self.from += count;
        if self.from == len {
            self.clear();
        }
    }

    pub fn clear(&mut self)
        ensures { self.new ≡ [] }
    {
        self.bytes = Bytes::new(self.alloc);
        self.from = 0;
    }
}
