// A request of SCGI that is heard piece by piece. Its head is read once.
ghost use Rattle.std.specs.Prelude.{◌≡◌, ◌≤◌, ◌+◌, ◌++◌, length, IfOk, drop, take};
ghost use Rattle.scgi_reader.specs.Reading.{IsHeard};
ghost use Rattle.scgi_reader.specs.View.{IsRead};
ghost use Rattle.scgi_reader.specs.Scgi.{behind, head_of, scgi_of};

use crate::head::{Head, WholeHead, read_head};
use host_base::{Bytes, Cause, Fields, Limits, NoMemory};
use std::alloc::Global;
use std::marker::Model;

/// A request as far as it was heard.
#[derive(Drop)]
pub struct Reading {
    alloc: Global,
    limits: Limits,
    bytes: Bytes,
    head: Option<WholeHead>,
}

impl Model for Reading {
    ghost use Rattle.scgi_reader.specs.View.{View, IsRead};

    ghost Value = { View };

    ghost view = { λ r. record { limits = r.limits; bytes = r.bytes } };

    ghost invariant = { λ r. IsRead r.limits r.bytes r.head };
}

/// A whole request, with the bytes that it was read from.
#[derive(Drop)]
pub struct Request {
    fields: Fields,
    bytes: Bytes,
    start: usize,
    len: usize,
}

impl Model for Request {
    ghost use Rattle.std.specs.Prelude.{◌≤◌, ◌+◌, length, take, drop};
    ghost use Rattle.scgi_reader.specs.declared.reader.ScgiRequest.{ScgiRequest};

    ghost Value = { ScgiRequest };

    ghost view = { λ r. record { fields = r.fields; body = take r.len (drop r.start r.bytes) } };

    ghost invariant = { λ r. r.start + r.len ≤ length r.bytes };
}

/// What a piece made of a request.
#[derive(Drop)]
pub enum Heard {
    /// More of it is to come.
    More(Reading),
    /// It is whole. What stands behind it was not looked at.
    Whole(Request),
    /// No request begins so.
    Bad(Cause),
}

impl Request {
    ghost use Rattle.std.specs.Prelude.{◌≡◌};
    /// Its variables in their order.
    pub fn fields(&self) -> &Fields
        ensures { result.now ≡ self.now.fields }
    {
        &self.fields
    }

    /// Its body.
    pub fn body(&self) -> &[u8]
        ensures { result.now ≡ self.now.body }
    {
        let rest = &self.bytes.as_slice()[self.start..];
        &rest[..self.len]
    }
}

impl Reading {
    ghost use Rattle.std.specs.Prelude.{◌≡◌, ◌++◌, IfOk, length, ◌==◌};
    ghost use Rattle.scgi_reader.specs.View.{unheard};
    ghost use Rattle.scgi_reader.specs.Reading.{IsHeard};
    /// Nothing was heard. It takes no memory.
    pub fn new(alloc: Global, limits: &Limits) -> Self
        ensures { result ≡ unheard limits.now }
    {
        Reading {
            alloc,
            limits: *limits,
            bytes: Bytes::new(alloc),
            head: None,
        }
    }

    /// Whether nothing was heard.
    pub fn is_empty(&self) -> bool
        ensures { result ≡ (length self.now.bytes == 0) }
    {
        self.bytes.is_empty()
    }

    /// Hears one more piece. A head that was read is not read again, and no variable is looked at before the head has
    /// ended.
    pub fn hear(self, piece: &[u8]) -> Result<Heard, NoMemory>
        ensures { IfOk result (λ heard. IsHeard self.limits (self.bytes ++ piece.now) heard) }
    {
        let Reading {
            alloc,
            limits,
            mut bytes,
            head,
        } = self;
        bytes.extend_from_slice(piece)?;
        match head {
            Some(head) => Ok(with_head(alloc, limits, bytes, head)),
            None => without_head(alloc, limits, bytes),
        }
    }
}

// By these bytes, whose head was not read.
fn without_head(alloc: Global, limits: Limits, bytes: Bytes) -> Result<Heard, NoMemory>
    ensures { IfOk result (λ heard. IsHeard limits bytes heard) }
{
    match read_head(alloc, bytes.as_slice(), &limits)? {
        Head::More => Ok(Heard::More(Reading {
            alloc,
            limits,
            bytes,
            head: None,
        })),
        Head::Bad(cause) => Ok(Heard::Bad(cause)),
        Head::Whole(head) => Ok(with_head(alloc, limits, bytes, head)),
    }
}

// .. whose head is this.
fn with_head(alloc: Global, limits: Limits, bytes: Bytes, head: WholeHead) -> Heard
    requires { IsRead limits bytes (Some head) }
    ensures { IsHeard limits bytes result }
{
    let rest = bytes.len() - head.used;
    if head.len > rest as u64 {
        return Heard::More(Reading {
            alloc,
            limits,
            bytes,
            head: Some(head),
        });
    }
    let WholeHead { fields, used, len } = head;
    Heard::Whole(Request {
        fields,
        bytes,
        start: used,
        len: len as usize,
    })
}
