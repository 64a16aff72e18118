// Records of a connection, in whatever pieces their bytes come (FastCGI 1.0, 3.3).
ghost use Rattle.std.specs.Prelude.{◌≡◌, ◌≤◌, length};
ghost use Rattle.fcgi_records.specs.Records.{header_of, is_bad};

use crate::record::{Header, RecStep, Record};
use host_base::{Bytes, NoMemory};
use std::alloc::Global;
use std::marker::Model;

/// The bytes that were fed and are not read yet. Each byte is moved twice at most, however many records stand in a piece:
/// those that were read are let go when the next piece is fed.
#[derive(Drop, Debug)]
pub struct Records {
    bytes: Vec<u8>,
    // The bytes from here on are not read yet.
    at: usize,
    ghost within: { at ≤ length bytes.items },
}

impl Model for Records {
    ghost use Rattle.std.specs.Prelude.{List, ℕ, drop};

    ghost Value = { List ℕ };

    ghost view = { λ r. drop r.at r.bytes.items };
}

// The header at the front, where 8 bytes are there.
fn header_of(bytes: &[u8]) -> Option<Header>
    ensures { result ≡ header_of bytes.now }
{
    let [
        _version,
        kind,
        id_high,
        id_low,
        len_high,
        len_low,
        padding,
        _reserved,
        ..
    ] = bytes
    else {
        return None;
    };
    Some(Header {
        kind: *kind,
        id: u16::from(*id_high) * 256 + u16::from(*id_low),
        len: u16::from(*len_high) * 256 + u16::from(*len_low),
        padding: *padding,
    })
}

// Whether no record can stand here.
fn is_bad(bytes: &[u8]) -> bool
    ensures { result ≡ is_bad bytes.now }
{
    match bytes {
        [first, ..] => *first != 1,
        [] => false,
    }
}

impl Records {
    ghost use Rattle.std.specs.Prelude.{◌≡◌, ◌++◌, [], OnOk, OnErr, IfOk};
    ghost use Rattle.fcgi_records.specs.Records.{front_record, behind};

    /// A reader that was fed nothing. It takes no memory.
    pub fn new(alloc: Global) -> Self
        ensures { result ≡ [] }
    {
        Records {
            bytes: Vec::new(alloc),
            at: 0,
        }
    }

    // Lets the bytes go that were read.
    fn shrink(&mut self)
        ensures { self.new ≡ self.old }
    {
        if self.at > 0 {
            self.bytes.drain(..self.at);
            self.at = 0;
        }
    }

    /// Takes bytes of the connection. For want of memory nothing changes.
    pub fn feed(&mut self, piece: &[u8]) -> Result<(), NoMemory>
        ensures ok { OnOk result (self.new ≡ self.old ++ piece.now) }
        ensures err { OnErr result (self.new ≡ self.old) }
    {
        self.shrink();
        self.bytes.extend_from_slice(piece)?;
        Ok(())
    }

    // The bytes that are not read yet.
    fn rest(&self) -> &[u8]
        ensures { result.now ≡ self.now }
    {
        &self.bytes[self.at..]
    }

    /// The record at the front of what is not read yet, which counts as read then. `Bad` comes as soon as the first byte
    /// is there and isn't 1, the version, and again at each later call. For want of memory nothing changes.
    pub fn next(&mut self) -> Result<RecStep, NoMemory>
        ensures step { IfOk result (λ step. step ≡ front_record self.old) }
        ensures ok { OnOk result (self.new ≡ behind self.old) }
        ensures err { OnErr result (self.new ≡ self.old) }
    {
        let rest = self.rest();
        if is_bad(rest) {
            return Ok(RecStep::Bad);
        }
        let Some(header) = header_of(rest) else {
            return Ok(RecStep::More);
        };
        let len = usize::from(header.len);
        let whole = 8 + len + usize::from(header.padding);
        if whole > rest.len() {
            return Ok(RecStep::More);
        }
        let content = Bytes::from_slice(*self.bytes.allocator(), &rest[8..8 + len])?;
        self.at += whole;
        Ok(RecStep::Got(Record {
            kind: header.kind,
            id: header.id,
            content,
        }))
    }
}
