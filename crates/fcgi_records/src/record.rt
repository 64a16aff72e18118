// A record (FastCGI 1.0, 3.3).
ghost use Rattle.std.specs.Prelude.{◌≡◌, ◌≤◌, ◌<◌, ◌^◌, length, IfOk};
ghost use Rattle.fcgi_records.specs.Records.{header_bytes, record_bytes};

use host_base::{Bytes, NoMemory};
use std::alloc::Global;

/// A record, without its padding.
#[derive(Drop, Debug)]
pub struct Record {
    /// The type, one of `kinds` or another.
    pub kind: u8,
    /// The request that it belongs to; 0 for none.
    pub id: u16,
    /// At most 65,535 bytes.
    pub content: Bytes,
}

/// What the 8 bytes at the front of a record say.
#[derive(Clone, Copy, Debug, PartialEq, Eq)]
pub struct Header {
    pub kind: u8,
    pub id: u16,
    /// Bytes of the content.
    pub len: u16,
    /// Bytes of the padding behind it.
    pub padding: u8,
}

/// What stands at the front of the bytes that were fed.
#[derive(Drop, Debug)]
pub enum RecStep {
    Got(Record),
    /// The next record has not ended.
    More,
    /// What comes next is no record of version 1.
    Bad,
}

/// The 8 bytes that stand before a content of `len` bytes, with no padding behind it.
pub fn record_header(kind: u8, id: u16, len: u16) -> [u8; 8]
    ensures { result ≡ header_bytes kind id len }
{
    [
        1,
        kind,
        (id / 256) as u8,
        (id % 256) as u8,
        (len / 256) as u8,
        (len % 256) as u8,
        0,
        0,
    ]
}

/// A record as it is written, with no padding. The content has at most 65,535 bytes.
pub fn record_text(alloc: Global, kind: u8, id: u16, content: &[u8]) -> Result<Bytes, NoMemory>
    requires { length content.now ≤ 65535 }
    ensures { IfOk result (λ text. text ≡ record_bytes kind id content.now) }
{
    let len = content.len();
    let mut text = Bytes::with_capacity(alloc, 8 + len)?;
    text.extend_from_slice(&record_header(kind, id, len as u16))?;
    text.extend_from_slice(content)?;
    Ok(text)
}
