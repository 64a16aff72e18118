// A piece of a body as a chunk.
ghost use Rattle.std.specs.Prelude.{◌≡◌, ◌<◌, length, IfOk};
ghost use Rattle.reply_writer.specs.Chunks.{chunk_text_of};

use host_base::{Bytes, NoMemory};
use std::alloc::Global;
use std::fmt::Write;

/// What ends a body in chunks: the last chunk and no trailer fields (RFC 9112 7.1).
pub const END_MARK: &[u8] = b"0\r\n\r\n";

// Room for the size of a chunk in hex, 16 digits at most, and two line ends.
const CHUNK_ROOM: usize = 20;

/// One chunk with these bytes, without extensions (RFC 9112 7.1).
pub fn chunk_text(alloc: Global, piece: &[u8]) -> Result<Bytes, NoMemory>
    requires { 0 < length piece.now }
    ensures { IfOk result (λ text. text ≡ chunk_text_of piece.now) }
{
    let room = piece.len().saturating_add(CHUNK_ROOM);
    let mut size = String::with_capacity(alloc, room)?;
    write!(size, "{:x}\r\n", piece.len())?;
    let mut text = Bytes::from_vec(size.into_bytes());
    text.extend_from_slice(piece)?;
    text.extend_from_slice(b"\r\n")?;
    Ok(text)
}
