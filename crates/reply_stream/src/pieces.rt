// What is written of a body, piece by piece, and at its end.
ghost use Rattle.std.specs.Prelude.{◌≡◌, ◌++◌, true, IfOk, OnErr, OnOk};
ghost use Rattle.reply_stream.specs.Stages.{chunked_text, piece_text_of, end_text_of, has_mark};

use crate::stage::Flow;
use host_base::{Bytes, NoMemory};
use reply_writer::{END_MARK, chunk_text};
use std::alloc::Global;

// Adds a piece as a chunk; an empty one would end the body (RFC 9112 7.1).
fn push_chunk(alloc: Global, text: &mut Bytes, piece: &[u8]) -> Result<(), NoMemory>
    ensures { OnOk result (text.new ≡ text.old ++ chunked_text piece.now) }
{
    if piece.is_empty() {
        return Ok(());
    }
    let chunk = chunk_text(alloc, piece)?;
    text.extend_from_slice(chunk.as_slice())
}

// Adds a piece of the body to what is written.
pub fn push_piece(alloc: Global, text: &mut Bytes, flow: Flow, piece: &[u8]) -> Result<(), NoMemory>
    ensures { OnOk result (text.new ≡ text.old ++ piece_text_of flow piece.now) }
{
    match flow {
        Flow::Nothing | Flow::Mark => Ok(()),
        Flow::Chunks => push_chunk(alloc, text, piece),
        Flow::Plain => text.extend_from_slice(piece),
    }
}

// A piece as it is written. One that is written as it is isn't copied.
pub fn piece_text(alloc: Global, flow: Flow, piece: Bytes) -> Result<Bytes, NoMemory>
    ensures { IfOk result (λ text. text ≡ piece_text_of flow piece) }
{
    match flow {
        Flow::Nothing | Flow::Mark => Ok(Bytes::new(alloc)),
        Flow::Chunks => chunk_of(alloc, piece),
        Flow::Plain => Ok(piece),
    }
}

fn chunk_of(alloc: Global, piece: Bytes) -> Result<Bytes, NoMemory>
    ensures { IfOk result (λ text. text ≡ chunked_text piece) }
{
    if piece.is_empty() {
        Ok(piece)
    } else {
        chunk_text(alloc, piece.as_slice())
    }
}

// What is written where the body has ended.
pub fn end_text(alloc: Global, flow: Flow) -> Result<Bytes, NoMemory>
    ensures text { IfOk result (λ text. text ≡ end_text_of flow) }
    ensures memory { OnErr result (has_mark flow ≡ true) }
{
    match flow {
        Flow::Mark | Flow::Chunks => Bytes::from_slice(alloc, END_MARK),
        Flow::Nothing | Flow::Plain => Ok(Bytes::new(alloc)),
    }
}
