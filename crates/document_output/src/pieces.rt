// The output of a document in pieces.
ghost use Rattle.std.specs.Prelude.{◌≡◌, ◌≤◌, ◌<◌, ◌++◌, ◌∷◌, [], length, All, IfOk, OnOk};
ghost use Rattle.std.specs.List.{concat};
ghost use Rattle.document_output.specs.Output.{bytes_of, output_of};
ghost use Rattle.document_output.specs.Pieces.{IsPiece};

use crate::output::{Parts, output_parts};
use crate::read::DocRead;
use host_base::{Bytes, DocRoot, Launch, NoMemory};
use std::alloc::Global;
use std::collections::VecDeque;

/// The most bytes of a piece.
pub const MOST_PIECE: usize = 65_536;

// The first piece of bytes, and what follows it.
fn cut(bytes: &[u8]) -> (&[u8], &[u8])
    requires { 0 < length bytes.now }
    ensures whole { result.0.now ++ result.1.now ≡ bytes.now }
    ensures some { 1 ≤ length result.0.now }
    ensures few { length result.0.now ≤ MOST_PIECE }
    ensures shorter { length result.1.now < length bytes.now }
{
    bytes.split_at(bytes.len().min(MOST_PIECE))
}

fn push_piece(alloc: Global, pieces: &mut VecDeque<Bytes>, piece: &[u8]) -> Result<(), NoMemory>
    ensures { OnOk result (pieces.new.items ≡ pieces.old.items ++ piece.now ∷ []) }
{
    pieces.push_back(Bytes::from_slice(alloc, piece)?)?;
    Ok(())
}

// Adds bytes, cut into pieces.
fn push_cut(alloc: Global, pieces: &mut VecDeque<Bytes>, bytes: &[u8]) -> Result<(), NoMemory>
    requires { All IsPiece pieces.old.items }
    ensures joined { OnOk result (concat pieces.new.items ≡ concat pieces.old.items ++ bytes.now) }
    ensures each { OnOk result (All IsPiece pieces.new.items) }
{
    let mut rest = bytes;
    while !rest.is_empty() {
        let (piece, more) = cut(rest);
        push_piece(alloc, pieces, piece)?;
        rest = more;
    }
    Ok(())
}

// Adds bytes to others as far as a piece has room, and gives the rest.
fn fill<'a>(first: &mut Bytes, bytes: &'a [u8]) -> Result<&'a [u8], NoMemory>
    ensures { IfOk result (λ rest. first.new ++ rest.now ≡ first.old ++ bytes.now) }
{
    let room = MOST_PIECE.saturating_sub(first.len());
    let (front, rest) = bytes.split_at(room.min(bytes.len()));
    first.extend_from_slice(front)?;
    Ok(rest)
}

/// The `document_output` in pieces of 1 to 65,536 bytes, of which the first has the script header and as much of
/// the file as it holds. The file is copied once.
pub fn document_pieces(
    alloc: Global,
    docs: &[DocRoot],
    launch: &Launch,
    found: &DocRead,
) -> Result<VecDeque<Bytes>, NoMemory>
    ensures joined { IfOk result (λ pieces. concat pieces.items ≡ output_of docs.now launch.now (bytes_of found.now)) }
    ensures each { IfOk result (λ pieces. All IsPiece pieces.items) }
{
    let Parts { text, file } = output_parts(alloc, docs, launch, found)?;
    let mut first = text;
    let rest = fill(&mut first, file)?;
    let mut pieces = VecDeque::new(alloc);
    push_cut(alloc, &mut pieces, first.as_slice())?;
    push_cut(alloc, &mut pieces, rest)?;
    Ok(pieces)
}
