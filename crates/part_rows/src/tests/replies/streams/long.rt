// Outputs about the size at which a reply begins without a tick, and a header that is about as long.
use super::super::super::tables::{Cells, Rows, are_right, is, push, repeated};
use super::super::ReplyRows;
use super::{GET, asked_of, end, has_begun, hear, is_ended, new_stream};
use host_base::NoMemory;
use reply_stream::{Asked, Last, Stream};
use std::alloc::Global;
use std::test::Fail;

// What is asked, the output, what is written before its end, and at its end: each a text, how many `a` follow it, and a text.
const LONG: &str = r"
// The 8,193rd byte begins the reply, and no sooner one.
GET | Content-Type: text/plain\n\n | 8166 |  |  | 0 |  | HTTP/1.1 200 OK\r\nContent-Type: text/plain\r\nContent-Length: 8166\r\n\r\n | 8166 |
GET | Content-Type: text/plain\n\n | 8167 |  | HTTP/1.1 200 OK\r\nContent-Type: text/plain\r\nTransfer-Encoding: chunked\r\n\r\n1fe7\r\n | 8167 | \r\n | 0\r\n\r\n | 0 |
OLD | Content-Type: text/plain\n\n | 8166 |  |  | 0 |  | HTTP/1.1 200 OK\r\nContent-Type: text/plain\r\nContent-Length: 8166\r\n\r\n | 8166 |
OLD | Content-Type: text/plain\n\n | 8167 |  | HTTP/1.1 200 OK\r\nContent-Type: text/plain\r\n\r\n | 8167 |  |  | 0 |
HEAD | Content-Type: text/plain\n\n | 9000 |  | HTTP/1.1 200 OK\r\nContent-Type: text/plain\r\n\r\n | 0 |  |  | 0 |
RAW |  | 8192 |  |  | 0 |  |  | 8192 |
RAW |  | 8193 |  |  | 8193 |  |  | 0 |
// A header of 8,192 bytes, of 8,191 and of 8,192 with a byte after it.
GET | Content-Type:\x20 | 8176 | \n\n |  | 0 |  | HTTP/1.1 200 OK\r\nContent-Type:\x20 | 8176 | \r\nContent-Length: 0\r\n\r\n
GET | Content-Type:\x20 | 8175 | \n\nx |  | 0 |  | HTTP/1.1 200 OK\r\nContent-Type:\x20 | 8175 | \r\nContent-Length: 1\r\n\r\nx
GET | Content-Type:\x20 | 8176 | \n\nx | HTTP/1.1 200 OK\r\nContent-Type:\x20 | 8176 | \r\nTransfer-Encoding: chunked\r\n\r\n1\r\nx\r\n | 0\r\n\r\n | 0 |
// A redirect without a document.
GET | Location: http://x/\n\n | 9000 |  |  | 0 |  | HTTP/1.1 302 Found\r\nLocation: http://x/\r\nContent-Length: 0\r\n\r\n | 0 |
";

// Long outputs of which nothing is written, and what they come to.
const UNWRITTEN: &str = r"
Location: /x\n\n | 9000 |  | hop | /x
Content-Type:\x20 | 8177 | \n\n | bad | HeaderTooLarge
Content-Type:\x20 | 8178 |  | bad | HeaderTooLarge
Content-Type:\x20 | 8177 |  | bad | HeaderIncomplete
x\n\n | 9000 |  | bad | HeaderLine
";

/// The text of the three cells from one on.
pub fn filled_at(alloc: Global, row: &Cells, place: usize) -> Result<Vec<u8>, NoMemory> {
    let count = row.size(place.saturating_add(1)).min(10_000);
    repeated(
        alloc,
        row.at(place),
        b"a",
        count,
        row.at(place.saturating_add(2)),
    )
}

// Adds what is written where a piece was told.
fn push_heard(
    alloc: Global,
    stream: &mut Stream,
    written: &mut Vec<u8>,
    piece: &[u8],
) -> Result<(), NoMemory> {
    let text = hear(alloc, stream, piece, false, false)?;
    push(written, text.as_slice())
}

fn push_all_heard(
    alloc: Global,
    stream: &mut Stream,
    written: &mut Vec<u8>,
    output: &[u8],
    size: usize,
) -> Result<(), NoMemory> {
    for piece in output.chunks(size.max(1)) {
        push_heard(alloc, stream, written, piece)?;
    }
    Ok(())
}

// Tells an output in a piece of `first` bytes and then in pieces of `size` bytes: what is written is this.
fn is_written(
    alloc: Global,
    stream: &mut Stream,
    output: &[u8],
    cut: (usize, usize),
    due: &[u8],
) -> Result<bool, NoMemory> {
    let mut written = Vec::new(alloc);
    let (first, rest) = output.split_at(cut.0.min(output.len()));
    push_heard(alloc, stream, &mut written, first)?;
    push_all_heard(alloc, stream, &mut written, rest, cut.1)?;
    Ok(is(written.as_slice(), due))
}

// The texts of a row.
#[derive(Drop)]
struct Texts {
    asked: Asked,
    output: Vec<u8>,
    before: Vec<u8>,
    rest: Vec<u8>,
}

fn texts_of(alloc: Global, row: &Cells) -> Result<Texts, NoMemory> {
    Ok(Texts {
        asked: asked_of(row),
        output: filled_at(alloc, row, 1)?,
        before: filled_at(alloc, row, 4)?,
        rest: filled_at(alloc, row, 7)?,
    })
}

fn is_rest(last: &Last, due: &[u8]) -> bool {
    match last {
        Last::Written(text) => is(text.as_slice(), due),
        Last::Hop(_) => false,
        Last::Bad(_) => false,
    }
}

// Whether an output is written so before its end, and the reply has then begun where anything was.
fn is_written_before(
    alloc: Global,
    stream: &mut Stream,
    output: &[u8],
    cut: (usize, usize),
    before: &[u8],
) -> Result<bool, NoMemory> {
    let written = is_written(alloc, stream, output, cut, before)?;
    Ok(written && has_begun(stream) == !before.is_empty())
}

/// Whether a stream ends with this.
pub fn ends(stream: Stream, due: &[u8]) -> Result<bool, NoMemory> {
    Ok(is_rest(&end(stream, false, false)?, due))
}

fn is_long_row(alloc: Global, texts: &Texts, first: usize, size: usize) -> Result<bool, NoMemory> {
    let mut stream = new_stream(alloc, texts.asked);
    let (output, before) = (texts.output.as_slice(), texts.before.as_slice());
    let written = is_written_before(alloc, &mut stream, output, (first, size), before)?;
    Ok(ends(stream, texts.rest.as_slice())? && written)
}

fn is_long_row_cut(alloc: Global, texts: &Texts) -> Result<bool, NoMemory> {
    let len = texts.output.len();
    for count in 0..len / 97 + 1 {
        if !is_long_row(alloc, texts, count.saturating_mul(97), len)? {
            return Ok(false);
        }
    }
    Ok(true)
}

fn is_long_row_cut_late(alloc: Global, texts: &Texts) -> Result<bool, NoMemory> {
    for before in 0..4 {
        if !is_long_row(alloc, texts, texts.output.len().saturating_sub(before), 1)? {
            return Ok(false);
        }
    }
    Ok(true)
}

// Whether it is written so in single bytes, and cut in two at every 97th place and at the last ones.
fn is_long_row_however_cut(alloc: Global, texts: &Texts) -> Result<bool, NoMemory> {
    Ok(
        is_long_row_cut(alloc, texts)?
            && is_long_row_cut_late(alloc, texts)?
            && is_long_row(alloc, texts, 0, 1)?,
    )
}

pub fn is_long(alloc: Global, row: &Cells) -> Result<bool, NoMemory> {
    let texts = texts_of(alloc, row)?;
    Ok(is_long_row_however_cut(alloc, &texts)? && row.len() == 10)
}

#[test]
fn long_outputs(rt: HostRuntime) -> Result<(), Fail> {
    are_right(&rt, rt.alloc(), LONG, 11, Rows::Reply(ReplyRows::Long))
}

fn is_unwritten_as(
    alloc: Global,
    output: &[u8],
    row: &Cells,
    first: usize,
    size: usize,
) -> Result<bool, NoMemory> {
    let mut stream = new_stream(alloc, GET);
    let unwritten = is_written_before(alloc, &mut stream, output, (first, size), b"")?;
    Ok(unwritten && is_ended(alloc, &end(stream, false, false)?, row, 3)?)
}

fn is_unwritten_however_cut(alloc: Global, output: &[u8], row: &Cells) -> Result<bool, NoMemory> {
    for (first, size) in [(0, 1), (0, 8192), (0, 10_000), (8191, 1)] {
        if !is_unwritten_as(alloc, output, row, first, size)? {
            return Ok(false);
        }
    }
    Ok(true)
}

pub fn is_unwritten(alloc: Global, row: &Cells) -> Result<bool, NoMemory> {
    let output = filled_at(alloc, row, 0)?;
    is_unwritten_however_cut(alloc, output.as_slice(), row)
}

#[test]
fn long_outputs_of_which_nothing_is_written(rt: HostRuntime) -> Result<(), Fail> {
    are_right(
        &rt,
        rt.alloc(),
        UNWRITTEN,
        5,
        Rows::Reply(ReplyRows::Unwritten),
    )
}

// Tells a piece: this is written.
fn is_answered(
    alloc: Global,
    stream: &mut Stream,
    piece: &[u8],
    close: bool,
    due: &[u8],
) -> Result<bool, NoMemory> {
    Ok(is(hear(alloc, stream, piece, close, false)?.as_slice(), due))
}

fn is_long_document(alloc: Global, output: &[u8], begun: &[u8]) -> Result<bool, NoMemory> {
    let mut stream = new_stream(alloc, GET);
    let heard = is_answered(alloc, &mut stream, output, true, begun)?
        && is_answered(alloc, &mut stream, b"b", false, b"1\r\nb\r\n")?;
    Ok(heard && ends(stream, b"0\r\n\r\n")?)
}

fn is_a_long_document(alloc: Global) -> Result<bool, NoMemory> {
    let begun = repeated(
        alloc,
        b"HTTP/1.1 200 OK\r\nContent-Type: text/plain\r\nTransfer-Encoding: chunked\r\nConnection: close\r\n\r\n2328\r\n",
        b"a",
        9000,
        b"\r\n",
    )?;
    let output = repeated(alloc, b"Content-Type: text/plain\n\n", b"a", 9000, b"")?;
    is_long_document(alloc, output.as_slice(), begun.as_slice())
}

// A long document in one piece, one byte more, and the end.
#[test]
fn a_long_document(rt: HostRuntime) -> Result<(), Fail> {
    assert!(rt; is_a_long_document(rt.alloc())?);
    Ok(())
}
