// What bodies in chunks are read as, whole, byte by byte and cut in two at each place, and how heads
// delimit their bodies.
use super::super::tables::{
    Cells, Rows, are_right, bytes_of, is, number_of, parts_of, push_field, repeated,
};
use super::RequestRows;
use body_framing::{ChunkStep, Chunks, framing_of};
use host_base::{Cause, Fields, Framing, Head, Limits, NoMemory, Version};
use std::alloc::Global;
use std::test::Fail;

// Bytes, after how many of them the body ends or is refused (`never`: it does not), the cause, and the data, at most 5 bytes.
const BODIES: &str = r#"
5\r\nabcde\r\n0\r\n\r\n | 15 | - | abcde
0\r\n\r\n | 5 | - |
00\r\n\r\n | 6 | - |
0000000000000000\r\n\r\n | 20 | - |
5;x=1\r\nabcde\r\n0\r\nA: b\r\n\r\n | 25 | - | abcde
2\r\nab\r\n03\r\ncde\r\n0\r\n\r\nPOST | 21 | - | abcde
2\r\n\r\n\r\n0\r\n\r\n\r\n | 12 | - | \r\n
1 \r\na\r\n0\t\r\n\r\n | 13 | - | a
1;\r\na\r\n0;a;b="c"\r\n\r\n | 20 | - | a
0\r\n:\r\nB\r\n\r\n0\r\n | 11 | - |
5\r\nabc | never | - | abc
| never | - |
0\r\n | never | - |
0\r\n\r | never | - |
0\r\nA\r\n | never | - |
6 | 1 | BodyTooLong |
2\r\nab\r\n4 | 8 | BodyTooLong | ab
f\r\n | 1 | BodyTooLong |
F\r\n | 1 | BodyTooLong |
10\r\n | 2 | BodyTooLong |
0000000000000006\r\n | 16 | BodyTooLong |
5\r\nabcde\r\n1 | 11 | BodyTooLong | abcde
ffffffffffffffff\r\n | 1 | BodyTooLong |
00000000000000000\r\n | 17 | BadChunk |
\r\n | 1 | BadChunk |
\n | 1 | BadChunk |
5\n | 2 | BadChunk |
5\r\r | 3 | BadChunk |
5\ra | 3 | BadChunk |
\x205\r\n | 1 | BadChunk |
\t5\r\n | 1 | BadChunk |
+5\r\n | 1 | BadChunk |
-1\r\n | 1 | BadChunk |
0x5\r\n | 2 | BadChunk |
g\r\n | 1 | BadChunk |
G\r\n | 1 | BadChunk |
/\r\n | 1 | BadChunk |
:\r\n | 1 | BadChunk |
@\r\n | 1 | BadChunk |
`\r\n | 1 | BadChunk |
5_\r\n | 2 | BadChunk |
5;\0\r\n | 3 | BadChunk |
5;a\n | 4 | BadChunk |
5;a\rb | 5 | BadChunk |
1\r\naX | 5 | BadChunk | a
1\r\na\n | 5 | BadChunk | a
1\r\na\rX | 6 | BadChunk | a
1\r\nab\r\n | 5 | BadChunk | a
0\r\n\n | 4 | BadChunk |
0\r\nA\0 | 5 | BadChunk |
0\r\nA\n | 5 | BadChunk |
0\r\nA\rB | 6 | BadChunk |
0\r\n\rA | 5 | BadChunk |
"#;

// The same with at most 31 bytes of data: digits above 9, in both cases.
const LETTERED: &str = r"
a\r\n0123456789\r\n0\r\n\r\n | 20 | - | 0123456789
A\r\n0123456789\r\n0\r\n\r\n | 20 | - | 0123456789
0f;A=F\r\n0123456789abcde\r\n0\r\n\r\n | 30 | - | 0123456789abcde
1F\r\n0123456789012345678901234567890\r\n0\r\n\r\n | 42 | - | 0123456789012345678901234567890
000000000000001f\r\n0123456789012345678901234567890\r\n0\r\n\r\nPOST | 56 | - | 0123456789012345678901234567890
F\r\n0123456789abcde\r\ne\r\n0123456789abcd\r\n2\r\n\r\n\r\n0\r\n\r\n | 51 | - | 0123456789abcde0123456789abcd\r\n
20\r\n | 2 | BodyTooLong |
1e\r\n012345678901234567890123456789\r\n2\r\n | 37 | BodyTooLong | 012345678901234567890123456789
";

// A body with a part that is repeated: what stands before it, the part, how often, what follows, and the
// answer as in the table above.
const LONG_BODIES: &str = r"
1; | 255 | \r\na\r\n0\r\n\r\n | 267 | -
1; | 256 | \r\na\r\n0\r\n\r\n | 258 | BadChunk
0\r\nA | 8191 | \r\n\r\n | 8199 | -
0\r\nA | 8192 | \r\n\r\n | 8196 | BadChunk
0\r\n1234\r\n | 8189 | \r\n\r\n | 8198 | BadChunk
";

// Whether so many bytes have the answer that is due: in all pieces so far, of which `before` came
// before the last one.
fn is_due(step: ChunkStep, count: usize, before: usize, end: usize, cause: Option<Cause>) -> bool {
    match step {
        ChunkStep::More => count < end,
        ChunkStep::End { used } => {
            count >= end && cause.is_none() && used == end.saturating_sub(before)
        }
        ChunkStep::Bad(found) => count >= end && cause == Some(found),
    }
}

// Whether a piece behind so many bytes has the answer that is due.
fn is_fed(
    chunks: &mut Chunks,
    piece: &[u8],
    before: &mut usize,
    due: (usize, Option<Cause>),
) -> Result<bool, NoMemory> {
    let step = chunks.feed(piece)?;
    let count = before.saturating_add(piece.len());
    let right = is_due(step, count, *before, due.0, due.1);
    *before = count;
    Ok(right)
}

fn are_fed(
    chunks: &mut Chunks,
    rest: &[u8],
    size: usize,
    before: &mut usize,
    due: (usize, Option<Cause>),
) -> Result<bool, NoMemory> {
    for piece in rest.chunks(size.max(1)) {
        if !is_fed(chunks, piece, before, due)? {
            return Ok(false);
        }
    }
    Ok(true)
}

fn has_data(chunks: &Chunks, data: Option<&[u8]>) -> bool {
    match data {
        Some(data) => is(chunks.body(), data),
        None => true,
    }
}

// Whether the text in a piece of `first` bytes and then in pieces of `size` bytes has the answer that is
// due, each time, with at most `limit` bytes of data.
fn is_read(
    alloc: Global,
    limit: u64,
    text: &[u8],
    cut: (usize, usize),
    due: (usize, Option<Cause>),
    data: Option<&[u8]>,
) -> Result<bool, NoMemory> {
    let mut chunks = Chunks::new(alloc, limit);
    let (first, rest) = text.split_at(cut.0.min(text.len()));
    let mut before: usize = 0;
    let whole = is_fed(&mut chunks, first, &mut before, due)?;
    Ok(whole && are_fed(&mut chunks, rest, cut.1, &mut before, due)? && has_data(&chunks, data))
}

// Whether it has it whole, byte by byte, and cut in two at each place.
fn is_read_however_cut(
    alloc: Global,
    limit: u64,
    text: &[u8],
    due: (usize, Option<Cause>),
    data: Option<&[u8]>,
) -> Result<bool, NoMemory> {
    for first in 0..text.len() + 1 {
        if !is_read(alloc, limit, text, (first, text.len()), due, data)? {
            return Ok(false);
        }
    }
    is_read(alloc, limit, text, (0, 1), due, data)
}

fn is_body(alloc: Global, limit: u64, row: &Cells) -> Result<bool, NoMemory> {
    let due = (row.size(1), row.cause(2));
    is_read_however_cut(alloc, limit, row.at(0), due, Some(row.at(3)))
}

pub fn is_short_body(alloc: Global, row: &Cells) -> Result<bool, NoMemory> {
    is_body(alloc, 5, row)
}

pub fn is_lettered_body(alloc: Global, row: &Cells) -> Result<bool, NoMemory> {
    is_body(alloc, 31, row)
}

#[test]
fn bodies_however_they_are_cut(rt: HostRuntime) -> Result<(), Fail> {
    are_right(
        &rt,
        rt.alloc(),
        BODIES,
        53,
        Rows::Request(RequestRows::ShortBody),
    )?;
    are_right(
        &rt,
        rt.alloc(),
        LETTERED,
        8,
        Rows::Request(RequestRows::LetteredBody),
    )
}

pub fn is_long_body(alloc: Global, row: &Cells) -> Result<bool, NoMemory> {
    let times = row.size(1).min(100_000);
    let text = repeated(alloc, row.at(0), b"x", times, row.at(2))?;
    let due = (row.size(3), row.cause(4));
    is_read_however_cut(alloc, 5, text.as_slice(), due, None)
}

#[test]
fn the_limits_edges(rt: HostRuntime) -> Result<(), Fail> {
    are_right(
        &rt,
        rt.alloc(),
        LONG_BODIES,
        5,
        Rows::Request(RequestRows::LongBody),
    )
}

// The framing that is due in HTTP/1.1, with a limit of 100 bytes, or the cause; and the names and values of the field lines.
const FRAMINGS: &str = r"
Empty
Empty | Content-Lengths | 3
Length 3 | Content-Length | 3
Length 3 | CONTENT-LENGTH | \x20\t3\x20
Length 0 | Content-Length | 0
Length 0 | Content-Length | 000
Length 3 | Content-Length | 03
Length 100 | Content-Length | 100
BodyTooLong | Content-Length | 101
BodyTooLong | Content-Length | 18446744073709551616
BodyTooLong | Content-Length | 18446744073709551619
Length 3 | Content-Length | 00000000000000000003
BodyTooLong | Content-Length | 99999999999999999999
BadFraming | Content-Length |
BadFraming | Content-Length | \x20
BadFraming | Content-Length | +3
BadFraming | Content-Length | -3
BadFraming | Content-Length | 3,3
BadFraming | Content-Length | 0x3
BadFraming | Content-Length | 3 3
Length 3 | Content-Length | 3 | content-length | 003
BadFraming | Content-Length | 3 | Content-Length | 4
BadFraming | Content-Length | 3 | Content-Length |
BadFraming | Content-Length | 101 | Content-Length | 3
Chunked | Transfer-Encoding | chunked
Chunked | TRANSFER-ENCODING | , Chunked\t,
BadFraming | Transfer-Encoding | chunked, chunked
BadFraming | Transfer-Encoding | chunked | Transfer-Encoding | chunked
BadFraming | Transfer-Encoding |
BadFraming | Transfer-Encoding | \x20,,
CodingUnknown | Transfer-Encoding | gzip
CodingUnknown | Transfer-Encoding | gzip, chunked
CodingUnknown | Transfer-Encoding | chunked, identity
CodingUnknown | Transfer-Encoding | xchunked
CodingUnknown | Transfer-Encoding | chunked;a=b
BadFraming | Transfer-Encoding | chunked | Content-Length | 3
BadFraming | Content-Length | 3 | Transfer-Encoding | chunked
BadFraming | Content-Length | x | Transfer-Encoding | gzip
";

fn push_line(alloc: Global, fields: &mut Fields, line: &[Vec<u8>]) -> Result<(), NoMemory> {
    match line {
        [name, value] => push_field(alloc, fields, name.as_slice(), value.as_slice()),
        _ => Ok(()),
    }
}

fn fields_of(alloc: Global, row: &Cells) -> Result<Fields, NoMemory> {
    let mut fields = Fields::new(alloc);
    for line in row.from(1).chunks(2) {
        push_line(alloc, &mut fields, line)?;
    }
    Ok(fields)
}

fn head_of(alloc: Global, version: Version, row: &Cells) -> Result<Head, NoMemory> {
    Ok(Head {
        method: bytes_of(alloc, b"POST")?,
        target: bytes_of(alloc, b"/")?,
        version,
        fields: fields_of(alloc, row)?,
    })
}

// The framing that a row names, or the cause.
fn framing_due(row: &Cells) -> Result<Framing, Cause> {
    let (word, count) = parts_of(row.text(0), " ");
    match word {
        "Empty" => Ok(Framing::Empty),
        "Chunked" => Ok(Framing::Chunked),
        "Length" => Ok(Framing::Length(number_of(count))),
        _ => Err(row.cause(0).unwrap_or(Cause::NoOutput)),
    }
}

fn is_coding(name: &[u8]) -> bool {
    name.eq_ignore_ascii_case(b"Transfer-Encoding")
}

fn is_coded(row: &Cells) -> bool {
    for name in row.from(1).iter().step_by(2) {
        if is_coding(name.as_slice()) {
            return true;
        }
    }
    false
}

fn framing_due_in(version: Version, row: &Cells) -> Result<Framing, Cause> {
    if version == Version::V10 && is_coded(row) {
        Err(Cause::BadFraming)
    } else {
        framing_due(row)
    }
}

fn framing_given(head: &Head) -> Result<Framing, Cause> {
    let limits = Limits {
        body: 100,
        ..Limits::default()
    };
    framing_of(head, &limits)
}

fn is_framed(alloc: Global, version: Version, row: &Cells) -> Result<bool, NoMemory> {
    let given = framing_given(&head_of(alloc, version, row)?);
    Ok(given == framing_due_in(version, row))
}

pub fn is_framed_in_both(alloc: Global, row: &Cells) -> Result<bool, NoMemory> {
    Ok(is_framed(alloc, Version::V10, row)? && is_framed(alloc, Version::V11, row)?)
}

#[test]
fn how_heads_delimit_their_bodies(rt: HostRuntime) -> Result<(), Fail> {
    are_right(
        &rt,
        rt.alloc(),
        FRAMINGS,
        38,
        Rows::Request(RequestRows::Framed),
    )
}
