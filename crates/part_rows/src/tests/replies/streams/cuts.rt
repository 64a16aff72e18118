// Outputs whole, in single bytes and cut at each place, with a tick at each place: what each call writes.
use super::super::super::tables::{Cells, Rows, are_right, is, is_joined, joined};
use super::super::ReplyRows;
use super::{asked_of, end, has_begun, hear, is_ended, new_stream, tick};
use host_base::{Bytes, NoMemory};
use reply_stream::{Last, Stream};
use std::alloc::Global;
use std::test::Fail;

// How the body follows the head of a reply that has begun.
#[derive(Clone, Copy)]
enum Body {
    Chunks,
    Plain,
    // Nothing of the body, and the end mark of chunks.
    EndMark,
    Nothing,
}

use Body::{Chunks, EndMark, Nothing, Plain};

// What is asked, whether the connection closes after the reply, whether it has a Date, and the output, by its header and its body;
// the head with which a tick begins the reply once the header is whole, and how the body follows it, or `-` where none begins it; and
// what the output comes to where nothing was written before its end.
const ROWS: &str = r"
// A document, in each version and for HEAD.
GET | yes | no | Content-Type: text/plain\n\n | hi\n | HTTP/1.1 200 OK\r\nContent-Type: text/plain\r\nTransfer-Encoding: chunked\r\nConnection: close\r\n\r\n | Chunks | rest | HTTP/1.1 200 OK\r\nContent-Type: text/plain\r\nContent-Length: 3\r\nConnection: close\r\n\r\nhi\n
GET | yes | yes | Content-Type: text/plain\n\n | hi\n | HTTP/1.1 200 OK\r\nContent-Type: text/plain\r\nDate: Sun, 06 Nov 1994 08:49:37 GMT\r\nTransfer-Encoding: chunked\r\nConnection: close\r\n\r\n | Chunks | rest | HTTP/1.1 200 OK\r\nContent-Type: text/plain\r\nDate: Sun, 06 Nov 1994 08:49:37 GMT\r\nContent-Length: 3\r\nConnection: close\r\n\r\nhi\n
GET | no | no | Content-Type: text/plain\r\n\r\n | 0123456789ab | HTTP/1.1 200 OK\r\nContent-Type: text/plain\r\nTransfer-Encoding: chunked\r\n\r\n | Chunks | rest | HTTP/1.1 200 OK\r\nContent-Type: text/plain\r\nContent-Length: 12\r\n\r\n0123456789ab
GET | no | no | Content-Type: text/plain\n\n |  | HTTP/1.1 200 OK\r\nContent-Type: text/plain\r\nTransfer-Encoding: chunked\r\n\r\n | Chunks | rest | HTTP/1.1 200 OK\r\nContent-Type: text/plain\r\nContent-Length: 0\r\n\r\n
OLD | yes | no | Content-Type: text/plain\n\n | hi\n | HTTP/1.1 200 OK\r\nContent-Type: text/plain\r\nConnection: close\r\n\r\n | Plain | rest | HTTP/1.1 200 OK\r\nContent-Type: text/plain\r\nContent-Length: 3\r\nConnection: close\r\n\r\nhi\n
OLD | yes | yes | Content-Type: text/plain\n\n | hi\n | HTTP/1.1 200 OK\r\nContent-Type: text/plain\r\nDate: Sun, 06 Nov 1994 08:49:37 GMT\r\nConnection: close\r\n\r\n | Plain | rest | HTTP/1.1 200 OK\r\nContent-Type: text/plain\r\nDate: Sun, 06 Nov 1994 08:49:37 GMT\r\nContent-Length: 3\r\nConnection: close\r\n\r\nhi\n
HEAD | yes | no | Content-Type: text/plain\n\n | hi\n | HTTP/1.1 200 OK\r\nContent-Type: text/plain\r\nConnection: close\r\n\r\n | Nothing | rest | HTTP/1.1 200 OK\r\nContent-Type: text/plain\r\nConnection: close\r\n\r\n
HEAD | no | yes | Content-Type: text/plain\n\n | hi\n | HTTP/1.1 200 OK\r\nContent-Type: text/plain\r\nDate: Sun, 06 Nov 1994 08:49:37 GMT\r\n\r\n | Nothing | rest | HTTP/1.1 200 OK\r\nContent-Type: text/plain\r\nDate: Sun, 06 Nov 1994 08:49:37 GMT\r\n\r\n
OLD_HEAD | no | no | Content-Type: text/plain\n\n | hi\n | HTTP/1.1 200 OK\r\nContent-Type: text/plain\r\n\r\n | Nothing | rest | HTTP/1.1 200 OK\r\nContent-Type: text/plain\r\n\r\n
// A script's own Date.
GET | no | yes | Content-Type: a\ndate: then\n\n | hi | HTTP/1.1 200 OK\r\nContent-Type: a\r\ndate: then\r\nTransfer-Encoding: chunked\r\n\r\n | Chunks | rest | HTTP/1.1 200 OK\r\nContent-Type: a\r\ndate: then\r\nContent-Length: 2\r\n\r\nhi
OLD | yes | yes | Content-Type: a\ndate: then\n\n | hi | HTTP/1.1 200 OK\r\nContent-Type: a\r\ndate: then\r\nConnection: close\r\n\r\n | Plain | rest | HTTP/1.1 200 OK\r\nContent-Type: a\r\ndate: then\r\nContent-Length: 2\r\nConnection: close\r\n\r\nhi
// 204 and 304 have no body and no framing field (RFC 9110 15.3.5 and 15.4.5).
GET | no | no | Status: 204\n\n | hi\n | HTTP/1.1 204 No Content\r\n\r\n | Nothing | rest | HTTP/1.1 204 No Content\r\n\r\n
OLD | yes | yes | Status: 204\n\n | hi\n | HTTP/1.1 204 No Content\r\nDate: Sun, 06 Nov 1994 08:49:37 GMT\r\nConnection: close\r\n\r\n | Nothing | rest | HTTP/1.1 204 No Content\r\nDate: Sun, 06 Nov 1994 08:49:37 GMT\r\nConnection: close\r\n\r\n
GET | no | no | Status: 304\n\n | hi\n | HTTP/1.1 304 Not Modified\r\n\r\n | Nothing | rest | HTTP/1.1 304 Not Modified\r\n\r\n
OLD | yes | no | Status: 304\n\n | hi\n | HTTP/1.1 304 Not Modified\r\nConnection: close\r\n\r\n | Nothing | rest | HTTP/1.1 304 Not Modified\r\nConnection: close\r\n\r\n
// 205 has an empty body (RFC 9110 15.3.6).
GET | no | no | Status: 205\n\n | hi\n | HTTP/1.1 205 Reset Content\r\nTransfer-Encoding: chunked\r\n\r\n | EndMark | rest | HTTP/1.1 205 Reset Content\r\nContent-Length: 0\r\n\r\n
OLD | yes | no | Status: 205\n\n | hi\n | HTTP/1.1 205 Reset Content\r\nConnection: close\r\n\r\n | Nothing | rest | HTTP/1.1 205 Reset Content\r\nContent-Length: 0\r\nConnection: close\r\n\r\n
HEAD | no | no | Status: 205\n\n | hi\n | HTTP/1.1 205 Reset Content\r\n\r\n | Nothing | rest | HTTP/1.1 205 Reset Content\r\n\r\n
// A script that writes its own reply (RFC 3875 5).
RAW | yes | yes |  | HTTP/1.0 200 OK\r\n\r\nx |  | Plain | rest | HTTP/1.0 200 OK\r\n\r\nx
RAW | no | no |  |  |  | Plain | bad | NoOutput
// A redirect with a document, and one without (RFC 3875 6.2.3 and 6.2.4).
GET | no | no | Location: http://x/\nContent-Type: a\n\n | hi\n | HTTP/1.1 302 Found\r\nLocation: http://x/\r\nContent-Type: a\r\nTransfer-Encoding: chunked\r\n\r\n | Chunks | rest | HTTP/1.1 302 Found\r\nLocation: http://x/\r\nContent-Type: a\r\nContent-Length: 3\r\n\r\nhi\n
OLD | yes | yes | Location: http://x/\nContent-Type: a\n\n | hi\n | HTTP/1.1 302 Found\r\nLocation: http://x/\r\nContent-Type: a\r\nDate: Sun, 06 Nov 1994 08:49:37 GMT\r\nConnection: close\r\n\r\n | Plain | rest | HTTP/1.1 302 Found\r\nLocation: http://x/\r\nContent-Type: a\r\nDate: Sun, 06 Nov 1994 08:49:37 GMT\r\nContent-Length: 3\r\nConnection: close\r\n\r\nhi\n
GET | no | yes | Location: http://x/\n\n | hi\n |  | - | rest | HTTP/1.1 302 Found\r\nLocation: http://x/\r\nDate: Sun, 06 Nov 1994 08:49:37 GMT\r\nContent-Length: 0\r\n\r\n
HEAD | yes | yes | Location: http://x/\n\n | hi\n |  | - | rest | HTTP/1.1 302 Found\r\nLocation: http://x/\r\nDate: Sun, 06 Nov 1994 08:49:37 GMT\r\nConnection: close\r\n\r\n
// A local redirect (RFC 3875 6.2.2).
GET | no | no | Location: /x?y\n\n | hi\n |  | - | hop | /x?y
HEAD | yes | yes | Location: /x?y\nX: z\n\n |  |  | - | hop | /x?y
// What is refused.
GET | yes | no |  |  |  | - | bad | NoOutput
OLD | no | no | Content-Type: a\n |  |  | - | bad | HeaderIncomplete
GET | no | no | x\n\n | hi\n |  | - | bad | HeaderLine
OLD | yes | no | Content-Type: a\n y\n\n |  |  | - | bad | HeaderLine
GET | no | no | Status: 200\nStatus: 200\n\n | hi\n |  | - | bad | HeaderRepeated
OLD | no | no | Status: 1\n\n | hi\n |  | - | bad | BadStatus
GET | yes | no | Location: /a b\n\n | hi\n |  | - | bad | BadLocation
OLD | no | no | X: y\n\n | hi\n |  | - | bad | NoneOfThree
// The program of a WebSocket gives no reply.
WS | no | no | Content-Type: a\n\n | hi\n |  | - | bad | NoOutput
";

// A row, and how the body follows its head.
#[derive(Clone, Copy)]
struct Row<'r> {
    cells: &'r Cells,
    body: Option<Body>,
}

impl<'r> Row<'r> {
    fn header(&self) -> usize {
        self.cells.at(3).len()
    }

    fn close(&self) -> bool {
        self.cells.is_yes(1)
    }

    fn dated(&self) -> bool {
        self.cells.is_yes(2)
    }
}

fn body_of(word: &str) -> Option<Body> {
    match word {
        "Chunks" => Some(Chunks),
        "Plain" => Some(Plain),
        "EndMark" => Some(EndMark),
        "Nothing" => Some(Nothing),
        _ => None,
    }
}

// A row that is told.
#[derive(Drop)]
struct Telling {
    stream: Stream,
    // How many bytes of the output were heard, and whether the reply has begun.
    heard: usize,
    begun: bool,
}

// Whether a text is a front and behind it bytes of the body as they are written. There are at most 15 of them.
fn is_body_behind(text: &[u8], front: &[u8], bytes: &[u8], body: Body) -> bool {
    match body {
        Chunks if !bytes.is_empty() => is_chunk_behind(text, front, bytes),
        Plain => is_joined(text, &[front, bytes]),
        _ => is(text, front),
    }
}

fn is_chunk_behind(text: &[u8], front: &[u8], bytes: &[u8]) -> bool {
    let digits = b"0123456789abcdef".as_slice();
    let digit = digits.get(bytes.len()..bytes.len().saturating_add(1));
    let end = b"\r\n".as_slice();
    is_joined(text, &[front, digit.unwrap_or(b""), end, bytes, end])
}

fn end_mark(body: Body) -> &'static [u8] {
    match body {
        Chunks | EndMark => b"0\r\n\r\n",
        _ => b"",
    }
}

// The bytes of the body within a part of the output.
fn body_part<'a>(row: &Row, output: &'a [u8], from: usize, to: usize) -> &'a [u8] {
    output.get(from.max(row.header())..to).unwrap_or(b"")
}

impl Telling {
    // What is written where the next bytes of the output are told.
    fn heard(&mut self, alloc: Global, row: &Row, piece: &[u8]) -> Result<Bytes, NoMemory> {
        hear(alloc, &mut self.stream, piece, row.close(), row.dated())
    }

    fn ticked(&mut self, row: &Row) -> Result<Bytes, NoMemory> {
        tick(&mut self.stream, row.close(), row.dated())
    }

    // Whether this is due where the bytes up to a place are heard.
    fn is_due(&self, row: &Row, output: &[u8], to: usize, text: &[u8]) -> bool {
        match (self.begun, row.body) {
            (true, Some(body)) => {
                is_body_behind(text, b"", body_part(row, output, self.heard, to), body)
            }
            _ => text.is_empty(),
        }
    }

    // Whether the next bytes of the output are answered as they must be.
    fn hears(
        &mut self,
        alloc: Global,
        row: &Row,
        output: &[u8],
        to: usize,
    ) -> Result<bool, NoMemory> {
        let text = self.heard(alloc, row, output.get(self.heard..to).unwrap_or(b""))?;
        let right = self.is_due(row, output, to, text.as_slice());
        self.heard = to;
        Ok(right)
    }

    // A tick begins the reply once the header is whole and a byte was heard.
    fn begins(&self, row: &Row) -> bool {
        !self.begun && row.body.is_some() && self.heard >= row.header().max(1)
    }

    // Whether this is due at a tick.
    fn is_due_at_tick(&self, row: &Row, output: &[u8], text: &[u8]) -> bool {
        match row.body {
            Some(body) if self.begins(row) => {
                let part = body_part(row, output, 0, self.heard);
                is_body_behind(text, row.cells.at(5), part, body)
            }
            _ => text.is_empty(),
        }
    }

    // Whether a tick is answered as it must be.
    fn ticks(&mut self, row: &Row, output: &[u8]) -> Result<bool, NoMemory> {
        let text = self.ticked(row)?;
        let right = self.is_due_at_tick(row, output, text.as_slice());
        self.begun = self.begun || self.begins(row);
        Ok(right && has_begun(&self.stream) == self.begun)
    }

    fn ticks_if(&mut self, now: bool, row: &Row, output: &[u8]) -> Result<bool, NoMemory> {
        if now {
            self.ticks(row, output)
        } else {
            Ok(true)
        }
    }

    fn is_cut(
        &mut self,
        alloc: Global,
        row: &Row,
        output: &[u8],
        at: usize,
        tick: usize,
    ) -> Result<bool, NoMemory> {
        Ok(
            self.ticks_if(tick == 1, row, output)?
                && self.hears(alloc, row, output, at)?
                && self.ticks_if(tick == 2, row, output)?
                && self.hears(alloc, row, output, output.len())?
                && self.ticks_if(tick == 3, row, output)?,
        )
    }

    fn is_single(
        &mut self,
        alloc: Global,
        row: &Row,
        output: &[u8],
        at: usize,
        always: bool,
    ) -> Result<bool, NoMemory> {
        for place in 0..output.len() {
            if !self.is_one(alloc, row, output, place, always || place == at)? {
                return Ok(false);
            }
        }
        Ok(true)
    }

    fn is_one(
        &mut self,
        alloc: Global,
        row: &Row,
        output: &[u8],
        place: usize,
        ticks: bool,
    ) -> Result<bool, NoMemory> {
        Ok(
            self.ticks_if(ticks, row, output)?
                && self.hears(alloc, row, output, place.saturating_add(1))?,
        )
    }

    // Whether the end is.
    fn ends(self, alloc: Global, row: &Row) -> Result<bool, NoMemory> {
        let begun = self.begun;
        let last = end(self.stream, row.close(), row.dated())?;
        if begun {
            Ok(is_end_mark(&last, row))
        } else {
            is_ended(alloc, &last, row.cells, 7)
        }
    }
}

fn is_end_mark(last: &Last, row: &Row) -> bool {
    match (row.body, last) {
        (Some(body), Last::Written(text)) => is(text.as_slice(), end_mark(body)),
        _ => false,
    }
}

fn telling_of(alloc: Global, row: &Row) -> Telling {
    Telling {
        stream: new_stream(alloc, asked_of(row.cells)),
        heard: 0,
        begun: false,
    }
}

// Whether the output is answered so where it is cut at one place, with a tick before, between or after its
// parts, or with none.
fn is_cut(
    alloc: Global,
    row: &Row,
    output: &[u8],
    at: usize,
    tick: usize,
) -> Result<bool, NoMemory> {
    let mut telling = telling_of(alloc, row);
    let right = telling.is_cut(alloc, row, output, at, tick)?;
    Ok(telling.ends(alloc, row)? && right)
}

// Whether it is answered so in single bytes, with a tick at one place, or at every place.
fn is_single(
    alloc: Global,
    row: &Row,
    output: &[u8],
    at: usize,
    always: bool,
) -> Result<bool, NoMemory> {
    let mut telling = telling_of(alloc, row);
    let right = telling.is_single(alloc, row, output, at, always)?;
    Ok(telling.ends(alloc, row)? && right)
}

fn is_answered_at(alloc: Global, row: &Row, output: &[u8], at: usize) -> Result<bool, NoMemory> {
    for tick in 0..4 {
        if !is_cut(alloc, row, output, at, tick)? {
            return Ok(false);
        }
    }
    is_single(alloc, row, output, at, false)
}

fn is_answered(alloc: Global, row: &Row, output: &[u8]) -> Result<bool, NoMemory> {
    for at in 0..output.len() + 1 {
        if !is_answered_at(alloc, row, output, at)? {
            return Ok(false);
        }
    }
    is_single(alloc, row, output, 0, true)
}

fn is_answered_however_cut(alloc: Global, row: &Row) -> Result<bool, NoMemory> {
    if row.body.is_none() && !row.cells.is(6, "-") {
        return Ok(false);
    }
    let output = joined(alloc, &[row.cells.at(3), row.cells.at(4)])?;
    is_answered(alloc, row, output.as_slice())
}

pub fn is_right(alloc: Global, cells: &Cells) -> Result<bool, NoMemory> {
    let body = body_of(cells.text(6));
    is_answered_however_cut(alloc, &Row { cells, body })
}

#[test]
fn cuts_and_ticks(rt: HostRuntime) -> Result<(), Fail> {
    are_right(&rt, rt.alloc(), ROWS, 35, Rows::Reply(ReplyRows::Cut))
}
