// What streams write. Each row is told as it stands; `cuts` tells outputs cut at each place with ticks.
ghost use Rattle.reply_writer.specs.WholeRules.{IsStamp};

use super::super::tables::{Cells, Rows, are_right, bytes_of, is};
use super::ReplyRows;
use host_base::{Bytes, Cause, NoMemory, ScriptKind, Version};
use reply_stream::{Asked, Last, Stream};
use std::alloc::Global;
use std::test::Fail;

pub mod cuts;
pub mod edges;
pub mod long;

const GET: Asked = Asked {
    kind: ScriptKind::Cgi,
    version: Version::V11,
    head_only: false,
};

const HEAD: Asked = Asked {
    kind: ScriptKind::Cgi,
    version: Version::V11,
    head_only: true,
};

const OLD: Asked = Asked {
    kind: ScriptKind::Cgi,
    version: Version::V10,
    head_only: false,
};

const OLD_HEAD: Asked = Asked {
    kind: ScriptKind::Cgi,
    version: Version::V10,
    head_only: true,
};

const RAW: Asked = Asked {
    kind: ScriptKind::Nph,
    version: Version::V11,
    head_only: false,
};

const WS: Asked = Asked {
    kind: ScriptKind::WebSocket,
    version: Version::V11,
    head_only: false,
};

// What is asked, whether the connection closes after the reply, whether it has a Date, what is told and what is then written, and
// what the output comes to.
const ROWS: &str = r"
// A tick after the output: in chunks, with the Date of the stamp.
GET | yes | no | piece | Content-Type: text/plain\n\nhi\n |  | tick | HTTP/1.1 200 OK\r\nContent-Type: text/plain\r\nTransfer-Encoding: chunked\r\nConnection: close\r\n\r\n3\r\nhi\n\r\n | rest | 0\r\n\r\n
GET | yes | yes | piece | Content-Type: text/plain\n\nhi\n |  | tick | HTTP/1.1 200 OK\r\nContent-Type: text/plain\r\nDate: Sun, 06 Nov 1994 08:49:37 GMT\r\nTransfer-Encoding: chunked\r\nConnection: close\r\n\r\n3\r\nhi\n\r\n | rest | 0\r\n\r\n
// .. up to the close for HTTP/1.0.
OLD | yes | no | piece | Content-Type: text/plain\n\nhi\n |  | tick | HTTP/1.1 200 OK\r\nContent-Type: text/plain\r\nConnection: close\r\n\r\nhi\n | piece | more | more | rest |
// .. and the head alone after HEAD, whatever follows.
HEAD | yes | no | piece | Content-Type: text/plain\n\nhi\n |  | tick | HTTP/1.1 200 OK\r\nContent-Type: text/plain\r\nConnection: close\r\n\r\n | piece | more |  | rest |
OLD_HEAD | no | no | piece | Content-Type: text/plain\n\nhi\n |  | tick | HTTP/1.1 200 OK\r\nContent-Type: text/plain\r\n\r\n | piece | more |  | rest |
// Without a tick the length is told.
GET | yes | no | piece | Content-Type: text/plain\n\nhi\n |  | rest | HTTP/1.1 200 OK\r\nContent-Type: text/plain\r\nContent-Length: 3\r\nConnection: close\r\n\r\nhi\n
OLD | yes | yes | piece | Content-Type: text/plain\n\nhi\n |  | rest | HTTP/1.1 200 OK\r\nContent-Type: text/plain\r\nDate: Sun, 06 Nov 1994 08:49:37 GMT\r\nContent-Length: 3\r\nConnection: close\r\n\r\nhi\n
HEAD | no | no | piece | Content-Type: text/plain\n\nhi\n |  | rest | HTTP/1.1 200 OK\r\nContent-Type: text/plain\r\n\r\n
// A script's own Date.
GET | no | yes | piece | Content-Type: a\ndate: then\n\n |  | tick | HTTP/1.1 200 OK\r\nContent-Type: a\r\ndate: then\r\nTransfer-Encoding: chunked\r\n\r\n | rest | 0\r\n\r\n
// A tick before the header is whole doesn't count; the next one does. An empty body has no chunk.
GET | no | no | tick |  | piece | Content-Type: text/plain\n |  | tick |  | piece | \n |  | tick | HTTP/1.1 200 OK\r\nContent-Type: text/plain\r\nTransfer-Encoding: chunked\r\n\r\n | tick |  | piece | hi\n | 3\r\nhi\n\r\n | tick |  | piece | 0123456789abcdef | 10\r\n0123456789abcdef\r\n | rest | 0\r\n\r\n
GET | no | no | piece | Content-Type: text/plain\n |  | tick |  | piece | \nhi\n |  | rest | HTTP/1.1 200 OK\r\nContent-Type: text/plain\r\nContent-Length: 3\r\n\r\nhi\n
// 204 and 304 have no body and no framing field (RFC 9110 15.3.5 and 15.4.5).
GET | no | no | piece | Status: 204\n\nhi\n |  | tick | HTTP/1.1 204 No Content\r\n\r\n | piece | more |  | rest |
OLD | yes | no | piece | Status: 304\n\nhi\n |  | tick | HTTP/1.1 304 Not Modified\r\nConnection: close\r\n\r\n | piece | more |  | rest |
GET | no | no | piece | Status: 304\n\nhi\n |  | rest | HTTP/1.1 304 Not Modified\r\n\r\n
// 205 has an empty body (RFC 9110 15.3.6).
GET | no | no | piece | Status: 205\n\nhi\n |  | tick | HTTP/1.1 205 Reset Content\r\nTransfer-Encoding: chunked\r\n\r\n | piece | more |  | rest | 0\r\n\r\n
OLD | yes | no | piece | Status: 205\n\nhi\n |  | tick | HTTP/1.1 205 Reset Content\r\nConnection: close\r\n\r\n | piece | more |  | rest |
GET | no | no | piece | Status: 205\n\nhi\n |  | rest | HTTP/1.1 205 Reset Content\r\nContent-Length: 0\r\n\r\n
// A script that writes its own reply (RFC 3875 5).
RAW | yes | yes | piece | HTTP/1.0 200 OK\r\n\r\nx |  | rest | HTTP/1.0 200 OK\r\n\r\nx
RAW | yes | yes | tick |  | piece | HT |  | tick | HT | tick |  | piece | TP/1.0 200 OK\r\n\r\nx | TP/1.0 200 OK\r\n\r\nx | rest |
RAW | yes | no | tick |  | bad | NoOutput
RAW | yes | no | bad | NoOutput
// A redirect with a document, and one without (RFC 3875 6.2.3 and 6.2.4).
GET | no | no | piece | Location: http://x/\nContent-Type: a\n\nhi\n |  | tick | HTTP/1.1 302 Found\r\nLocation: http://x/\r\nContent-Type: a\r\nTransfer-Encoding: chunked\r\n\r\n3\r\nhi\n\r\n | rest | 0\r\n\r\n
GET | no | yes | piece | Location: http://x/\n\nhi\n |  | tick |  | piece | more |  | tick |  | rest | HTTP/1.1 302 Found\r\nLocation: http://x/\r\nDate: Sun, 06 Nov 1994 08:49:37 GMT\r\nContent-Length: 0\r\n\r\n
// A local redirect (RFC 3875 6.2.2).
GET | no | no | piece | Location: /x?y\n\nhi\n |  | tick |  | piece | more |  | hop | /x?y
GET | no | no | piece | Location: /x?y\n\n |  | hop | /x?y
// What is refused.
GET | no | no | tick |  | bad | NoOutput
GET | no | no | piece | Content-Type: a\n |  | tick |  | bad | HeaderIncomplete
GET | no | no | piece | x\n\n |  | tick |  | piece | y |  | bad | HeaderLine
GET | no | no | piece | Status: 200\nStatus: 200\n\n |  | tick |  | bad | HeaderRepeated
GET | no | no | piece | Status: 1\n\n |  | tick |  | bad | BadStatus
GET | no | no | piece | Location: /a b\n\n |  | tick |  | bad | BadLocation
GET | no | no | piece | X: y\n\nhi\n |  | tick |  | bad | NoneOfThree
// The program of a WebSocket gives no reply.
WS | no | no | piece | Content-Type: a\n\nhi\n |  | tick |  | bad | NoOutput
HEAD | yes | yes | piece | Location: http://x/\n\nhi\n |  | tick |  | rest | HTTP/1.1 302 Found\r\nLocation: http://x/\r\nDate: Sun, 06 Nov 1994 08:49:37 GMT\r\nConnection: close\r\n\r\n
";

// What is asked, by its name; a WebSocket by any other.
fn asked_of(row: &Cells) -> Asked {
    if row.is(0, "GET") {
        GET
    } else if row.is(0, "OLD") {
        OLD
    } else {
        rarely_asked(row)
    }
}

fn rarely_asked(row: &Cells) -> Asked {
    if row.is(0, "HEAD") {
        HEAD
    } else if row.is(0, "OLD_HEAD") {
        OLD_HEAD
    } else if row.is(0, "RAW") {
        RAW
    } else {
        WS
    }
}

// The example of RFC 9110 5.6.7, or none.
fn stamp_of(dated: bool) -> Option<u64>
    ensures { IsStamp result }
{
    if dated { Some(784_111_777) } else { None }
}

fn new_stream(alloc: Global, asked: Asked) -> Stream {
    Stream::new(alloc, asked)
}

fn hear(
    alloc: Global,
    stream: &mut Stream,
    piece: &[u8],
    close: bool,
    dated: bool,
) -> Result<Bytes, NoMemory> {
    let piece = bytes_of(alloc, piece)?;
    stream.hear(piece, close, stamp_of(dated))
}

fn tick(stream: &mut Stream, close: bool, dated: bool) -> Result<Bytes, NoMemory> {
    stream.tick(close, stamp_of(dated))
}

fn has_begun(stream: &Stream) -> bool {
    stream.has_begun()
}

fn end(stream: Stream, close: bool, dated: bool) -> Result<Last, NoMemory> {
    stream.end(close, stamp_of(dated))
}

// Whether a cell has this word, and the next one this text.
fn is_so(row: &Cells, place: usize, word: &str, text: &[u8]) -> bool {
    row.is(place, word) && is(row.at(place.saturating_add(1)), text)
}

fn is_bad(alloc: Global, row: &Cells, place: usize, cause: Cause) -> Result<bool, NoMemory> {
    Ok(row.is(place, "bad") && row.names(alloc, place.saturating_add(1), cause)?)
}

fn is_last(alloc: Global, last: &Last, row: &Cells, place: usize) -> Result<bool, NoMemory> {
    match last {
        Last::Written(bytes) => Ok(is_so(row, place, "rest", bytes.as_slice())),
        Last::Hop(location) => Ok(is_so(row, place, "hop", location.as_slice())),
        Last::Bad(cause) => is_bad(alloc, row, place, *cause),
    }
}

// Whether it comes to what two cells say, and they are the last ones.
fn is_ended(alloc: Global, last: &Last, row: &Cells, place: usize) -> Result<bool, NoMemory> {
    Ok(row.len() == place.saturating_add(2) && is_last(alloc, last, row, place)?)
}

// A row that is told.
#[derive(Drop)]
struct Telling {
    stream: Stream,
    close: bool,
    stamp: bool,
}

impl Telling {
    fn new(alloc: Global, row: &Cells) -> Self {
        Telling {
            stream: new_stream(alloc, asked_of(row)),
            close: row.is_yes(1),
            stamp: row.is_yes(2),
        }
    }

    fn hears(&mut self, alloc: Global, piece: &[u8], due: &[u8]) -> Result<bool, NoMemory> {
        let text = hear(alloc, &mut self.stream, piece, self.close, self.stamp)?;
        Ok(is(text.as_slice(), due))
    }

    fn ticks(&mut self, due: &[u8]) -> Result<bool, NoMemory> {
        let text = tick(&mut self.stream, self.close, self.stamp)?;
        Ok(is(text.as_slice(), due))
    }

    // Whether a piece, or a tick, is answered as the cells from one on say.
    fn is_told(&mut self, alloc: Global, row: &Cells, place: usize) -> Result<bool, NoMemory> {
        let first = row.at(place.saturating_add(1));
        match row.text(place) {
            "piece" => self.hears(alloc, first, row.at(place.saturating_add(2))),
            "tick" => self.ticks(first),
            _ => Ok(false),
        }
    }

    // The cell before which all is told and answered so.
    fn told(&mut self, alloc: Global, row: &Cells) -> Result<usize, NoMemory> {
        let mut place: usize = 3;
        for _ in 0..row.len() {
            if !self.is_told(alloc, row, place)? {
                return Ok(place);
            }
            place = place.saturating_add(if row.is(place, "tick") { 2 } else { 3 });
        }
        Ok(place)
    }

    fn last(self) -> Result<Last, NoMemory> {
        end(self.stream, self.close, self.stamp)
    }
}

// Whether each thing that is told is answered as its row says, and the end too.
pub fn is_answered(alloc: Global, row: &Cells) -> Result<bool, NoMemory> {
    let mut telling = Telling::new(alloc, row);
    let place = telling.told(alloc, row)?;
    is_ended(alloc, &telling.last()?, row, place)
}

#[test]
fn rows(rt: HostRuntime) -> Result<(), Fail> {
    are_right(&rt, rt.alloc(), ROWS, 34, Rows::Reply(ReplyRows::Told))
}
