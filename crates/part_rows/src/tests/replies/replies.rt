// The host's own replies, the phrases, and replies whose text other programs know.
ghost use Rattle.std.specs.Prelude.{length, ◌<◌};

use super::super::tables::{
    Cells, Rows, are_right, bytes_of, has_count, is, is_joined, is_nothing, parts_of, push_field,
    repeated,
};
use super::ReplyRows;
use host_base::{Bytes, Cause, Fields, NoMemory, Reply};
use reply_writer::{
    DATES_END, END_MARK, Shape, chunk_text, date_text, fault_reply, head_text, phrase, whole_text,
};
use std::alloc::Global;
use std::process::Abort;
use std::test::Fail;

static CAUSES: [Cause; 39] = [
    Cause::BadHead,
    Cause::Incomplete,
    Cause::BadTarget,
    Cause::BadHost,
    Cause::BadFraming,
    Cause::BadChunk,
    Cause::BadPath,
    Cause::BadHandshake,
    Cause::BadScgi,
    Cause::BadParams,
    Cause::BadRecord,
    Cause::OriginRefused,
    Cause::NoScript,
    Cause::IdleTime,
    Cause::BodyTooLong,
    Cause::TargetTooLong,
    Cause::BadExpect,
    Cause::UnknownHost,
    Cause::HeadTooLong,
    Cause::TooManyFields,
    Cause::RedirectLoop,
    Cause::NotServed,
    Cause::CodingUnknown,
    Cause::StartFailed,
    Cause::OutputBroken,
    Cause::OutputTooLarge,
    Cause::NoOutput,
    Cause::HeaderIncomplete,
    Cause::HeaderTooLarge,
    Cause::HeaderLine,
    Cause::HeaderRepeated,
    Cause::BadStatus,
    Cause::BadLocation,
    Cause::NoneOfThree,
    Cause::Full { seen: 0 },
    Cause::Full { seen: 7 },
    Cause::Full { seen: 64 },
    Cause::Full { seen: 256 },
    Cause::RunTime,
];

// Each of these causes, the status code and the phrase of its reply, its text, and how long that is with its line end.
const OF_CAUSES: &str = r"
BadHead | 400 Bad Request | bad request head | 17
Incomplete | 400 Bad Request | request ended early | 20
BadTarget | 400 Bad Request | bad target | 11
BadHost | 400 Bad Request | bad host | 9
BadFraming | 400 Bad Request | bad body framing | 17
BadChunk | 400 Bad Request | bad chunk | 10
BadPath | 400 Bad Request | bad path | 9
BadHandshake | 400 Bad Request | bad websocket handshake | 24
BadScgi | 400 Bad Request | bad scgi request | 17
BadParams | 400 Bad Request | bad parameters | 15
BadRecord | 400 Bad Request | bad record | 11
OriginRefused | 403 Forbidden | origin refused | 15
NoScript | 404 Not Found | no script for this path | 24
IdleTime | 408 Request Timeout | request took too long | 22
BodyTooLong | 413 Content Too Large | request body too large | 23
TargetTooLong | 414 URI Too Long | target too long | 16
BadExpect | 417 Expectation Failed | expectation not met | 20
UnknownHost | 421 Misdirected Request | host not served | 16
HeadTooLong | 431 Request Header Fields Too Large | request head too large | 23
TooManyFields | 431 Request Header Fields Too Large | too many header fields | 23
RedirectLoop | 500 Internal Server Error | too many local redirects | 25
NotServed | 501 Not Implemented | method or target not served | 28
CodingUnknown | 501 Not Implemented | transfer coding not served | 27
StartFailed | 502 Bad Gateway | script could not be started | 28
OutputBroken | 502 Bad Gateway | script output broken | 21
OutputTooLarge | 502 Bad Gateway | script output too large | 24
NoOutput | 502 Bad Gateway | script gave no output | 22
HeaderIncomplete | 502 Bad Gateway | script header incomplete | 25
HeaderTooLarge | 502 Bad Gateway | script header too large | 24
HeaderLine | 502 Bad Gateway | script header line refused | 27
HeaderRepeated | 502 Bad Gateway | script header field repeated | 29
BadStatus | 502 Bad Gateway | script status refused | 22
BadLocation | 502 Bad Gateway | script location refused | 24
NoneOfThree | 502 Bad Gateway | script sent no type, status or location | 40
Full { seen: 0 } | 503 Service Unavailable | children running: 0 | 20
Full { seen: 7 } | 503 Service Unavailable | children running: 7 | 20
Full { seen: 64 } | 503 Service Unavailable | children running: 64 | 21
Full { seen: 256 } | 503 Service Unavailable | children running: 256 | 22
RunTime | 504 Gateway Timeout | script took too long | 21
";

const PHRASES: &str = r"
200 | OK
201 | Created
202 | Accepted
203 | Non-Authoritative Information
204 | No Content
205 | Reset Content
206 | Partial Content
300 | Multiple Choices
301 | Moved Permanently
302 | Found
303 | See Other
304 | Not Modified
307 | Temporary Redirect
308 | Permanent Redirect
400 | Bad Request
401 | Unauthorized
402 | Payment Required
403 | Forbidden
404 | Not Found
405 | Method Not Allowed
406 | Not Acceptable
408 | Request Timeout
409 | Conflict
410 | Gone
411 | Length Required
412 | Precondition Failed
413 | Content Too Large
414 | URI Too Long
415 | Unsupported Media Type
416 | Range Not Satisfiable
417 | Expectation Failed
421 | Misdirected Request
422 | Unprocessable Content
426 | Upgrade Required
428 | Precondition Required
429 | Too Many Requests
431 | Request Header Fields Too Large
500 | Internal Server Error
501 | Not Implemented
502 | Bad Gateway
503 | Service Unavailable
504 | Gateway Timeout
505 | HTTP Version Not Supported
511 | Network Authentication Required
299 | Status
418 | Status
599 | Status
";

// A status with its phrase, a body, whether the reply is to HEAD, whether it closes, and its text.
const REPLIES: &str = r"
200 | OK | hi\n | no | no | HTTP/1.1 200 OK\r\nContent-Type: text/plain\r\nContent-Length: 3\r\n\r\nhi\n
200 | OK | hi\n | no | yes | HTTP/1.1 200 OK\r\nContent-Type: text/plain\r\nContent-Length: 3\r\nConnection: close\r\n\r\nhi\n
200 | OK |  | no | no | HTTP/1.1 200 OK\r\nContent-Type: text/plain\r\nContent-Length: 0\r\n\r\n
205 | Reset Content |  | no | no | HTTP/1.1 205 Reset Content\r\nContent-Type: text/plain\r\nContent-Length: 0\r\n\r\n
204 | No Content | hi\n | no | no | HTTP/1.1 204 No Content\r\nContent-Type: text/plain\r\n\r\n
304 | Not Modified | hi\n | no | yes | HTTP/1.1 304 Not Modified\r\nContent-Type: text/plain\r\nConnection: close\r\n\r\n
200 | OK | hi\n | yes | no | HTTP/1.1 200 OK\r\nContent-Type: text/plain\r\n\r\n
404 |  | hi\n | yes | yes | HTTP/1.1 404 \r\nContent-Type: text/plain\r\nConnection: close\r\n\r\n
";

// The second of a date, and its text.
const DATES: &str = r"
0 | Thu, 01 Jan 1970 00:00:00 GMT
784111777 | Sun, 06 Nov 1994 08:49:37 GMT
951782400 | Tue, 29 Feb 2000 00:00:00 GMT
951868799 | Tue, 29 Feb 2000 23:59:59 GMT
4107542400 | Mon, 01 Mar 2100 00:00:00 GMT
253402300799 | Fri, 31 Dec 9999 23:59:59 GMT
";

// What a script's own field after Content-Type is, and what the head has in its place at the second 784111777.
const DATED: &str = r"
X-Date: x\r\n | X-Date: x\r\nDate: Sun, 06 Nov 1994 08:49:37 GMT\r\n
Dated: x\r\n | Dated: x\r\nDate: Sun, 06 Nov 1994 08:49:37 GMT\r\n
Dat: x\r\n | Dat: x\r\nDate: Sun, 06 Nov 1994 08:49:37 GMT\r\n
Date: x\r\n | Date: x\r\n
date: x\r\n | date: x\r\n
DATE: x\r\n | DATE: x\r\n
";

// How many bytes a chunk has, and what stands for that.
const SIZES: &str = r"
1 | 1
9 | 9
10 | a
15 | f
16 | 10
31 | 1f
255 | ff
256 | 100
4095 | fff
65536 | 10000
";

fn one_field(alloc: Global) -> Result<Fields, NoMemory> {
    let mut fields = Fields::new(alloc);
    push_field(alloc, &mut fields, b"Content-Type", b"text/plain")?;
    Ok(fields)
}

fn reply(alloc: Global, status: u16, phrase: &[u8], body: &[u8]) -> Result<Reply, NoMemory> {
    let fields = one_field(alloc)?;
    Ok(Reply {
        status,
        phrase: bytes_of(alloc, phrase)?,
        fields,
        body: bytes_of(alloc, body)?,
    })
}

fn text_of(alloc: Global, reply: &Reply, is_head: bool, close: bool) -> Result<Bytes, NoMemory> {
    whole_text(alloc, reply, is_head, close, None)
}

fn fault(alloc: Global, cause: Cause) -> Result<Reply, NoMemory> {
    fault_reply(alloc, cause)
}

// The fault's reply to HEAD, or to another method.
fn fault_text(alloc: Global, cause: Cause, is_head: bool, close: bool) -> Result<Bytes, NoMemory> {
    let fault = fault(alloc, cause)?;
    text_of(alloc, &fault, is_head, close)
}

fn is_get(text: &[u8], row: &Cells) -> bool {
    let fields = b"\r\nContent-Type: text/plain\r\nContent-Length: ";
    let parts = [
        b"HTTP/1.1 ".as_slice(),
        row.at(1),
        fields,
        row.at(3),
        b"\r\n\r\n",
        row.at(2),
        b"\n",
    ];
    is_joined(text, &parts)
}

fn gets(alloc: Global, cause: Cause, row: &Cells) -> Result<bool, NoMemory> {
    Ok(is_get(fault_text(alloc, cause, false, false)?.as_slice(), row))
}

fn is_head(text: &[u8], row: &Cells) -> bool {
    let fields = b"\r\nContent-Type: text/plain\r\nConnection: close\r\n\r\n";
    is_joined(text, &[b"HTTP/1.1 ".as_slice(), row.at(1), fields])
}

fn heads(alloc: Global, cause: Cause, row: &Cells) -> Result<bool, NoMemory> {
    Ok(is_head(fault_text(alloc, cause, true, true)?.as_slice(), row))
}

fn is_cause(alloc: Global, cause: Cause, row: &Cells) -> Result<bool, NoMemory> {
    Ok(row.names(alloc, 0, cause)? && gets(alloc, cause, row)? && heads(alloc, cause, row)?)
}

fn is_cause_row(alloc: Global, cause: Cause, row: &str) -> Result<bool, NoMemory> {
    let cells = Cells::new(alloc, row)?;
    is_cause(alloc, cause, &cells)
}

// The first row that is not its cause's; nothing where none is.
fn wrong_cause_row(
    alloc: Global,
    table: &'static str,
    causes: &[Cause],
) -> Result<&'static str, NoMemory> {
    for (row, cause) in table.trim().lines().zip(causes) {
        if !is_cause_row(alloc, *cause, row)? {
            return Ok(row);
        }
    }
    Ok("")
}

fn are_of_causes<R: Abort>(rt: &R, alloc: Global, table: &'static str) -> Result<(), Fail> {
    has_count(rt, table, 39);
    is_nothing(rt, wrong_cause_row(alloc, table, &CAUSES)?);
    Ok(())
}

#[test]
fn causes(rt: HostRuntime) -> Result<(), Fail> {
    are_of_causes(&rt, rt.alloc(), OF_CAUSES)
}

// Whether the reply to a WebSocket's client of another version is this, to HEAD or to another method.
fn asks_to_upgrade(alloc: Global, is_head: bool, due: &[u8]) -> Result<bool, NoMemory> {
    Ok(is(
        fault_text(alloc, Cause::UpgradeNeeded, is_head, false)?.as_slice(),
        due,
    ))
}

const UPGRADE: &[u8] =
    b"HTTP/1.1 426 Upgrade Required\r\nUpgrade: websocket\r\nConnection: Upgrade\r\nSec-WebSocket-Version: 13\r\nContent-Type: text/plain\r\nContent-Length: 30\r\n\r\nwebsocket version 13 required\n";

const UPGRADE_HEAD: &[u8] =
    b"HTTP/1.1 426 Upgrade Required\r\nUpgrade: websocket\r\nConnection: Upgrade\r\nSec-WebSocket-Version: 13\r\nContent-Type: text/plain\r\n\r\n";

#[test]
fn upgrade(rt: HostRuntime) -> Result<(), Fail> {
    assert!(rt; asks_to_upgrade(rt.alloc(), false, UPGRADE)?);
    assert!(rt; asks_to_upgrade(rt.alloc(), true, UPGRADE_HEAD)?);
    Ok(())
}

fn code_of(row: &Cells) -> u16 {
    u16::try_from(row.number(0)).unwrap_or(0)
}

pub fn is_phrase(_: Global, row: &Cells) -> Result<bool, NoMemory> {
    Ok(is(phrase(code_of(row)), row.at(1)))
}

#[test]
fn phrases(rt: HostRuntime) -> Result<(), Fail> {
    are_right(&rt, rt.alloc(), PHRASES, 47, Rows::Reply(ReplyRows::Phrase))
}

fn spoken(alloc: Global, row: &Cells) -> Result<Bytes, NoMemory> {
    let reply = reply(alloc, code_of(row), row.at(1), row.at(2))?;
    text_of(alloc, &reply, row.is_yes(3), row.is_yes(4))
}

pub fn is_spoken(alloc: Global, row: &Cells) -> Result<bool, NoMemory> {
    Ok(is(spoken(alloc, row)?.as_slice(), row.at(5)) && row.len() == 6)
}

#[test]
fn replies(rt: HostRuntime) -> Result<(), Fail> {
    are_right(&rt, rt.alloc(), REPLIES, 8, Rows::Reply(ReplyRows::Spoken))
}

static SHAPES: [(Shape, &str); 4] = [
    (Shape::Bare, ""),
    (
        Shape::Length(u64::MAX),
        "Content-Length: 18446744073709551615\r\n",
    ),
    (Shape::Chunked, "Transfer-Encoding: chunked\r\n"),
    (Shape::ToClose, ""),
];

fn head_of(alloc: Global, reply: &Reply, shape: Shape) -> Result<Bytes, NoMemory> {
    head_text(alloc, reply, shape, true, None)
}

fn shaped(alloc: Global, shape: Shape) -> Result<Bytes, NoMemory> {
    let reply = reply(alloc, 200, b"OK", b"hi\n")?;
    head_of(alloc, &reply, shape)
}

fn is_closing(head: &[u8], framing: &[u8]) -> bool {
    let begin = b"HTTP/1.1 200 OK\r\nContent-Type: text/plain\r\n";
    is_joined(
        head,
        &[begin.as_slice(), framing, b"Connection: close\r\n\r\n"],
    )
}

// Whether a head has this field for its shape.
fn is_shaped(alloc: Global, shape: Shape, framing: &str) -> Result<bool, NoMemory> {
    Ok(is_closing(shaped(alloc, shape)?.as_slice(), framing.as_bytes()))
}

#[test]
fn shapes(rt: HostRuntime) -> Result<(), Fail> {
    for (shape, framing) in &SHAPES {
        assert!(rt; is_shaped(rt.alloc(), *shape, framing)?, "{framing}");
    }
    Ok(())
}

pub fn is_date(_: Global, row: &Cells) -> Result<bool, NoMemory> {
    let secs = row.number(0);
    Ok(secs < DATES_END && is(date_text(secs).text.as_slice(), row.at(1)))
}

#[test]
fn dates(rt: HostRuntime) -> Result<(), Fail> {
    assert_eq!(rt; DATES_END, 253_402_300_800);
    are_right(&rt, rt.alloc(), DATES, 6, Rows::Reply(ReplyRows::Date))
}

// The text of a reply at the second 784111777.
fn dated_text(alloc: Global, reply: &Reply, close: bool) -> Result<Bytes, NoMemory> {
    whole_text(alloc, reply, false, close, Some(&date_text(784_111_777)))
}

fn push_own(alloc: Global, reply: &mut Reply, own: &str) -> Result<(), NoMemory> {
    let (name, _) = parts_of(own, ": ");
    push_field(alloc, &mut reply.fields, name.as_bytes(), b"x")
}

// A reply with a field of the script's own, then.
fn text_with(alloc: Global, own: &str) -> Result<Bytes, NoMemory> {
    let mut reply = reply(alloc, 200, b"OK", b"hi\n")?;
    push_own(alloc, &mut reply, own)?;
    dated_text(alloc, &reply, false)
}

fn is_with(text: &[u8], own: &[u8]) -> bool {
    let begin = b"HTTP/1.1 200 OK\r\nContent-Type: text/plain\r\n";
    is_joined(
        text,
        &[begin.as_slice(), own, b"Content-Length: 3\r\n\r\nhi\n"],
    )
}

pub fn is_dated(alloc: Global, row: &Cells) -> Result<bool, NoMemory> {
    Ok(is_with(text_with(alloc, row.text(0))?.as_slice(), row.at(1)))
}

#[test]
fn dated(rt: HostRuntime) -> Result<(), Fail> {
    are_right(&rt, rt.alloc(), DATED, 6, Rows::Reply(ReplyRows::Dated))
}

const DATED_204: &[u8] =
    b"HTTP/1.1 204 No Content\r\nContent-Type: text/plain\r\nDate: Sun, 06 Nov 1994 08:49:37 GMT\r\n\r\n";

const DATED_504: &[u8] =
    b"HTTP/1.1 504 Gateway Timeout\r\nContent-Type: text/plain\r\nDate: Sun, 06 Nov 1994 08:49:37 GMT\r\nContent-Length: 21\r\nConnection: close\r\n\r\nscript took too long\n";

// Whether a reply at the second 784111777 is written so.
fn is_dated_text(alloc: Global, reply: &Reply, close: bool, due: &[u8]) -> Result<bool, NoMemory> {
    Ok(is(dated_text(alloc, reply, close)?.as_slice(), due))
}

fn is_empty_reply_dated(alloc: Global) -> Result<bool, NoMemory> {
    let spoken = reply(alloc, 204, b"No Content", b"")?;
    is_dated_text(alloc, &spoken, false, DATED_204)
}

fn is_fault_dated(alloc: Global) -> Result<bool, NoMemory> {
    let late = fault(alloc, Cause::RunTime)?;
    is_dated_text(alloc, &late, true, DATED_504)
}

// The host's own replies have a Date too.
#[test]
fn dated_without_a_field_of_a_script(rt: HostRuntime) -> Result<(), Fail> {
    assert!(rt; is_empty_reply_dated(rt.alloc())?);
    assert!(rt; is_fault_dated(rt.alloc())?);
    Ok(())
}

// A chunk of so many bytes, and how it is to be written.
fn is_chunk(alloc: Global, piece: &[u8], digits: &[u8]) -> Result<bool, NoMemory>
    requires { 0 < length piece.now }
{
    let end = b"\r\n".as_slice();
    let text = chunk_text(alloc, piece)?;
    Ok(is_joined(text.as_slice(), &[digits, end, piece, end]))
}

pub fn is_size(alloc: Global, row: &Cells) -> Result<bool, NoMemory> {
    let piece = repeated(alloc, b"", b"x", row.size(0).min(100_000), b"")?;
    let piece = piece.as_slice();
    Ok(!piece.is_empty() && is_chunk(alloc, piece, row.at(1))?)
}

#[test]
fn chunks(rt: HostRuntime) -> Result<(), Fail> {
    are_right(&rt, rt.alloc(), SIZES, 10, Rows::Reply(ReplyRows::Size))?;
    assert_eq!(rt; END_MARK, b"0\r\n\r\n".as_slice());
    Ok(())
}
