// What the reply of a leg writes, and how it closes. Each row is told as it stands.
ghost use Rattle.reply_writer.specs.WholeRules.{IsStamp};

use super::super::tables::{bytes_of, is};
use exchange_reply::{LegReply, fault_text};
use host_base::{Bytes, Cause, NoMemory, ScriptKind, Version};
use reply_stream::{Asked, Last};
use std::alloc::Global;
use std::test::Fail;

// What is told, whether the connection closes after an answer that begins then, and what is then written.
#[derive(Clone, Copy)]
enum Told {
    Piece(&'static str, bool, &'static str),
    Tick(bool, &'static str),
}

use Told::{Piece, Tick};

const GET: Asked = Asked {
    kind: ScriptKind::Cgi,
    version: Version::V11,
    head_only: false,
};

const HEAD: Asked = Asked {
    kind: ScriptKind::Cgi,
    version: Version::V11,
    head_only: true,
};

const RAW: Asked = Asked {
    kind: ScriptKind::Nph,
    version: Version::V11,
    head_only: false,
};

// What is asked, what is told, what is written at the end, and whether the connection closes then. At the end an
// answer that begins closes.
type Row = (Asked, &'static [Told], &'static str, bool);

static ROWS: [Row; 6] = [
    // The first byte fixes that it stays open ..
    (
        GET,
        &[
            Piece("Content-Type: text/plain\n\nhi\n", true, ""),
            Tick(
                false,
                "HTTP/1.1 200 OK\r\nContent-Type: text/plain\r\nTransfer-Encoding: chunked\r\n\r\n3\r\nhi\n\r\n",
            ),
            Piece("ho", true, "2\r\nho\r\n"),
        ],
        "0\r\n\r\n",
        false,
    ),
    // .. or that it closes.
    (
        GET,
        &[
            Piece("Content-Type: text/plain\n\n", false, ""),
            Tick(
                true,
                "HTTP/1.1 200 OK\r\nContent-Type: text/plain\r\nTransfer-Encoding: chunked\r\nConnection: close\r\n\r\n",
            ),
            Piece("ho", false, "2\r\nho\r\n"),
        ],
        "0\r\n\r\n",
        true,
    ),
    // Nothing was written before the end.
    (
        GET,
        &[Piece("Content-Type: text/plain\n\nhi\n", false, "")],
        "HTTP/1.1 200 OK\r\nContent-Type: text/plain\r\nContent-Length: 3\r\nConnection: close\r\n\r\nhi\n",
        true,
    ),
    // A Tick before the header counts for nothing.
    (
        GET,
        &[
            Tick(false, ""),
            Piece("Content-Type: text/plain\n", false, ""),
            Tick(false, ""),
            Piece("\nhi\n", false, ""),
        ],
        "HTTP/1.1 200 OK\r\nContent-Type: text/plain\r\nContent-Length: 3\r\nConnection: close\r\n\r\nhi\n",
        true,
    ),
    // To HEAD nothing follows the head, so the whole answer stands before the end.
    (
        HEAD,
        &[
            Piece("Content-Type: text/plain\n\nhi\n", false, ""),
            Tick(false, "HTTP/1.1 200 OK\r\nContent-Type: text/plain\r\n\r\n"),
            Piece("ho", false, ""),
        ],
        "",
        false,
    ),
    // The output of an nph script is the reply as it is (RFC 3875 5).
    (
        RAW,
        &[
            Piece("HTTP/1.0 200 OK\n", true, ""),
            Tick(true, "HTTP/1.0 200 OK\n"),
            Piece("\nhi\n", false, "\nhi\n"),
        ],
        "",
        true,
    ),
];

fn new_reply(alloc: Global, asked: Asked) -> LegReply {
    LegReply::new(alloc, asked)
}

fn hear(
    alloc: Global,
    reply: &mut LegReply,
    piece: &[u8],
    closes: bool,
) -> Result<Bytes, NoMemory> {
    let piece = bytes_of(alloc, piece)?;
    reply.hear(piece, closes, None)
}

fn tick(reply: &mut LegReply, closes: bool) -> Result<Bytes, NoMemory> {
    reply.tick(closes, None)
}

fn end(reply: LegReply) -> Result<Last, NoMemory> {
    reply.end(true, None)
}

fn is_written(last: &Last, due: &str) -> bool {
    match last {
        Last::Written(text) => is(text.as_slice(), due.as_bytes()),
        Last::Hop(_) | Last::Bad(_) => false,
    }
}

fn closes(reply: &LegReply) -> bool {
    reply.closes(true)
}

// Whether the end is as the row says.
fn ends_as(reply: LegReply, row: &Row) -> Result<bool, NoMemory> {
    let closes = closes(&reply);
    Ok(is_written(&end(reply)?, row.2) && closes == row.3)
}

fn hears(
    alloc: Global,
    reply: &mut LegReply,
    piece: &str,
    closes: bool,
    due: &str,
) -> Result<bool, NoMemory> {
    Ok(is(
        hear(alloc, reply, piece.as_bytes(), closes)?.as_slice(),
        due.as_bytes(),
    ))
}

fn ticks(reply: &mut LegReply, closes: bool, due: &str) -> Result<bool, NoMemory> {
    Ok(is(tick(reply, closes)?.as_slice(), due.as_bytes()))
}

fn is_told(alloc: Global, reply: &mut LegReply, told: Told) -> Result<bool, NoMemory> {
    match told {
        Piece(piece, closes, due) => hears(alloc, reply, piece, closes, due),
        Tick(closes, due) => ticks(reply, closes, due),
    }
}

fn are_told(alloc: Global, reply: &mut LegReply, all: &[Told]) -> Result<bool, NoMemory> {
    for told in all {
        if !is_told(alloc, reply, *told)? {
            return Ok(false);
        }
    }
    Ok(true)
}

// Whether each thing that is told is answered as its row says, and the end too.
fn is_answered(alloc: Global, row: &Row) -> Result<bool, NoMemory> {
    let mut reply = new_reply(alloc, row.0);
    Ok(are_told(alloc, &mut reply, row.1)? && ends_as(reply, row)?)
}

#[test]
fn rows(rt: HostRuntime) -> Result<(), NoMemory> {
    for (number, row) in ROWS.iter().enumerate() {
        assert!(&rt; is_answered(rt.alloc(), row)?, "row {number}");
    }
    Ok(())
}

// The host's own reply to a run that took too long, with the Date of RFC 9110 5.6.7.
const LATE: &[u8] =
    b"HTTP/1.1 504 Gateway Timeout\r\nContent-Type: text/plain\r\nDate: Sun, 06 Nov 1994 08:49:37 GMT\r\nContent-Length: 21\r\nConnection: close\r\n\r\nscript took too long\n";

// .. and to HEAD, without one.
const LATE_HEAD: &[u8] = b"HTTP/1.1 504 Gateway Timeout\r\nContent-Type: text/plain\r\n\r\n";

fn has_begun(reply: &LegReply) -> bool {
    reply.has_begun()
}

fn is_late(text: &Option<Bytes>) -> bool {
    match text {
        Some(text) => is(text.as_slice(), LATE),
        None => false,
    }
}

fn late(reply: LegReply) -> Result<Option<Bytes>, NoMemory> {
    reply.fail(Cause::RunTime, true, Some(784_111_777))
}

fn fails_late(alloc: Global) -> Result<bool, NoMemory> {
    let reply = new_reply(alloc, GET);
    let begun = has_begun(&reply);
    Ok(is_late(&late(reply)?) && !begun)
}

fn fails_late_to_head(alloc: Global) -> Result<bool, NoMemory> {
    let text = fault_text(alloc, Cause::RunTime, true, false, None)?;
    Ok(is(text.as_slice(), LATE_HEAD))
}

#[test]
fn a_run_that_fails_is_answered_by_the_host(rt: HostRuntime) -> Result<(), Fail> {
    assert!(rt; fails_late(rt.alloc())?);
    assert!(rt; fails_late_to_head(rt.alloc())?);
    Ok(())
}

// A reply as it is of which two bytes were written.
fn begun_reply(alloc: Global) -> Result<LegReply, NoMemory> {
    let mut reply = new_reply(alloc, RAW);
    begins(alloc, &mut reply)?;
    Ok(reply)
}

fn begins(alloc: Global, reply: &mut LegReply) -> Result<(), NoMemory> {
    let _none = hear(alloc, reply, b"hi", false)?;
    let _text = tick(reply, false)?;
    Ok(())
}

fn failed(reply: LegReply) -> Result<Option<Bytes>, NoMemory> {
    reply.fail(Cause::RunTime, true, None)
}

fn is_not_answered_anew(alloc: Global) -> Result<bool, NoMemory> {
    let reply = begun_reply(alloc)?;
    Ok(has_begun(&reply) && failed(reply)?.is_none())
}

#[test]
fn a_reply_that_has_begun_is_not_answered_anew(rt: HostRuntime) -> Result<(), Fail> {
    assert!(rt; is_not_answered_anew(rt.alloc())?);
    Ok(())
}
