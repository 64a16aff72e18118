// What a hostile client or a script may try: requests that break off anywhere, and heads, targets, fields, bodies and
// outputs at their limits and one past.
use super::drive::Heard::{Accepted, Client, ClientEof, Stop};
use super::launches::CHUNKED_FORM;
use super::pieces::{Part, Wanted, due_of, is_right_in_two, is_right_whole};
use super::play::{Play, has_rows, plays};
use super::script::{bytes_of, column, halves, rows_of, size_of};
use super::texts::WRITE_ENDED_EARLY;
use host_base::NoMemory;
use std::alloc::Global;
use std::test::Fail;
use std::thread::Threads;

// ---- a request that breaks off

// The client sends this and ends.
fn break_off(play: &mut Play, front: &[u8]) -> Result<(), NoMemory> {
    play.beat(Accepted, &["WantClient 0"])?;
    play.beat(Client(0, front), &["WantClient 0"])?;
    play.beat(ClientEof(0), &[WRITE_ENDED_EARLY, "Shut 0 Done"])?;
    play.beat(Stop, &[])
}

#[test]
fn each_front_of_a_request(rt: HostRuntime) -> Result<(), Fail> {
    for count in 1..CHUNKED_FORM.len() {
        let (front, _) = halves(CHUNKED_FORM, count);
        let mut play = Play::new(rt.alloc());
        break_off(&mut play, front)?;
        plays(&rt, "once", "site", "a front", play)?;
    }
    Ok(())
}

// ---- pieces at their limits

const PIECES: &str = r"
HEAD_TOO_LARGE = Write 0: HTTP/1.1 431 Request Header Fields Too Large\r\nContent-Type: text/plain\r\nContent-Length: 23\r\nConnection: close\r\n\r\nrequest head too large\n
CHUNKED = POST /cgi-bin/form HTTP/1.1\r\nHost: a\r\nTransfer-Encoding: chunked\r\n\r\n
BODY_TOO_LARGE = Write 0: HTTP/1.1 413 Content Too Large\r\nContent-Type: text/plain\r\nContent-Length: 23\r\nConnection: close\r\n\r\nrequest body too large\n
== 16,383 bytes with no end of a head, and one more
Accepted
    WantClient 0
ClientFill 0 16383
    WantClient 0
Client 0 x
    $HEAD_TOO_LARGE
    Shut 0 Done
+ STOPPED
== 16,384 at once
Accepted
    WantClient 0
ClientFill 0 16384
    $HEAD_TOO_LARGE
    Shut 0 Done
+ STOPPED
== an empty line before them doesn't count
Accepted
    WantClient 0
Client 0 \r\n
    WantClient 0
ClientFill 0 16383
    WantClient 0
ClientFill 0 65536
    $HEAD_TOO_LARGE
    Shut 0 Done
+ STOPPED
== a chunk of 1,048,576 bytes, and one of one more
Accepted
    WantClient 0
Client 0 $CHUNKED
    WantClient 0
Client 0 100000
    WantClient 0
Client 0 \r\n
    WantClient 0
ClientEof 0
    $WRITE_ENDED_EARLY
    Shut 0 Done
Accepted
    WantClient 1
Client 1 $CHUNKED
    WantClient 1
Client 1 10000
    WantClient 1
Client 1 1
    Write 1: HTTP/1.1 413 Content Too Large\r\nContent-Type: text/plain\r\nContent-Length: 23\r\nConnection: close\r\n\r\nrequest body too large\n
    Shut 1 Done
+ STOPPED
== chunks that are too long together
Accepted
    WantClient 0
Client 0 $CHUNKED
    WantClient 0
Client 0 1\r\nx\r\n100000
    $BODY_TOO_LARGE
    Shut 0 Done
+ STOPPED
";

const OUTPUTS: &str = r"
OUTPUT_TOO_LARGE = Write 0: HTTP/1.1 502 Bad Gateway\r\nContent-Type: text/plain\r\nContent-Length: 24\r\nConnection: close\r\n\r\nscript output too large\n
== as much output as may be
+ BEGUN
OutputFill 0 8192
    WantChild 0
Exited 0
Stop
    Release 0
    Shut 0 Stopped
== one byte more
+ BEGUN
Output 0 Content-Type: text/plain\n\n
    WantChild 0
OutputFill 0 8167
    $OUTPUT_TOO_LARGE
    Kill 0
    Shut 0 Done
Exited 0
    Release 0
Stop
";

#[test]
fn pieces_at_their_limits(rt: HostRuntime) -> Result<(), Fail> {
    has_rows(&rt, rt.alloc(), "serve", "site", PIECES, 5)?;
    has_rows(&rt, rt.alloc(), "once", "small", OUTPUTS, 2)
}

// ---- whole heads

// What stands before a part that is repeated, the part, how often, what follows, and what is to come of it all.
const LONG: &str = r"
TOO_LARGE = Refused HTTP/1.1 431 Request Header Fields Too Large\r\nContent-Type: text/plain\r\nContent-Length: 23\r\nConnection: close\r\n\r\nrequest head too large\n
BARE = Served HTTP/1.1 200 OK\r\nContent-Type: text/plain\r\nConnection: close\r\n\r\n
TOO_LONG = Refused HTTP/1.1 414 URI Too Long\r\nContent-Type: text/plain\r\nContent-Length: 16\r\nConnection: close\r\n\r\ntarget too long\n
MISSING_BARE = Refused HTTP/1.1 404 Not Found\r\nContent-Type: text/plain\r\nConnection: close\r\n\r\n
TOO_MANY = Refused HTTP/1.1 431 Request Header Fields Too Large\r\nContent-Type: text/plain\r\nContent-Length: 23\r\nConnection: close\r\n\r\ntoo many header fields\n
// A head has at most 16,384 bytes with its empty line, which one CRLF before it doesn't count in.
GET /cgi-bin/hello HTTP/1.1\r\nHost: a\r\nConnection: close\r\nA:\x20 | a | 16320 | \r\n\r\n | Served HTTP/1.1 200 OK\r\nContent-Type: text/plain\r\nContent-Length: 3\r\nConnection: close\r\n\r\nhi\n
GET /cgi-bin/hello HTTP/1.1\r\nHost: a\r\nConnection: close\r\nA:\x20 | a | 16321 | \r\n\r\n | $TOO_LARGE
\r\nGET /cgi-bin/hello HTTP/1.1\r\nHost: a\r\nConnection: close\r\nA:\x20 | a | 16320 | \r\n\r\n | Served HTTP/1.1 200 OK\r\nContent-Type: text/plain\r\nContent-Length: 3\r\nConnection: close\r\n\r\nhi\n
HEAD /cgi-bin/hello HTTP/1.1\r\nHost: a\r\nConnection: close\r\nA:\x20 | a | 16319 | \r\n\r\n | $BARE
HEAD /cgi-bin/hello HTTP/1.1\r\nHost: a\r\nConnection: close\r\nA:\x20 | a | 16320 | \r\n\r\n | $TOO_LARGE
// A target has at most 8,000 bytes.
GET / | a | 7999 | \x20HTTP/1.1\r\nHost: a\r\nConnection: close\r\n\r\n | Refused HTTP/1.1 404 Not Found\r\nContent-Type: text/plain\r\nContent-Length: 24\r\nConnection: close\r\n\r\nno script for this path\n
GET / | a | 8000 | \x20HTTP/1.1\r\nHost: a\r\nConnection: close\r\n\r\n | $TOO_LONG
HEAD / | a | 7999 | \x20HTTP/1.1\r\nHost: a\r\nConnection: close\r\n\r\n | $MISSING_BARE
HEAD / | a | 8000 | \x20HTTP/1.1\r\nHost: a\r\nConnection: close\r\n\r\n | $TOO_LONG
// A head has at most 100 field lines, of which two stand in each.
GET /cgi-bin/hello HTTP/1.1\r\nHost: a\r\nConnection: close\r\n | A:\r\n | 98 | \r\n | Served HTTP/1.1 200 OK\r\nContent-Type: text/plain\r\nContent-Length: 3\r\nConnection: close\r\n\r\nhi\n
GET /cgi-bin/hello HTTP/1.1\r\nHost: a\r\nConnection: close\r\n | A:\r\n | 99 | \r\n | $TOO_MANY
HEAD /cgi-bin/hello HTTP/1.1\r\nHost: a\r\nConnection: close\r\n | A:\r\n | 98 | \r\n | $BARE
HEAD /cgi-bin/hello HTTP/1.1\r\nHost: a\r\nConnection: close\r\n | A:\r\n | 99 | \r\n | $TOO_MANY
";

// What is repeated, with what stands before it and after it.
fn text_of(alloc: Global, long: &str) -> Result<Vec<u8>, NoMemory> {
    let mut text = bytes_of(alloc, LONG, column(long, 0))?;
    push_times(
        alloc,
        &mut text,
        column(long, 1),
        size_of(column(long, 2)).min(20_000),
    )?;
    push_times(alloc, &mut text, column(long, 3), 1)?;
    Ok(text)
}

fn push_times(alloc: Global, text: &mut Vec<u8>, part: &str, times: usize) -> Result<(), NoMemory> {
    let part = bytes_of(alloc, LONG, part)?;
    for _ in 0..times {
        text.extend_from_slice(part.as_slice())?;
    }
    Ok(())
}

fn is_right<R: Threads + Sync>(
    rt: &R,
    alloc: Global,
    text: &[u8],
    wanted: Wanted,
) -> Result<bool, NoMemory> {
    Ok(
        is_right_whole(rt, alloc, Part::Request, text, wanted)?
            && is_right_in_two(rt, alloc, Part::Request, text, wanted)?,
    )
}

fn is_long<R: Threads + Sync>(rt: &R, alloc: Global, long: &str) -> Result<bool, NoMemory> {
    let text = text_of(alloc, long)?;
    let due = due_of(alloc, LONG, column(long, 4))?;
    is_right(rt, alloc, text.as_slice(), due.wanted())
}

// The first row that is wrong; nothing where none is.
fn wrong_long<R: Threads + Sync>(
    rt: &R,
    alloc: Global,
    rows: &[&'static str],
) -> Result<&'static str, NoMemory> {
    for long in rows {
        if !is_long(rt, alloc, *long)? {
            return Ok(*long);
        }
    }
    Ok("")
}

#[test]
fn heads_targets_and_fields_at_their_limits(rt: HostRuntime) -> Result<(), Fail> {
    let rows = rows_of(rt.alloc(), LONG)?;
    assert_eq!(rt; rows.len(), 13);
    assert_eq!(rt; wrong_long(&rt, rt.alloc(), rows.as_slice())?, "");
    Ok(())
}
