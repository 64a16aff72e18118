// Long lines of a body, long pipelines and a long head.
use super::super::super::tables::{Cells, Rows, are_right, repeated};
use super::super::RequestRows;
use super::reading::{
    Expected, feeds, is_answered_however_cut, is_refused, new_reader, next_whole, rest,
};
use host_base::{Cause, NoMemory};
use request_reader::ReqReader;
use std::alloc::Global;
use std::process::Abort;
use std::test::Fail;

// Requests whose body has a long line: what stands before it, how many bytes of it follow, what stands behind them, the cause of the
// fault, or `-`, whether a reply has no body, and the paths and bodies of the requests that are given.
const LONG_LINES: &str = r"
POST / HTTP/1.1\r\nHost: a\r\nTransfer-Encoding: chunked\r\n\r\n1; | 255 | \r\na\r\n0\r\n\r\n | - | no | / | a
POST / HTTP/1.1\r\nHost: a\r\nTransfer-Encoding: chunked\r\n\r\n1; | 256 | \r\na\r\n0\r\n\r\n | BadChunk | no
POST / HTTP/1.1\r\nHost: a\r\nTransfer-Encoding: chunked\r\n\r\n1\r\na\r\n0\r\nA | 8191 | \r\n\r\n | - | no | / | a
HEAD / HTTP/1.1\r\nHost: a\r\nTransfer-Encoding: chunked\r\n\r\n0\r\nA | 8192 | \r\n\r\n | BadChunk | yes
";

pub fn is_right(alloc: Global, row: &Cells) -> Result<bool, NoMemory> {
    let fault = match row.cause(3) {
        Some(cause) => Some((cause, row.is_yes(4))),
        None => None,
    };
    let expected = Expected {
        due: row.from(5),
        followed: false,
        fault,
        left: if fault.is_some() {
            None
        } else {
            Some((false, 0))
        },
    };
    let times = row.size(1).min(100_000);
    let text = repeated(alloc, row.at(0), b"x", times, row.at(2))?;
    Ok(is_answered_however_cut(alloc, text.as_slice(), expected))
}

#[test]
fn long_lines_however_they_are_cut(rt: HostRuntime) -> Result<(), Fail> {
    are_right(
        &rt,
        rt.alloc(),
        LONG_LINES,
        4,
        Rows::Request(RequestRows::LongLine),
    )
}

// How many whole requests there are now.
fn count_now(reader: &mut ReqReader, most: usize) -> usize {
    for count in 0..most {
        if !gives_one(reader) {
            return count;
        }
    }
    most
}

fn gives_one(reader: &mut ReqReader) -> bool {
    match next_whole(reader) {
        Some(_) => true,
        None => false,
    }
}

// How many of the requests of a text are given, fed in pieces of `size` bytes; none where bytes are left.
fn count_given(alloc: Global, text: &[u8], size: usize) -> usize {
    let mut reader = new_reader(alloc);
    count_all(&mut reader, text, size)
}

fn count_all(reader: &mut ReqReader, text: &[u8], size: usize) -> usize {
    let mut count: usize = 0;
    for piece in text.chunks(size.max(1)) {
        if !feeds(reader, piece) {
            return 0;
        }
        count = count.saturating_add(count_now(reader, text.len()));
    }
    if rest(reader).is_empty() { count } else { 0 }
}

fn are_given<R: Abort>(rt: &R, alloc: Global, text: &[u8]) {
    for size in [1, 27, 65_536, text.len()] {
        assert!(rt; count_given(alloc, text, size) == 5_000, "{size}");
    }
}

#[test]
fn a_long_pipeline(rt: HostRuntime) -> Result<(), Fail> {
    let request = b"GET /a HTTP/1.0\r\nContent-Length: 2\r\n\r\nab";
    let text = repeated(rt.alloc(), b"", request, 5_000, b"")?;
    are_given(&rt, rt.alloc(), text.as_slice());
    Ok(())
}

fn is_long_head_refused(alloc: Global) -> Result<bool, NoMemory> {
    let text = repeated(alloc, b"", b"HEAD / HTTP/1.1\r\n", 61, b"")?;
    let left = Some((true, 1037));
    Ok(is_refused(alloc, text.as_slice(), Cause::HeadTooLong, false, left))
}

// A head is not told to be HEAD's before it is whole.
#[test]
fn a_long_head(rt: HostRuntime) -> Result<(), Fail> {
    assert!(&rt; is_long_head_refused(rt.alloc())?);
    Ok(())
}
