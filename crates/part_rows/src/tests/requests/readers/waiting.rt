// What is waited for, and what is served and handed out before its end.
use super::super::super::tables::{Cells, Rows, are_right, is};
use super::super::RequestRows;
use super::reading::{feeds, new_reader, next_whole, rest};
use host_base::{Bytes, NoMemory, Request};
use request_reader::{ReqReader, ReqStep};
use std::alloc::Global;
use std::test::Fail;

// Requests that have not ended, whether 100 Continue is due, whether they can be served early, and their body so far.
const UNENDED: &str = r"
| no | no |
GET / HTTP/1.1\r\nHost: a\r\n\r | no | no |
POST / HTTP/1.1\r\nHost: a\r\nContent-Length: 3\r\n\r\n | no | yes |
POST / HTTP/1.1\r\nHost: a\r\nContent-Length: 3\r\n\r\nab | no | yes | ab
POST / HTTP/1.1\r\nHost: a\r\nExpect: 100-continue\r\nContent-Length: 3\r\n\r | no | no |
POST / HTTP/1.1\r\nHost: a\r\nExpect: 100-continue\r\nContent-Length: 3\r\n\r\n | yes | yes |
POST / HTTP/1.1\r\nHost: a\r\nExpect: 100-Continue\r\nContent-Length: 3\r\n\r\nab | yes | yes | ab
POST / HTTP/1.1\r\nHost: a\r\nexpect: 100-continue,, 100-continue\r\nContent-Length: 3\r\n\r\n | yes | yes |
POST / HTTP/1.1\r\nHost: a\r\nExpect: 100-continue\r\nExpect: 100-continue\r\nContent-Length: 3\r\n\r\n | yes | yes |
POST / HTTP/1.1\r\nHost: a\r\nExpect:\r\nContent-Length: 3\r\n\r\n | no | yes |
POST / HTTP/1.0\r\nExpect: 100-continue\r\nContent-Length: 3\r\n\r\n | no | yes |
POST / HTTP/1.1\r\nHost: a\r\nTransfer-Encoding: chunked\r\n\r\n | no | no |
POST / HTTP/1.1\r\nHost: a\r\nTransfer-Encoding: chunked\r\n\r\n5\r\nabc | no | no |
POST / HTTP/1.1\r\nHost: a\r\nExpect: 100-continue\r\nTransfer-Encoding: chunked\r\n\r\n5 | yes | no |
";

// Feeds a text in pieces of `first` bytes and then of `size` bytes, and looks behind each but the last.
fn is_fed(reader: &mut ReqReader, text: &[u8], first: usize, size: usize) -> bool {
    let (first, rest) = text.split_at(first.min(text.len()));
    let mut right = feeds(reader, first);
    for piece in rest.chunks(size.max(1)) {
        right = right && is_looked_behind(reader) && feeds(reader, piece);
    }
    right
}

fn is_looked_behind(reader: &mut ReqReader) -> bool {
    early(reader).is_ok()
}

fn early(reader: &mut ReqReader) -> Result<Option<Request>, NoMemory> {
    reader.early()
}

fn body_of(request: &Option<Request>) -> Option<&[u8]> {
    match request {
        Some(request) => Some(request.body.as_slice()),
        None => None,
    }
}

fn has_body(request: &Option<Request>, body: Option<&[u8]>) -> bool {
    match (request, body) {
        (Some(request), Some(body)) => is(request.body.as_slice(), body),
        (None, None) => true,
        _ => false,
    }
}

fn is_body_early(reader: &mut ReqReader, body: Option<&[u8]>) -> Result<bool, NoMemory> {
    Ok(has_body(&early(reader)?, body))
}

fn takes_body(reader: &mut ReqReader, body: &[u8]) -> bool {
    is(reader.take_body().as_slice(), body)
}

// What `early` gives has the body that is due, which is then handed out.
fn is_early(reader: &mut ReqReader, body: Option<&[u8]>) -> bool {
    is_body_early(reader, body).unwrap_or(false) && takes_body(reader, body.unwrap_or(b""))
}

fn is_more(step: &Result<ReqStep, NoMemory>, due: bool) -> bool {
    match step {
        Ok(ReqStep::More { continue_due }) => *continue_due == due,
        _ => false,
    }
}

fn step(reader: &mut ReqReader) -> Result<ReqStep, NoMemory> {
    reader.step()
}

fn is_waiting(reader: &mut ReqReader, due: bool) -> bool {
    is_more(&step(reader), due)
}

fn is_unended(
    alloc: Global,
    first: usize,
    size: usize,
    text: &[u8],
    due: bool,
    body: Option<&[u8]>,
) -> bool {
    let mut reader = new_reader(alloc);
    let fed = is_fed(&mut reader, text, first, size);
    fed && is_early(&mut reader, body) && is_waiting(&mut reader, due)
}

fn is_unended_however_cut(alloc: Global, text: &[u8], due: bool, body: Option<&[u8]>) -> bool {
    for first in 0..text.len() + 1 {
        if !is_unended(alloc, first, text.len(), text, due, body) {
            return false;
        }
    }
    is_unended(alloc, 0, 1, text, due, body)
}

pub fn is_right(alloc: Global, row: &Cells) -> Result<bool, NoMemory> {
    let body = if row.is_yes(2) { Some(row.at(3)) } else { None };
    Ok(is_unended_however_cut(alloc, row.at(0), row.is_yes(1), body))
}

#[test]
fn what_is_waited_for_and_served_early(rt: HostRuntime) -> Result<(), Fail> {
    are_right(
        &rt,
        rt.alloc(),
        UNENDED,
        14,
        Rows::Request(RequestRows::Unended),
    )
}

const STREAMED: &[u8] =
    b"POST / HTTP/1.0\r\nContent-Length: 26\r\n\r\nabcdefghijklmnopqrstuvwxyzGET";

// Adds the part of the body that is handed out.
fn adds_part(reader: &mut ReqReader, body: &mut Bytes) -> bool {
    adds(body, Some(reader.take_body().as_slice()))
}

// Adds what has come of the body.
fn takes(reader: &mut ReqReader, body: &mut Bytes) -> bool {
    match is_served_early(reader) {
        Ok(true) => adds_part(reader, body),
        Ok(false) => true,
        Err(NoMemory) => false,
    }
}

fn is_some(request: &Option<Request>) -> bool {
    match request {
        Some(_) => true,
        None => false,
    }
}

fn is_served_early(reader: &mut ReqReader) -> Result<bool, NoMemory> {
    Ok(is_some(&early(reader)?))
}

fn adds(body: &mut Bytes, part: Option<&[u8]>) -> bool {
    match part {
        Some(part) => body.extend_from_slice(part).is_ok(),
        None => false,
    }
}

// Adds what the request has at its end.
fn ends(reader: &mut ReqReader, body: &mut Bytes) -> bool {
    adds(body, body_of(&next_whole(reader)))
}

// Adds what is handed out of pieces of so many bytes, behind each second piece, and what the request has at its end.
fn streams(reader: &mut ReqReader, body: &mut Bytes, size: usize) -> bool {
    let mut now = false;
    for piece in STREAMED.chunks(size.max(1)) {
        if !feeds(reader, piece) || now && !takes(reader, body) {
            return false;
        }
        now = !now;
    }
    ends(reader, body)
}

fn is_whole(reader: &ReqReader, body: &Bytes) -> bool {
    is(body.as_slice(), b"abcdefghijklmnopqrstuvwxyz") && is(rest(reader), b"GET")
}

// Whether the parts that `take_body` hands out of pieces of so many bytes, behind each second piece, and the rest are the
// body.
fn is_streamed(alloc: Global, size: usize) -> bool {
    let mut reader = new_reader(alloc);
    let mut body = Bytes::new(alloc);
    streams(&mut reader, &mut body, size) && is_whole(&reader, &body)
}

#[test]
fn each_byte_of_a_body_is_handed_out_once(rt: HostRuntime) {
    for size in 1..STREAMED.len() + 1 {
        assert!(&rt; is_streamed(rt.alloc(), size), "{size}");
    }
}
