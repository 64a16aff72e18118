// Which requests end the connection, and what a local redirect keeps of one.
use super::super::super::tables::{Cells, Rows, are_right, bytes_of, is};
use super::super::RequestRows;
use super::reading::{fed, next_whole};
use host_base::{Field, NoMemory, Request, Target};
use request_reader::{persists, redirected};
use std::alloc::Global;
use std::test::Fail;

// The one request of a text.
fn request_of(alloc: Global, text: &[u8]) -> Option<Request> {
    match fed(alloc, text) {
        Some(mut reader) => next_whole(&mut reader),
        None => None,
    }
}

// Whether another request may follow on the connection, and the head.
const LASTING: &str = r"
yes | GET / HTTP/1.1\r\nHost: a\r\n\r\n
no | GET / HTTP/1.0\r\nHost: a\r\n\r\n
no | GET / HTTP/1.0\r\nConnection: keep-alive\r\n\r\n
no | GET / HTTP/1.1\r\nHost: a\r\nConnection: close\r\n\r\n
no | GET / HTTP/1.1\r\nHost: a\r\nCONNECTION: Close\r\n\r\n
no | GET / HTTP/1.1\r\nHost: a\r\nConnection: upgrade,\tCLOSE ,\r\n\r\n
no | GET / HTTP/1.1\r\nHost: a\r\nConnection: a\r\nConnection: close\r\n\r\n
yes | GET / HTTP/1.1\r\nHost: a\r\nConnection: closed, a close\r\n\r\n
yes | GET / HTTP/1.1\r\nHost: a\r\nConnection: ,,\r\n\r\n
yes | GET / HTTP/1.1\r\nHost: a\r\nClose: close\r\n\r\n
";

fn lasts(request: &Option<Request>, due: bool) -> bool {
    match request {
        Some(request) => persists(request) == due,
        None => false,
    }
}

pub fn is_lasting(alloc: Global, row: &Cells) -> Result<bool, NoMemory> {
    Ok(lasts(&request_of(alloc, row.at(1)), row.is_yes(0)))
}

#[test]
fn which_requests_end_the_connection(rt: HostRuntime) -> Result<(), Fail> {
    are_right(
        &rt,
        rt.alloc(),
        LASTING,
        10,
        Rows::Request(RequestRows::Lasting),
    )
}

// Requests, the method after a local redirect, and the names of the field lines that are kept.
const REDIRECTS: &str = r"
HEAD / HTTP/1.1\r\nHost: a\r\nX: y\r\nhost2: a\r\n\r\n | HEAD | Host | X | host2
head / HTTP/1.1\r\nHost: a\r\n\r\n | GET | Host
POST / HTTP/1.1\r\ncontent-LENGTH: 2\r\nContent-Type: a\r\nExpect: 100-continue\r\nCookie: c\r\nUpgrade: w\r\nConnection: close\r\nsec-websocket-Key: k\r\nSec-WebSocket-: k\r\nSec-WebSocket: kept\r\nContent: kept\r\nHost: a\r\n\r\nab | GET | Cookie | Sec-WebSocket | Content | Host
";

// Whether the fields have the names in the cells from one on.
fn has_names(fields: &[Field], row: &Cells, from: usize) -> bool {
    let mut place = from;
    for field in fields {
        if !is(field.name.as_slice(), row.at(place)) {
            return false;
        }
        place = place.saturating_add(1);
    }
    place == row.len()
}

fn is_as(made: &Request, request: &Request, method: &[u8]) -> bool {
    is(made.method.as_slice(), method)
        && is(made.target.path.as_slice(), b"/new")
        && made.version == request.version
        && made.body.is_empty()
}

fn new_target(alloc: Global) -> Result<Target, NoMemory> {
    let path = bytes_of(alloc, b"/new")?;
    Ok(Target {
        path,
        query: None,
        host: None,
    })
}

fn redirect_of(alloc: Global, request: &Request) -> Result<Request, NoMemory> {
    redirected(alloc, request, new_target(alloc)?)
}

fn is_kept(made: &Request, request: &Request, row: &Cells) -> bool {
    is_as(made, request, row.at(1)) && has_names(made.fields.as_slice(), row, 2)
}

fn is_redirected(alloc: Global, request: &Request, row: &Cells) -> Result<bool, NoMemory> {
    Ok(is_kept(&redirect_of(alloc, request)?, request, row))
}

pub fn is_redirect(alloc: Global, row: &Cells) -> Result<bool, NoMemory> {
    match request_of(alloc, row.at(0)) {
        Some(request) => is_redirected(alloc, &request, row),
        None => Ok(false),
    }
}

#[test]
fn what_a_local_redirect_keeps(rt: HostRuntime) -> Result<(), Fail> {
    are_right(
        &rt,
        rt.alloc(),
        REDIRECTS,
        3,
        Rows::Request(RequestRows::Redirect),
    )
}
