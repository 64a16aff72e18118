// What heads bring, over memory by the top call: each condition just met and just missed, and however their
// bytes come.
use super::pieces::{Part, due_of, is_right_in_any, repeated};
use super::script::{bytes_of, column, rows_of};
use host_base::NoMemory;
use std::alloc::Global;
use std::process::Abort;
use std::test::Fail;
use std::thread::Threads;

// What is to come of the cases.
const WANTED: &str = r"
SERVED = Served HTTP/1.1 200 OK\r\nContent-Type: text/plain\r\nContent-Length: 3\r\nConnection: close\r\n\r\nhi\n
MISSING = Refused HTTP/1.1 404 Not Found\r\nContent-Type: text/plain\r\nContent-Length: 24\r\nConnection: close\r\n\r\nno script for this path\n
BAD_HEAD = Refused HTTP/1.1 400 Bad Request\r\nContent-Type: text/plain\r\nContent-Length: 17\r\nConnection: close\r\n\r\nbad request head\n
BAD_HOST = Refused HTTP/1.1 400 Bad Request\r\nContent-Type: text/plain\r\nContent-Length: 9\r\nConnection: close\r\n\r\nbad host\n
BAD_HOST_BARE = Refused HTTP/1.1 400 Bad Request\r\nContent-Type: text/plain\r\nConnection: close\r\n\r\n
BAD_PATH = Refused HTTP/1.1 400 Bad Request\r\nContent-Type: text/plain\r\nContent-Length: 9\r\nConnection: close\r\n\r\nbad path\n
BAD_TARGET = Refused HTTP/1.1 400 Bad Request\r\nContent-Type: text/plain\r\nContent-Length: 11\r\nConnection: close\r\n\r\nbad target\n
NOT_SERVED = Refused HTTP/1.1 501 Not Implemented\r\nContent-Type: text/plain\r\nContent-Length: 28\r\nConnection: close\r\n\r\nmethod or target not served\n
SERVED_BARE = Served HTTP/1.1 200 OK\r\nContent-Type: text/plain\r\nConnection: close\r\n\r\n
MISSING_BARE = Refused HTTP/1.1 404 Not Found\r\nContent-Type: text/plain\r\nConnection: close\r\n\r\n
NOT_SERVED_BARE = Refused HTTP/1.1 501 Not Implemented\r\nContent-Type: text/plain\r\nConnection: close\r\n\r\n
LEFT_OPEN = Open HTTP/1.1 200 OK\r\nContent-Type: text/plain\r\nContent-Length: 3\r\n\r\nhi\n
BAD_FRAMING = Refused HTTP/1.1 400 Bad Request\r\nContent-Type: text/plain\r\nContent-Length: 17\r\nConnection: close\r\n\r\nbad body framing\n
TOO_LARGE = Refused HTTP/1.1 413 Content Too Large\r\nContent-Type: text/plain\r\nContent-Length: 23\r\nConnection: close\r\n\r\nrequest body too large\n
CODING_UNKNOWN = Refused HTTP/1.1 501 Not Implemented\r\nContent-Type: text/plain\r\nContent-Length: 27\r\nConnection: close\r\n\r\ntransfer coding not served\n
BAD_EXPECT = Refused HTTP/1.1 417 Expectation Failed\r\nContent-Type: text/plain\r\nContent-Length: 20\r\nConnection: close\r\n\r\nexpectation not met\n
";

// What is to come of bytes that a client sends, and the bytes.
const HEADS: &str = r"
// A head that isn't whole.
Nothing |
Nothing | \r
Nothing | \r\n
Nothing | GET /cgi-bin/hello HTTP/1.1
Nothing | POST
Nothing | GET /cgi-bin/hello HTTP/1.1\r\nHost: a\r\nConnection: close\r\n
Nothing | GET /cgi-bin/hello HTTP/1.1\r\nHost: a\r\nConnection: close\r\n\r
Nothing | GET /cgi-bin/hello HTTP/1.1\nHost: a\nConnection: close\n
Nothing | \r\nGET /cgi-bin/hello HTTP/1.1\r\nHost: a\r\nConnection: close\r\n
// A whole one, with lines ended by CRLF or by LF, and one CRLF before it or none.
$SERVED | GET /cgi-bin/hello HTTP/1.1\r\nHost: a\r\nConnection: close\r\n\r\n
$SERVED | GET /cgi-bin/hello HTTP/1.1\nHost: a\nConnection: close\n\n
$SERVED | GET /cgi-bin/hello HTTP/1.1\nHost: a\r\nConnection: close\n\r\n
$SERVED | \r\nGET /cgi-bin/hello HTTP/1.1\r\nHost: a\r\nConnection: close\r\n\r\n
$SERVED | \r\nGET /cgi-bin/hello HTTP/1.1\nHost: a\nConnection: close\n\n
// What follows it is not asked for.
$SERVED | GET /cgi-bin/hello HTTP/1.1\r\nHost: a\r\nConnection: close\r\n\r\nGET /none HTTP/1.1\r\n\r\n
$MISSING | GET /none HTTP/1.1\r\nHost: a\r\nConnection: close\r\n\r\nGET /cgi-bin/hello HTTP/1.1\r\nHost: a\r\nConnection: close\r\n\r\n
// What stands before it is no CRLF, or a second one.
$BAD_HEAD | \r\n\r\n
$BAD_HEAD | \r\n\r\nGET /cgi-bin/hello HTTP/1.1\r\nHost: a\r\nConnection: close\r\n\r\n
$BAD_HEAD | \r\n\nGET /cgi-bin/hello HTTP/1.1\r\nHost: a\r\nConnection: close\r\n\r\n
$BAD_HEAD | \n
$BAD_HEAD | \nGET /cgi-bin/hello HTTP/1.1\r\nHost: a\r\nConnection: close\r\n\r\n
$BAD_HEAD | \rGET /cgi-bin/hello HTTP/1.1\r\nHost: a\r\nConnection: close\r\n\r\n
$BAD_HEAD | \r\r\nGET /cgi-bin/hello HTTP/1.1\r\nHost: a\r\nConnection: close\r\n\r\n
// No head of the grammar, which is answered as a GET is.
$BAD_HEAD | GET /cgi-bin/hello\r\nHost: a\r\nConnection: close\r\n\r\n
$BAD_HEAD | HEAD /cgi-bin/hello\r\nHost: a\r\nConnection: close\r\n\r\n
$BAD_HEAD | GET\r\nHost: a\r\nConnection: close\r\n\r\n
$BAD_HEAD | GET /cgi-bin/hello HTTP/1.1\r\nHost: a\r\nConnection: close\r\nA b: c\r\n\r\n
$BAD_HEAD | GET /cgi-bin/hello HTTP/1.1\r\nHost: a\r\nConnection: close\r\nA : b\r\n\r\n
$BAD_HEAD | GET /cgi-bin/hello HTTP/1.1\r\nHost: a\r\nConnection: close\r\n: b\r\n\r\n
$BAD_HEAD | GET /cgi-bin/hello HTTP/1.1\r\nHost: a\r\nConnection: close\r\nA\r\n\r\n
$BAD_HEAD | GET /cgi-bin/hello HTTP/1.1\r\nHost: a\r\nConnection: close\r\n b\r\n\r\n
$BAD_HEAD | GET /cgi-bin/hello HTTP/1.1\r\nHost: a\r\nConnection: close\r\nA: \0\r\n\r\n
$BAD_HEAD | GET /cgi-bin/hello HTTP/1.1\r\nHost: a\r\nConnection: close\r\nA: b\rc\r\n\r\n
$BAD_HEAD | HEAD /cgi-bin/hello HTTP/1.1\r\nHost: a\r\nConnection: close\r\nA : b\r\n\r\n
// One that has no Host, for GET and for HEAD.
$BAD_HOST | GET /cgi-bin/hello HTTP/1.1\r\n\r\n
$BAD_HOST_BARE | HEAD /cgi-bin/hello HTTP/1.1\r\n\r\n
";

// Targets of a GET.
const TARGETS: &str = r"
// No script is at the path.
$MISSING | /none
$MISSING | /
$MISSING | //
$MISSING | //cgi-bin/hello
$MISSING | /cgi-bin
$MISSING | /cgi-bin/
$MISSING | /cgi-bin/hell
$MISSING | /cgi-bin/hell/o
$MISSING | /cgi-bin/hello2
$MISSING | /cgi-bin/hello-/
$MISSING | /cgi-bin/Hello
$MISSING | /-_/09AZaz
// One is, and the path may go on behind it.
$SERVED | /cgi-bin/hello
$SERVED | /cgi-bin/hello/
$SERVED | /cgi-bin/hello//
$SERVED | /cgi-bin/hello/a
$SERVED | /cgi-bin/hello/..hello
// Dot segments, and those at the root.
$SERVED | /cgi-bin/./hello
$SERVED | /x/../cgi-bin/hello
$SERVED | /../cgi-bin/hello
$MISSING | /cgi-bin/hello/../x
$SERVED | /cgi-bin/hello/.
$SERVED | /cgi-bin/x/../hello
// Escapes: they are read once, and none may hide a slash, a zero byte or a dot segment.
$SERVED | /cgi-bin/%68ello
$SERVED | /cgi%2Dbin/hello
$MISSING | /cgi-bin/hello%41
$SERVED | /cgi-bin/hello/%c3%a9
$SERVED | /cgi-bin/hello/%2541
$MISSING | /cgi-bin%2fhello
$MISSING | /cgi-bin/hello/a%2Fb
$MISSING | /cgi-bin/hello/%00
$MISSING | /%2e%2E/cgi-bin/hello
$MISSING | /cgi-bin/hello/%2e
$BAD_PATH | /cgi-bin/hello/%
$BAD_PATH | /cgi-bin/hello/%4
$BAD_PATH | /cgi-bin/hello/%zz
$BAD_PATH | /none%c3
$BAD_PATH | /cgi-bin/hello/%ff
// A query, which decides nothing.
$SERVED | /cgi-bin/hello?
$SERVED | /cgi-bin/hello?/../x%zz
$MISSING | /none?/cgi-bin/hello
$MISSING | /?/cgi-bin/hello
// Bytes beside letters and digits.
$MISSING | /none,
$MISSING | /none.
$MISSING | /none:
$MISSING | /none@
$MISSING | /none~
$BAD_TARGET | /none#
$BAD_TARGET | /cgi-bin/hello?a#b
$BAD_HEAD | /none\x7f
$BAD_HEAD | /none\xff
$BAD_HEAD | /none a
// The absolute form, whose authority stands for Host.
$SERVED | http://a/cgi-bin/hello
$SERVED | HTTP://b:80/cgi-bin/hello?a
$MISSING | http://a
$MISSING | http://a?/cgi-bin/hello
$BAD_TARGET | http:///cgi-bin/hello
$BAD_HEAD | http://a b/
$BAD_TARGET | http://u@a/cgi-bin/hello
$BAD_TARGET | https://a/cgi-bin/hello
// Neither form.
$NOT_SERVED | *
$BAD_TARGET | cgi-bin/hello
$BAD_TARGET | -/cgi-bin/hello
$BAD_TARGET | a:80
";

// Request lines.
const REQUEST_LINES: &str = r"
$SERVED | GET /cgi-bin/hello HTTP/1.1
$SERVED | GET /cgi-bin/hello HTTP/1.0
$BAD_HEAD | GET /cgi-bin/hello HTTP/1.2
$BAD_HEAD | GET /cgi-bin/hello HTTP/2.0
$BAD_HEAD | GET /cgi-bin/hello http/1.1
$MISSING | GET /none HTTP/1.0
$SERVED | POST /cgi-bin/hello HTTP/1.1
$MISSING | POST /none HTTP/1.1
$SERVED | get /cgi-bin/hello HTTP/1.1
$SERVED | M-SEARCH /cgi-bin/hello HTTP/1.1
$NOT_SERVED | CONNECT a:80 HTTP/1.1
$NOT_SERVED | CONNECT /cgi-bin/hello HTTP/1.0
$SERVED | connect /cgi-bin/hello HTTP/1.1
$NOT_SERVED | OPTIONS * HTTP/1.1
$BAD_HEAD | GET  /cgi-bin/hello HTTP/1.1
$BAD_HEAD | GET /cgi-bin/hello HTTP/1.1\x20
$BAD_HEAD | G(T /cgi-bin/hello HTTP/1.1
$SERVED_BARE | HEAD /cgi-bin/hello HTTP/1.1
$SERVED_BARE | HEAD /cgi-bin/hello HTTP/1.0
$MISSING_BARE | HEAD /none HTTP/1.1
$NOT_SERVED_BARE | HEAD * HTTP/1.1
$SERVED | head /cgi-bin/hello HTTP/1.1
$BAD_HEAD | HEAD  /cgi-bin/hello HTTP/1.1
";

// Field lines of a GET.
const FIELD_LINES: &str = r"
// Exactly one Host field, which is an authority.
$SERVED | Host: a\r\nConnection: close\r\n
$SERVED | Connection: close\r\nHost: a\r\n
$SERVED | HOST:\t a.b-C9 \t\r\nConnection: close\r\n
$SERVED | Host:192.0.2.1\r\nConnection: close\r\n
$SERVED | Hosts: b\r\nHost: a\r\nConnection: close\r\n
$SERVED | Host:\r\nConnection: close\r\n
$SERVED | Host: \t \r\nConnection: close\r\n
$SERVED | Host: a:1\r\nConnection: close\r\n
$SERVED | Host: a:\r\nConnection: close\r\n
$SERVED | Host: a_b\r\nConnection: close\r\n
$SERVED | Host: a%4a\r\nConnection: close\r\n
$SERVED | Host: [::1]:80\r\nConnection: close\r\n
$SERVED | Host: :80\r\nConnection: close\r\n
$BAD_HOST |
$BAD_HOST | Connection: close\r\n
$BAD_HOST | Hosts: a\r\nConnection: close\r\n
$BAD_HOST | Host: a\r\nHost: a\r\nConnection: close\r\n
$BAD_HOST | Host: a\r\nhost:\r\nConnection: close\r\n
$BAD_HOST | Host: a b\r\nConnection: close\r\n
$BAD_HOST | Host: a, b\r\nConnection: close\r\n
$BAD_HOST | Host: a/\r\nConnection: close\r\n
$BAD_HOST | Host: a:x\r\nConnection: close\r\n
$BAD_HOST | Host: u@a\r\nConnection: close\r\n
$BAD_HOST | Host: a%4\r\nConnection: close\r\n
$BAD_HOST | Host: [::1\r\nConnection: close\r\n
$BAD_HOST | Host: []\r\nConnection: close\r\n
$BAD_HOST | Host: \xc3\xa9\r\nConnection: close\r\n
// The list of Connection has `close`, or the connection stays open.
$SERVED | Host: a\r\nConnection: keep-alive, close\r\n
$SERVED | Host: a\r\nConnection: Close\r\n
$SERVED | Host: a\r\nconnection: keep-alive\r\nCONNECTION: ,\tCLOSE ,\r\n
$LEFT_OPEN | Host: a\r\n
$LEFT_OPEN | Host: a\r\nConnection:\r\n
$LEFT_OPEN | Host: a\r\nConnection: keep-alive\r\n
$LEFT_OPEN | Host: a\r\nConnection: closed\r\n
$LEFT_OPEN | Host: a\r\nConnection: close;\r\n
$LEFT_OPEN | Host: a\r\nConnection: keep-alive close\r\n
$LEFT_OPEN | Host: a\r\nConnections: close\r\n
// How long the body is.
$SERVED | Host: a\r\nConnection: close\r\nX-Content-Length: 1\r\nTransfer: chunked\r\nExpects: y\r\n
$SERVED | Host: a\r\nConnection: close\r\nContent-Length: 0\r\n
$SERVED | Host: a\r\nConnection: close\r\nContent-Length: 0\r\ncontent-length: \t000\r\n
$BAD_FRAMING | content-length:\r\nHost: a\r\nConnection: close\r\n
$BAD_FRAMING | Host: a\r\nConnection: close\r\nContent-Length: 0, 0\r\n
$BAD_FRAMING | Host: a\r\nConnection: close\r\nContent-Length: +0\r\n
$BAD_FRAMING | Host: a\r\nConnection: close\r\nContent-Length: 0\r\nContent-Length: 1\r\n
$TOO_LARGE | Host: a\r\nConnection: close\r\nContent-Length: 1048577\r\n
$TOO_LARGE | Host: a\r\nConnection: close\r\nContent-Length: 99999999999999999999999999\r\n
Nothing | Host: a\r\nConnection: close\r\nTransfer-Encoding: chunked\r\n
$BAD_FRAMING | Host: a\r\nConnection: close\r\nTRANSFER-ENCODING:\r\n
$BAD_FRAMING | Host: a\r\nConnection: close\r\nTransfer-Encoding: chunked, chunked\r\n
$BAD_FRAMING | Host: a\r\nConnection: close\r\nTransfer-Encoding: chunked\r\nContent-Length: 0\r\n
$CODING_UNKNOWN | Host: a\r\nConnection: close\r\nTransfer-Encoding: gzip, chunked\r\n
$CODING_UNKNOWN | Host: a\r\nConnection: close\r\nTransfer-Encoding: identity\r\n
// What is expected.
$SERVED | Host: a\r\nConnection: close\r\nExpect: 100-continue\r\n
$SERVED | Host: a\r\nConnection: close\r\nExpect: 100-Continue\r\nContent-Length: 0\r\n
$SERVED | Host: a\r\nConnection: close\r\nExpect:\r\n
$BAD_EXPECT | Host: a\r\nConnection: close\r\nexpect: x\r\n
$BAD_EXPECT | Host: a\r\nConnection: close\r\nExpect: 100-continue, x\r\n
";

fn text_of(alloc: Global, before: &[u8], case: &str, after: &[u8]) -> Result<Vec<u8>, NoMemory> {
    let part = bytes_of(alloc, "", column(case, 1))?;
    repeated(alloc, before, part.as_slice(), 1, after)
}

fn is_case<R: Threads + Sync>(
    rt: &R,
    alloc: Global,
    before: &[u8],
    case: &str,
    after: &[u8],
) -> Result<bool, NoMemory> {
    let text = text_of(alloc, before, case, after)?;
    let due = due_of(alloc, WANTED, column(case, 0))?;
    is_right_in_any(rt, alloc, Part::Request, text.as_slice(), due.wanted())
}

// The first case that is wrong, with what stands before and after it; nothing where none is.
fn wrong_case<R: Threads + Sync>(
    rt: &R,
    alloc: Global,
    before: &[u8],
    cases: &[&'static str],
    after: &[u8],
) -> Result<&'static str, NoMemory> {
    for case in cases {
        if !is_case(rt, alloc, before, *case, after)? {
            return Ok(*case);
        }
    }
    Ok("")
}

// So many cases are right, with what stands before and after each.
fn are_right<R: Threads + Abort + Sync>(
    rt: &R,
    alloc: Global,
    before: &[u8],
    (table, count): (&'static str, usize),
    after: &[u8],
) -> Result<(), Fail> {
    let cases = rows_of(alloc, table)?;
    assert_eq!(rt; cases.len(), count);
    assert_eq!(rt; wrong_case(rt, alloc, before, cases.as_slice(), after)?, "");
    Ok(())
}

#[test]
fn heads_in_any_pieces(rt: HostRuntime) -> Result<(), Fail> {
    are_right(&rt, rt.alloc(), b"", (HEADS, 36), b"")
}

#[test]
fn request_lines_in_any_pieces(rt: HostRuntime) -> Result<(), Fail> {
    let after = b"\r\nHost: a\r\nConnection: close\r\n\r\n";
    are_right(&rt, rt.alloc(), b"", (REQUEST_LINES, 23), after)
}

#[test]
fn targets_in_any_pieces(rt: HostRuntime) -> Result<(), Fail> {
    let after = b" HTTP/1.1\r\nHost: a\r\nConnection: close\r\n\r\n";
    are_right(&rt, rt.alloc(), b"GET ", (TARGETS, 64), after)
}

#[test]
fn fields_in_any_pieces(rt: HostRuntime) -> Result<(), Fail> {
    let before = b"GET /cgi-bin/hello HTTP/1.1\r\n";
    are_right(&rt, rt.alloc(), before, (FIELD_LINES, 57), b"\r\n")
}
