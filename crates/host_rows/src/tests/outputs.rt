// The replies that outputs bring, over memory by the top call, however their bytes come.
use super::pieces::{Part, Wanted, is_right_in_any, is_right_in_two, is_right_whole, repeated};
use super::script::{bytes_of, column, halves, rows_of};
use super::texts::{NO_OUTPUT, OUTPUT};
use host_base::NoMemory;
use std::alloc::Global;
use std::test::Fail;
use std::thread::Threads;

const INCOMPLETE: &[u8] =
    b"HTTP/1.1 502 Bad Gateway\r\nContent-Type: text/plain\r\nContent-Length: 25\r\nConnection: close\r\n\r\nscript header incomplete\n";

const TOO_LARGE: &[u8] =
    b"HTTP/1.1 502 Bad Gateway\r\nContent-Type: text/plain\r\nContent-Length: 24\r\nConnection: close\r\n\r\nscript header too large\n";

// Outputs of a script, and the replies.
const OUTPUTS: &str = r#"
NONE_OF_THREE = HTTP/1.1 502 Bad Gateway\r\nContent-Type: text/plain\r\nContent-Length: 40\r\nConnection: close\r\n\r\nscript sent no type, status or location\n
INCOMPLETE = HTTP/1.1 502 Bad Gateway\r\nContent-Type: text/plain\r\nContent-Length: 25\r\nConnection: close\r\n\r\nscript header incomplete\n
HEADER_LINE = HTTP/1.1 502 Bad Gateway\r\nContent-Type: text/plain\r\nContent-Length: 27\r\nConnection: close\r\n\r\nscript header line refused\n
BAD_STATUS = HTTP/1.1 502 Bad Gateway\r\nContent-Type: text/plain\r\nContent-Length: 22\r\nConnection: close\r\n\r\nscript status refused\n
REPEATED = HTTP/1.1 502 Bad Gateway\r\nContent-Type: text/plain\r\nContent-Length: 29\r\nConnection: close\r\n\r\nscript header field repeated\n
BAD_LOCATION = HTTP/1.1 502 Bad Gateway\r\nContent-Type: text/plain\r\nContent-Length: 24\r\nConnection: close\r\n\r\nscript location refused\n
// Nothing, and no header.
| $NO_OUTPUT
\n | $NONE_OF_THREE
\r\n | $NONE_OF_THREE
\n\n | $NONE_OF_THREE
\0 | $INCOMPLETE
hi | $INCOMPLETE
\nContent-Type: text/plain\n\nhi\n | $NONE_OF_THREE
// A header that doesn't end.
Content-Type: text/plain | $INCOMPLETE
Content-Type: text/plain\n | $INCOMPLETE
Content-Type: text/plain\n\r | $INCOMPLETE
Content-Type: text/plain\r\rhi\n | $INCOMPLETE
// One line, ended by LF or CRLF.
Content-Type: text/plain\n\nhi\n | $REPLY
Content-Type: text/plain\r\n\r\nhi\n | $REPLY
Content-Type: text/plain\r\n\nhi\n | $REPLY
Content-Type: text/plain\n\r\nhi\n | $REPLY
Content-Type:text/plain\n\nhi\n | $REPLY
Content-Type:\t text/plain \t\n\nhi\n | $REPLY
Content-Type: text/plain\n\n | HTTP/1.1 200 OK\r\nContent-Type: text/plain\r\nContent-Length: 0\r\nConnection: close\r\n\r\n
// Its name is kept as it is spelled, and its value between the blanks.
content-TYPE: a \tb\n\nhi\n | HTTP/1.1 200 OK\r\ncontent-TYPE: a \tb\r\nContent-Length: 3\r\nConnection: close\r\n\r\nhi\n
Content-Type: \x80;q="a:b"\n\nhi\n | HTTP/1.1 200 OK\r\nContent-Type: \x80;q="a:b"\r\nContent-Length: 3\r\nConnection: close\r\n\r\nhi\n
// Any bytes may be a body.
Content-Type: text/plain\n\n\0\xff\xc3\xa9\x7f | HTTP/1.1 200 OK\r\nContent-Type: text/plain\r\nContent-Length: 5\r\nConnection: close\r\n\r\n\0\xff\xc3\xa9\x7f
Content-Type: text/plain\n\n\r\n\n | HTTP/1.1 200 OK\r\nContent-Type: text/plain\r\nContent-Length: 3\r\nConnection: close\r\n\r\n\r\n\n
Content-Type: text/plain\n\nStatus: 404\n\n | HTTP/1.1 200 OK\r\nContent-Type: text/plain\r\nContent-Length: 13\r\nConnection: close\r\n\r\nStatus: 404\n\n
// More lines, in their order, of which those that a server writes itself are left out.
Content-Type: text/plain\nX: y\n\nhi\n | HTTP/1.1 200 OK\r\nContent-Type: text/plain\r\nX: y\r\nContent-Length: 3\r\nConnection: close\r\n\r\nhi\n
X: y\nContent-Type: text/plain\n\nhi\n | HTTP/1.1 200 OK\r\nX: y\r\nContent-Type: text/plain\r\nContent-Length: 3\r\nConnection: close\r\n\r\nhi\n
X: 1\nContent-Type: text/plain\nX: 2\n\n | HTTP/1.1 200 OK\r\nX: 1\r\nContent-Type: text/plain\r\nX: 2\r\nContent-Length: 0\r\nConnection: close\r\n\r\n
X:\nContent-Type: text/plain\nY: \t\n\nhi\n | $REPLY
Content-Type: text/plain\nContent-Length: 99\nTransfer-Encoding: x\nX-CGI-A: 1\n\nhi\n | $REPLY
x-cgi-b: 1\nconnection: keep-alive\nKeep-Alive: 1\nProxy-Connection: x\nTE: x\nContent-Type: text/plain\nTrailer: x\nUpgrade: x\n\nhi\n | $REPLY
// No line.
Content-Type\n\nhi\n | $HEADER_LINE
Content-Type : a\n\n | $HEADER_LINE
\x20Content-Type: text/plain\n\nhi\n | $HEADER_LINE
Content-Type: text/plain\n b\n\n | $HEADER_LINE
: text/plain\n\nhi\n | $HEADER_LINE
Content-Type: a\0b\n\nhi\n | $HEADER_LINE
Content-Type: a\x1fb\n\nhi\n | $HEADER_LINE
Content-Type: a\x7f\n\nhi\n | $HEADER_LINE
Content-Type: a\rb\n\nhi\n | $HEADER_LINE
Content-Type: a\r\r\n\nhi\n | $HEADER_LINE
// The first line with a fault says which.
Status: 199\nA b: c\n\n | $BAD_STATUS
A b: c\nStatus: 199\n\n | $HEADER_LINE
// None of the three, and one of them twice.
X: 1\n\n | $NONE_OF_THREE
Content-Types: text/plain\n\nhi\n | $NONE_OF_THREE
Content-Type:\n\nhi\n | $NONE_OF_THREE
Content-Type: \t \n\nhi\n | $NONE_OF_THREE
Content-Type: a\nContent-Type: a\n\nhi\n | $REPEATED
Status: 200 OK\nStatus: 404 X\n\n | $REPEATED
Location: http://x/\nlocation: http://x/\n\n | $REPEATED
// A status, with a phrase or the standard's.
Status: 200\n\n | HTTP/1.1 200 OK\r\nContent-Length: 0\r\nConnection: close\r\n\r\n
Status: 200 OK\n\nhi\n | HTTP/1.1 200 OK\r\nContent-Length: 3\r\nConnection: close\r\n\r\nhi\n
Content-Type: text/plain\nStatus: 200 OK\n\nhi\n | $REPLY
Status: 404\nContent-Type: text/plain\n\nhi\n | HTTP/1.1 404 Not Found\r\nContent-Type: text/plain\r\nContent-Length: 3\r\nConnection: close\r\n\r\nhi\n
Status: 404 \t Not  here \n\n | HTTP/1.1 404 Not  here\r\nContent-Length: 0\r\nConnection: close\r\n\r\n
Status: 404\t\n\n | HTTP/1.1 404 Not Found\r\nContent-Length: 0\r\nConnection: close\r\n\r\n
Status: 299\n\n | HTTP/1.1 299 Status\r\nContent-Length: 0\r\nConnection: close\r\n\r\n
Status: 599 x\n\n | HTTP/1.1 599 x\r\nContent-Length: 0\r\nConnection: close\r\n\r\n
Status: 199\n\n | $BAD_STATUS
Status: 600\n\n | $BAD_STATUS
Status: 20\n\n | $BAD_STATUS
Status: 2000\n\n | $BAD_STATUS
Status: 200OK\n\n | $BAD_STATUS
Status: OK\n\n | $BAD_STATUS
// Statuses with no body.
Status: 204\nContent-Length: 99\n\nstray | HTTP/1.1 204 No Content\r\nConnection: close\r\n\r\n
Status: 304\nETag: x\n\nstray | HTTP/1.1 304 Not Modified\r\nETag: x\r\nConnection: close\r\n\r\n
Status: 205\n\nstray | HTTP/1.1 205 Reset Content\r\nContent-Length: 0\r\nConnection: close\r\n\r\n
// The client is sent elsewhere.
Location: http://x/y\nSet-Cookie: a=1\n\nbody | HTTP/1.1 302 Found\r\nLocation: http://x/y\r\nSet-Cookie: a=1\r\nContent-Length: 0\r\nConnection: close\r\n\r\n
Location: /x#y\n\n | HTTP/1.1 302 Found\r\nLocation: /x#y\r\nContent-Length: 0\r\nConnection: close\r\n\r\n
Location: x\n\n | HTTP/1.1 302 Found\r\nLocation: x\r\nContent-Length: 0\r\nConnection: close\r\n\r\n
Location: http://x/y\nContent-Type: text/plain\n\nhi\n | HTTP/1.1 302 Found\r\nLocation: http://x/y\r\nContent-Type: text/plain\r\nContent-Length: 3\r\nConnection: close\r\n\r\nhi\n
Location: http://x/y\nStatus: 301\n\n | HTTP/1.1 301 Moved Permanently\r\nLocation: http://x/y\r\nContent-Length: 0\r\nConnection: close\r\n\r\n
Location: /x\nStatus: 303\n\n | HTTP/1.1 303 See Other\r\nLocation: /x\r\nContent-Length: 0\r\nConnection: close\r\n\r\n
Status: 201\nLocation: /x y\n\nhi\n | HTTP/1.1 201 Created\r\nLocation: /x y\r\nContent-Length: 3\r\nConnection: close\r\n\r\nhi\n
Location: /a b\n\n | $BAD_LOCATION
Location: /\x80\n\n | $BAD_LOCATION
Location: /a b\nContent-Type: text/plain\n\nhi\n | $BAD_LOCATION
// A local redirect to where no script is.
Location: /none\n\n | $NO_SCRIPT
Location: /none\nContent-Type: text/plain\n\nhi\n | $NO_SCRIPT
"#;

fn is_case<R: Threads + Sync>(rt: &R, alloc: Global, case: &str) -> Result<bool, NoMemory> {
    let output = bytes_of(alloc, OUTPUTS, column(case, 0))?;
    let reply = bytes_of(alloc, OUTPUTS, column(case, 1))?;
    let wanted = Wanted::Served(reply.as_slice());
    is_right_in_any(rt, alloc, Part::Output, output.as_slice(), wanted)
}

// The first output that has another reply; nothing where none has.
fn wrong_case<R: Threads + Sync>(
    rt: &R,
    alloc: Global,
    cases: &[&'static str],
) -> Result<&'static str, NoMemory> {
    for case in cases {
        if !is_case(rt, alloc, *case)? {
            return Ok(*case);
        }
    }
    Ok("")
}

#[test]
fn outputs_in_any_pieces(rt: HostRuntime) -> Result<(), Fail> {
    let cases = rows_of(rt.alloc(), OUTPUTS)?;
    assert_eq!(rt; cases.len(), 77);
    assert_eq!(rt; wrong_case(&rt, rt.alloc(), cases.as_slice())?, "");
    Ok(())
}

// ---- the first output cut off, and a header at its limit

// How the reply to the first output begins where it is cut off behind its header, and how it goes on.
const BEGIN: &[u8] = b"HTTP/1.1 200 OK\r\nContent-Type: text/plain\r\nContent-Length: ";

const GO_ON: &[u8] = b"\r\nConnection: close\r\n\r\n";

// The reply to this body.
fn reply_with(alloc: Global, body: &[u8]) -> Result<Vec<u8>, NoMemory> {
    let digits = body.len().to_string(alloc)?;
    let mut reply = repeated(alloc, BEGIN, digits.as_bytes(), 1, GO_ON)?;
    reply.extend_from_slice(body)?;
    Ok(reply)
}

// The reply to a front of the first output, whose header has 26 bytes.
fn reply_to(alloc: Global, front: &[u8]) -> Result<Vec<u8>, NoMemory> {
    if front.is_empty() {
        Ok(Vec::from_slice(alloc, NO_OUTPUT)?)
    } else if front.len() < 26 {
        Ok(Vec::from_slice(alloc, INCOMPLETE)?)
    } else {
        let (_, body) = halves(front, 26);
        reply_with(alloc, body)
    }
}

// Whether this is the reply to a front of the first output.
fn is_cut_off<R: Threads + Sync>(rt: &R, alloc: Global, front: &[u8]) -> Result<bool, NoMemory> {
    let reply = reply_to(alloc, front)?;
    let wanted = Wanted::Served(reply.as_slice());
    is_right_in_any(rt, alloc, Part::Output, front, wanted)
}

#[test]
fn an_output_that_is_cut_off(rt: HostRuntime) -> Result<(), Fail> {
    for count in 0..OUTPUT.len() {
        let (front, _) = halves(OUTPUT, count);
        assert!(rt; is_cut_off(&rt, rt.alloc(), front)?, "{count} bytes");
    }
    Ok(())
}

// A header has at most 8,192 bytes with its empty line: the longest `Content-Type: ` line that is taken has a
// value of 8,176 bytes. With no body behind it no reply begins before the output ends.
fn at_the_limit<R: Threads + Sync>(
    rt: &R,
    alloc: Global,
    count: usize,
    end: &[u8],
    reply: &[u8],
) -> Result<bool, NoMemory> {
    let output = repeated(alloc, b"Content-Type: ", b"a", count, end)?;
    let text = output.as_slice();
    let wanted = Wanted::Served(reply);
    Ok(
        is_right_whole(rt, alloc, Part::Output, text, wanted)?
            && is_right_in_two(rt, alloc, Part::Output, text, wanted)?,
    )
}

#[test]
fn headers_at_the_limit(rt: HostRuntime) -> Result<(), Fail> {
    let alloc = rt.alloc();
    let before = b"HTTP/1.1 200 OK\r\nContent-Type: ";
    let after = b"\r\nContent-Length: 0\r\nConnection: close\r\n\r\n";
    let reply = repeated(alloc, before, b"a", 8_176, after)?;
    let table: [(usize, &[u8], &[u8]); 5] = [
        (8_176, b"\n\n", reply.as_slice()),
        (8_177, b"\n\n", TOO_LARGE),
        (8_177, b"", INCOMPLETE),
        (8_178, b"", TOO_LARGE),
        (8_179, b"\n\nhi\n", TOO_LARGE),
    ];
    for (count, end, reply) in table {
        assert!(&rt; at_the_limit(&rt, alloc, count, end, reply)?, "{count}");
    }
    Ok(())
}
