// Requests whose body has two readings, or is none.
use super::super::super::tables::{Cells, Rows, are_right};
use super::super::RequestRows;
use super::reading::is_refused;
use host_base::NoMemory;
use std::alloc::Global;
use std::test::Fail;

// Bytes in which one reader could find a body by its length and another one by its chunks, or a field
// line that one of them overlooks (RFC 9112 5.1, 5.2, 6.1, 6.3 and 11.2): the cause by which they are
// refused, and the bytes.
const SMUGGLED: &str = r#"
BadFraming | POST / HTTP/1.1\r\nHost: a\r\nContent-Length: 6\r\nTransfer-Encoding: chunked\r\n\r\n0\r\n\r\nG
BadFraming | POST / HTTP/1.1\r\nHost: a\r\nTransfer-Encoding: chunked\r\nContent-Length: 4\r\n\r\n1\r\nZ\r\n0\r\n\r\n
CodingUnknown | POST / HTTP/1.1\r\nHost: a\r\nTransfer-Encoding: chunked\r\nTransfer-Encoding: identity\r\n\r\n0\r\n\r\n
BadFraming | POST / HTTP/1.1\r\nHost: a\r\nTransfer-Encoding: chunked\r\nTransfer-Encoding: chunked\r\n\r\n0\r\n\r\n
CodingUnknown | POST / HTTP/1.1\r\nHost: a\r\nTransfer-Encoding: xchunked\r\n\r\n0\r\n\r\n
CodingUnknown | POST / HTTP/1.1\r\nHost: a\r\nTransfer-Encoding: gzip, chunked\r\n\r\n0\r\n\r\n
CodingUnknown | POST / HTTP/1.1\r\nHost: a\r\nTransfer-Encoding: "chunked"\r\n\r\n0\r\n\r\n
BadFraming | POST / HTTP/1.1\r\nHost: a\r\nTransfer-Encoding:\r\n\r\n0\r\n\r\n
CodingUnknown | POST / HTTP/1.1\r\nHost: a\r\nTransfer-Encoding: gzip\r\n\r\n0\r\n\r\n
BadFraming | POST / HTTP/1.1\r\nHost: a\r\nTransfer-Encoding: chunked, chunked\r\n\r\n0\r\n\r\n
CodingUnknown | POST / HTTP/1.1\r\nHost: a\r\nTransfer-Encoding: chunked, identity\r\n\r\n0\r\n\r\n
CodingUnknown | POST / HTTP/1.1\r\nHost: a\r\nTransfer-Encoding: chunked;a=b\r\n\r\n0\r\n\r\n
BadFraming | POST / HTTP/1.1\r\nHost: a\r\nContent-Length: 5\r\nTransfer-Encoding: gzip\r\n\r\n0\r\n\r\n
BadFraming | POST / HTTP/1.0\r\nContent-Length: 5\r\nTransfer-Encoding: chunked\r\n\r\n0\r\n\r\n
BadFraming | POST / HTTP/1.0\r\nTransfer-Encoding: chunked\r\n\r\n0\r\n\r\n
BadHead | POST / HTTP/1.1\r\nHost: a\r\nTransfer-Encoding : chunked\r\n\r\n0\r\n\r\n
BadHead | POST / HTTP/1.1\r\nHost: a\r\nContent-Length : 6\r\n\r\n0\r\n\r\nG
BadHead | POST / HTTP/1.1\r\nHost: a\r\n Transfer-Encoding: chunked\r\n\r\n0\r\n\r\n
BadHead | POST / HTTP/1.1\r\nHost: a\r\nTransfer-Encoding:\r\n chunked\r\n\r\n0\r\n\r\n
BadHead | POST / HTTP/1.1\r\n X: y\r\nHost: a\r\nTransfer-Encoding: chunked\r\n\r\n0\r\n\r\n
BadHead | POST / HTTP/1.1\r\nHost: a\r\nTransfer-Encoding: \x0bchunked\r\n\r\n0\r\n\r\n
BadHead | POST / HTTP/1.1\r\nHost: a\r\nX: y\rTransfer-Encoding: chunked\r\n\r\n0\r\n\r\n
BadHead | POST / HTTP/1.1\r\nHost: a\r\nTransfer-Encoding\0: chunked\r\n\r\n0\r\n\r\n
"#;

// The cause of a fault in the chunks of a request, whether a reply has no body, and the request.
const BAD_BODIES: &str = r"
BadChunk | no | POST / HTTP/1.1\r\nHost: a\r\nTransfer-Encoding: chunked\r\n\r\n2\r\nab\n0\r\n\r\n
BadChunk | no | POST / HTTP/1.1\r\nHost: a\r\nTransfer-Encoding: chunked\r\n\r\n 2\r\nab\r\n
BadChunk | yes | HEAD / HTTP/1.1\r\nHost: a\r\nTransfer-Encoding: chunked\r\n\r\n1\r\nab\r\n
BodyTooLong | no | POST / HTTP/1.1\r\nHost: a\r\nTransfer-Encoding: chunked\r\n\r\n29
BodyTooLong | yes | HEAD / HTTP/1.1\r\nHost: a\r\nTransfer-Encoding: chunked\r\n\r\n1\r\na\r\n28
BodyTooLong | no | POST / HTTP/1.1\r\nHost: a\r\nTransfer-Encoding: chunked\r\n\r\n10000000000000001\r\n
BadChunk | no | POST / HTTP/1.1\r\nHost: a\r\nExpect: 100-continue\r\nTransfer-Encoding: chunked\r\n\r\nx
";

pub fn is_smuggled(alloc: Global, row: &Cells) -> Result<bool, NoMemory> {
    let text = row.at(1);
    Ok(match row.cause(0) {
        Some(cause) => is_refused(alloc, text, cause, false, Some((true, text.len()))),
        None => false,
    })
}

#[test]
fn what_has_two_readings_is_refused(rt: HostRuntime) -> Result<(), Fail> {
    are_right(
        &rt,
        rt.alloc(),
        SMUGGLED,
        23,
        Rows::Request(RequestRows::Smuggled),
    )
}

pub fn is_bad_body(alloc: Global, row: &Cells) -> Result<bool, NoMemory> {
    let text = row.at(2);
    Ok(match row.cause(0) {
        Some(cause) => is_refused(alloc, text, cause, row.is_yes(1), None),
        None => false,
    })
}

#[test]
fn chunks_that_are_none(rt: HostRuntime) -> Result<(), Fail> {
    are_right(
        &rt,
        rt.alloc(),
        BAD_BODIES,
        7,
        Rows::Request(RequestRows::BadBody),
    )
}
