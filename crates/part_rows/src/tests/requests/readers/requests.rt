// Requests one after another, and what is left behind them.
use super::super::super::tables::{Cells, Rows, are_right, joined};
use super::super::RequestRows;
use super::reading::{Expected, NEXT, is_answered_however_cut};
use host_base::NoMemory;
use std::alloc::Global;
use std::test::Fail;

// Bytes, whether behind the whole requests in them another one has begun, how many bytes are left for it, and the paths and bodies of
// the whole ones.
const REQUESTS: &str = r"
| no | 0
\r | no | 1
\r\n | no | 2
\rG | yes | 2
\r\nG | yes | 3
G | yes | 1
GET / HTTP/1.1\r\nHost: a\r\n\r | yes | 26
GET / HTTP/1.1\r\nHost: a\r\n\r\n | no | 0 | / |
\r\nGET / HTTP/1.1\nHost: a\n\n\r | no | 1 | / |
GET / HTTP/1.1\r\nHost: a\r\n\r\n\r\n | no | 2 | / |
GET /a HTTP/1.1\r\nHost: a\r\n\r\n\r\nPUT /b HTTP/1.0\r\nHost: a\r\n\r\nGE | yes | 2 | /a |  | /b |
HEAD / HTTP/1.1\r\nHost:\r\nConnection: close\r\n\r\n | no | 0 | / |
GET /a/../../b/./c HTTP/1.0\r\n\r\n | no | 0 | /b/c |
GET HTTP://b:80?c HTTP/1.1\r\nHost: a\r\n\r\n | no | 0 | / |
GET http://b/%2e%2e/ HTTP/1.1\r\nHost: a\r\n\r\n | no | 0 | /%2e%2e/ |
GET /? HTTP/1.1\r\nHost: [::1]:\r\n\r\n | no | 0 | / |
GET /..?/../a HTTP/1.1\r\nHost: %41:80\r\n\r\nX | yes | 1 | / |
// Bodies of known length.
POST / HTTP/1.0\r\nContent-Length: 3\r\n\r\nabc | no | 0 | / | abc
POST / HTTP/1.0\r\nContent-Length: 0\r\n\r\nabc | yes | 3 | / |
POST /a HTTP/1.0\r\ncontent-length: 03\r\n\r\n\r\n\rPOST /b HTTP/1.0\r\nContent-Length: 1\r\nContent-Length: 01\r\n\r\nx\r\nGET /c HTTP/1.0\n\nG | yes | 1 | /a | \r\n\r | /b | x | /c |
GET /a HTTP/1.1\r\nHost: a\r\nContent-Length: 28\r\n\r\nGET /x HTTP/1.1\r\nHost: a\r\n\r\nGET /b HTTP/1.0\r\n\r\n | no | 0 | /a | GET /x HTTP/1.1\r\nHost: a\r\n\r\n | /b |
\r\nPOST / HTTP/1.0\r\nContent-Length: 40\r\n\r\n0123456789012345678901234567890123456789 | no | 0 | / | 0123456789012345678901234567890123456789
POST / HTTP/1.0\r\nContent-Length: \t3 \r\n\r\nabc | no | 0 | / | abc
POST / HTTP/1.0\nContent-Length: 00000000000000000003\n\nabc | no | 0 | / | abc
// Other names than Transfer-Encoding, which say nothing of the body.
POST / HTTP/1.1\r\nHost: a\r\nTransfer_Encoding: chunked\r\nContent-Length: 5\r\n\r\n0\r\n\r\n | no | 0 | / | 0\r\n\r\n
POST / HTTP/1.1\r\nHost: a\r\nContent-Length: 5\r\nX-Transfer-Encoding: chunked\r\nTE: chunked\r\n\r\n0\r\n\r\n | no | 0 | / | 0\r\n\r\n
// Bodies in chunks.
POST / HTTP/1.1\r\nHost: a\r\nTransfer-Encoding:\tchunked \t\r\n\r\n1\r\na\r\n0\r\n\r\n | no | 0 | / | a
POST / HTTP/1.1\r\nHost: a\r\ntRANSFER-eNCODING: CHUNKED\r\n\r\n1F;A=b\r\n0123456789012345678901234567890\r\n0\r\nA: b\r\n\r\n | no | 0 | / | 0123456789012345678901234567890
POST /a HTTP/1.1\r\nHost: a\r\nTransfer-Encoding: chunked\r\n\r\n1c\r\nGET /x HTTP/1.1\r\nHost: a\r\n\r\n\r\n0\r\n\r\n | no | 0 | /a | GET /x HTTP/1.1\r\nHost: a\r\n\r\n
POST / HTTP/1.1\r\nHost: a\r\nTransfer-Encoding: chunked\r\n\r\n5\r\nabcde\r\n0\r\n\r\n | no | 0 | / | abcde
POST /a HTTP/1.1\r\nHost: a\r\nTransfer-Encoding: Chunked\r\n\r\n2;x\r\n\r\n\r\n1\r\nx\r\n00\r\nA: b\r\n\r\n\r\nGET /b HTTP/1.0\r\n\r\nGE | yes | 2 | /a | \r\nx | /b |
POST /a HTTP/1.1\r\nHost: a\r\nTransfer-Encoding: , chunked\r\n\r\n0\r\n\r\nPOST /b HTTP/1.1\r\nHost: a\r\nTransfer-Encoding: chunked\r\n\r\n1\r\ny\r\n0\r\n\r\n\r\n | no | 2 | /a |  | /b | y
// Expectations that are met or not heard.
POST / HTTP/1.1\r\nHost: a\r\nExpect: 100-continue\r\nContent-Length: 0\r\n\r\n | no | 0 | / |
GET / HTTP/1.1\r\nHost: a\r\nExpect: 100-continue\r\n\r\n | no | 0 | / |
GET / HTTP/1.1\r\nHost: a\r\nExpect:\r\n\r\n | no | 0 | / |
POST / HTTP/1.0\r\nExpect: 200-ok\r\nContent-Length: 1\r\n\r\nx | no | 0 | / | x
";

// Whether the requests are given, and what is left is the end of the text.
fn is_given(alloc: Global, row: &Cells) -> bool {
    let expected = Expected {
        due: row.from(3),
        followed: false,
        fault: None,
        left: Some((row.is_yes(1), row.size(2))),
    };
    is_answered_however_cut(alloc, row.at(0), expected)
}

// Whether another request behind the text is given too.
fn is_followed(alloc: Global, row: &Cells) -> Result<bool, NoMemory> {
    let expected = Expected {
        due: row.from(3),
        followed: true,
        fault: None,
        left: Some((false, 0)),
    };
    let all = joined(alloc, &[row.at(0), NEXT])?;
    Ok(is_answered_however_cut(alloc, all.as_slice(), expected))
}

pub fn is_right(alloc: Global, row: &Cells) -> Result<bool, NoMemory> {
    let ends = row.is(1, "no") && row.is(2, "0");
    Ok(is_given(alloc, row) && (!ends || is_followed(alloc, row)?))
}

#[test]
fn requests_and_another_behind_each(rt: HostRuntime) -> Result<(), Fail> {
    are_right(
        &rt,
        rt.alloc(),
        REQUESTS,
        36,
        Rows::Request(RequestRows::Requests),
    )
}
