// Heads that are refused, and what is left behind them.
use super::super::super::tables::{Cells, Rows, are_right};
use super::super::RequestRows;
use super::reading::is_refused;
use host_base::NoMemory;
use std::alloc::Global;
use std::test::Fail;

// The cause for which bytes are refused that are no request that is served, whether a reply has no body, and the bytes.
const FAULTS: &str = r"
BadHead | no | \r\n\r\n
BadHead | no | HEAD / HTTP/3.0\r\n\r\n
BadHost | no | GET / HTTP/1.1\r\n\r\n
BadHost | no | head / HTTP/1.1\r\n\r\n
BadHost | yes | HEAD / HTTP/1.1\r\nHost: a\r\nhost: a\r\n\r\n
BadHost | yes | HEAD / HTTP/1.0\r\nHost: a\r\nHost: b\r\n\r\n
BadHost | no | GET / HTTP/1.1\r\nHost: a@b\r\n\r\n
BadHost | no | GET / HTTP/1.1\r\nHost: a:8x\r\n\r\n
BadHost | no | GET / HTTP/1.1\r\nHost: %4g\r\n\r\n
BadHost | no | GET / HTTP/1.1\r\nHost: [::1\r\n\r\n
BadHost | no | GET / HTTP/1.1\r\nHost: a b\r\n\r\n
NotServed | no | CONNECT a:1 HTTP/1.1\r\nHost: a\r\n\r\n
NotServed | no | CONNECT a:1 HTTP/1.1\r\n\r\n
NotServed | no | CONNECT a:1 HTTP/1.1\r\nHost: a\r\nHost: a\r\n\r\n
NotServed | no | OPTIONS * HTTP/1.1\r\n\r\n
NotServed | yes | HEAD * HTTP/1.1\r\nHost: a\r\nHost: a\r\n\r\n
BadTarget | no | GET a HTTP/1.1\r\nHost: a\r\n\r\n
BadTarget | no | GET /a#b HTTP/1.1\r\nHost: a\r\n\r\n
BadTarget | no | GET https://a/ HTTP/1.1\r\nHost: a\r\n\r\n
BadTarget | no | GET http:///a HTTP/1.1\r\nHost: a\r\n\r\n
BadTarget | no | GET http://a@b/ HTTP/1.1\r\nHost: a\r\n\r\n
BadTarget | yes | HEAD a HTTP/1.1\r\nHost: a\r\n\r\n
BadHost | no | POST / HTTP/1.1\r\nContent-Length: x\r\n\r\n
BadTarget | no | POST a HTTP/1.1\r\nHost: a\r\nContent-Length: x\r\n\r\n
NotServed | no | CONNECT a HTTP/1.1\r\nContent-Length: x\r\n\r\n
BodyTooLong | no | POST / HTTP/1.1\r\nHost: a\r\nContent-Length: 41\r\n\r\n
BadFraming | yes | HEAD / HTTP/1.1\r\nHost: a\r\nContent-Length: x\r\n\r\n
BadExpect | no | POST / HTTP/1.1\r\nHost: a\r\nExpect: 200-ok\r\n\r\n
BadExpect | yes | HEAD / HTTP/1.1\r\nHost: a\r\nExpect: 100-continue, a\r\n\r\n
BadExpect | no | POST / HTTP/1.1\r\nHost: a\r\nExpect: 100-continue\r\nExpect: 100\r\nContent-Length: 1\r\n\r\n
BodyTooLong | no | POST / HTTP/1.1\r\nHost: a\r\nExpect: a\r\nContent-Length: 41\r\n\r\n
// Two lengths, or none that is one (RFC 9112 6.3).
BadFraming | no | POST / HTTP/1.1\r\nHost: a\r\nContent-Length: 3\r\nContent-Length: 4\r\n\r\n
BadFraming | no | POST / HTTP/1.1\r\nHost: a\r\nContent-Length: 3, 3\r\n\r\n
BadFraming | no | POST / HTTP/1.1\r\nHost: a\r\nContent-Length: +3\r\n\r\n
BadFraming | no | POST / HTTP/1.1\r\nHost: a\r\nContent-Length:\r\n\r\n
BadFraming | no | POST / HTTP/1.1\r\nHost: a\r\nContent-Length: 3,3\r\n\r\n
BadFraming | no | POST / HTTP/1.1\r\nHost: a\r\nContent-Length: 3\r\nContent-Length:\r\n\r\n
BadFraming | no | POST / HTTP/1.1\r\nHost: a\r\nContent-Length: 0x3\r\n\r\n
BodyTooLong | no | POST / HTTP/1.1\r\nHost: a\r\nContent-Length: 99999999999999999999\r\n\r\n
BodyTooLong | no | POST / HTTP/1.1\r\nHost: a\r\nContent-Length: 18446744073709551619\r\n\r\n
BodyTooLong | no | POST / HTTP/1.1\r\nHost: a\r\nContent-Length: 18446744073709551616\r\n\r\n
";

pub fn is_fault(alloc: Global, row: &Cells) -> Result<bool, NoMemory> {
    let text = row.at(2);
    Ok(match row.cause(0) {
        Some(cause) => is_refused(alloc, text, cause, row.is_yes(1), Some((true, text.len()))),
        None => false,
    })
}

#[test]
fn faults_stay_and_keep_their_bytes(rt: HostRuntime) -> Result<(), Fail> {
    are_right(
        &rt,
        rt.alloc(),
        FAULTS,
        41,
        Rows::Request(RequestRows::Fault),
    )
}
