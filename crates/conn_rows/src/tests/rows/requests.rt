// Requests: how they come, and what is refused.
use super::super::Mode;
use super::rows_go;
use std::test::Fail;

const ROWS: &str = r"
EARLY_END = Write HTTP/1.1 400 Bad Request\r\nContent-Type: text/plain\r\nContent-Length: 20\r\nConnection: close\r\n\r\nrequest ended early\n
TOO_SLOW = Write HTTP/1.1 408 Request Timeout\r\nContent-Type: text/plain\r\nDate: Thu, 01 Jan 1970 00:00:00 GMT\r\nContent-Length: 22\r\nConnection: close\r\n\r\nrequest took too long\n
BAD_HEAD = Write HTTP/1.1 400 Bad Request\r\nContent-Type: text/plain\r\nContent-Length: 17\r\nConnection: close\r\n\r\nbad request head\n
BAD_HOST = Write HTTP/1.1 400 Bad Request\r\nContent-Type: text/plain\r\nContent-Length: 9\r\nConnection: close\r\n\r\nbad host\n
NOT_SERVED = Write HTTP/1.1 501 Not Implemented\r\nContent-Type: text/plain\r\nContent-Length: 28\r\nConnection: close\r\n\r\nmethod or target not served\n
NO_SCRIPT = Write HTTP/1.1 404 Not Found\r\nContent-Type: text/plain\r\nContent-Length: 24\r\nConnection: close\r\n\r\nno script for this path\n
BAD_PATH = Write HTTP/1.1 400 Bad Request\r\nContent-Type: text/plain\r\nContent-Length: 9\r\nConnection: close\r\n\r\nbad path\n
TOO_LONG = Write HTTP/1.1 413 Content Too Large\r\nContent-Type: text/plain\r\nContent-Length: 23\r\nConnection: close\r\n\r\nrequest body too large\n
CONTINUE = Write HTTP/1.1 100 Continue\r\n\r\n
== the client ends within a head
Accept
    WantClient
Client 0 GET /x HT
    WantClient
End
    $EARLY_END
    Shut Done
== the client ends before a request
Accept
    WantClient
End
    Shut Done
== the client sends nothing
Accept
    WantClient
Ticks 149
Ticks 1
    Shut Idle
== the client stops within a head
Ticks 200
Accept
    WantClient
Ticks 149
Client 0 G
    WantClient
Ticks 149
Ticks 1
    $TOO_SLOW
    Shut Done
== two empty lines before a request
Accept
    WantClient
Client 0 \r\n\r\nGET
    $BAD_HEAD
    Shut Done
== HTTP/2.0
Accept
    WantClient
Client 0 GET / HTTP/2.0\r\nHost: a\r\n\r\n
    $BAD_HEAD
    Shut Done
== no Host
Accept
    WantClient
Client 0 GET / HTTP/1.1\r\n\r\n
    $BAD_HOST
    Shut Done
== OPTIONS *
Accept
    WantClient
Client 0 OPTIONS * HTTP/1.1\r\nHost: a\r\n\r\n
    $NOT_SERVED
    Shut Done
== dots above the root
Accept
    WantClient
Client 0 GET /%2e%2e/x HTTP/1.1\r\nHost: a\r\nConnection: close\r\n\r\n
    $NO_SCRIPT
    Shut Done
== an escaped slash
Accept
    WantClient
Client 0 GET /a%2Fb HTTP/1.1\r\nHost: a\r\nConnection: close\r\n\r\n
    $NO_SCRIPT
    Shut Done
== no script
Accept
    WantClient
Client 0 GET /none HTTP/1.1\r\nHost: a\r\nConnection: close\r\n\r\n
    $NO_SCRIPT
    Shut Done
== a bad escape
Accept
    WantClient
Client 0 GET /a%zz HTTP/1.1\r\nHost: a\r\nConnection: close\r\n\r\n
    $BAD_PATH
    Shut Done
== dots within a path
Accept
    WantClient
Client 0 GET /x/../cgi-bin/hello HTTP/1.1\r\nHost: a\r\nConnection: close\r\n\r\n
    Start 0 0 0 /srv/cgi/hello
Started 0
    EndInput 0
    WantChild 0
Out 0 Content-Type: text/plain\n\nhi\n
    WantChild 0
OutEnd 0
    Write HTTP/1.1 200 OK\r\nContent-Type: text/plain\r\nContent-Length: 3\r\nConnection: close\r\n\r\nhi\n
    Shut Done
Exited 0
== two refusals that leave the connection open
Accept
    WantClient
Client 0 GET /no HTTP/1.1\r\nHost: a\r\n\r\nGET /no HTTP/1.1\r\nHost: a\r\nConnection: close\r\n\r\n
    Write HTTP/1.1 404 Not Found\r\nContent-Type: text/plain\r\nContent-Length: 24\r\n\r\nno script for this path\n
    $NO_SCRIPT
    Shut Done
== a body that is too long
Accept
    WantClient
Client 0 POST /cgi-bin/form HTTP/1.1\r\nHost: a\r\nContent-Length: 1048577\r\nExpect: 100-continue\r\n\r\n
    $TOO_LONG
    Shut Done
== 100 Continue
Accept
    WantClient
Client 0 POST /cgi-bin/form HTTP/1.1\r\nHost: a\r\nContent-Length: 3\r\nExpect: 100-continue\r\n\r\n
    $CONTINUE
    Start 0 0 0 /srv/cgi/form
    WantClient
Started 0
    WantChild 0
Client 0 x=1
    Feed 0 3
    EndInput 0
== a body in pieces
Accept
    WantClient
Client 0 POST /cgi-bin/form HTTP/1.1\r\nHost: a\r\nContent-Length: 131075\r\n\r\n
    Start 0 0 0 /srv/cgi/form
    WantClient
Started 0
    WantChild 0
Fill 120 65536
    Feed 0 65536
Took 0 1
Took 0 65535
    WantClient
Fill 120 65536
    Feed 0 65536
Took 0 65536
    WantClient
Client 0 end
    Feed 0 3
    EndInput 0
== the client ends within a body
Accept
    WantClient
Client 0 POST /cgi-bin/form HTTP/1.1\r\nHost: a\r\nContent-Length: 3\r\n\r\nx
    Start 0 0 0 /srv/cgi/form
    WantClient
Started 0
    Feed 0 1
    WantChild 0
End
    $EARLY_END
    EndInput 0
    Kill 0
    Shut Done
";

pub fn rows() -> &'static str {
    ROWS
}

#[test]
fn requests_are_read_and_refused(rt: HostRuntime) -> Result<(), Fail> {
    rows_go(&rt, rt.alloc(), rows(), Mode::Whole, 18)
}
