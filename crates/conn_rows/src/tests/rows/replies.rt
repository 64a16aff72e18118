// Replies: whole, streamed, cut off.
use super::super::Mode;
use super::rows_go;
use std::test::Fail;

const ROWS: &str = r"
P = GET /cgi-bin/hello HTTP/1.1\r\nHost: a\r\nConnection: close\r\n\r\n
START = Start 0 0 0 /srv/cgi/hello
HI = Content-Type: text/plain\n\nhi\n
OK = Write HTTP/1.1 200 OK\r\nContent-Type: text/plain\r\nContent-Length: 3\r\nConnection: close\r\n\r\nhi\n
OK_OPEN = Write HTTP/1.1 200 OK\r\nContent-Type: text/plain\r\nContent-Length: 3\r\n\r\nhi\n
NO_OUTPUT = Write HTTP/1.1 502 Bad Gateway\r\nContent-Type: text/plain\r\nContent-Length: 22\r\nConnection: close\r\n\r\nscript gave no output\n
== one GET
Accept
    WantClient
Client 0 $P
    $START
Started 0
    EndInput 0
    WantChild 0
Out 0 $HI
    WantChild 0
OutEnd 0
    $OK
    Shut Done
Exited 0
== two in one piece
Accept
    WantClient
Client 0 GET /cgi-bin/hello HTTP/1.1\r\nHost: a\r\n\r\nGET /cgi-bin/hello HTTP/1.1\r\nHost: a\r\n\r\n
    $START
Started 0
    EndInput 0
    WantChild 0
Out 0 $HI
    WantChild 0
OutEnd 0
    $OK_OPEN
Exited 0
    Start 1 1 0 /srv/cgi/hello
Started 1
    EndInput 1
    WantChild 1
Out 1 $HI
    WantChild 1
OutEnd 1
    $OK_OPEN
Exited 1
    WantClient
End
    Shut Done
== a child that lingers
Accept
    WantClient
Client 0 GET /cgi-bin/hello HTTP/1.1\r\nHost: a\r\n\r\nGET /cgi-bin/hello HTTP/1.1\r\nHost: a\r\n\r\n
    $START
Started 0
    EndInput 0
    WantChild 0
Out 0 $HI
    WantChild 0
OutEnd 0
    $OK_OPEN
Ticks 19
Ticks 1
    Kill 0
Exited 0
    Start 1 1 0 /srv/cgi/hello
== a local redirect
Accept
    WantClient
Client 0 POST /cgi-bin/form HTTP/1.1\r\nHost: a\r\nConnection: close\r\nContent-Length: 3\r\n\r\nx=1
    Start 0 0 0 /srv/cgi/form
Started 0
    Feed 0 3
    EndInput 0
    WantChild 0
Took 0 3
Out 0 Location: /cgi-bin/hello\n\n
    WantChild 0
OutEnd 0
Exited 0
    Start 1 0 1 /srv/cgi/hello
Started 1
    EndInput 1
    WantChild 1
Out 1 $HI
    WantChild 1
OutEnd 1
    $OK
    Shut Done
Exited 1
== the run takes too long
Accept
    WantClient
Client 0 $P
    $START
Started 0
    EndInput 0
    WantChild 0
Ticks 299
Ticks 1
    Write HTTP/1.1 504 Gateway Timeout\r\nContent-Type: text/plain\r\nDate: Thu, 01 Jan 1970 00:00:00 GMT\r\nContent-Length: 21\r\nConnection: close\r\n\r\nscript took too long\n
    Kill 0
    Shut Done
Exited 0
    Release 0
== the client goes
Accept
    WantClient
Client 0 $P
    $START
Started 0
    EndInput 0
    WantChild 0
Out 0 Content-Type: te
    WantChild 0
Gone
    Kill 0
    Shut Gone
Exited 0
    Release 0
== a long reply
Accept
    WantClient
Client 0 GET /cgi-bin/hello HTTP/1.0\r\n\r\n
    $START
Started 0
    EndInput 0
    WantChild 0
Out 0 $HI
    WantChild 0
Tick 0
    Write HTTP/1.1 200 OK\r\nContent-Type: text/plain\r\nDate: Thu, 01 Jan 1970 00:00:00 GMT\r\nConnection: close\r\n\r\nhi\n
OutEnd 0
    Shut Done
== a request of HTTP/1.0
Accept
    WantClient
Client 0 GET /cgi-bin/hello HTTP/1.0\r\n\r\n
    $START
Started 0
    EndInput 0
    WantChild 0
Out 0 $HI
    WantChild 0
OutEnd 0
    $OK
    Shut Done
Exited 0
== a reply in chunks to its end
Accept
    WantClient
Client 0 $P
    $START
Started 0
    EndInput 0
    WantChild 0
Out 0 $HI
    WantChild 0
Tick 784111777
    Write HTTP/1.1 200 OK\r\nContent-Type: text/plain\r\nDate: Sun, 06 Nov 1994 08:49:37 GMT\r\nTransfer-Encoding: chunked\r\nConnection: close\r\n\r\n3\r\nhi\n\r\n
OutEnd 0
    Write 0\r\n\r\n
    Shut Done
Exited 0
== a reply in chunks
Accept
    WantClient
Client 0 $P
    $START
Started 0
    EndInput 0
    WantChild 0
Out 0 $HI
    WantChild 0
Tick 784111777
    Write HTTP/1.1 200 OK\r\nContent-Type: text/plain\r\nDate: Sun, 06 Nov 1994 08:49:37 GMT\r\nTransfer-Encoding: chunked\r\nConnection: close\r\n\r\n3\r\nhi\n\r\n
OutBroken 0
    Kill 0
    Shut script output broken
Exited 0
== Stop
Accept
    WantClient
Client 0 $P
    $START
Stop
    Shut Stopped
Started 0
    EndInput 0
    Kill 0
Exited 0
    Release 0
== HEAD
Accept
    WantClient
Client 0 HEAD /cgi-bin/hello HTTP/1.1\r\nHost: a\r\nConnection: close\r\n\r\n
    $START
Started 0
    EndInput 0
    WantChild 0
Out 0 $HI
    WantChild 0
OutEnd 0
    Write HTTP/1.1 200 OK\r\nContent-Type: text/plain\r\nConnection: close\r\n\r\n
    Shut Done
Exited 0
== 204
Accept
    WantClient
Client 0 $P
    $START
Started 0
    EndInput 0
    WantChild 0
Out 0 Status: 204\nContent-Length: 99\n\nstray
    WantChild 0
OutEnd 0
    Write HTTP/1.1 204 No Content\r\nConnection: close\r\n\r\n
    Shut Done
Exited 0
== framing fields of a script
Accept
    WantClient
Client 0 $P
    $START
Started 0
    EndInput 0
    WantChild 0
Out 0 Content-Type: text/plain\nContent-Length: 99\nTransfer-Encoding: x\nX-CGI-A: 1\n\nhi\n
    WantChild 0
OutEnd 0
    $OK
    Shut Done
== a redirect of the client
Accept
    WantClient
Client 0 $P
    $START
Started 0
    EndInput 0
    WantChild 0
Out 0 Location: http://x/y\nSet-Cookie: a=1\n\nbody
    WantChild 0
OutEnd 0
    Write HTTP/1.1 302 Found\r\nLocation: http://x/y\r\nSet-Cookie: a=1\r\nContent-Length: 0\r\nConnection: close\r\n\r\n
    Shut Done
== an unfinished header
Accept
    WantClient
Client 0 $P
    $START
Started 0
    EndInput 0
    WantChild 0
Out 0 Content-Type: text/plain\n
    WantChild 0
OutEnd 0
    Write HTTP/1.1 502 Bad Gateway\r\nContent-Type: text/plain\r\nContent-Length: 25\r\nConnection: close\r\n\r\nscript header incomplete\n
    Shut Done
== no output
Accept
    WantClient
Client 0 $P
    $START
Started 0
    EndInput 0
    WantChild 0
OutEnd 0
    $NO_OUTPUT
    Shut Done
== a header field twice
Accept
    WantClient
Client 0 $P
    $START
Started 0
    EndInput 0
    WantChild 0
Out 0 Status: 200 OK\nStatus: 404 X\n\n
    WantChild 0
OutEnd 0
    Write HTTP/1.1 502 Bad Gateway\r\nContent-Type: text/plain\r\nContent-Length: 29\r\nConnection: close\r\n\r\nscript header field repeated\n
    Shut Done
== the run ends in time
Accept
    WantClient
Client 0 $P
    $START
Started 0
    EndInput 0
    WantChild 0
Ticks 299
Out 0 $HI
    WantChild 0
OutEnd 0
    Write HTTP/1.1 200 OK\r\nContent-Type: text/plain\r\nDate: Thu, 01 Jan 1970 00:00:00 GMT\r\nContent-Length: 3\r\nConnection: close\r\n\r\nhi\n
    Shut Done
== output before the last Tick
Accept
    WantClient
Client 0 $P
    $START
Started 0
    EndInput 0
    WantChild 0
Ticks 299
Out 0 $HI
    WantChild 0
Ticks 1
    Write HTTP/1.1 504 Gateway Timeout\r\nContent-Type: text/plain\r\nDate: Thu, 01 Jan 1970 00:00:00 GMT\r\nContent-Length: 21\r\nConnection: close\r\n\r\nscript took too long\n
    Kill 0
    Shut Done
== an nph script
Accept
    WantClient
Client 0 GET /nph HTTP/1.1\r\nHost: a\r\n\r\n
    Start 0 0 0 /srv/cgi/nph
Started 0
    EndInput 0
    WantChild 0
Out 0 HTTP/1.0 200 OK\r\n\r\nx
    WantChild 0
OutEnd 0
    Write HTTP/1.0 200 OK\r\n\r\nx
    Shut Done
== an nph script without output
Accept
    WantClient
Client 0 GET /nph HTTP/1.1\r\nHost: a\r\n\r\n
    Start 0 0 0 /srv/cgi/nph
Started 0
    EndInput 0
    WantChild 0
OutEnd 0
    $NO_OUTPUT
    Shut Done
== HEAD in part
Accept
    WantClient
Client 0 HEAD /cgi-bin/hello HTTP/1.1\r\nHost: a\r\nConnection: close\r\n\r\n
    $START
Started 0
    EndInput 0
    WantChild 0
Out 0 $HI
    WantChild 0
Tick 0
    Write HTTP/1.1 200 OK\r\nContent-Type: text/plain\r\nDate: Thu, 01 Jan 1970 00:00:00 GMT\r\nConnection: close\r\n\r\n
OutEnd 0
    Shut Done
== it could not be started
Accept
    WantClient
Client 0 $P
    $START
StartFailed 0
    Write HTTP/1.1 502 Bad Gateway\r\nContent-Type: text/plain\r\nContent-Length: 28\r\nConnection: close\r\n\r\nscript could not be started\n
    Shut Done
== the book is full, and the next request follows
Accept
    WantClient
Client 0 GET /cgi-bin/hello HTTP/1.1\r\nHost: a\r\n\r\nGET /cgi-bin/hello HTTP/1.1\r\nHost: a\r\n\r\n
    $START
StartFull 0 64
    Write HTTP/1.1 503 Service Unavailable\r\nContent-Type: text/plain\r\nContent-Length: 21\r\n\r\nchildren running: 64\n
    Start 1 1 0 /srv/cgi/hello
== much waits to be sent
Accept
    WantClient
Client 0 GET /nph HTTP/1.1\r\nHost: a\r\n\r\n
    Start 0 0 0 /srv/cgi/nph
Started 0
    EndInput 0
    WantChild 0
Wrote 0 1
NoRoom
    Kill 0
    Shut NoMemory
Exited 0
    Release 0
== a WebSocket of an old version
Accept
    WantClient
Client 0 GET /ws HTTP/1.1\r\nHost: a\r\nUpgrade: websocket\r\nConnection: keep-alive, Upgrade\r\nSec-WebSocket-Key: dGhlIHNhbXBsZSBub25jZQ==\r\nSec-WebSocket-Version: 8\r\n\r\n
    Write HTTP/1.1 426 Upgrade Required\r\nUpgrade: websocket\r\nConnection: Upgrade\r\nSec-WebSocket-Version: 13\r\nContent-Type: text/plain\r\nContent-Length: 30\r\n\r\nwebsocket version 13 required\n
    WantClient
== the client goes on within a body whose script has redirected
Accept
    WantClient
Client 0 POST /cgi-bin/form HTTP/1.1\r\nHost: a\r\nContent-Length: 3\r\n\r\n
    Start 0 0 0 /srv/cgi/form
    WantClient
Started 0
    WantChild 0
Out 0 Location: /cgi-bin/hello\n\n
    WantChild 0
OutEnd 0
    EndInput 0
Exited 0
    Start 1 0 1 /srv/cgi/hello
Client 0 x=1
Started 1
    EndInput 1
    WantChild 1
Out 1 $HI
    WantChild 1
OutEnd 1
    $OK_OPEN
Exited 1
    WantClient
== the end of the input settles a child, and its redirect is refused
Accept
    WantClient
Client 0 POST /cgi-bin/form HTTP/1.1\r\nHost: a\r\nContent-Length: 3\r\n\r\n
    Start 0 0 0 /srv/cgi/form
    WantClient
Started 0
    WantChild 0
Exited 0
Out 0 Location: /none\n\n
    WantChild 0
OutEnd 0
    EndInput 0
    Write HTTP/1.1 404 Not Found\r\nContent-Type: text/plain\r\nContent-Length: 24\r\nConnection: close\r\n\r\nno script for this path\n
    Shut Done
== an exited child is released, and the next request refused
Accept
    WantClient
Client 0 GET /cgi-bin/hello HTTP/1.1\r\nHost: a\r\n\r\nGET /none HTTP/1.1\r\nHost: a\r\n\r\n
    $START
Started 0
    EndInput 0
    WantChild 0
Out 0 $HI
    WantChild 0
Exited 0
OutEnd 0
    $OK_OPEN
    Write HTTP/1.1 404 Not Found\r\nContent-Type: text/plain\r\nContent-Length: 24\r\n\r\nno script for this path\n
    WantClient
";

pub fn rows() -> &'static str {
    ROWS
}

#[test]
fn replies_are_written(rt: HostRuntime) -> Result<(), Fail> {
    rows_go(&rt, rt.alloc(), rows(), Mode::Whole, 30)
}
