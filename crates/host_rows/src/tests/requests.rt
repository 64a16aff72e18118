// How requests come and are refused, on one connection, act for act.
use super::drive::Heard::{Accepted, Client, OutputEof, Started};
use super::play::{Play, has_rows, plays};
use super::script::{halves, row_named};
use super::texts::{OUTPUT, REQUEST, START, WRITE_REPLY};
use host_base::NoMemory;
use std::test::Fail;

// Requests one after the other; clients that end, wait or send too little; requests that are refused; and bodies of requests.
const REQUESTS: &str = r"
TWO = GET /cgi-bin/hello HTTP/1.1\r\nHost: a\r\n\r\nGET /cgi-bin/hello HTTP/1.1\r\nHost: a\r\n\r\n
TOO_SLOW = Write 0: HTTP/1.1 408 Request Timeout\r\nContent-Type: text/plain\r\nDate: Sun, 06 Nov 1994 08:49:37 GMT\r\nContent-Length: 22\r\nConnection: close\r\n\r\nrequest took too long\n
OPEN = GET /cgi-bin/hello HTTP/1.1\r\nHost: a\r\n\r\n
BAD_HEAD = Write 0: HTTP/1.1 400 Bad Request\r\nContent-Type: text/plain\r\nContent-Length: 17\r\nConnection: close\r\n\r\nbad request head\n
BAD_HOST = Write 0: HTTP/1.1 400 Bad Request\r\nContent-Type: text/plain\r\nContent-Length: 9\r\nConnection: close\r\n\r\nbad host\n
NOT_SERVED = Write 0: HTTP/1.1 501 Not Implemented\r\nContent-Type: text/plain\r\nContent-Length: 28\r\nConnection: close\r\n\r\nmethod or target not served\n
BAD_PATH = Write 0: HTTP/1.1 400 Bad Request\r\nContent-Type: text/plain\r\nContent-Length: 9\r\nConnection: close\r\n\r\nbad path\n
FORM = Start 0 (0, 0, 0) /srv/cgi/form
TOO_LARGE = Write 0: HTTP/1.1 413 Content Too Large\r\nContent-Type: text/plain\r\nContent-Length: 23\r\nConnection: close\r\n\r\nrequest body too large\n
== two in one piece
Accepted
    WantClient 0
Client 0 $TWO
    $START
Started 0
    EndInput 0
    WantChild 0
Output 0 $OUTPUT
    WantChild 0
OutputEof 0
    $WRITE_OPEN
Exited 0
    Start 1 (0, 1, 0) /srv/cgi/hello
Started 1
    EndInput 1
    WantChild 1
Output 1 $OUTPUT
    WantChild 1
OutputEof 1
    $WRITE_OPEN
Exited 1
    WantClient 0
ClientEof 0
    Shut 0 Done
Stop
== two refusals that leave the connection open, and a request
Accepted
    WantClient 0
Client 0 GET /none HTTP/1.1\r\nHost: a\r\n\r\nGET /a%zz HTTP/1.1\r\nHost: a\r\n\r\n
    Write 0: HTTP/1.1 404 Not Found\r\nContent-Type: text/plain\r\nContent-Length: 24\r\n\r\nno script for this path\n
    Write 0: HTTP/1.1 400 Bad Request\r\nContent-Type: text/plain\r\nContent-Length: 9\r\n\r\nbad path\n
    WantClient 0
Client 0 $REQUEST
    Start 0 (0, 2, 0) /srv/cgi/hello
Started 0
    EndInput 0
    WantChild 0
Output 0 $OUTPUT
    WantChild 0
OutputEof 0
    $WRITE_REPLY
    Shut 0 Done
+ SETTLED
== the client ends within a head
Accepted
    WantClient 0
Client 0 GET /x HT
    WantClient 0
ClientEof 0
    $WRITE_ENDED_EARLY
    Shut 0 Done
+ STOPPED
== the client ends at once
Accepted
    WantClient 0
ClientEof 0
    Shut 0 Done
+ STOPPED
== the client sends nothing
Accepted
    WantClient 0
Ticks 149
Ticks 1
    Shut 0 Idle
+ STOPPED
== the client sends too little
Ticks 100
Accepted
    WantClient 0
Ticks 149
Client 0 G
    WantClient 0
Ticks 149
Ticks 1
    $TOO_SLOW
    Shut 0 Done
+ STOPPED
== the client waits after a reply
Accepted
    WantClient 0
Ticks 100
Client 0 $OPEN
    $START
Started 0
    EndInput 0
    WantChild 0
Ticks 200
OutputEof 0
    Write 0: HTTP/1.1 502 Bad Gateway\r\nContent-Type: text/plain\r\nDate: Sun, 06 Nov 1994 08:49:37 GMT\r\nContent-Length: 22\r\n\r\nscript gave no output\n
Exited 0
    WantClient 0
Ticks 149
Ticks 1
    Shut 0 Idle
+ STOPPED
== two empty lines before a request
Accepted
    WantClient 0
Client 0 \r\n\r\nGET
    $BAD_HEAD
    Shut 0 Done
+ STOPPED
== HTTP/2.0
Accepted
    WantClient 0
Client 0 GET /cgi-bin/hello HTTP/2.0\r\nHost: a\r\nConnection: close\r\n\r\n
    $BAD_HEAD
    Shut 0 Done
+ STOPPED
== no Host
Accepted
    WantClient 0
Client 0 GET /cgi-bin/hello HTTP/1.1\r\nConnection: close\r\n\r\n
    $BAD_HOST
    Shut 0 Done
+ STOPPED
== OPTIONS *
Accepted
    WantClient 0
Client 0 OPTIONS * HTTP/1.1\r\nHost: a\r\n\r\n
    $NOT_SERVED
    Shut 0 Done
+ STOPPED
== dots above the root
Accepted
    WantClient 0
Client 0 GET /%2e%2e/x HTTP/1.1\r\nHost: a\r\nConnection: close\r\n\r\n
    $WRITE_NO_SCRIPT
    Shut 0 Done
+ STOPPED
== an escaped slash
Accepted
    WantClient 0
Client 0 GET /a%2Fb HTTP/1.1\r\nHost: a\r\nConnection: close\r\n\r\n
    $WRITE_NO_SCRIPT
    Shut 0 Done
+ STOPPED
== no script
Accepted
    WantClient 0
Client 0 GET /none HTTP/1.1\r\nHost: a\r\nConnection: close\r\n\r\n
    $WRITE_NO_SCRIPT
    Shut 0 Done
+ STOPPED
== a broken escape
Accepted
    WantClient 0
Client 0 GET /a%zz HTTP/1.1\r\nHost: a\r\nConnection: close\r\n\r\n
    $BAD_PATH
    Shut 0 Done
+ STOPPED
== dots within a path
Accepted
    WantClient 0
Client 0 GET /x/../cgi-bin/hello HTTP/1.1\r\nHost: a\r\nConnection: close\r\n\r\n
    $START
Started 0
    EndInput 0
    WantChild 0
Output 0 $OUTPUT
    WantChild 0
OutputEof 0
    $WRITE_REPLY
    Shut 0 Done
+ SETTLED
== a form, and a local redirect
Accepted
    WantClient 0
Client 0 POST /cgi-bin/form HTTP/1.1\r\nHost: a\r\nConnection: close\r\nContent-Length: 3\r\n\r\nx=1
    $FORM
Started 0
    Feed 0: x=1
    EndInput 0
    WantChild 0
Output 0 Location: /cgi-bin/hello\n\n
    WantChild 0
OutputEof 0
Exited 0
    Start 1 (0, 0, 1) /srv/cgi/hello
Started 1
    EndInput 1
    WantChild 1
Output 1 $OUTPUT
    WantChild 1
OutputEof 1
    $WRITE_REPLY
    Shut 0 Done
Exited 1
Stop
== a body that is expected
Accepted
    WantClient 0
Client 0 POST /cgi-bin/form HTTP/1.1\r\nHost: a\r\nConnection: close\r\nContent-Length: 3\r\nExpect: 100-continue\r\n\r\n
    Write 0: HTTP/1.1 100 Continue\r\n\r\n
    $FORM
    WantClient 0
Started 0
    WantChild 0
Client 0 x=1
    Feed 0: x=1
    EndInput 0
Output 0 $OUTPUT
    WantChild 0
OutputEof 0
    $WRITE_REPLY
    Shut 0 Done
+ SETTLED
== a body that is too long
Accepted
    WantClient 0
Client 0 POST /cgi-bin/form HTTP/1.1\r\nHost: a\r\nContent-Length: 1048577\r\nExpect: 100-continue\r\n\r\n
    $TOO_LARGE
    Shut 0 Done
+ STOPPED
== a body in chunks, which is whole before its script is started
Accepted
    WantClient 0
Client 0 POST /cgi-bin/form HTTP/1.1\r\nHost: a\r\nConnection: close\r\nTransfer-Encoding: chunked\r\nExpect: 100-continue\r\n\r\n2\r\nx
    Write 0: HTTP/1.1 100 Continue\r\n\r\n
    WantClient 0
Client 0 =\r\n1\r\n1\r\n0\r\n\r\n
    $FORM
Started 0
    Feed 0: x=1
    EndInput 0
    WantChild 0
Output 0 $OUTPUT
    WantChild 0
OutputEof 0
    $WRITE_REPLY
    Shut 0 Done
+ SETTLED
== a body in chunks that breaks off
Accepted
    WantClient 0
Client 0 POST /cgi-bin/form HTTP/1.1\r\nHost: a\r\nTransfer-Encoding: chunked\r\n\r\n3\r\nx=1\rx
    Write 0: HTTP/1.1 400 Bad Request\r\nContent-Type: text/plain\r\nContent-Length: 10\r\nConnection: close\r\n\r\nbad chunk\n
    Shut 0 Done
+ STOPPED
== a script that is not there, for a body that has not come
Accepted
    WantClient 0
Client 0 POST /none HTTP/1.1\r\nHost: a\r\nContent-Length: 3\r\n\r\nx
    $WRITE_NO_SCRIPT
    Shut 0 Done
+ STOPPED
== a body of which only a part was asked for
Accepted
    WantClient 0
Client 0 POST /cgi-bin/form HTTP/1.1\r\nHost: a\r\nConnection: close\r\nContent-Length: 3\r\n\r\nx
    $FORM
    WantClient 0
Started 0
    Feed 0: x
    WantChild 0
Output 0 $OUTPUT
    WantChild 0
OutputEof 0
    $WRITE_REPLY
    EndInput 0
    Shut 0 Done
Exited 0
Stop
";

// Hosts of a site, by the name that a request gives in any letters, or by that of its target.
const HOSTS: &str = r"
NOT_FOUND = Write 0: HTTP/1.1 404 Not Found\r\nContent-Type: text/plain\r\nContent-Length: 24\r\n\r\nno script for this path\n
NOT_THIS_HOST = Write 0: HTTP/1.1 421 Misdirected Request\r\nContent-Type: text/plain\r\nContent-Length: 16\r\n\r\nhost not served\n
== a host that is not served, whatever the path, and one that is
Accepted
    WantClient 0
Client 0 GET /s HTTP/1.1\r\nHost: c.example\r\n\r\nGET /%zz HTTP/1.1\r\nHost: example\r\n\r\n
    $NOT_THIS_HOST
    $NOT_THIS_HOST
    WantClient 0
Client 0 GET /s HTTP/1.1\r\nHost: B.EXAMPLE:8080\r\nConnection: close\r\n\r\n
    Start 0 (0, 2, 0) /srv/b/s
Started 0
    EndInput 0
    WantChild 0
Output 0 $OUTPUT
    WantChild 0
OutputEof 0
    $WRITE_REPLY
    Shut 0 Done
+ SETTLED
== a script of another host alone
Accepted
    WantClient 0
Client 0 GET /t HTTP/1.1\r\nHost: www.a.example\r\n\r\n
    $NOT_FOUND
    WantClient 0
Client 0 GET /t HTTP/1.1\r\nHost: b.example\r\nConnection: close\r\n\r\n
    Start 0 (0, 1, 0) /srv/b/t
Started 0
    EndInput 0
    WantChild 0
Output 0 $OUTPUT
    WantChild 0
OutputEof 0
    $WRITE_REPLY
    Shut 0 Done
+ SETTLED
== the host of the target
Accepted
    WantClient 0
Client 0 GET http://www.A.example/s HTTP/1.1\r\nHost: c.example\r\nConnection: close\r\n\r\n
    Start 0 (0, 0, 0) /srv/a/s
Started 0
    EndInput 0
    WantChild 0
Output 0 $OUTPUT
    WantChild 0
OutputEof 0
    $WRITE_REPLY
    Shut 0 Done
+ SETTLED
";

#[test]
fn requests_that_are_served_and_refused(rt: HostRuntime) -> Result<(), Fail> {
    has_rows(&rt, rt.alloc(), "once", "hosts", HOSTS, 3)?;
    has_rows(&rt, rt.alloc(), "once", "site", REQUESTS, 23)
}

const UPLOAD: &str = r"
UPLOAD = POST /cgi-bin/form HTTP/1.1\r\nHost: a\r\nConnection: close\r\nContent-Length: 1048576\r\n\r\n
FORM = Start 0 (0, 0, 0) /srv/cgi/form
FED = Feed 0: [65536 times x]
// A script is asked for its output while the body comes.
== begun
Accepted
    WantClient 0
Client 0 $UPLOAD
    $FORM
    WantClient 0
Started 0
    WantChild 0
// A piece of the body.
== piece
ClientFill 0 65536
    $FED
Took 0 65536
    WantClient 0
// The last piece.
== ended
ClientFill 0 65536
    $FED
    EndInput 0
Took 0 65536
Output 0 $OUTPUT
    WantChild 0
OutputEof 0
    $WRITE_REPLY
    Shut 0 Done
Exited 0
Stop
";

// A body of sixteen pieces, each fed once the one before was taken.
fn upload(play: &mut Play) -> Result<(), NoMemory> {
    play.script(UPLOAD, row_named(UPLOAD, "begun"))?;
    for _ in 0..15u32 {
        play.script(UPLOAD, row_named(UPLOAD, "piece"))?;
    }
    play.script(UPLOAD, row_named(UPLOAD, "ended"))
}

#[test]
fn a_long_body_is_fed_as_it_comes(rt: HostRuntime) -> Result<(), Fail> {
    let mut play = Play::new(rt.alloc());
    upload(&mut play)?;
    plays(&rt, "once", "site", "a long body", play)
}

// The client's bytes and the output's come one by one.
fn singly(play: &mut Play) -> Result<(), NoMemory> {
    let (front, last) = halves(REQUEST, REQUEST.len() - 1);
    play.beat(Accepted, &["WantClient 0"])?;
    play.client_singly(0, front)?;
    play.beat(Client(0, last), &[START])?;
    play.beat(Started(0), &["EndInput 0", "WantChild 0"])?;
    play.output_singly(0, OUTPUT)?;
    play.beat(OutputEof(0), &[WRITE_REPLY, "Shut 0 Done"])?;
    play.beats("SETTLED")
}

#[test]
fn single_bytes(rt: HostRuntime) -> Result<(), Fail> {
    let mut play = Play::new(rt.alloc());
    singly(&mut play)?;
    plays(&rt, "once", "site", "in single bytes", play)
}
