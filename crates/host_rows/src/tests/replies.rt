// What comes of outputs and of children, on one connection, act for act.
use super::drive::Heard::{Accepted, Client, Exited, Output, OutputEof, Started, Stop};
use super::lines::start_line;
use super::play::{Play, has_rows, plays};
use super::texts::{REQUEST, START};
use host_base::NoMemory;
use std::test::Fail;

// Replies whose output was known when they were written, ends before that, replies in pieces, and more than 8,192 bytes of output.
const REPLIES: &str = r"
NO_BODY = HEAD /cgi-bin/hello HTTP/1.1\r\nHost: a\r\nConnection: close\r\n\r\n
OLD = GET /cgi-bin/hello HTTP/1.0\r\n\r\n
TWO = GET /cgi-bin/hello HTTP/1.1\r\nHost: a\r\n\r\nGET /cgi-bin/hello HTTP/1.1\r\nHost: a\r\nConnection: close\r\n\r\n
TOO_LATE = Write 0: HTTP/1.1 504 Gateway Timeout\r\nContent-Type: text/plain\r\nDate: Sun, 06 Nov 1994 08:49:37 GMT\r\nContent-Length: 21\r\nConnection: close\r\n\r\nscript took too long\n
CHUNKED = Write 0: HTTP/1.1 200 OK\r\nContent-Type: text/plain\r\nDate: Sun, 06 Nov 1994 08:49:37 GMT\r\nTransfer-Encoding: chunked\r\nConnection: close\r\n\r\n3\r\nhi\n\r\n
HEADER = Content-Type: text/plain\n\n
BEGINS = Write 0: HTTP/1.1 200 OK\r\nContent-Type: text/plain\r\nTransfer-Encoding: chunked\r\nConnection: close\r\n\r\n2328\r\n[9000 times x]\r\n
== one GET
+ FIRST
+ STOPPED
== HEAD
Accepted
    WantClient 0
Client 0 $NO_BODY
    $START
Started 0
    EndInput 0
    WantChild 0
Output 0 $OUTPUT
    WantChild 0
OutputEof 0
    $WRITE_BARE
    Shut 0 Done
+ SETTLED
== a request of HTTP/1.0
Accepted
    WantClient 0
Client 0 $OLD
    $START
Started 0
    EndInput 0
    WantChild 0
Output 0 $OUTPUT
    WantChild 0
OutputEof 0
    $WRITE_REPLY
    Shut 0 Done
+ SETTLED
== a body that may not be, and framing fields of the script
+ BEGUN
Output 0 Status: 204\nContent-Length: 99\n\nstray
    WantChild 0
OutputEof 0
    Write 0: HTTP/1.1 204 No Content\r\nConnection: close\r\n\r\n
    Shut 0 Done
+ SETTLED
== the client is sent elsewhere
+ BEGUN
Output 0 Location: http://x/y\nSet-Cookie: a=1\n\nbody
    WantChild 0
OutputEof 0
    Write 0: HTTP/1.1 302 Found\r\nLocation: http://x/y\r\nSet-Cookie: a=1\r\nContent-Length: 0\r\nConnection: close\r\n\r\n
    Shut 0 Done
+ SETTLED
== no output
+ BEGUN
OutputEof 0
    $WRITE_NO_OUTPUT
    Shut 0 Done
+ SETTLED
== a reply as it is
Accepted
    WantClient 0
Client 0 GET /nph HTTP/1.1\r\nHost: a\r\n\r\n
    Start 0 (0, 0, 0) /srv/cgi/nph
Started 0
    EndInput 0
    WantChild 0
Output 0 HTTP/1.0 200 OK\r\n\r\nx
    WantChild 0
OutputEof 0
    Write 0: HTTP/1.0 200 OK\r\n\r\nx
    Shut 0 Done
+ SETTLED
== no output in place of a reply as it is
Accepted
    WantClient 0
Client 0 GET /nph HTTP/1.1\r\nHost: a\r\n\r\n
    Start 0 (0, 0, 0) /srv/cgi/nph
Started 0
    EndInput 0
    WantChild 0
OutputEof 0
    $WRITE_NO_OUTPUT
    Shut 0 Done
+ SETTLED
== a child that exits before its output ends
+ BEGUN
Exited 0
Output 0 $OUTPUT
    WantChild 0
OutputEof 0
    $WRITE_REPLY
    Shut 0 Done
+ STOPPED
== it could not be started
Accepted
    WantClient 0
Client 0 $REQUEST
    $START
StartFailed 0
    Write 0: HTTP/1.1 502 Bad Gateway\r\nContent-Type: text/plain\r\nContent-Length: 28\r\nConnection: close\r\n\r\nscript could not be started\n
    Shut 0 Done
Stop
== as many children run as may, and the connection goes on
Accepted
    WantClient 0
Client 0 $TWO
    $START
StartFull 0 64
    Write 0: HTTP/1.1 503 Service Unavailable\r\nContent-Type: text/plain\r\nContent-Length: 21\r\n\r\nchildren running: 64\n
    Start 1 (0, 1, 0) /srv/cgi/hello
Started 1
    EndInput 1
    WantChild 1
Output 1 $OUTPUT
    WantChild 1
OutputEof 1
    $WRITE_REPLY
    Shut 0 Done
Exited 1
Stop
== reading its output fails
+ BEGUN
Output 0 $OUTPUT
    WantChild 0
Broken 0
    Write 0: HTTP/1.1 502 Bad Gateway\r\nContent-Type: text/plain\r\nContent-Length: 21\r\nConnection: close\r\n\r\nscript output broken\n
    Kill 0
    Shut 0 Done
+ SETTLED
== the client is gone
+ BEGUN
Output 0 Content-Type: te
    WantChild 0
Gone 0
    Kill 0
    Shut 0 Gone
Exited 0
    Release 0
Stop
== it takes too long
+ BEGUN
Ticks 299
Ticks 1
    $TOO_LATE
    Kill 0
    Shut 0 Done
Exited 0
    Release 0
Stop
== it ends in time
+ BEGUN
Ticks 299
Output 0 $OUTPUT
    WantChild 0
OutputEof 0
    $WRITE_DATED
    Shut 0 Done
+ SETTLED
== its time begins with its Start
Accepted
    WantClient 0
Client 0 $REQUEST
    $START
Ticks 100
Started 0
    EndInput 0
    WantChild 0
Ticks 199
Ticks 1
    $TOO_LATE
    Kill 0
    Shut 0 Done
Exited 0
    Release 0
Stop
== it is answered and lingers, and the next request waits for its end
Accepted
    WantClient 0
Client 0 $TWO
    $START
Started 0
    EndInput 0
    WantChild 0
Output 0 $OUTPUT
    WantChild 0
OutputEof 0
    $WRITE_OPEN
Ticks 19
Ticks 1
    Kill 0
Exited 0
    Start 1 (0, 1, 0) /srv/cgi/hello
Started 1
    EndInput 1
    WantChild 1
Output 1 $OUTPUT
    WantChild 1
OutputEof 1
    $WRITE_DATED
    Shut 0 Done
Exited 1
Stop
== the client is gone while it lingers
Accepted
    WantClient 0
Client 0 GET /cgi-bin/hello HTTP/1.1\r\nHost: a\r\n\r\n
    $START
Started 0
    EndInput 0
    WantChild 0
Output 0 $OUTPUT
    WantChild 0
OutputEof 0
    $WRITE_OPEN
Gone 0
    Kill 0
    Shut 0 Gone
Exited 0
Stop
== a Tick after the header
+ BEGUN
Output 0 $OUTPUT
    WantChild 0
Ticks 1
    $CHUNKED
OutputEof 0
    Write 0: 0\r\n\r\n
    Shut 0 Done
+ SETTLED
== a Tick after the header, and an output that breaks off
+ BEGUN
Output 0 $OUTPUT
    WantChild 0
Ticks 1
    $CHUNKED
Broken 0
    Kill 0
    Shut 0 Cut(OutputBroken)
Exited 0
Stop
== a Tick after the header, for HTTP/1.0
Accepted
    WantClient 0
Client 0 $OLD
    $START
Started 0
    EndInput 0
    WantChild 0
Output 0 $OUTPUT
    WantChild 0
Ticks 1
    Write 0: HTTP/1.1 200 OK\r\nContent-Type: text/plain\r\nDate: Sun, 06 Nov 1994 08:49:37 GMT\r\nConnection: close\r\n\r\nhi\n
OutputEof 0
    Shut 0 Done
+ SETTLED
== a Tick after the header, for HEAD
Accepted
    WantClient 0
Client 0 $NO_BODY
    $START
Started 0
    EndInput 0
    WantChild 0
Output 0 $OUTPUT
    WantChild 0
Ticks 1
    Write 0: HTTP/1.1 200 OK\r\nContent-Type: text/plain\r\nDate: Sun, 06 Nov 1994 08:49:37 GMT\r\nConnection: close\r\n\r\n
OutputEof 0
    Shut 0 Done
+ SETTLED
== the last Tick of its time comes with the header's first
+ BEGUN
Ticks 299
Output 0 $OUTPUT
    WantChild 0
Ticks 1
    $TOO_LATE
    Kill 0
    Shut 0 Done
Exited 0
    Release 0
Stop
== the client ends within the body of its request
Accepted
    WantClient 0
Client 0 POST /cgi-bin/hello HTTP/1.1\r\nHost: a\r\nConnection: close\r\nContent-Length: 3\r\n\r\nx
    $START
    WantClient 0
Started 0
    Feed 0: x
    WantChild 0
ClientEof 0
    $WRITE_ENDED_EARLY
    EndInput 0
    Kill 0
    Shut 0 Done
Exited 0
    Release 0
Stop
== a date of the script's own
Ticks 1
Accepted
    WantClient 0
Client 0 $REQUEST
    $START
Started 0
    EndInput 0
    WantChild 0
Output 0 Content-Type: text/plain\nDate: x\n\nhi\n
    WantChild 0
OutputEof 0
    Write 0: HTTP/1.1 200 OK\r\nContent-Type: text/plain\r\nDate: x\r\nContent-Length: 3\r\nConnection: close\r\n\r\nhi\n
    Shut 0 Done
Exited 0
Stop
== the date of the last Tick
+ BEGUN
Ticks 1
TickAt 253402300799
TickAt 0
Output 0 $OUTPUT
    WantChild 0
OutputEof 0
    Write 0: HTTP/1.1 200 OK\r\nContent-Type: text/plain\r\nDate: Thu, 01 Jan 1970 00:00:00 GMT\r\nContent-Length: 3\r\nConnection: close\r\n\r\nhi\n
    Shut 0 Done
+ SETTLED
== the date of the reply's first byte
+ BEGUN
Output 0 $OUTPUT
    WantChild 0
TickAt 253402300799
    Write 0: HTTP/1.1 200 OK\r\nContent-Type: text/plain\r\nDate: Fri, 31 Dec 9999 23:59:59 GMT\r\nTransfer-Encoding: chunked\r\nConnection: close\r\n\r\n3\r\nhi\n\r\n
Ticks 1
Output 0 more
    Write 0: 4\r\nmore\r\n
    WantChild 0
OutputEof 0
    Write 0: 0\r\n\r\n
    Shut 0 Done
+ SETTLED
== a long output, which is written as it comes
+ BEGUN
Output 0 $HEADER
    WantChild 0
OutputFill 0 9000
    $BEGINS
    WantChild 0
Output 0 b
    Write 0: 1\r\nb\r\n
    WantChild 0
OutputEof 0
    Write 0: 0\r\n\r\n
    Shut 0 Done
+ SETTLED
== the same in one piece with its header
+ BEGUN
OutputLong 0 9000
    $BEGINS
    WantChild 0
Output 0 b
    Write 0: 1\r\nb\r\n
    WantChild 0
OutputEof 0
    Write 0: 0\r\n\r\n
    Shut 0 Done
+ SETTLED
== one that breaks off
+ BEGUN
Output 0 $HEADER
    WantChild 0
OutputFill 0 9000
    $BEGINS
    WantChild 0
Broken 0
    Kill 0
    Shut 0 Cut(OutputBroken)
+ SETTLED
== 8,192 bytes may wait for more
+ BEGUN
Output 0 $HEADER
    WantChild 0
OutputFill 0 8166
    WantChild 0
OutputEof 0
    Write 0: HTTP/1.1 200 OK\r\nContent-Type: text/plain\r\nContent-Length: 8166\r\nConnection: close\r\n\r\n[8166 times x]
    Shut 0 Done
+ SETTLED
== with one more the reply begins
+ BEGUN
Output 0 $HEADER
    WantChild 0
OutputFill 0 8167
    Write 0: HTTP/1.1 200 OK\r\nContent-Type: text/plain\r\nTransfer-Encoding: chunked\r\nConnection: close\r\n\r\n1fe7\r\n[8167 times x]\r\n
    WantChild 0
OutputEof 0
    Write 0: 0\r\n\r\n
    Shut 0 Done
+ SETTLED
";

#[test]
fn replies_whole_early_and_in_pieces(rt: HostRuntime) -> Result<(), Fail> {
    has_rows(&rt, rt.alloc(), "once", "site", REPLIES, 32)
}

// ---- local redirects

const HOP: &[u8] = b"Location: /cgi-bin/hello\n\n";

const LOOPED: &str =
    "Write 0: HTTP/1.1 500 Internal Server Error\r\nContent-Type: text/plain\r\nContent-Length: 25\r\nConnection: close\r\n\r\ntoo many local redirects\n";

// Child k gives a local redirect.
fn redirect(play: &mut Play, k: u64) -> Result<(), NoMemory> {
    play.beat(Started(k), &[])?;
    play.follow_for("EndInput", k)?;
    play.follow_for("WantChild", k)?;
    play.beat(Output(k, HOP), &[])?;
    play.follow_for("WantChild", k)?;
    play.beat(OutputEof(k), &[])
}

// Child k is followed by the next.
fn hop(play: &mut Play, k: u32, next: u32) -> Result<(), NoMemory> {
    redirect(play, u64::from(k))?;
    play.beat(Exited(u64::from(k)), &[])?;
    let alloc = play.alloc();
    let start = start_line(alloc, u64::from(next), (0, 0, next), "/srv/cgi/hello")?;
    play.follow(start.as_str())
}

fn hops(play: &mut Play) -> Result<(), NoMemory> {
    for k in 0..10u32 {
        hop(play, k, k + 1)?;
    }
    Ok(())
}

// Eleven children, of which each redirects to the next.
fn redirects(play: &mut Play) -> Result<(), NoMemory> {
    play.beat(Accepted, &["WantClient 0"])?;
    play.beat(Client(0, REQUEST), &[START])?;
    hops(play)?;
    redirect(play, 10)?;
    play.beat(Exited(10), &[LOOPED, "Shut 0 Done"])?;
    play.beat(Stop, &[])
}

#[test]
fn local_redirects_end(rt: HostRuntime) -> Result<(), Fail> {
    let mut play = Play::new(rt.alloc());
    redirects(&mut play)?;
    plays(&rt, "once", "site", "eleven scripts", play)
}
