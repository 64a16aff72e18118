// Connections beside one another, act for act: each goes on as by itself.
use super::drive::Heard::{Accepted, ClientEof, Stop};
use super::lines::shut_line;
use super::play::{Play, has_rows, plays};
use host_base::NoMemory;
use std::test::Fail;

const ONE_CHILD: &str = r"
START_1 = Start 1 (1, 0, 0) /srv/cgi/hello
FULL = Write 1: HTTP/1.1 503 Service Unavailable\r\nContent-Type: text/plain\r\nContent-Length: 20\r\nConnection: close\r\n\r\nchildren running: 1\n
REPLY_2 = Write 2: HTTP/1.1 200 OK\r\nContent-Type: text/plain\r\nContent-Length: 3\r\nConnection: close\r\n\r\nhi\n
== as many children run as may
Accepted
    WantClient 0
Accepted
    WantClient 1
Client 0 $REQUEST
    $START
Started 0
    EndInput 0
    WantChild 0
Client 1 $REQUEST
    $START_1
StartFull 1 1
    $FULL
    Shut 1 Done
Exited 0
Accepted
    WantClient 2
Client 2 $REQUEST
    Start 2 (2, 0, 0) /srv/cgi/hello
Started 2
    EndInput 2
    WantChild 2
Output 2 $OUTPUT
    WantChild 2
OutputEof 2
    $REPLY_2
    Shut 2 Done
Exited 2
Output 0 $OUTPUT
    WantChild 0
OutputEof 0
    $WRITE_REPLY
    Shut 0 Done
Stop
";

const ONE_CONNECTION: &str = r"
== a slot is held until the connection is shut and its child is settled
Accepted
    WantClient 0
Accepted
    Shut 1 Full
Client 0 $REQUEST
    $START
Started 0
    EndInput 0
    WantChild 0
Output 0 $OUTPUT
    WantChild 0
OutputEof 0
    $WRITE_REPLY
    Shut 0 Done
Accepted
    Shut 2 Full
Exited 0
Accepted
    WantClient 3
ClientEof 3
    Shut 3 Done
Accepted
    WantClient 4
Stop
    Shut 4 Stopped
";

const BESIDE: &str = r"
START_1 = Start 1 (1, 0, 0) /srv/cgi/hello
REPLY_1 = Write 1: HTTP/1.1 200 OK\r\nContent-Type: text/plain\r\nContent-Length: 3\r\nConnection: close\r\n\r\nhi\n
NOT_STARTED = Write 1: HTTP/1.1 502 Bad Gateway\r\nContent-Type: text/plain\r\nContent-Length: 28\r\nConnection: close\r\n\r\nscript could not be started\n
== a child that never answers, and Stop
Accepted
    WantClient 0
Accepted
    WantClient 1
Client 0 $REQUEST
    $START
Started 0
    EndInput 0
    WantChild 0
Client 1 $REQUEST
    $START_1
Started 1
    EndInput 1
    WantChild 1
Output 1 $OUTPUT
    WantChild 1
OutputEof 1
    $REPLY_1
    Shut 1 Done
Exited 1
Stop
    Kill 0
    Shut 0 Stopped
Exited 0
    Release 0
== a child that could not be started
Accepted
    WantClient 0
Accepted
    WantClient 1
Client 0 $REQUEST
    $START
Client 1 $REQUEST
    $START_1
StartFailed 1
    $NOT_STARTED
    Shut 1 Done
Started 0
    EndInput 0
    WantChild 0
Output 0 $OUTPUT
    WantChild 0
OutputEof 0
    $WRITE_REPLY
    Shut 0 Done
Exited 0
Stop
== requests and outputs in turn
Accepted
    WantClient 0
Client 0 GET /cgi-bin/he
    WantClient 0
Accepted
    WantClient 1
Client 1 $REQUEST
    Start 0 (1, 0, 0) /srv/cgi/hello
Client 0 llo HTTP/1.1\r\nHost: a\r\nConnection: close\r\n\r\n
    Start 1 (0, 0, 0) /srv/cgi/hello
Started 1
    EndInput 1
    WantChild 1
Started 0
    EndInput 0
    WantChild 0
Output 1 Content-Type: text
    WantChild 1
Output 0 Content-Type: a\n
    WantChild 0
Output 1 /plain\n\nhi\n
    WantChild 1
Gone 1
    Kill 0
    Shut 1 Gone
Exited 0
    Release 0
OutputEof 1
    $WRITE_REPLY
    Shut 0 Done
Exited 1
Stop
== one Tick, three connections
Accepted
    WantClient 0
Client 0 $REQUEST
    $START
Started 0
    EndInput 0
    WantChild 0
Ticks 150
Accepted
    WantClient 1
Accepted
    WantClient 2
Client 2 G
    WantClient 2
Ticks 149
Ticks 1
    Write 0: HTTP/1.1 504 Gateway Timeout\r\nContent-Type: text/plain\r\nDate: Sun, 06 Nov 1994 08:49:37 GMT\r\nContent-Length: 21\r\nConnection: close\r\n\r\nscript took too long\n
    Kill 0
    Shut 0 Done
    Shut 1 Idle
    Write 2: HTTP/1.1 408 Request Timeout\r\nContent-Type: text/plain\r\nDate: Sun, 06 Nov 1994 08:49:37 GMT\r\nContent-Length: 22\r\nConnection: close\r\n\r\nrequest took too long\n
    Shut 2 Done
Exited 0
    Release 0
Stop
== Stop, for a child that lingers, a connection that waits and a child that runs
Accepted
    WantClient 0
Accepted
    WantClient 1
Accepted
    WantClient 2
Client 0 $REQUEST
    $START
Client 2 $REQUEST
    Start 1 (2, 0, 0) /srv/cgi/hello
Started 0
    EndInput 0
    WantChild 0
Started 1
    EndInput 1
    WantChild 1
Output 0 $OUTPUT
    WantChild 0
OutputEof 0
    $WRITE_REPLY
    Shut 0 Done
Stop
    Kill 0
    Shut 1 Stopped
    Kill 1
    Shut 2 Stopped
Exited 1
    Release 1
Exited 0
== a Start finds no room, and the next child has its number
Accepted
    WantClient 0
Accepted
    WantClient 1
Client 0 $REQUEST
    no room
    Shut 0 NoMemory
Client 1 $REQUEST
    Start 0 (1, 0, 0) /srv/cgi/hello
Started 0
    EndInput 0
    WantChild 0
Output 0 $OUTPUT
    WantChild 0
OutputEof 0
    $REPLY_1
    Shut 1 Done
Exited 0
Stop
== a Write finds no room
Accepted
    WantClient 0
Accepted
    WantClient 1
Client 0 $REQUEST
    $START
Client 1 $REQUEST
    $START_1
Started 0
    EndInput 0
    WantChild 0
Started 1
    EndInput 1
    WantChild 1
Output 0 $OUTPUT
    WantChild 0
Output 1 $OUTPUT
    WantChild 1
OutputEof 0
    no room
    Kill 0
    Shut 0 NoMemory
OutputEof 1
    $REPLY_1
    Shut 1 Done
Exited 0
Exited 1
Stop
== no memory is found to hear one of them
Accepted
    WantClient 0
Accepted
    WantClient 1
Client 0 $REQUEST
    $START
Client 1 $REQUEST
    $START_1
Started 0
    EndInput 0
    WantChild 0
Started 1
    EndInput 1
    WantChild 1
NoRoom 0
    Kill 0
    Shut 0 NoMemory
Output 1 $OUTPUT
    WantChild 1
Exited 0
    Release 0
OutputEof 1
    $REPLY_1
    Shut 1 Done
Exited 1
Stop
";

#[test]
fn limits_of_children_and_connections(rt: HostRuntime) -> Result<(), Fail> {
    has_rows(&rt, rt.alloc(), "serve", "one", ONE_CHILD, 1)?;
    has_rows(&rt, rt.alloc(), "serve", "narrow", ONE_CONNECTION, 1)
}

#[test]
fn connections_beside_one_another(rt: HostRuntime) -> Result<(), Fail> {
    has_rows(&rt, rt.alloc(), "serve", "site", BESIDE, 8)
}

// ---- as many connections as may be held

fn accept(play: &mut Play, c: u64) -> Result<(), NoMemory> {
    play.beat(Accepted, &[])?;
    play.follow_for("WantClient", c)
}

fn accept_all(play: &mut Play, count: u64) -> Result<(), NoMemory> {
    for c in 0..count {
        accept(play, c)?;
    }
    Ok(())
}

// These are shut at Stop, but not the one that is shut.
fn stop(play: &mut Play, count: u64, shut: u64) -> Result<(), NoMemory> {
    let alloc = play.alloc();
    play.beat(Stop, &[])?;
    for c in 0..count {
        if c != shut {
            let line = shut_line(alloc, c, "Stopped")?;
            play.follow(line.as_str())?;
        }
    }
    Ok(())
}

fn one_more(play: &mut Play) -> Result<(), NoMemory> {
    accept_all(play, 256)?;
    play.beat(Accepted, &["Shut 256 Full"])?;
    play.beat(ClientEof(3), &["Shut 3 Done"])?;
    accept(play, 257)?;
    play.beat(Accepted, &["Shut 258 Full"])?;
    stop(play, 256, 3)?;
    play.follow("Shut 257 Stopped")
}

#[test]
fn one_more_than_may_be_held(rt: HostRuntime) -> Result<(), Fail> {
    let mut play = Play::new(rt.alloc());
    one_more(&mut play)?;
    plays(&rt, "serve", "site", "256 held", play)
}
