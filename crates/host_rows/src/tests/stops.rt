// Stop at each place of a first exchange, of one with a local redirect and of a WebSocket's talk, and each act of the
// first that finds no room: whole traces.
use super::drive::Heard::Stop;
use super::play::{Play, has_rows, plays};
use super::script::{beats_named, cut, named_rows, size_of};
use host_base::NoMemory;
use std::alloc::Global;
use std::process::Abort;
use std::test::Fail;
use std::thread::Threads;

// After so many of the beats it ends so.
const IN_FIRST: &str = r"
// What would come after Stop is not heard.
== 0
Stop
// Nobody has begun a request.
== 1
Stop
    Shut 0 Stopped
// A request is begun.
== 1
Client 0 GET /cgi
    WantClient 0
Stop
    Shut 0 Stopped
// The Start is open: the child is killed as soon as it runs, and its output is given up.
== 2
+ OPEN_START
// .. and it could not be started.
== 2
Stop
    Shut 0 Stopped
StartFailed 0
// The child runs: it is killed, and what it still puts out is dropped.
== 3
+ RUNNING
== 3
Stop
    Kill 0
    Shut 0 Stopped
Output 0 $OUTPUT
Exited 0
    Release 0
== 3
Stop
    Kill 0
    Shut 0 Stopped
OutputEof 0
Exited 0
== 4
+ RUNNING
// The reply is written, and the child lingers.
== 5
Stop
    Kill 0
Exited 0
// All is over.
== 6
Stop
// The child has exited before its output ended: nobody is killed, and the output is given up.
== 3
Exited 0
Stop
    Release 0
    Shut 0 Stopped
== 4
Exited 0
Stop
    Release 0
    Shut 0 Stopped
// .. or after it, before Stop.
== 3
Exited 0
Output 0 $OUTPUT
    WantChild 0
OutputEof 0
    $WRITE_REPLY
    Shut 0 Done
Stop
";

const IN_REDIRECTED: &str = r"
== 0
Stop
== 1
Stop
    Shut 0 Stopped
== 2
+ OPEN_START
== 3
+ RUNNING
== 4
+ RUNNING
// The redirect is known, and its child lingers.
== 5
Stop
    Kill 0
    Shut 0 Stopped
Exited 0
// The second Start is open.
== 6
Stop
    Shut 0 Stopped
Started 1
    EndInput 1
    Kill 1
Exited 1
    Release 1
== 7
Stop
    Kill 1
    Shut 0 Stopped
Exited 1
    Release 1
== 8
Stop
    Kill 1
    Shut 0 Stopped
Exited 1
    Release 1
== 9
Stop
    Kill 1
Exited 1
== 10
Stop
";

const IN_TALK: &str = r"
== 0
Stop
== 1
Stop
    Shut 0 Stopped
== 2
+ OPEN_START
== 2
Stop
    Shut 0 Stopped
StartFailed 0
// Whatever was fed and taken, and wherever a line is cut.
== 3
+ TALKING
== 4
+ TALKING
== 5
+ TALKING
== 6
+ TALKING
== 7
+ TALKING
== 8
+ TALKING
== 9
+ TALKING
== 10
+ TALKING
// What is taken or printed behind it brings nothing.
== 4
Stop
    EndInput 0
    Kill 0
    Shut 0 Stopped
Took 0 2
Exited 0
    Release 0
== 10
Stop
    EndInput 0
    Kill 0
    Shut 0 Stopped
Output 0 z\n
Exited 0
    Release 0
== 10
Stop
    EndInput 0
    Kill 0
    Shut 0 Stopped
OutputEof 0
Exited 0
// The program has exited with its output open.
== 9
Exited 0
Stop
    EndInput 0
    Release 0
    Shut 0 Stopped
// The talk is over, and its program lingers.
== 11
Stop
    Kill 0
Exited 0
== 12
Stop
";

// A front of the beats of this name, and the end, which begins with how many they are.
fn cut_off(play: &mut Play, beats: &str, table: &str, end: &str) -> Result<(), NoMemory> {
    let (count, lines) = cut(end, "\n");
    play.front("", beats_named(beats), size_of(count))?;
    play.script(table, lines)
}

fn has_end<R: Threads + Abort + Sync>(
    rt: &R,
    alloc: Global,
    beats: &str,
    ends: &str,
    end: &str,
) -> Result<(), Fail> {
    let mut play = Play::new(alloc);
    cut_off(&mut play, beats, ends, end)?;
    plays(rt, "once", "site", beats, play)
}

// Each of so many is the end of a front of the beats.
fn has_ends<R: Threads + Abort + Sync>(
    rt: &R,
    alloc: Global,
    beats: &str,
    ends: &str,
    count: usize,
) -> Result<(), Fail> {
    let rows = named_rows(alloc, ends)?;
    for end in rows.as_slice() {
        has_end(rt, alloc, beats, ends, *end)?;
    }
    assert_eq!(rt; rows.len(), count);
    Ok(())
}

#[test]
fn stop_at_each_place(rt: HostRuntime) -> Result<(), Fail> {
    has_ends(&rt, rt.alloc(), "FIRST", IN_FIRST, 14)?;
    has_ends(&rt, rt.alloc(), "REDIRECTED", IN_REDIRECTED, 11)?;
    has_ends(&rt, rt.alloc(), "TALK", IN_TALK, 18)
}

const REFUSALS: &str = r"
NO_PATH = GET /none HTTP/1.1\r\nHost: a\r\nConnection: close\r\n\r\n
== its Start
Accepted
    WantClient 0
Client 0 $REQUEST
    no room
    Shut 0 NoMemory
Stop
== its Start, after a second piece
Accepted
    WantClient 0
Client 0 GET /cgi
    WantClient 0
Client 0 -bin/hello HTTP/1.1\r\nHost: a\r\nConnection: close\r\n\r\n
    no room
    Shut 0 NoMemory
Stop
== its Write, of a child that lingers
+ BEGUN
Output 0 $OUTPUT
    WantChild 0
OutputEof 0
    no room
    Kill 0
    Shut 0 NoMemory
Exited 0
Stop
== its Write, of a child that lingers until after Stop
+ BEGUN
OutputEof 0
    no room
    Kill 0
    Shut 0 NoMemory
Stop
Exited 0
== its Write, of a child that has exited
+ BEGUN
Output 0 $OUTPUT
    WantChild 0
Exited 0
OutputEof 0
    no room
    Shut 0 NoMemory
Stop
== the Write of a refusal
Accepted
    WantClient 0
Client 0 $NO_PATH
    no room
    Shut 0 NoMemory
Stop
== the Feed of a body
Accepted
    WantClient 0
Client 0 POST /cgi-bin/form HTTP/1.1\r\nHost: a\r\nConnection: close\r\nContent-Length: 3\r\n\r\nx=1
    Start 0 (0, 0, 0) /srv/cgi/form
Started 0
    no room
    EndInput 0
    Kill 0
    Shut 0 NoMemory
Exited 0
    Release 0
Stop
";

#[test]
fn each_act_that_finds_no_room(rt: HostRuntime) -> Result<(), Fail> {
    has_rows(&rt, rt.alloc(), "once", "site", REFUSALS, 7)
}

// Acts that carry nothing are done, whatever is to be refused.
fn refusing(play: &mut Play) -> Result<(), NoMemory> {
    play.beats("FIRST")?;
    play.beat(Stop, &[])?;
    for number in [0, 2, 3, 4, 6] {
        play.refuse(number)?;
    }
    Ok(())
}

#[test]
fn acts_that_need_no_room(rt: HostRuntime) -> Result<(), Fail> {
    let mut play = Play::new(rt.alloc());
    refusing(&mut play)?;
    plays(&rt, "once", "site", "acts that carry nothing", play)
}
