// How a talk of a WebSocket ends (RFC 6455 7), act for act.
use super::play::has_rows;
use std::test::Fail;

// ---- what the program does

const OF_PROGRAM: &str = r"
== the output ends within a line
+ TALK
== the output ends behind a line, and the program doesn't
+ OPENED
Output 0 x\n
    Says 0: x;\x20
    WantChild 0
OutputEof 0
    CloseWs 0: 1000
    EndInput 0
    Shut 0 Done
Ticks 19
Ticks 1
    Kill 0
Exited 0
Stop
== the program exits before its output ends
+ OPENED
WsText 0 a
    Feed 0: a\n
Exited 0
    WantClient 0
WsText 0 b
    WantClient 0
Output 0 x\n
    Says 0: x;\x20
    WantChild 0
OutputEof 0
    CloseWs 0: 1000
    EndInput 0
    Shut 0 Done
Stop
== the program reads no more
+ OPENED
WsText 0 a
    Feed 0: a\n
InputGone 0
    WantClient 0
WsText 0 b
    WantClient 0
Output 0 x\n
    Says 0: x;\x20
    WantChild 0
OutputEof 0
    CloseWs 0: 1000
    Shut 0 Done
Exited 0
Stop
== a line that grows too long
+ OPENED
OutputFill 0 65536
    WantChild 0
Output 0 x
    CloseWs 0: 1011
    EndInput 0
    Kill 0
    Shut 0 Done
+ KILLED
== the output breaks
+ OPENED
Output 0 x\ny
    Says 0: x;\x20
    WantChild 0
Broken 0
    CloseWs 0: 1011
    EndInput 0
    Kill 0
    Shut 0 Done
+ SETTLED
== time ends none, and a text is taken in pieces
+ OPENED
Ticks 400
WsText 0 b\nc
    Feed 0: b\nc\n
Took 0 1
Took 0 3
    WantClient 0
Output 0 y
    WantChild 0
+ LAST_LINE
";

#[test]
fn the_program_ends_a_talk(rt: HostRuntime) -> Result<(), Fail> {
    has_rows(&rt, rt.alloc(), "once", "site", OF_PROGRAM, 7)
}

// ---- what the client does

const OF_CLIENT: &str = r"
== a binary message
+ OPENED
WsBinary 0
    CloseWs 0: 1003
    EndInput 0
    Kill 0
    Shut 0 Done
+ KILLED
== a binary message, for a program that has exited
+ OPENED
Exited 0
WsBinary 0
    CloseWs 0: 1003
    EndInput 0
    Release 0
    Shut 0 Done
Stop
== a text as long as may be, and one longer
+ OPENED
WsFill 0 65536
    Feed 0: [65536 times x]\n
Took 0 65537
    WantClient 0
WsFill 0 65537
    CloseWs 0: 1009
    EndInput 0
    Kill 0
    Shut 0 Done
+ KILLED
== the client closes, and what is printed behind that is dropped
+ OPENED
Output 0 x\ny
    Says 0: x;\x20
    WantChild 0
WsClosed 0
    EndInput 0
    Shut 0 Done
Output 0 z\n
    WantChild 0
Ticks 19
Ticks 1
    Kill 0
+ KILLED
== the client closes, and the program exits with its output open
+ OPENED
WsClosed 0
    EndInput 0
    Shut 0 Done
Exited 0
Ticks 19
Ticks 1
    Release 0
Stop
== the client closes, and later the output ends
+ OPENED
WsClosed 0
    EndInput 0
    Shut 0 Done
Ticks 10
OutputEof 0
Ticks 19
Ticks 1
    Kill 0
Exited 0
Stop
";

#[test]
fn the_client_ends_a_talk(rt: HostRuntime) -> Result<(), Fail> {
    has_rows(&rt, rt.alloc(), "once", "site", OF_CLIENT, 6)
}

// ---- what the connection does

const OF_CONNECTION: &str = r"
== the client is gone
+ OPENED
WsText 0 a
    Feed 0: a\n
Gone 0
    EndInput 0
    Kill 0
    Shut 0 Gone
+ KILLED
== a frame is refused
+ OPENED
WsBad 0
    EndInput 0
    Kill 0
    Shut 0 Gone
+ KILLED
== there is no memory to hear the client
+ OPENED
Output 0 x\ny
    Says 0: x;\x20
    WantChild 0
NoRoom 0
    EndInput 0
    Kill 0
    Shut 0 NoMemory
+ KILLED
// Of what is said 262,144 bytes may wait to be sent; what was written before is not among them.
== messages that wait to be sent
+ OPENED
+ LONG_LINE
+ LONG_LINE
+ LONG_LINE
+ LONG_LINE
+ HELD_LINE
WsText 0 a
    Feed 0: a\n
Took 0 2
Wrote 0 65530
Wrote 0 1
    WantChild 0
    WantClient 0
Output 0 y
    WantChild 0
+ LAST_LINE
== the client closes while messages wait to be sent
+ OPENED
+ LONG_LINE
+ LONG_LINE
+ LONG_LINE
+ LONG_LINE
+ HELD_LINE
WsClosed 0
    EndInput 0
    WantChild 0
    Shut 0 Done
Output 0 z\n
    WantChild 0
OutputEof 0
+ SETTLED
";

#[test]
fn the_connection_ends_a_talk(rt: HostRuntime) -> Result<(), Fail> {
    has_rows(&rt, rt.alloc(), "once", "site", OF_CONNECTION, 5)
}
