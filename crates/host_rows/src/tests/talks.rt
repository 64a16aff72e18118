// The talk of a WebSocket on one connection, act for act: a line is a message, and a message a line. Lines in pieces,
// lines and texts at a limit of four bytes, acts that find no room, and a long talk.
use super::drive::Heard::{Accepted, Client, Output, Started};
use super::play::{Play, has_rows, plays};
use super::script::halves;
use host_base::NoMemory;
use std::test::Fail;

// The sample handshake of RFC 6455 1.3.
pub const HANDSHAKE: &[u8] =
    b"GET /ws HTTP/1.1\r\nHost: a\r\nUpgrade: websocket\r\nConnection: keep-alive, Upgrade\r\nSec-WebSocket-Key: dGhlIHNhbXBsZSBub25jZQ==\r\nSec-WebSocket-Version: 13\r\n\r\n";

pub const SWITCHED: &str =
    "Write 0: HTTP/1.1 101 Switching Protocols\r\nUpgrade: websocket\r\nConnection: Upgrade\r\nSec-WebSocket-Accept: s3pPLMBiTxaQ9kYGzzhZRbK+xOo=\r\n\r\n";

pub const UPGRADED: &str = "Upgrade 0: ";

pub const START_LINES: &str = "Start 0 (0, 0, 0) /srv/cgi/lines";

// ---- lines in pieces

const LINES: &str = r"
== cut in its first line
+ OPENED
Output 0 x
    WantChild 0
Output 0 \r\n\ny
    Says 0: x; ;\x20
    WantChild 0
+ LAST_LINE
== cut in a line's end
+ OPENED
Output 0 x\r
    WantChild 0
Output 0 \n\ny
    Says 0: x; ;\x20
    WantChild 0
+ LAST_LINE
== cut behind a line
+ OPENED
Output 0 x\r\n
    Says 0: x;\x20
    WantChild 0
Output 0 \ny
    Says 0: ;\x20
    WantChild 0
+ LAST_LINE
== cut behind the second line
+ OPENED
Output 0 x\r\n\n
    Says 0: x; ;\x20
    WantChild 0
Output 0 y
    WantChild 0
+ LAST_LINE
== bytes that are no UTF-8, and a CR at the end of the output
+ OPENED
Output 0 \xff\n
    Says 0: \xef\xbf\xbd;\x20
    WantChild 0
Output 0 y\r
    WantChild 0
+ LAST_LINE
";

#[test]
fn lines_in_pieces(rt: HostRuntime) -> Result<(), Fail> {
    has_rows(&rt, rt.alloc(), "once", "site", LINES, 5)
}

// ---- lines and texts of four bytes at most

const SHORT: &str = r"
== lines of four bytes and one of five, in one piece
+ OPENED
Output 0 abcd\nabc\r\nabcde\nx\n
    Says 0: abcd; abc;\x20
    CloseWs 0: 1011
    EndInput 0
    Kill 0
    Shut 0 Done
+ KILLED
== lines of four bytes and one of five, in single bytes
+ OPENED
+ ABCD
Output 0 \n
    Says 0: abcd;\x20
    WantChild 0
+ ABCD
Output 0 e
    CloseWs 0: 1011
    EndInput 0
    Kill 0
    Shut 0 Done
+ KILLED
== four bytes and a CR
+ OPENED
+ ABCD
Output 0 \r
    CloseWs 0: 1011
    EndInput 0
    Kill 0
    Shut 0 Done
+ KILLED
== a last line of four bytes
+ OPENED
+ ABCD
OutputEof 0
    Says 0: abcd;\x20
    CloseWs 0: 1000
    EndInput 0
    Shut 0 Done
+ SETTLED
== a text of four bytes, and one of five
+ OPENED
WsText 0 abcd
    Feed 0: abcd\n
Took 0 5
    WantClient 0
WsText 0 abcde
    CloseWs 0: 1009
    EndInput 0
    Kill 0
    Shut 0 Done
+ KILLED
";

#[test]
fn short_lines_and_texts(rt: HostRuntime) -> Result<(), Fail> {
    has_rows(&rt, rt.alloc(), "once", "short", SHORT, 5)
}

// ---- acts that find no room

const REFUSALS: &str = r"
== the accept text
Accepted
    WantClient 0
Client 0 $HANDSHAKE
    no room
    Shut 0 NoMemory
Stop
== the Upgrade
Accepted
    WantClient 0
Client 0 $HANDSHAKE
    $SWITCHED
    no room
    Shut 0 NoMemory
Stop
== the Start
Accepted
    WantClient 0
Client 0 $HANDSHAKE
    $SWITCHED
    $UPGRADED
    no room
    Shut 0 NoMemory
Stop
== a text
+ OPENED
WsText 0 a
    no room
    EndInput 0
    Kill 0
    Shut 0 NoMemory
+ KILLED
== a line
+ OPENED
Output 0 x\r\n\ny
    no room
    EndInput 0
    Kill 0
    Shut 0 NoMemory
+ KILLED
== the last line
+ OPENED
Output 0 x\r\n\ny
    Says 0: x; ;\x20
    WantChild 0
OutputEof 0
    no room
    EndInput 0
    Kill 0
    Shut 0 NoMemory
+ SETTLED
";

#[test]
fn acts_of_a_talk_that_find_no_room(rt: HostRuntime) -> Result<(), Fail> {
    has_rows(&rt, rt.alloc(), "once", "site", REFUSALS, 6)
}

// ---- a long talk

// A handshake in single bytes, and more output than a script may print that speaks no WebSocket.
fn talk_long(play: &mut Play) -> Result<(), NoMemory> {
    let (front, last) = halves(HANDSHAKE, HANDSHAKE.len() - 1);
    play.beat(Accepted, &["WantClient 0"])?;
    play.client_singly(0, front)?;
    play.beat(Client(0, last), &[SWITCHED, UPGRADED, START_LINES])?;
    play.beat(Started(0), &["WantChild 0", "WantClient 0"])?;
    for _ in 0..2_049u32 {
        play.beat(Output(0, b"abc\n"), &["Says 0: abc; ", "WantChild 0"])?;
    }
    play.beat(Output(0, b"y"), &["WantChild 0"])?;
    play.beats("LAST_LINE")
}

#[test]
fn a_long_talk(rt: HostRuntime) -> Result<(), Fail> {
    let mut play = Play::new(rt.alloc());
    talk_long(&mut play)?;
    plays(&rt, "once", "short", "a long talk", play)
}
