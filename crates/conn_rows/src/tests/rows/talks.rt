// A handshake, and what is said over the WebSocket then (RFC 6455 4.2.2).
ghost use Rattle.host_base.specs.SiteRules.{IsServed};

use super::super::Mode;
use super::super::script::first_line;
use super::{record, rows_go};
use host_base::Site;
use site_file::read_site;
use std::alloc::Global;
use std::test::Fail;

const ROWS: &str = r"
NO_ORIGIN = Write HTTP/1.1 403 Forbidden\r\nContent-Type: text/plain\r\nContent-Length: 15\r\n\r\norigin refused\n
SWITCHED = Write HTTP/1.1 101 Switching Protocols\r\nUpgrade: websocket\r\nConnection: Upgrade\r\nSec-WebSocket-Accept: s3pPLMBiTxaQ9kYGzzhZRbK+xOo=\r\n\r\n
HANDSHAKE = GET /ws HTTP/1.1\r\nHost: a\r\nUpgrade: websocket\r\nConnection: keep-alive, Upgrade\r\nSec-WebSocket-Key: dGhlIHNhbXBsZSBub25jZQ==\r\nSec-WebSocket-Version: 13\r\n\r\n
== texts and lines, up to the end of the output
Accept
    WantClient
Client 0 $HANDSHAKE
    $SWITCHED
    Upgrade <>
    Start 0 0 0 /srv/cgi/lines
Started 0
    WantChild 0
    WantClient
Message 0 a
    Feed 0 2
Took 0 2
    WantClient
Message 0
    Feed 0 1
Took 0 1
    WantClient
Message 0 b\nc
    Feed 0 4
Took 0 4
    WantClient
Out 0 x\r\n\ny
    Says <x> <>
    WantChild 0
OutEnd 0
    Says <y>
    CloseWs 1000
    EndInput 0
    Shut Done
Exited 0
Ticks 30
== the output ends and the program doesn't
Accept
    WantClient
Client 0 $HANDSHAKE
    $SWITCHED
    Upgrade <>
    Start 0 0 0 /srv/cgi/lines
Started 0
    WantChild 0
    WantClient
OutEnd 0
    CloseWs 1000
    EndInput 0
    Shut Done
Ticks 19
Ticks 1
    Kill 0
Exited 0
== a binary message
Accept
    WantClient
Client 0 $HANDSHAKE
    $SWITCHED
    Upgrade <>
    Start 0 0 0 /srv/cgi/lines
Started 0
    WantChild 0
    WantClient
Binary
    CloseWs 1003
    EndInput 0
    Kill 0
    Shut Done
Exited 0
    Release 0
== a text as long as may be, and one longer
Accept
    WantClient
Client 0 $HANDSHAKE
    $SWITCHED
    Upgrade <>
    Start 0 0 0 /srv/cgi/lines
Started 0
    WantChild 0
    WantClient
MessageFill 0 65536
    Feed 0 65537
Took 0 65537
    WantClient
MessageFill 0 65537
    CloseWs 1009
    EndInput 0
    Kill 0
    Shut Done
Exited 0
    Release 0
== a line that is too long, in one piece
Accept
    WantClient
Client 0 $HANDSHAKE
    $SWITCHED
    Upgrade <>
    Start 0 0 0 /srv/cgi/lines
Started 0
    WantChild 0
    WantClient
OutFill 0 65537
    CloseWs 1011
    EndInput 0
    Kill 0
    Shut Done
Exited 0
    Release 0
== a line that is too long, behind one that isn't
Accept
    WantClient
Client 0 $HANDSHAKE
    $SWITCHED
    Upgrade <>
    Start 0 0 0 /srv/cgi/lines
Started 0
    WantChild 0
    WantClient
OutFill 0 65537 x\n
    Says <x>
    CloseWs 1011
    EndInput 0
    Kill 0
    Shut Done
Exited 0
    Release 0
== a line that grows too long
Accept
    WantClient
Client 0 $HANDSHAKE
    $SWITCHED
    Upgrade <>
    Start 0 0 0 /srv/cgi/lines
Started 0
    WantChild 0
    WantClient
OutFill 0 65536
    WantChild 0
Out 0 a
    CloseWs 1011
    EndInput 0
    Kill 0
    Shut Done
Exited 0
    Release 0
== reading the output failed
Accept
    WantClient
Client 0 $HANDSHAKE
    $SWITCHED
    Upgrade <>
    Start 0 0 0 /srv/cgi/lines
Started 0
    WantChild 0
    WantClient
OutBroken 0
    CloseWs 1011
    EndInput 0
    Kill 0
    Shut Done
Exited 0
== the program could not be started
Accept
    WantClient
Client 0 $HANDSHAKE
    $SWITCHED
    Upgrade <>
    Start 0 0 0 /srv/cgi/lines
StartFailed 0
    CloseWs 1011
    Shut Done
== too many children run
Accept
    WantClient
Client 0 $HANDSHAKE
    $SWITCHED
    Upgrade <>
    Start 0 0 0 /srv/cgi/lines
StartFull 0 64
    CloseWs 1011
    Shut Done
== the client closes, and output after it is dropped
Accept
    WantClient
Client 0 $HANDSHAKE
    $SWITCHED
    Upgrade <>
    Start 0 0 0 /srv/cgi/lines
Started 0
    WantChild 0
    WantClient
Out 0 x\ny
    Says <x>
    WantChild 0
Closed
    EndInput 0
    Shut Done
Out 0 z\n
    WantChild 0
Ticks 19
Ticks 1
    Kill 0
Exited 0
    Release 0
== the client closes, and the program exits with its output open
Accept
    WantClient
Client 0 $HANDSHAKE
    $SWITCHED
    Upgrade <>
    Start 0 0 0 /srv/cgi/lines
Started 0
    WantChild 0
    WantClient
Closed
    EndInput 0
    Shut Done
Exited 0
Ticks 19
Ticks 1
    Release 0
== the client is gone
Accept
    WantClient
Client 0 $HANDSHAKE
    $SWITCHED
    Upgrade <>
    Start 0 0 0 /srv/cgi/lines
Started 0
    WantChild 0
    WantClient
Message 0 a
    Feed 0 2
Gone
    EndInput 0
    Kill 0
    Shut Gone
Exited 0
    Release 0
== a frame is refused
Accept
    WantClient
Client 0 $HANDSHAKE
    $SWITCHED
    Upgrade <>
    Start 0 0 0 /srv/cgi/lines
Started 0
    WantChild 0
    WantClient
Refused
    EndInput 0
    Kill 0
    Shut Gone
Exited 0
    Release 0
== the server stops within a line
Accept
    WantClient
Client 0 $HANDSHAKE
    $SWITCHED
    Upgrade <>
    Start 0 0 0 /srv/cgi/lines
Started 0
    WantChild 0
    WantClient
Out 0 x\ny
    Says <x>
    WantChild 0
Stop
    EndInput 0
    Kill 0
    Shut Stopped
Exited 0
    Release 0
== a script that allows an origin is asked with none, and then with its own
Accept
    WantClient
Client 0 GET /shop HTTP/1.1\r\nHost: a\r\nUpgrade: websocket\r\nConnection: keep-alive, Upgrade\r\nSec-WebSocket-Key: dGhlIHNhbXBsZSBub25jZQ==\r\nSec-WebSocket-Version: 13\r\n\r\n
    $NO_ORIGIN
    WantClient
Client 0 GET /shop HTTP/1.1\r\nHost: a\r\nUpgrade: websocket\r\nConnection: keep-alive, Upgrade\r\nSec-WebSocket-Key: dGhlIHNhbXBsZSBub25jZQ==\r\nSec-WebSocket-Version: 13\r\nOrigin: http://example.com\r\n\r\n
    $SWITCHED
    Upgrade <>
    Start 0 1 0 /srv/cgi/shop
Started 0
    WantChild 0
    WantClient
Out 0 x\n
    Says <x>
    WantChild 0
== a handshake behind a request that runs a script
Accept
    WantClient
Client 0 GET /cgi-bin/hello HTTP/1.1\r\nHost: a\r\n\r\n
    Start 0 0 0 /srv/cgi/hello
Started 0
    EndInput 0
    WantChild 0
Out 0 Content-Type: text/plain\n\nx\n
    WantChild 0
OutEnd 0
    Write HTTP/1.1 200 OK\r\nContent-Type: text/plain\r\nContent-Length: 2\r\n\r\nx\n
Exited 0
    WantClient
Client 0 $HANDSHAKE
    $SWITCHED
    Upgrade <>
    Start 1 1 0 /srv/cgi/lines
Started 1
    WantChild 1
    WantClient
Closed
    EndInput 1
    Shut Done
";

// These depend on how the client's bytes were cut, or on what memory ran out for.
const OTHERS: &str = r"
SWITCHED = Write HTTP/1.1 101 Switching Protocols\r\nUpgrade: websocket\r\nConnection: Upgrade\r\nSec-WebSocket-Accept: s3pPLMBiTxaQ9kYGzzhZRbK+xOo=\r\n\r\n
NO_ORIGIN = Write HTTP/1.1 403 Forbidden\r\nContent-Type: text/plain\r\nContent-Length: 15\r\n\r\norigin refused\n
HANDSHAKE = GET /ws HTTP/1.1\r\nHost: a\r\nUpgrade: websocket\r\nConnection: keep-alive, Upgrade\r\nSec-WebSocket-Key: dGhlIHNhbXBsZSBub25jZQ==\r\nSec-WebSocket-Version: 13\r\n\r\n
== bytes behind the handshake
Accept
    WantClient
Client 0 GET /ws HTTP/1.1\r\nHost: a\r\nUpgrade: websocket\r\nConnection: keep-alive, Upgrade\r\nSec-WebSocket-Key: dGhlIHNhbXBsZSBub25jZQ==\r\nSec-WebSocket-Version: 13\r\n\r\nxyz
    $SWITCHED
    Upgrade <xyz>
    Start 0 0 0 /srv/cgi/lines
Started 0
    WantChild 0
    WantClient
== there is no memory to hear the client
Accept
    WantClient
Client 0 $HANDSHAKE
    $SWITCHED
    Upgrade <>
    Start 0 0 0 /srv/cgi/lines
Started 0
    WantChild 0
    WantClient
NoRoom
    EndInput 0
    Kill 0
    Shut NoMemory
Exited 0
    Release 0
== another origin is refused
Accept
    WantClient
Client 0 GET /shop HTTP/1.1\r\nHost: a\r\nUpgrade: websocket\r\nConnection: keep-alive, Upgrade\r\nSec-WebSocket-Key: dGhlIHNhbXBsZSBub25jZQ==\r\nSec-WebSocket-Version: 13\r\nOrigin: http://example.org\r\n\r\n
    $NO_ORIGIN
    WantClient
== the server stops before the program runs
Accept
    WantClient
Client 0 $HANDSHAKE
    $SWITCHED
    Upgrade <>
    Start 0 0 0 /srv/cgi/lines
Stop
    Shut Stopped
Started 0
    EndInput 0
    Kill 0
Exited 0
    Release 0
";

pub fn rows() -> &'static str {
    ROWS
}

#[test]
fn a_handshake_leads_to_a_talk(rt: HostRuntime) -> Result<(), Fail> {
    rows_go(&rt, rt.alloc(), rows(), Mode::Whole, 17)
}

#[test]
fn talks_that_depend_on_a_cut_or_on_memory(rt: HostRuntime) -> Result<(), Fail> {
    rows_go(&rt, rt.alloc(), OTHERS, Mode::Whole, 4)
}

const SHORT_LINES: &str = "version = 1
[limits]
ws_text = 4

[[script]]
path = \"/ws\"
program = \"/srv/cgi/lines\"
kind = \"websocket\"
";

// The second line has one byte too many.
const TOO_LONG: &str = r"
HANDSHAKE = GET /ws HTTP/1.1\r\nHost: a\r\nUpgrade: websocket\r\nConnection: keep-alive, Upgrade\r\nSec-WebSocket-Key: dGhlIHNhbXBsZSBub25jZQ==\r\nSec-WebSocket-Version: 13\r\n\r\n
SWITCHED = Write HTTP/1.1 101 Switching Protocols\r\nUpgrade: websocket\r\nConnection: Upgrade\r\nSec-WebSocket-Accept: s3pPLMBiTxaQ9kYGzzhZRbK+xOo=\r\n\r\n
== a line that is too long
Accept
    WantClient
Client 0 $HANDSHAKE
    $SWITCHED
    Upgrade <>
    Start 0 0 0 /srv/cgi/lines
Started 0
    WantChild 0
    WantClient
Out 0 abcd\nabcde
";

const TALK_END: &str = "CloseWs 1011\nEndInput 0\nKill 0\nShut Done\n--\n";

// The beats of the one row of a table.
fn only_row(table: &str) -> &str {
    let (_, row) = table.split_once("\n== ").unwrap_or(("", ""));
    let (_, beats) = first_line(row);
    beats
}

// Whether the first line is said, and the talk ended by the second one.
fn ends_at_the_line(alloc: Global, site: &Site, single: bool) -> bool
    requires { IsServed site.now }
{
    let out = record(alloc, site, TOO_LONG, only_row(TOO_LONG), single, None);
    out.told.said.has(b"abcd\n") && out.told.log.ends_with(TALK_END) && !out.told.is_lost()
}

// .. in one piece and in single bytes.
fn ends_at_the_site(alloc: Global) -> bool {
    match read_site(alloc, SHORT_LINES.as_bytes()) {
        Ok(site) => ends_at_the_line(alloc, &site, false) && ends_at_the_line(alloc, &site, true),
        Err(_) => false,
    }
}

#[test]
fn a_line_that_is_too_long_ends_a_talk(rt: HostRuntime) -> Result<(), Fail> {
    assert!(rt; ends_at_the_site(rt.alloc()));
    Ok(())
}
