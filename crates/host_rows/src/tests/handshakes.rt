// The opening handshake of a WebSocket (RFC 6455 4.2), accepted and refused, act for act.
use super::play::has_rows;
use std::test::Fail;

const HANDSHAKES: &str = r"
NO_VERSION = Write 0: HTTP/1.1 426 Upgrade Required\r\nUpgrade: websocket\r\nConnection: Upgrade\r\nSec-WebSocket-Version: 13\r\nContent-Type: text/plain\r\nContent-Length: 30\r\n\r\nwebsocket version 13 required\n
NO_HANDSHAKE = Write 0: HTTP/1.1 400 Bad Request\r\nContent-Type: text/plain\r\nContent-Length: 24\r\n\r\nbad websocket handshake\n
NO_ORIGIN = Write 0: HTTP/1.1 403 Forbidden\r\nContent-Type: text/plain\r\nContent-Length: 15\r\n\r\norigin refused\n
== a version that is not spoken, and then the one that is
Accepted
    WantClient 0
Client 0 GET /ws HTTP/1.1\r\nHost: a\r\nUpgrade: websocket\r\nConnection: keep-alive, Upgrade\r\nSec-WebSocket-Key: dGhlIHNhbXBsZSBub25jZQ==\r\nSec-WebSocket-Version: 8\r\n\r\n
    $NO_VERSION
    WantClient 0
Client 0 $HANDSHAKE
    $SWITCHED
    $UPGRADED
    Start 0 (0, 1, 0) /srv/cgi/lines
StartFailed 0
    CloseWs 0: 1011
    Shut 0 Done
Stop
== the same request for a script that speaks no WebSocket
Accepted
    WantClient 0
Client 0 GET /cgi-bin/hello HTTP/1.1\r\nHost: a\r\nUpgrade: websocket\r\nConnection: keep-alive, Upgrade\r\nSec-WebSocket-Key: dGhlIHNhbXBsZSBub25jZQ==\r\nSec-WebSocket-Version: 13\r\n\r\n
    $START
Started 0
    EndInput 0
    WantChild 0
Output 0 $OUTPUT
    WantChild 0
OutputEof 0
    $WRITE_OPEN
Exited 0
    WantClient 0
Stop
    Shut 0 Stopped
== a plain request for a script that speaks WebSocket
Accepted
    WantClient 0
Client 0 GET /ws HTTP/1.1\r\nHost: a\r\n\r\n
    $NO_VERSION
    WantClient 0
Stop
    Shut 0 Stopped
== a key of other than 16 bytes
Accepted
    WantClient 0
Client 0 GET /ws HTTP/1.1\r\nHost: a\r\nUpgrade: websocket\r\nConnection: Upgrade\r\nSec-WebSocket-Key: YQ==\r\nSec-WebSocket-Version: 13\r\n\r\n
    $NO_HANDSHAKE
    WantClient 0
Stop
    Shut 0 Stopped
== no origin, another and its own, of a script that has one
Accepted
    WantClient 0
Client 0 GET /shop HTTP/1.1\r\nHost: a\r\nUpgrade: websocket\r\nConnection: keep-alive, Upgrade\r\nSec-WebSocket-Key: dGhlIHNhbXBsZSBub25jZQ==\r\nSec-WebSocket-Version: 13\r\n\r\n
    $NO_ORIGIN
    WantClient 0
Client 0 GET /shop HTTP/1.1\r\nHost: a\r\nUpgrade: websocket\r\nConnection: keep-alive, Upgrade\r\nSec-WebSocket-Key: dGhlIHNhbXBsZSBub25jZQ==\r\nSec-WebSocket-Version: 13\r\nOrigin: http://example.org\r\n\r\n
    $NO_ORIGIN
    WantClient 0
Client 0 GET /shop HTTP/1.1\r\nHost: a\r\nUpgrade: websocket\r\nConnection: keep-alive, Upgrade\r\nSec-WebSocket-Key: dGhlIHNhbXBsZSBub25jZQ==\r\nSec-WebSocket-Version: 13\r\nOrigin: http://example.com\r\n\r\n
    $SWITCHED
    $UPGRADED
    Start 0 (0, 2, 0) /srv/cgi/shop
Stop
    Shut 0 Stopped
StartFailed 0
== bytes behind it
Accepted
    WantClient 0
Client 0 GET /ws HTTP/1.1\r\nHost: a\r\nUpgrade: websocket\r\nConnection: Upgrade\r\nSec-WebSocket-Key: dGhlIHNhbXBsZSBub25jZQ==\r\nSec-WebSocket-Version: 13\r\n\r\nxyz
    $SWITCHED
    Upgrade 0: xyz
    $START_LINES
Stop
    Shut 0 Stopped
StartFailed 0
== behind a request whose script runs
Accepted
    WantClient 0
Client 0 GET /cgi-bin/hello HTTP/1.1\r\nHost: a\r\n\r\nGET /ws HTTP/1.1\r\nHost: a\r\nUpgrade: websocket\r\nConnection: Upgrade\r\nSec-WebSocket-Key: dGhlIHNhbXBsZSBub25jZQ==\r\nSec-WebSocket-Version: 13\r\n\r\nxyz
    $START
Started 0
    EndInput 0
    WantChild 0
Output 0 $OUTPUT
    WantChild 0
OutputEof 0
    $WRITE_OPEN
Exited 0
    $SWITCHED
    Upgrade 0: xyz
    Start 1 (0, 1, 0) /srv/cgi/lines
Started 1
    WantChild 1
    WantClient 0
WsClosed 0
    EndInput 1
    Shut 0 Done
OutputEof 1
Exited 1
Stop
== as many children run as may
Accepted
    WantClient 0
Client 0 $HANDSHAKE
    $SWITCHED
    $UPGRADED
    $START_LINES
StartFull 0 64
    CloseWs 0: 1011
    Shut 0 Done
Stop
";

#[test]
fn handshakes(rt: HostRuntime) -> Result<(), Fail> {
    has_rows(&rt, rt.alloc(), "once", "site", HANDSHAKES, 8)
}
