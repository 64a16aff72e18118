// What stands in many rows: a request, an output and its reply, and the host's own replies.
pub const REQUEST: &[u8] = b"GET /cgi-bin/hello HTTP/1.1\r\nHost: a\r\nConnection: close\r\n\r\n";

pub const OUTPUT: &[u8] = b"Content-Type: text/plain\n\nhi\n";

pub const REPLY: &[u8] =
    b"HTTP/1.1 200 OK\r\nContent-Type: text/plain\r\nContent-Length: 3\r\nConnection: close\r\n\r\nhi\n";

pub const NO_OUTPUT: &[u8] =
    b"HTTP/1.1 502 Bad Gateway\r\nContent-Type: text/plain\r\nContent-Length: 22\r\nConnection: close\r\n\r\nscript gave no output\n";

pub const NO_SCRIPT: &[u8] =
    b"HTTP/1.1 404 Not Found\r\nContent-Type: text/plain\r\nContent-Length: 24\r\nConnection: close\r\n\r\nno script for this path\n";

// ---- acts

pub const START: &str = "Start 0 (0, 0, 0) /srv/cgi/hello";

pub const WRITE_REPLY: &str =
    "Write 0: HTTP/1.1 200 OK\r\nContent-Type: text/plain\r\nContent-Length: 3\r\nConnection: close\r\n\r\nhi\n";

/// The same reply where the connection stays open.
pub const WRITE_OPEN: &str =
    "Write 0: HTTP/1.1 200 OK\r\nContent-Type: text/plain\r\nContent-Length: 3\r\n\r\nhi\n";

/// The same reply after a Tick.
pub const WRITE_DATED: &str =
    "Write 0: HTTP/1.1 200 OK\r\nContent-Type: text/plain\r\nDate: Sun, 06 Nov 1994 08:49:37 GMT\r\nContent-Length: 3\r\nConnection: close\r\n\r\nhi\n";

/// The answer to a HEAD.
pub const WRITE_BARE: &str =
    "Write 0: HTTP/1.1 200 OK\r\nContent-Type: text/plain\r\nConnection: close\r\n\r\n";

pub const WRITE_NO_OUTPUT: &str =
    "Write 0: HTTP/1.1 502 Bad Gateway\r\nContent-Type: text/plain\r\nContent-Length: 22\r\nConnection: close\r\n\r\nscript gave no output\n";

pub const WRITE_NO_SCRIPT: &str =
    "Write 0: HTTP/1.1 404 Not Found\r\nContent-Type: text/plain\r\nContent-Length: 24\r\nConnection: close\r\n\r\nno script for this path\n";

pub const WRITE_ENDED_EARLY: &str =
    "Write 0: HTTP/1.1 400 Bad Request\r\nContent-Type: text/plain\r\nContent-Length: 20\r\nConnection: close\r\n\r\nrequest ended early\n";

pub const PARTS: &str = r"
// Beats that stand in many rows.
// The exchange of the first reply.
== FIRST
Accepted
    WantClient 0
Client 0 $REQUEST
    $START
Started 0
    EndInput 0
    WantChild 0
Output 0 $OUTPUT
    WantChild 0
OutputEof 0
    $WRITE_REPLY
    Shut 0 Done
Exited 0
// A script is started, and its output is asked for.
== BEGUN
Accepted
    WantClient 0
Client 0 $REQUEST
    $START
Started 0
    EndInput 0
    WantChild 0
// The script was answered, and all ends.
== SETTLED
Exited 0
Stop
// All is over before.
== STOPPED
Stop
// A handshake is accepted, and its program runs.
== OPENED
Accepted
    WantClient 0
Client 0 $HANDSHAKE
    $SWITCHED
    $UPGRADED
    $START_LINES
Started 0
    WantChild 0
    WantClient 0
// A talk up to the end of the output, and Stop.
== TALK
Accepted
    WantClient 0
Client 0 $HANDSHAKE
    $SWITCHED
    $UPGRADED
    $START_LINES
Started 0
    WantChild 0
    WantClient 0
WsText 0 a
    Feed 0: a\n
Took 0 2
    WantClient 0
WsText 0
    Feed 0: \n
Took 0 1
    WantClient 0
WsText 0 b\nc
    Feed 0: b\nc\n
Took 0 4
    WantClient 0
Output 0 x\r\n\ny
    Says 0: x; ;\x20
    WantChild 0
OutputEof 0
    Says 0: y;\x20
    CloseWs 0: 1000
    EndInput 0
    Shut 0 Done
Exited 0
Stop
// The last line ends with the output.
== LAST_LINE
OutputEof 0
    Says 0: y;\x20
    CloseWs 0: 1000
    EndInput 0
    Shut 0 Done
Exited 0
Stop
// The program was killed, and what it still had to print is given up.
== KILLED
Exited 0
    Release 0
Stop
// Four bytes of a line, one by one.
== ABCD
Output 0 a
    WantChild 0
Output 0 b
    WantChild 0
Output 0 c
    WantChild 0
Output 0 d
    WantChild 0
// As long a line as may be, with its end.
== LONG_LINE
OutputFill 0 65535
    WantChild 0
Output 0 \n
    Says 0: [65535 times x];\x20
    WantChild 0
// The same; more waits to be sent than lets a program be asked for more.
== HELD_LINE
OutputFill 0 65535
    WantChild 0
Output 0 \n
    Says 0: [65535 times x];\x20
// Stop, while a Start is open.
== OPEN_START
Stop
    Shut 0 Stopped
Started 0
    EndInput 0
    Kill 0
Exited 0
    Release 0
// Stop, while a child runs.
== RUNNING
Stop
    Kill 0
    Shut 0 Stopped
Exited 0
    Release 0
// Stop, within a talk.
== TALKING
Stop
    EndInput 0
    Kill 0
    Shut 0 Stopped
Exited 0
    Release 0
// A form whose script redirects.
== REDIRECTED
Accepted
    WantClient 0
Client 0 POST /cgi-bin/form HTTP/1.1\r\nHost: a\r\nConnection: close\r\nContent-Length: 3\r\n\r\nx=1
    Start 0 (0, 0, 0) /srv/cgi/form
Started 0
    Feed 0: x=1
    EndInput 0
    WantChild 0
Output 0 Location: /cgi-bin/hello\n\n
    WantChild 0
OutputEof 0
Exited 0
    Start 1 (0, 0, 1) /srv/cgi/hello
Started 1
    EndInput 1
    WantChild 1
Output 1 $OUTPUT
    WantChild 1
OutputEof 1
    $WRITE_REPLY
    Shut 0 Done
Exited 1
==
";
