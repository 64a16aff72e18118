// The site of all stories, and requests for it with what they are answered by.

pub const SITE: &str = "version = 1

[limits]
ws_text = 8
linger_ticks = 2

[[script]]
path = \"/cgi\"
program = \"/srv/cgi/hello\"

[[script]]
path = \"/ws\"
program = \"/srv/cgi/lines\"
kind = \"websocket\"

[[script]]
path = \"/shop\"
program = \"/srv/cgi/shop\"
kind = \"websocket\"
origins = [\"http://example.com\"]
";

// How many bytes a text and a line may have.
pub const LIMIT: usize = 8;

// What the script of the site that speaks HTTP writes, and the reply that is made of it.
pub const OUTPUT: &[u8] = b"Content-Type: text/plain\n\nhi\n";

pub const REPLY: &[u8] =
    b"HTTP/1.1 200 OK\r\nContent-Type: text/plain\r\nContent-Length: 3\r\n\r\nhi\n";

#[derive(Clone, Copy)]
pub enum Answer {
    // The host's own reply.
    Refused(&'static [u8]),
    // A script's output.
    Runs(&'static str),
    // The accept text, and the program that talks then.
    Opens(&'static [u8], &'static str),
}

// A request as it is sent.
#[derive(Clone, Copy)]
pub struct Ask {
    pub bytes: &'static [u8],
    pub answer: Answer,
}

const UPGRADE: Answer = Answer::Refused(
    b"HTTP/1.1 426 Upgrade Required\r\nUpgrade: websocket\r\nConnection: Upgrade\r\nSec-WebSocket-Version: 13\r\nContent-Type: text/plain\r\nContent-Length: 30\r\n\r\nwebsocket version 13 required\n",
);

const NO_ORIGIN: Answer = Answer::Refused(
    b"HTTP/1.1 403 Forbidden\r\nContent-Type: text/plain\r\nContent-Length: 15\r\n\r\norigin refused\n",
);

const NO_SCRIPT: Answer = Answer::Refused(
    b"HTTP/1.1 404 Not Found\r\nContent-Type: text/plain\r\nContent-Length: 24\r\n\r\nno script for this path\n",
);

const NO_KEY: Answer = Answer::Refused(
    b"HTTP/1.1 400 Bad Request\r\nContent-Type: text/plain\r\nContent-Length: 24\r\n\r\nbad websocket handshake\n",
);

// Requests that open no WebSocket (RFC 6455 4.2.2).
pub const OTHERS: [Ask; 9] = [
    Ask {
        bytes: b"GET /cgi HTTP/1.1\r\nHost: a\r\n\r\n",
        answer: Answer::Runs("/srv/cgi/hello"),
    },
    Ask {
        bytes: b"GET /cgi HTTP/1.1\r\nHost: a\r\nUpgrade: websocket\r\nConnection: Upgrade\r\nSec-WebSocket-Key: dGhlIHNhbXBsZSBub25jZQ==\r\nSec-WebSocket-Version: 13\r\n\r\n",
        answer: Answer::Runs("/srv/cgi/hello"),
    },
    Ask {
        bytes: b"GET /none HTTP/1.1\r\nHost: a\r\n\r\n",
        answer: NO_SCRIPT,
    },
    Ask {
        bytes: b"GET /ws HTTP/1.1\r\nHost: a\r\n\r\n",
        answer: UPGRADE,
    },
    Ask {
        bytes: b"GET /ws HTTP/1.1\r\nHost: a\r\nUpgrade: websocket\r\nConnection: Upgrade\r\nSec-WebSocket-Key: dGhlIHNhbXBsZSBub25jZQ==\r\nSec-WebSocket-Version: 8\r\n\r\n",
        answer: UPGRADE,
    },
    Ask {
        bytes: b"POST /ws HTTP/1.1\r\nHost: a\r\nUpgrade: websocket\r\nConnection: Upgrade\r\nSec-WebSocket-Key: dGhlIHNhbXBsZSBub25jZQ==\r\nSec-WebSocket-Version: 13\r\n\r\n",
        answer: UPGRADE,
    },
    Ask {
        bytes: b"GET /ws HTTP/1.1\r\nHost: a\r\nUpgrade: websocket\r\nConnection: Upgrade\r\nSec-WebSocket-Key: YQ==\r\nSec-WebSocket-Version: 13\r\n\r\n",
        answer: NO_KEY,
    },
    Ask {
        bytes: b"GET /shop HTTP/1.1\r\nHost: a\r\nUpgrade: websocket\r\nConnection: Upgrade\r\nSec-WebSocket-Key: dGhlIHNhbXBsZSBub25jZQ==\r\nSec-WebSocket-Version: 13\r\n\r\n",
        answer: NO_ORIGIN,
    },
    Ask {
        bytes: b"GET /shop HTTP/1.1\r\nHost: a\r\nUpgrade: websocket\r\nConnection: Upgrade\r\nSec-WebSocket-Key: dGhlIHNhbXBsZSBub25jZQ==\r\nSec-WebSocket-Version: 13\r\nOrigin: http://example.org\r\n\r\n",
        answer: NO_ORIGIN,
    },
];

// The accept value of RFC 6455 1.3, and that of another key.
const SAMPLE: &[u8] =
    b"HTTP/1.1 101 Switching Protocols\r\nUpgrade: websocket\r\nConnection: Upgrade\r\nSec-WebSocket-Accept: s3pPLMBiTxaQ9kYGzzhZRbK+xOo=\r\n\r\n";

const OTHER: &[u8] =
    b"HTTP/1.1 101 Switching Protocols\r\nUpgrade: websocket\r\nConnection: Upgrade\r\nSec-WebSocket-Accept: HSmrc0sMlYUkAGmm5OPpG2HaGWk=\r\n\r\n";

// Handshakes that are accepted.
pub const OPENERS: [Ask; 3] = [
    Ask {
        bytes: b"GET /ws HTTP/1.1\r\nHost: a\r\nUpgrade: websocket\r\nConnection: keep-alive, Upgrade\r\nSec-WebSocket-Key: dGhlIHNhbXBsZSBub25jZQ==\r\nSec-WebSocket-Version: 13\r\n\r\n",
        answer: Answer::Opens(SAMPLE, "/srv/cgi/lines"),
    },
    Ask {
        bytes: b"GET /ws/x?y HTTP/1.1\r\nhost: a\r\nconnection: upgrade\r\nupgrade: h2c, WebSocket\r\nsec-websocket-version: 13\r\nsec-websocket-key:  x3JJHMbDL1EzLkh9GBhXDw== \r\n\r\n",
        answer: Answer::Opens(OTHER, "/srv/cgi/lines"),
    },
    Ask {
        bytes: b"GET /shop HTTP/1.1\r\nHost: a\r\nOrigin: http://example.com\r\nUpgrade: websocket\r\nConnection: Upgrade\r\nSec-WebSocket-Key: dGhlIHNhbXBsZSBub25jZQ==\r\nSec-WebSocket-Version: 13\r\n\r\n",
        answer: Answer::Opens(SAMPLE, "/srv/cgi/shop"),
    },
];
