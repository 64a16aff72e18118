// The text of replies (RFC 9112 4 to 7).
use super::super::parts::Parts;
use super::site::date_of;
use host_base::Cause;

// A cause, its status line, and its text.
static LINES: [(Cause, &str, &str); 32] = [
    (Cause::BadHead, "400 Bad Request", "bad request head\n"),
    (
        Cause::Incomplete,
        "400 Bad Request",
        "request ended early\n",
    ),
    (Cause::BadTarget, "400 Bad Request", "bad target\n"),
    (Cause::BadHost, "400 Bad Request", "bad host\n"),
    (Cause::BadFraming, "400 Bad Request", "bad body framing\n"),
    (Cause::BadChunk, "400 Bad Request", "bad chunk\n"),
    (Cause::BadPath, "400 Bad Request", "bad path\n"),
    (
        Cause::NoScript,
        "404 Not Found",
        "no script for this path\n",
    ),
    (
        Cause::IdleTime,
        "408 Request Timeout",
        "request took too long\n",
    ),
    (
        Cause::BodyTooLong,
        "413 Content Too Large",
        "request body too large\n",
    ),
    (
        Cause::TargetTooLong,
        "414 URI Too Long",
        "target too long\n",
    ),
    (
        Cause::BadExpect,
        "417 Expectation Failed",
        "expectation not met\n",
    ),
    (
        Cause::UnknownHost,
        "421 Misdirected Request",
        "host not served\n",
    ),
    (
        Cause::UpgradeNeeded,
        "426 Upgrade Required",
        "websocket version 13 required\n",
    ),
    (
        Cause::HeadTooLong,
        "431 Request Header Fields Too Large",
        "request head too large\n",
    ),
    (
        Cause::TooManyFields,
        "431 Request Header Fields Too Large",
        "too many header fields\n",
    ),
    (
        Cause::RedirectLoop,
        "500 Internal Server Error",
        "too many local redirects\n",
    ),
    (
        Cause::NotServed,
        "501 Not Implemented",
        "method or target not served\n",
    ),
    (
        Cause::CodingUnknown,
        "501 Not Implemented",
        "transfer coding not served\n",
    ),
    (
        Cause::StartFailed,
        "502 Bad Gateway",
        "script could not be started\n",
    ),
    (
        Cause::OutputBroken,
        "502 Bad Gateway",
        "script output broken\n",
    ),
    (
        Cause::OutputTooLarge,
        "502 Bad Gateway",
        "script output too large\n",
    ),
    (
        Cause::NoOutput,
        "502 Bad Gateway",
        "script gave no output\n",
    ),
    (
        Cause::HeaderIncomplete,
        "502 Bad Gateway",
        "script header incomplete\n",
    ),
    (
        Cause::HeaderTooLarge,
        "502 Bad Gateway",
        "script header too large\n",
    ),
    (
        Cause::HeaderLine,
        "502 Bad Gateway",
        "script header line refused\n",
    ),
    (
        Cause::HeaderRepeated,
        "502 Bad Gateway",
        "script header field repeated\n",
    ),
    (
        Cause::BadStatus,
        "502 Bad Gateway",
        "script status refused\n",
    ),
    (
        Cause::BadLocation,
        "502 Bad Gateway",
        "script location refused\n",
    ),
    (
        Cause::NoneOfThree,
        "502 Bad Gateway",
        "script sent no type, status or location\n",
    ),
    // no other number is seen
    (
        Cause::Full { seen: 64 },
        "503 Service Unavailable",
        "children running: 64\n",
    ),
    (
        Cause::RunTime,
        "504 Gateway Timeout",
        "script took too long\n",
    ),
];

// The status line of a cause, and its text.
fn line_of(cause: Cause) -> (&'static str, &'static str) {
    for line in LINES.as_slice() {
        if line.0 == cause {
            return (line.1, line.2);
        }
    }
    ("", "")
}

// How a reply's length is told.
#[derive(Clone, Copy, PartialEq, Eq)]
pub enum Shape {
    Bare,
    Length(usize),
    Chunked,
    ToClose,
}

#[derive(Clone, Copy)]
pub struct Front {
    pub line: &'static str,
    pub fields: &'static str,
    pub date: Option<u64>,
    pub shape: Shape,
    pub close: bool,
}

fn push_shape(text: &mut Parts, shape: Shape) {
    match shape {
        Shape::Bare | Shape::ToClose => {}
        Shape::Chunked => text.push("Transfer-Encoding: chunked\r\n"),
        Shape::Length(count) => {
            text.push("Content-Length: ");
            text.push_number(count as u64);
            text.push("\r\n");
        }
    }
}

fn push_date(text: &mut Parts, date: Option<u64>) {
    if let Some(secs) = date {
        text.push("Date: ");
        text.push(date_of(secs));
        text.push("\r\n");
    }
}

// Adds the head of a reply.
pub fn push_front(text: &mut Parts, front: &Front) {
    text.push("HTTP/1.1 ");
    text.push(front.line);
    text.push("\r\n");
    text.push(front.fields);
    push_date(text, front.date);
    push_shape(text, front.shape);
    if front.close {
        text.push("Connection: close\r\n");
    }
    text.push("\r\n");
}

fn fields_of(cause: Cause) -> &'static str {
    match cause {
        Cause::UpgradeNeeded => {
            "Upgrade: websocket\r\nConnection: Upgrade\r\nSec-WebSocket-Version: 13\r\nContent-Type: text/plain\r\n"
        }
        _ => "Content-Type: text/plain\r\n",
    }
}

// Adds the host's own reply.
pub fn push_fault(text: &mut Parts, cause: Cause, bare: bool, close: bool, date: Option<u64>) {
    let (line, said) = line_of(cause);
    let front = Front {
        line,
        fields: fields_of(cause),
        date,
        shape: if bare {
            Shape::Bare
        } else {
            Shape::Length(said.len())
        },
        close,
    };
    push_front(text, &front);
    if !bare {
        text.push(said);
    }
}

// Adds a part of a body as it stands in a reply of this shape.
pub fn push_part(text: &mut Parts, shape: Shape, part: &[u8]) {
    if shape != Shape::Chunked || part.is_empty() {
        return text.add(part);
    }
    text.push_hex(part.len());
    text.push("\r\n");
    text.add(part);
    text.push("\r\n");
}
