// Requests that are refused as they are read.
use super::super::super::numbers::Numbers;
use super::super::site::HEAD_LIMIT;
use super::{Ask, Bad, method_of};
use host_base::Cause;

// The text of such a request behind its method, the cause, and how many bytes stand behind the one with which it is
// known. The head was read where it says so.
#[derive(Clone, Copy)]
struct Broken {
    text: &'static str,
    cause: Cause,
    behind: usize,
    read: bool,
}

static BROKEN: [Broken; 15] = [
    Broken {
        text: " / HTTP/2.0\r\nHost: a\r\n\r\n",
        cause: Cause::BadHead,
        behind: 0,
        read: false,
    },
    Broken {
        text: " /cgi HTTP/1.1\r\nHost: a\r\n b\r\n\r\n",
        cause: Cause::BadHead,
        behind: 0,
        read: false,
    },
    Broken {
        text: " /cgi/012345678901234567890123456789012345678901234567890123456789 HTTP/1.1\r\nHost: a\r\n\r\n",
        cause: Cause::TargetTooLong,
        behind: 0,
        read: false,
    },
    Broken {
        text: " * HTTP/1.1\r\n\r\n",
        cause: Cause::NotServed,
        behind: 0,
        read: true,
    },
    Broken {
        text: " /cgi HTTP/1.1\r\nX: y\r\n\r\n",
        cause: Cause::BadHost,
        behind: 0,
        read: true,
    },
    Broken {
        text: " /cgi HTTP/1.1\r\nHost: a\r\nHost: a\r\n\r\n",
        cause: Cause::BadHost,
        behind: 0,
        read: true,
    },
    Broken {
        text: " https://a/cgi HTTP/1.1\r\nHost: a\r\n\r\n",
        cause: Cause::BadTarget,
        behind: 0,
        read: true,
    },
    Broken {
        text: " /cgi HTTP/1.1\r\nHost: a\r\nContent-Length: 1\r\nContent-Length: 2\r\n\r\nx",
        cause: Cause::BadFraming,
        behind: 1,
        read: true,
    },
    Broken {
        text: " /cgi HTTP/1.0\r\nTransfer-Encoding: chunked\r\n\r\n",
        cause: Cause::BadFraming,
        behind: 0,
        read: true,
    },
    Broken {
        text: " /cgi HTTP/1.1\r\nHost: a\r\nTransfer-Encoding: gzip, chunked\r\n\r\n",
        cause: Cause::CodingUnknown,
        behind: 0,
        read: true,
    },
    Broken {
        text: " /cgi HTTP/1.1\r\nHost: a\r\nContent-Length: 140001\r\nExpect: 100-continue\r\n\r\n",
        cause: Cause::BodyTooLong,
        behind: 0,
        read: true,
    },
    Broken {
        text: " /cgi HTTP/1.1\r\nHost: a\r\nContent-Length: 2\r\nExpect: 100-continue, b\r\n\r\nxy",
        cause: Cause::BadExpect,
        behind: 2,
        read: true,
    },
    Broken {
        text: " /cgi HTTP/1.1\r\nHost: a\r\nTransfer-Encoding: chunked\r\n\r\n3\r\nabcX\n",
        cause: Cause::BadChunk,
        behind: 1,
        read: true,
    },
    Broken {
        text: " /cgi HTTP/1.1\r\nHost: a\r\nTransfer-Encoding: chunked\r\n\r\n5\r\nabcde\r\nfffff\r\n",
        cause: Cause::BodyTooLong,
        behind: 2,
        read: true,
    },
    Broken {
        text: " /cgi HTTP/1.1\r\nHost: a\r\nTransfer-Encoding: chunked\r\n\r\n0\r\n\n",
        cause: Cause::BadChunk,
        behind: 0,
        read: true,
    },
];

// Why it is refused, and with which byte that is known.
fn note_bad(ask: &mut Ask, cause: Cause, at: usize, bare: bool) {
    ask.head = ask.bytes.len();
    ask.bad = Some(Bad { cause, at, bare });
}

// A request of the table.
fn make_broken(numbers: &mut Numbers, broken: &Broken, ask: &mut Ask) {
    let method = method_of(numbers, false);
    ask.method = method;
    ask.push(method);
    ask.push(broken.text);
    let at = ask.bytes.len().saturating_sub(broken.behind);
    let bare = broken.read && ask.is_head();
    note_bad(ask, broken.cause, at, bare);
}

// A head that doesn't end within its limit, one with too many fields, or an empty line too many: its front, what stands
// behind that so often, and its end.
#[derive(Clone, Copy)]
struct Long {
    front: &'static str,
    often: &'static str,
    count: usize,
    end: &'static str,
    cause: Cause,
    // It is known with this byte, or with its last.
    at: usize,
    lead: usize,
}

static LONG: [Long; 3] = [
    Long {
        front: "GET /cgi HTTP/1.1\r\nX: ",
        often: "x",
        count: HEAD_LIMIT,
        end: "",
        cause: Cause::HeadTooLong,
        at: HEAD_LIMIT,
        lead: 0,
    },
    Long {
        front: "GET /cgi HTTP/1.1\r\n",
        often: "a:\r\n",
        count: 101,
        end: "\r\n",
        cause: Cause::TooManyFields,
        at: usize::MAX,
        lead: 0,
    },
    Long {
        front: "\r\n\r\nGET",
        often: "",
        count: 0,
        end: "",
        cause: Cause::BadHead,
        at: 4,
        lead: 2,
    },
];

fn push_often(ask: &mut Ask, text: &str, count: usize) {
    for _ in 0..count {
        ask.push(text);
    }
}

fn push_long(ask: &mut Ask, long: &Long) {
    ask.push(long.front);
    push_often(ask, long.often, long.count);
    ask.push(long.end)
}

fn make_long(ask: &mut Ask, long: &Long) {
    ask.lead = long.lead;
    push_long(ask, long);
    let at = long.at.min(ask.bytes.len());
    note_bad(ask, long.cause, at, false);
}

fn long_at(place: usize) -> &'static Long {
    &LONG[place % 3]
}

fn broken_at(place: usize) -> &'static Broken {
    &BROKEN[place % 15]
}

pub fn make_bad(numbers: &mut Numbers, ask: &mut Ask) {
    if numbers.once_in(6) {
        return make_long(ask, long_at(numbers.place(LONG.len())));
    }
    let broken = broken_at(numbers.place(BROKEN.len()));
    make_broken(numbers, broken, ask)
}
