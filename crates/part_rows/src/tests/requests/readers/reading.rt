// A text that is read in pieces, beside what is due of it.
use super::super::super::tables::is;
use host_base::{Cause, Limits, Request};
use request_reader::{ReqReader, ReqStep};
use std::alloc::Global;

static LIMITS: Limits = Limits {
    head: 1024,
    target: 64,
    body: 40,
    output: 8192,
    run_ticks: 300,
    idle_ticks: 150,
    linger_ticks: 20,
    redirects: 10,
    connections: 256,
    children: 64,
    ws_text: 65_536,
};

// Another request, and what is due of it.
pub const NEXT: &[u8] = b"\r\nGET /next HTTP/1.0\r\n\r\n";

// What is due of a text: the paths and bodies of the requests that are given, whether NEXT follows them, and the fault behind them; then whether
// another request has begun and how many bytes are left, or that one has begun.
#[derive(Clone, Copy)]
pub struct Expected<'t> {
    pub due: &'t [Vec<u8>],
    pub followed: bool,
    pub fault: Option<(Cause, bool)>,
    pub left: Option<(bool, usize)>,
}

impl<'t> Expected<'t> {
    fn due_at(self, place: usize) -> Option<&'t [u8]> {
        match self.due.get(place) {
            Some(due) => Some(due.as_slice()),
            None => None,
        }
    }

    fn count(self) -> usize {
        let whole = self.due.len() / 2;
        if self.followed {
            whole.saturating_add(1)
        } else {
            whole
        }
    }

    // Whether the request is the one that is due at this place.
    fn is_due(self, request: &Request, at: usize) -> bool {
        let path = self.due_at(at.saturating_mul(2));
        let body = self.due_at(at.saturating_mul(2).saturating_add(1));
        match (path, body) {
            (Some(path), Some(body)) => is_request(request, path, body),
            _ => self.followed && at == self.due.len() / 2 && is_request(request, b"/next", b""),
        }
    }
}

// Whether so many bytes are the end of a text.
fn is_end(text: &[u8], rest: &[u8], len: usize) -> bool {
    rest.len() == len && text.ends_with(rest)
}

fn is_request(request: &Request, path: &[u8], body: &[u8]) -> bool {
    is(request.target.path.as_slice(), path) && is(request.body.as_slice(), body)
}

// Feeds a piece.
pub fn feeds(reader: &mut ReqReader, piece: &[u8]) -> bool {
    reader.feed(piece).is_ok()
}

// A reader that is fed a piece; none without memory.
pub fn fed(alloc: Global, piece: &[u8]) -> Option<ReqReader> {
    let mut reader = new_reader(alloc);
    if feeds(&mut reader, piece) {
        Some(reader)
    } else {
        None
    }
}

pub fn new_reader(alloc: Global) -> ReqReader {
    ReqReader::new(alloc, &LIMITS)
}

// What is fed and not taken.
pub fn rest(reader: &ReqReader) -> &[u8] {
    reader.rest()
}

// The whole request that a reader gives.
pub fn next_whole(reader: &mut ReqReader) -> Option<Request> {
    match reader.step() {
        Ok(ReqStep::Whole(request)) => Some(request),
        _ => None,
    }
}

// What was read so far: how many requests were given, whether each was the one that is due, and the fault behind them.
#[derive(Drop)]
struct Reading {
    reader: ReqReader,
    given: usize,
    right: bool,
    fault: Option<(Cause, bool)>,
}

impl Reading {
    fn new(alloc: Global) -> Self {
        Reading {
            reader: new_reader(alloc),
            given: 0,
            right: true,
            fault: None,
        }
    }

    // Takes an answer, and says whether another one may follow.
    fn takes(&mut self, step: ReqStep, expected: Expected) -> bool {
        match step {
            ReqStep::Whole(request) => {
                self.right = self.right && expected.is_due(&request, self.given);
                self.given = self.given.saturating_add(1);
                true
            }
            ReqStep::More { .. } => false,
            ReqStep::Bad { cause, bare } => {
                self.fault = Some((cause, bare));
                false
            }
        }
    }

    fn steps(&mut self, expected: Expected) -> bool {
        match self.reader.step() {
            Ok(step) => self.takes(step, expected),
            Err(_) => {
                self.right = false;
                false
            }
        }
    }

    // Takes all answers that are due now.
    fn look(&mut self, expected: Expected) {
        for _ in 0..expected.count().saturating_add(1) {
            if !self.steps(expected) {
                return;
            }
        }
        self.right = false;
    }

    fn feed(&mut self, piece: &[u8], expected: Expected) {
        self.right = feeds(&mut self.reader, piece) && self.right;
        self.look(expected);
    }

    fn feed_all(&mut self, pieces: &[u8], size: usize, expected: Expected) {
        for piece in pieces.chunks(size.max(1)) {
            self.feed(piece, expected);
        }
    }

    // What is left is the end of the text.
    fn is_left(&self, text: &[u8], expected: Expected) -> bool {
        let begun = self.reader.begun();
        match expected.left {
            Some((due, len)) => begun == due && is_end(text, rest(&self.reader), len),
            None => begun,
        }
    }

    fn is_right(&self, text: &[u8], expected: Expected) -> bool {
        let given = self.right && self.given == expected.count();
        given && self.fault == expected.fault && self.is_left(text, expected)
    }
}

// Whether the text in pieces of `first` bytes and then of `size` bytes has the answers that are due.
fn is_answered(alloc: Global, first: usize, size: usize, text: &[u8], expected: Expected) -> bool {
    let mut reading = Reading::new(alloc);
    let (first, rest) = text.split_at(first.min(text.len()));
    reading.look(expected);
    reading.feed(first, expected);
    reading.feed_all(rest, size, expected);
    reading.is_right(text, expected)
}

// Whether it has them whole, byte by byte, and cut in two at each place.
pub fn is_answered_however_cut(alloc: Global, text: &[u8], expected: Expected) -> bool {
    for first in 0..text.len() + 1 {
        if !is_answered(alloc, first, text.len(), text, expected) {
            return false;
        }
    }
    is_answered(alloc, 0, 1, text, expected)
}

// Whether such a text is refused, with a request of its own behind none.
pub fn is_refused(
    alloc: Global,
    text: &[u8],
    cause: Cause,
    bare: bool,
    left: Option<(bool, usize)>,
) -> bool {
    let expected = Expected {
        due: &[],
        followed: false,
        fault: Some((cause, bare)),
        left,
    };
    is_answered_however_cut(alloc, text, expected)
}
