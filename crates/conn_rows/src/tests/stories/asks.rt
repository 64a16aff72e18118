// Requests as they are sent, and what they mean.
mod extras;
mod refused;

use super::super::numbers::Numbers;
use super::super::parts::Parts;
use super::roles::{Role, Says, add_deeds, flood_role, role_of};
use super::site::{
    BODY_LIMIT, NO_SEAT, Place, REDIRECTS, Seat, Target, Whose, seat_at, seat_count, target_at,
};
use extras::{EXTRAS, Extra, NO_EXTRA, extra_at};
use host_base::Cause;
use refused::make_bad;
use std::alloc::Global;

// How the length of a body is told.
#[derive(Clone, Copy, PartialEq, Eq)]
pub enum Sized {
    None,
    Length,
    Chunked,
}

// A cause for which a request is refused as it is read, the byte with which it is known, and whether the reply has no
// body, since the head was read and asks for none.
#[derive(Clone, Copy)]
pub struct Bad {
    pub cause: Cause,
    pub at: usize,
    pub bare: bool,
}

// One request.
#[derive(Drop)]
pub struct Ask {
    pub bytes: Parts,
    // How many bytes stand before its line, and where its head ends.
    pub lead: usize,
    pub head: usize,
    pub method: &'static str,
    pub old: bool,
    pub close: bool,
    // 100 Continue is due.
    pub expects: bool,
    pub sized: Sized,
    pub typed: bool,
    pub body: Parts,
    pub bad: Option<Bad>,
    pub seat: &'static Seat,
    pub target: &'static Target,
    pub extra: &'static Extra,
    pub roles: Vec<Role>,
    // The client waits behind the head until nothing else goes on.
    pub waits: bool,
    // Memory ran out for a role.
    lost: bool,
}

impl Ask {
    pub fn is_head(&self) -> bool {
        self.method == "HEAD"
    }

    pub fn is_long(&self) -> bool {
        self.sized == Sized::Length && !self.body.is_empty()
    }
}

const NO_ARGS: &[&str] = &[];

fn is_read(method: &str) -> bool {
    method == "GET" || method == "HEAD"
}

impl Ask {
    // Search words are told where they are read.
    pub fn args(&self, hop: usize, target: &Target) -> &'static [&'static str] {
        if hop > 0 || is_read(self.method) {
            target.args
        } else {
            NO_ARGS
        }
    }

    fn new(alloc: Global, seat: &'static Seat, target: &'static Target) -> Self {
        Ask {
            bytes: Parts::new(alloc),
            lead: 0,
            head: 0,
            method: "GET",
            old: false,
            close: false,
            expects: false,
            sized: Sized::None,
            typed: false,
            body: Parts::new(alloc),
            bad: None,
            seat,
            target,
            extra: &NO_EXTRA,
            roles: Vec::new(alloc),
            waits: false,
            lost: false,
        }
    }

    pub fn is_lost(&self) -> bool {
        self.lost || self.bytes.is_lost() || self.body.is_lost()
    }

    fn push(&mut self, text: &str) {
        self.bytes.push(text);
    }

    fn push_host(&mut self) {
        let host = self.seat.value;
        if host.is_empty() {
            return;
        }
        self.push("Host: ");
        self.push(host);
        self.push("\r\n");
    }

    // The first line, and the Host field.
    fn push_line(&mut self) {
        self.push(self.method);
        self.push(" ");
        self.push(self.target.text);
        self.push(if self.old {
            " HTTP/1.0\r\n"
        } else {
            " HTTP/1.1\r\n"
        });
        self.push_host();
    }

    fn push_length(&mut self) {
        match self.sized {
            Sized::None => {}
            Sized::Length => {
                self.push("Content-Length: ");
                self.bytes.push_number(self.body.len() as u64);
                self.push("\r\n");
            }
            Sized::Chunked => self.push("Transfer-Encoding: chunked\r\n"),
        }
    }

    fn push_head(&mut self, numbers: &mut Numbers) {
        if self.lead > 0 {
            self.push("\r\n");
        }
        self.push_line();
        self.push(self.extra.sent);
        self.push_length();
        if self.typed {
            self.push("Content-Type: text/plain\r\n");
        }
        if self.expects {
            self.push("Expect: 100-Continue\r\n");
        }
        self.push(close_text(numbers, self.close));
        self.push("\r\n");
        self.head = self.bytes.len();
    }

    fn push_body(&mut self, numbers: &mut Numbers) {
        match self.sized {
            Sized::Chunked => push_chunks(numbers, &mut self.bytes, self.body.as_slice()),
            _ => self.bytes.add(self.body.as_slice()),
        }
    }
}

fn close_text(numbers: &mut Numbers, close: bool) -> &'static str {
    match (close, numbers.below(3)) {
        (true, 0) => "connection: Keep-Alive, CLOSE\r\n",
        (true, _) => "Connection: close\r\n",
        (false, 0) => "Connection: keep-alive\r\n",
        (false, _) => "",
    }
}

fn chunk_end(numbers: &mut Numbers) -> &'static str {
    match numbers.below(3) {
        0 => "0\r\n\r\n",
        1 => "000;x=1\r\n\r\n",
        _ => "0\r\nA: b\r\n\r\n",
    }
}

fn chunk_break(numbers: &mut Numbers) -> &'static str {
    match numbers.below(3) {
        0 => ";a=b\r\n",
        _ => "\r\n",
    }
}

fn push_chunk(numbers: &mut Numbers, bytes: &mut Parts, chunk: &[u8]) {
    bytes.push_hex(chunk.len());
    bytes.push(chunk_break(numbers));
    bytes.add(chunk);
    bytes.push("\r\n");
}

// The body in chunks.
fn push_chunks(numbers: &mut Numbers, bytes: &mut Parts, body: &[u8]) {
    let size = numbers.some(body.len().saturating_add(1));
    for chunk in body.chunks(size.max(1)) {
        push_chunk(numbers, bytes, chunk);
    }
    bytes.push(chunk_end(numbers));
}

fn method_of(numbers: &mut Numbers, bodied: bool) -> &'static str {
    match numbers.below(if bodied { 12 } else { 4 }) {
        0 => "HEAD",
        1 | 2 => "GET",
        3 if !bodied => "DELETE",
        _ => "POST",
    }
}

fn sized_of(numbers: &mut Numbers, old: bool) -> Sized {
    match numbers.below(8) {
        0 | 1 | 2 => Sized::Length,
        3 | 4 if old => Sized::Length,
        3 | 4 => Sized::Chunked,
        _ => Sized::None,
    }
}

fn body_len(numbers: &mut Numbers) -> usize {
    match numbers.below(60) {
        0 => 65_536,
        1 => 65_537,
        2 => BODY_LIMIT,
        3 | 4 | 5 => 0,
        _ => numbers.some(30),
    }
}

fn fill_body(body: &mut Parts, len: usize) {
    for place in 0..len {
        body.add(&[(place % 251) as u8]);
    }
}

// The body of a request that has one.
fn choose_body(numbers: &mut Numbers, ask: &mut Ask) {
    let len = body_len(numbers);
    let most = match ask.sized {
        Sized::Chunked => len % 65_536,
        _ => len,
    };
    fill_body(&mut ask.body, most);
    ask.typed = numbers.once_in(2);
}

// Its version, its length and its body.
fn choose_length(numbers: &mut Numbers, ask: &mut Ask) {
    ask.old = numbers.once_in(12);
    ask.sized = sized_of(numbers, ask.old);
    if ask.sized != Sized::None {
        choose_body(numbers, ask);
    }
}

// What it asks for beside.
fn choose_beside(numbers: &mut Numbers, ask: &mut Ask) {
    let bodied = ask.sized != Sized::None;
    ask.method = method_of(numbers, bodied);
    ask.close = numbers.once_in(5);
    ask.lead = if numbers.once_in(12) { 2 } else { 0 };
    ask.extra = extra_at(numbers.place(EXTRAS.len()));
}

fn seat_of(numbers: &mut Numbers, old: bool) -> &'static Seat {
    if old && numbers.once_in(2) {
        &NO_SEAT
    } else {
        seat_at(numbers.place(seat_count()))
    }
}

fn push_role(ask: &mut Ask, role: Role) {
    ask.lost |= role.is_lost();
    ask.lost |= ask.roles.push(role).is_err();
}

fn role_at(alloc: Global, numbers: &mut Numbers, target: &Target, whose: Whose) -> Role {
    let mut role = role_of(alloc, numbers, target, whose);
    add_deeds(numbers, &mut role);
    role
}

fn hop_of(role: &Role) -> Option<&'static Target> {
    match role.says {
        Says::Hop(to) => Some(to),
        _ => None,
    }
}

// The script of a hop, and where that redirects to.
fn add_role(
    alloc: Global,
    numbers: &mut Numbers,
    ask: &mut Ask,
    target: &Target,
) -> Option<&'static Target> {
    let role = role_at(alloc, numbers, target, ask.seat.whose);
    let hop = hop_of(&role);
    push_role(ask, role);
    hop
}

fn runs(target: &Target) -> bool {
    match target.place {
        Place::Runs { .. } => true,
        Place::Refused(_) => false,
    }
}

// The scripts along its hops.
fn add_roles(alloc: Global, numbers: &mut Numbers, ask: &mut Ask) {
    let mut next = Some(ask.target);
    for _ in 0..=REDIRECTS {
        next = match next {
            Some(target) if runs(target) => add_role(alloc, numbers, ask, target),
            _ => None,
        };
    }
}

// One whose reply is so long.
fn make_flood(alloc: Global, numbers: &mut Numbers, more: usize, ask: &mut Ask) {
    ask.push_head(numbers);
    push_role(ask, flood_role(alloc, more));
}

// Whose scripts it asks for, and how it waits for its body to be.
fn choose_target(numbers: &mut Numbers, ask: &mut Ask) {
    ask.seat = seat_of(numbers, ask.old);
    ask.target = target_at(ask.seat.whose, numbers.place(42));
    let expects = numbers.once_in(5);
    let due = ask.sized == Sized::Chunked || ask.is_long();
    ask.expects = expects && due && !ask.old;
    ask.waits = numbers.once_in(3) || ask.expects && numbers.once_in(2);
}

fn make_good(alloc: Global, numbers: &mut Numbers, ask: &mut Ask) {
    choose_length(numbers, ask);
    choose_beside(numbers, ask);
    choose_target(numbers, ask);
    ask.push_head(numbers);
    ask.push_body(numbers);
    add_roles(alloc, numbers, ask);
}

// What kind of request.
#[derive(Clone, Copy)]
pub enum Kind {
    Good,
    Bad,
    // Its reply has so many bytes more.
    Flood(usize),
}

fn make(alloc: Global, numbers: &mut Numbers, kind: Kind, ask: &mut Ask) {
    match kind {
        Kind::Good => make_good(alloc, numbers, ask),
        Kind::Bad => make_bad(numbers, ask),
        Kind::Flood(more) => make_flood(alloc, numbers, more, ask),
    }
}

pub fn ask_of(alloc: Global, numbers: &mut Numbers, kind: Kind) -> Ask {
    let seat = seat_at(0);
    let mut ask = Ask::new(alloc, seat, target_at(seat.whose, 1));
    make(alloc, numbers, kind, &mut ask);
    ask
}
