// Tables of rows as text: `== ` and a name begin a row, and a line `NAME = TEXT` before the first one gives a text its name, by which
// it stands elsewhere behind `$`. \n, \r, \t, \0 and \xHH are bytes, as in Rust; a line that begins with `//` is a comment.
// The beats of a row are lines: an event stands at the margin, by its name, a number and what it brings, and the acts that
// follow stand below it, four blanks further in.
use super::events::{accepted, child_bytes, client_bytes, message};
use super::parts::Parts;
use host_base::NoMemory;
use host_trace::Event;
use std::alloc::Global;

// ---- words

pub fn is(text: &str, other: &str) -> bool {
    text == other
}

// A word, and what stands behind the blank that follows it.
pub fn cut(text: &str) -> (&str, &str) {
    text.split_once(' ').unwrap_or((text, ""))
}

// A line, and what stands behind it.
pub fn first_line(text: &str) -> (&str, &str) {
    text.split_once('\n').unwrap_or((text, ""))
}

// What stands behind a front; nothing where it isn't there.
pub fn behind<'t>(text: &'t str, front: &str) -> Option<&'t str> {
    text.strip_prefix(front)
}

pub fn starts(text: &str, front: &str) -> bool {
    text.starts_with(front)
}

pub fn number_of(text: &str) -> u64 {
    text.parse::<u64>().unwrap_or(0)
}

fn small_of(number: u64) -> u32 {
    u32::try_from(number).unwrap_or(0)
}

// ---- bytes

static DIGITS: [u8; 16] = *b"0123456789abcdef";

// The value of a digit of base 16; 16 for another byte.
fn digit(byte: u8) -> u8 {
    let mut value = 0u8;
    for other in DIGITS.as_slice() {
        if *other == byte {
            return value;
        }
        value = value.wrapping_add(1);
    }
    value
}

// What is read of an escape.
#[derive(Clone, Copy)]
enum Escape {
    None,
    // Its backslash.
    Begun,
    // .. and its x.
    Hex,
    // .. and its first digit.
    High(u8),
}

// The byte of an escape of one letter.
fn letter(byte: u8) -> u8 {
    match byte {
        b'n' => b'\n',
        b'r' => b'\r',
        b't' => b'\t',
        b'0' => b'\0',
        _ => byte,
    }
}

// Reads a byte of a text.
fn unescape(bytes: &mut Parts, escape: Escape, byte: u8) -> Escape {
    match escape {
        Escape::None if byte == b'\\' => return Escape::Begun,
        Escape::None => bytes.add_byte(byte),
        Escape::Begun if byte == b'x' => return Escape::Hex,
        Escape::Begun => bytes.add_byte(letter(byte)),
        Escape::Hex => return Escape::High(digit(byte)),
        Escape::High(high) => bytes.add_byte(high.wrapping_mul(16).wrapping_add(digit(byte))),
    }
    Escape::None
}

fn unescape_all(bytes: &mut Parts, text: &str) {
    let mut escape = Escape::None;
    for byte in text.as_bytes() {
        escape = unescape(bytes, escape, *byte);
    }
}

// The text of a line `NAME = TEXT` of a table.
fn text_of<'t>(table: &'t str, name: &str) -> &'t str {
    for line in table.lines() {
        if let Some(rest) = behind(line, name) {
            if let Some(text) = behind(rest, " = ") {
                return text;
            }
        }
    }
    "no text of this name"
}

// Adds the bytes of a text of a table.
pub fn push_text(bytes: &mut Parts, table: &str, text: &str) {
    match behind(text, "$") {
        None => unescape_all(bytes, text),
        Some(name) => unescape_all(bytes, text_of(table, name)),
    }
}

fn push_fill(bytes: &mut Parts, byte: u8, count: u64) {
    for _ in 0..count {
        bytes.add_byte(byte);
    }
}

// ---- events

#[derive(Clone, Copy)]
pub enum Name {
    Accept,
    Client,
    // So many bytes of one kind.
    Fill,
    End,
    Gone,
    Wrote,
    Started,
    StartFailed,
    StartFull,
    Out,
    OutEnd,
    OutBroken,
    // So much output of one byte, behind a front.
    OutFill,
    Took,
    InGone,
    Exited,
    Message,
    // A message of so many bytes.
    MessageFill,
    Binary,
    Closed,
    Refused,
    Tick,
    Ticks,
    NoRoom,
    Stop,
    // The client of another connection is gone.
    OtherGone,
}

static NAMES: [(&str, Name); 26] = [
    ("Started", Name::Started),
    ("StartFailed", Name::StartFailed),
    ("StartFull", Name::StartFull),
    ("Out", Name::Out),
    ("OutEnd", Name::OutEnd),
    ("OutBroken", Name::OutBroken),
    ("OutFill", Name::OutFill),
    ("Took", Name::Took),
    ("InGone", Name::InGone),
    ("Exited", Name::Exited),
    ("Accept", Name::Accept),
    ("Client", Name::Client),
    ("Fill", Name::Fill),
    ("End", Name::End),
    ("Gone", Name::Gone),
    ("Wrote", Name::Wrote),
    ("Tick", Name::Tick),
    ("Ticks", Name::Ticks),
    ("NoRoom", Name::NoRoom),
    ("Stop", Name::Stop),
    ("Message", Name::Message),
    ("MessageFill", Name::MessageFill),
    ("Binary", Name::Binary),
    ("Closed", Name::Closed),
    ("Refused", Name::Refused),
    ("OtherGone", Name::OtherGone),
];

fn named(name: &str) -> Option<Name> {
    for event in NAMES.as_slice() {
        if is(event.0, name) {
            return Some(event.1);
        }
    }
    None
}

// An event that brings no bytes.
fn bare_event(c: u64, name: Name, number: u64, count: u64) -> Event {
    match name {
        Name::End => Event::ClientEof { c },
        Name::Gone => Event::ClientGone { c },
        Name::OtherGone => Event::ClientGone { c: number },
        Name::Wrote => Event::Wrote { c, n: count },
        Name::Binary => Event::WsBinary { c },
        Name::Closed => Event::WsClosed { c },
        Name::Refused => Event::WsBad { c },
        Name::NoRoom => Event::NoRoom { c },
        Name::Tick => Event::Tick { secs: number },
        Name::Ticks => Event::Tick { secs: 0 },
        _ => child_event(name, number, count),
    }
}

fn child_event(name: Name, k: u64, count: u64) -> Event {
    match name {
        Name::Started => Event::Started { k },
        Name::StartFailed => Event::StartFailed { k },
        Name::StartFull => Event::StartFull {
            k,
            seen: small_of(count),
        },
        Name::OutEnd => Event::ChildEof { k },
        Name::OutBroken => Event::ChildBroken { k },
        Name::Took => Event::Took { k, n: count },
        Name::InGone => Event::InputGone { k },
        Name::Exited => Event::Exited { k },
        _ => Event::Stop,
    }
}

// What is heard, step by step, and the acts that are due.
#[derive(Drop)]
pub struct Script {
    alloc: Global,
    // The connection.
    conn: u64,
    // Nothing stands where the acts of a beat are to be marked off.
    pub events: Vec<Option<Event>>,
    pub due: Parts,
    // What comes, comes in single bytes.
    single: bool,
    // What an event brings.
    bytes: Parts,
    // A beat has begun.
    begun: bool,
}

impl Script {
    pub fn new(alloc: Global, conn: u64, single: bool) -> Self {
        Script {
            alloc,
            conn,
            events: Vec::new(alloc),
            due: Parts::new(alloc),
            single,
            bytes: Parts::new(alloc),
            begun: false,
        }
    }

    fn push(&mut self, event: Option<Event>) {
        if self.events.push(event).is_err() {
            self.due.lose();
        }
    }

    fn add(&mut self, event: Result<Event, NoMemory>) {
        match event {
            Ok(event) => self.push(Some(event)),
            Err(_) => self.due.lose(),
        }
    }

    // The beat ends.
    pub fn mark(&mut self) {
        self.push(None);
    }

    // Bytes of an event, from one place of what it brings to another.
    fn hear_bytes(&mut self, name: Name, number: u64, from: usize, to: usize) {
        let bytes = self.bytes.part(from, to);
        let event = match name {
            Name::Client | Name::Fill => client_bytes(self.alloc, self.conn, bytes),
            Name::Message | Name::MessageFill => message(self.alloc, self.conn, bytes),
            _ => child_bytes(self.alloc, number, bytes),
        };
        self.add(event);
    }

    // What was read is heard.
    fn hear_read(&mut self, name: Name, number: u64) {
        if self.bytes.is_lost() {
            self.due.lose();
        }
        let len = self.bytes.len();
        self.hear_bytes(name, number, 0, len);
    }

    // .. in single bytes, where what comes does.
    fn hear_text(&mut self, table: &str, name: Name, number: u64, text: &str) {
        push_text(&mut self.bytes, table, text);
        if !self.single {
            return self.hear_read(name, number);
        }
        let len = self.bytes.len();
        for place in 0..len {
            self.hear_bytes(name, number, place, place.saturating_add(1));
        }
    }

    fn hear_fill(&mut self, name: Name, number: u64, byte: u8, count: u64) {
        push_fill(&mut self.bytes, byte, count);
        self.hear_read(name, number);
    }

    fn hear_bare(&mut self, name: Name, number: u64, count: u64) {
        let event = bare_event(self.conn, name, number, count);
        self.push(Some(event));
    }

    fn hear_ticks(&mut self, count: u64) {
        for _ in 0..count {
            self.hear_bare(Name::Tick, 0, 0);
        }
    }

    /// Hears an event of this name, with its number and what it brings.
    pub fn hear(&mut self, table: &str, name: Name, number: u64, text: &str) {
        let (count, front) = cut(text);
        let count = number_of(count);
        self.bytes.clear();
        match name {
            Name::Accept => self.add(accepted(self.alloc)),
            Name::Client | Name::Out => self.hear_text(table, name, number, text),
            Name::Message => {
                push_text(&mut self.bytes, table, text);
                self.hear_read(name, number);
            }
            Name::Fill => self.hear_fill(name, number, number_byte(number), count),
            Name::MessageFill => self.hear_fill(name, number, b'a', count),
            Name::OutFill => {
                push_text(&mut self.bytes, table, front);
                self.hear_fill(name, number, b'a', count);
            }
            Name::Ticks => self.hear_ticks(number),
            _ => self.hear_bare(name, number, count),
        }
    }

    // What a line says is heard.
    pub fn hear_line(&mut self, table: &str, line: &str) {
        let (name, rest) = cut(line);
        let (number, text) = cut(rest);
        match named(name) {
            Some(name) => self.hear(table, name, number_of(number), text),
            // what names no event is not to be heard
            None => self.due.push("no event\n"),
        }
    }

    // The acts of a beat end.
    fn end_beat(&mut self) {
        if self.begun {
            self.due.push("--\n");
        }
    }

    fn beat(&mut self, table: &str, line: &str) {
        if let Some(act) = behind(line, "    ") {
            push_text(&mut self.due, table, act);
            return self.due.push("\n");
        }
        if line.is_empty() || starts(line, " ") || starts(line, "//") {
            return;
        }
        self.end_beat();
        self.begun = true;
        self.hear_line(table, line);
        self.mark();
    }

    // The beats of a row, with the acts that are due.
    pub fn beats(&mut self, table: &str, beats: &str) {
        for line in beats.lines() {
            self.beat(table, line);
        }
        self.due.push("--\n");
    }
}

fn number_byte(number: u64) -> u8 {
    u8::try_from(number).unwrap_or(0)
}
