// Rows as text. `== ` and a name begin a row. In a row an event stands at the margin: its name, the number of its connection
// or child, and what it brings; its acts stand below it, four blanks further in. `+ ` and a name stand for the beats of this name.
// `$` and a name stand for a text: that of a line `NAME = TEXT` before the first row, or one of `texts` and `talks`.
// \n, \r, \t, \0 and \xHH are bytes, as in Rust; a line that begins with `//` is a comment.
use super::drive::Heard;
use super::talks::{HANDSHAKE, START_LINES, SWITCHED, UPGRADED};
use super::texts::{
    NO_OUTPUT, NO_SCRIPT, OUTPUT, PARTS, REPLY, REQUEST, START, WRITE_BARE, WRITE_DATED,
    WRITE_ENDED_EARLY, WRITE_NO_OUTPUT, WRITE_NO_SCRIPT, WRITE_OPEN, WRITE_REPLY,
};
use host_base::NoMemory;
use std::alloc::Global;

// ---- bytes

pub fn same(bytes: &[u8], others: &[u8]) -> bool {
    bytes == others
}

/// The first ones of some bytes, so many, and the others.
pub fn halves(bytes: &[u8], count: usize) -> (&[u8], &[u8]) {
    if count <= bytes.len() {
        bytes.split_at(count)
    } else {
        (bytes, b"")
    }
}

/// Each byte by itself.
pub fn single_bytes(alloc: Global, bytes: &[u8]) -> Result<Vec<&[u8]>, NoMemory> {
    let mut pieces = Vec::new(alloc);
    for piece in bytes.chunks(1) {
        pieces.push(piece)?;
    }
    Ok(pieces)
}

// The value of a digit of base 16.
fn digit(byte: u8) -> u8 {
    if byte < b'a' {
        byte.wrapping_sub(b'0')
    } else {
        byte.wrapping_sub(b'a').wrapping_add(10)
    }
}

// The byte of an escape whose part behind the backslash begins a text, and the rest of the text. What is no escape stays
// as it is.
fn escaped(part: &[u8]) -> (u8, &[u8]) {
    match part {
        [b'n', rest @ ..] => (b'\n', rest),
        [b'r', rest @ ..] => (b'\r', rest),
        [b't', rest @ ..] => (b'\t', rest),
        [b'0', rest @ ..] => (b'\0', rest),
        [b'x', high, low, rest @ ..] => {
            let byte = digit(*high).wrapping_mul(16).wrapping_add(digit(*low));
            (byte, rest)
        }
        _ => (b'\\', part),
    }
}

fn push_escaped(bytes: &mut Vec<u8>, part: &[u8]) -> Result<(), NoMemory> {
    let (byte, rest) = escaped(part);
    bytes.push(byte)?;
    bytes.extend_from_slice(rest)?;
    Ok(())
}

fn push_unescaped(bytes: &mut Vec<u8>, text: &str) -> Result<(), NoMemory> {
    let mut first = true;
    for part in text.split('\\') {
        if first {
            bytes.extend_from_slice(part.as_bytes())?;
        } else {
            push_escaped(bytes, part.as_bytes())?;
        }
        first = false;
    }
    Ok(())
}

fn unescaped(alloc: Global, text: &str) -> Result<Vec<u8>, NoMemory> {
    let mut bytes = Vec::new(alloc);
    push_unescaped(&mut bytes, text)?;
    Ok(bytes)
}

// ---- names

pub fn is(text: &str, other: &str) -> bool {
    text == other
}

/// What stands in a text before this mark, and behind it; nothing behind where the mark isn't there.
pub fn cut<'t>(text: &'t str, mark: &str) -> (&'t str, &'t str) {
    text.split_once(mark).unwrap_or((text, ""))
}

/// Whether a part stands in a text.
pub fn has(text: &str, part: &str) -> bool {
    let (before, _) = cut(text, part);
    before.len() < text.len()
}

/// What stands behind this mark, with which a text begins.
pub fn behind<'t>(text: &'t str, mark: &str) -> Option<&'t str> {
    text.strip_prefix(mark)
}

/// The lines of a text.
pub fn lines_in(alloc: Global, text: &str) -> Result<Vec<&str>, NoMemory> {
    let mut lines = Vec::new(alloc);
    for line in text.lines() {
        lines.push(line)?;
    }
    Ok(lines)
}

/// What stands behind a name and this mark in a line of a table.
pub fn text_of<'t>(table: &'t str, name: &str, mark: &str) -> Option<&'t str> {
    for line in table.lines() {
        let (first, text) = cut(line, mark);
        if is(first, name) {
            return Some(text);
        }
    }
    None
}

fn act_named(name: &str) -> &'static str {
    match name {
        "START" => START,
        "WRITE_REPLY" => WRITE_REPLY,
        "WRITE_OPEN" => WRITE_OPEN,
        "WRITE_DATED" => WRITE_DATED,
        "WRITE_BARE" => WRITE_BARE,
        "WRITE_NO_OUTPUT" => WRITE_NO_OUTPUT,
        "WRITE_NO_SCRIPT" => WRITE_NO_SCRIPT,
        "WRITE_ENDED_EARLY" => WRITE_ENDED_EARLY,
        "SWITCHED" => SWITCHED,
        "UPGRADED" => UPGRADED,
        "START_LINES" => START_LINES,
        _ => "no text of this name",
    }
}

fn bytes_named(name: &str) -> &'static [u8] {
    match name {
        "REQUEST" => REQUEST,
        "OUTPUT" => OUTPUT,
        "REPLY" => REPLY,
        "NO_OUTPUT" => NO_OUTPUT,
        "NO_SCRIPT" => NO_SCRIPT,
        "HANDSHAKE" => HANDSHAKE,
        other => act_named(other).as_bytes(),
    }
}

/// The bytes of a text of a table.
pub fn bytes_of(alloc: Global, table: &str, text: &str) -> Result<Vec<u8>, NoMemory> {
    match behind(text, "$") {
        None => unescaped(alloc, text),
        Some(name) => match text_of(table, name, " = ") {
            Some(text) => unescaped(alloc, text),
            None => Ok(Vec::from_slice(alloc, bytes_named(name))?),
        },
    }
}

/// The rows of a table that begin with a name, each from its name on.
pub fn named_rows(alloc: Global, table: &str) -> Result<Vec<&str>, NoMemory> {
    let mut rows = Vec::new(alloc);
    let mut first = true;
    for row in table.split("\n== ") {
        if !first {
            rows.push(row)?;
        }
        first = false;
    }
    Ok(rows)
}

/// The lines of the row of this name; none where there is no such row.
pub fn row_named<'t>(table: &'t str, name: &str) -> &'t str {
    for row in table.split("\n== ") {
        let (first, lines) = cut(row, "\n");
        if is(first, name) {
            return lines;
        }
    }
    ""
}

/// The beats of this name; none where there are none.
pub fn beats_named(name: &str) -> &'static str {
    row_named(PARTS, name)
}

/// The column of a row at this place, without the blanks round it.
pub fn column(row: &str, place: usize) -> &str {
    let mut at: usize = 0;
    for text in row.split('|') {
        if at == place {
            return text.trim();
        }
        at = at.saturating_add(1);
    }
    ""
}

pub fn size_of(text: &str) -> usize {
    text.parse::<usize>().unwrap_or(usize::MAX)
}

/// Whether a text begins with this mark.
pub fn begins(text: &str, mark: &str) -> bool {
    match behind(text, mark) {
        Some(_) => true,
        None => false,
    }
}

// Whether it is a row of a table of columns, and no comment and no text.
fn is_row(line: &str) -> bool {
    has(line, "|") && !begins(line, "//")
}

/// The rows of a table of columns.
pub fn rows_of(alloc: Global, table: &str) -> Result<Vec<&str>, NoMemory> {
    let lines = lines_in(alloc, table)?;
    let mut rows = Vec::new(alloc);
    for line in lines.as_slice() {
        if is_row(*line) {
            rows.push(*line)?;
        }
    }
    Ok(rows)
}

/// Whether an event stands in a line.
pub fn is_event(line: &str) -> bool {
    !line.is_empty() && !begins(line, " ") && !begins(line, "//")
}

// ---- events

fn number_of(text: &str) -> u64 {
    text.parse::<u64>().unwrap_or(0)
}

/// The three parts of an event in words: its name, the number of its connection or child, and what it brings.
pub fn parts(text: &str) -> (&str, &str, &str) {
    let (name, rest) = cut(text, " ");
    let (number, brought) = cut(rest, " ");
    (name, number, brought)
}

/// The numbers of an event or act in words, and its name.
pub fn numbers_in(text: &str) -> (&str, u64, u64) {
    let (name, number, count) = parts(text);
    (name, number_of(number), number_of(count))
}

fn of_child<'t>(name: &str, k: u64, count: u64, bytes: &'t [u8]) -> Option<Heard<'t>> {
    Some(match name {
        "Started" => Heard::Started(k),
        "StartFailed" => Heard::StartFailed(k),
        "StartFull" => Heard::StartFull(k, u32::try_from(count).ok()?),
        "Output" => Heard::Output(k, bytes),
        "OutputFill" | "ChildBytes" => Heard::OutputFill(k, count as usize),
        "OutputLong" => Heard::OutputLong(k, count as usize),
        "OutputEof" | "ChildEof" => Heard::OutputEof(k),
        "Broken" | "ChildBroken" => Heard::Broken(k),
        "Took" => Heard::Took(k, count),
        "InputGone" => Heard::InputGone(k),
        "Exited" => Heard::Exited(k),
        _ => return None,
    })
}

fn of_client<'t>(name: &str, c: u64, count: u64, bytes: &'t [u8]) -> Option<Heard<'t>> {
    Some(match name {
        "Accepted" => Heard::Accepted,
        "Client" => Heard::Client(c, bytes),
        "ClientFill" | "ClientBytes" => Heard::ClientFill(c, count as usize),
        "ClientEof" => Heard::ClientEof(c),
        "Gone" | "ClientGone" => Heard::Gone(c),
        "NoRoom" => Heard::NoRoom(c),
        "Wrote" => Heard::Wrote(c, count),
        "Tick" => Heard::Tick,
        "TickAt" => Heard::TickAt(c),
        "Ticks" => Heard::Ticks(u32::try_from(c).ok()?),
        "Stop" => Heard::Stop,
        _ => return None,
    })
}

fn of_talk<'t>(name: &str, c: u64, count: u64, bytes: &'t [u8]) -> Option<Heard<'t>> {
    Some(match name {
        "WsText" => Heard::WsText(c, bytes),
        "WsFill" => Heard::WsFill(c, count as usize),
        "WsBinary" => Heard::WsBinary(c),
        "WsClosed" => Heard::WsClosed(c),
        "WsBad" => Heard::WsBad(c),
        _ => return None,
    })
}

// The event of this name, of this connection or child, which brings so many or these bytes; none where no event has this
// name.
fn heard_of<'t>(name: &str, number: u64, count: u64, bytes: &'t [u8]) -> Option<Heard<'t>> {
    match of_child(name, number, count, bytes) {
        Some(heard) => Some(heard),
        None => match of_client(name, number, count, bytes) {
            Some(heard) => Some(heard),
            None => of_talk(name, number, count, bytes),
        },
    }
}

/// The event of a line, which brings these bytes.
pub fn heard_in<'t>(line: &str, bytes: &'t [u8]) -> Option<Heard<'t>> {
    let (name, number, count) = numbers_in(line);
    heard_of(name, number, count, bytes)
}

/// The event of a text in which of bytes only the number stands.
pub fn counted_in(text: &str) -> Option<Heard<'static>> {
    let (name, number, count) = numbers_in(text);
    let name = if is(name, "WsText") { "WsFill" } else { name };
    heard_of(name, number, count, b"")
}
