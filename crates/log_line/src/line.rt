// A line of the log.
ghost use Rattle.std.specs.Prelude.{◌≡◌, ◌<◌, ◌++◌, true, decimal, OnOk};
ghost use Rattle.std.specs.Fmt.{digit_glyph};
ghost use Rattle.log_line.specs.Line.{closing, dropped_text, is_plain, line_of, opening, or_dash, quoted, remark_text, shown, shown_byte, status_text, LinesAreSingle};

use crate::time::push_time;
use crate::{Entry, Remark};
use host_base::{Bytes, Cause, NoMemory};
use itoa::Buffer;

fn is_plain(byte: u8) -> bool
    ensures { result ≡ is_plain byte }
{
    (b' '..=b'~').contains(&byte) && byte != b'"' && byte != b'\\'
}

fn glyph(digit: u8) -> u8
    requires { digit < 16 }
    ensures { result ≡ digit_glyph true digit }
{
    if digit < 10 {
        b'0' + digit
    } else {
        b'A' + (digit - 10)
    }
}

fn push_byte(line: &mut Bytes, byte: u8) -> Result<(), NoMemory>
    ensures { OnOk result (line.new ≡ line.old ++ shown_byte byte) }
{
    if is_plain(byte) {
        return line.push(byte);
    }
    line.extend_from_slice(b"\\x")?;
    line.push(glyph(byte / 16))?;
    line.push(glyph(byte % 16))
}

fn push_shown(line: &mut Bytes, text: &[u8]) -> Result<(), NoMemory>
    ensures { OnOk result (line.new ≡ line.old ++ shown text.now) }
{
    for byte in text {
        push_byte(line, *byte)?;
    }
    Ok(())
}

fn or_dash(text: &[u8]) -> &[u8]
    ensures { result.now ≡ or_dash text.now }
{
    if text.is_empty() { b"-" } else { text }
}

fn push_quoted(line: &mut Bytes, text: &[u8]) -> Result<(), NoMemory>
    ensures { OnOk result (line.new ≡ line.old ++ quoted text.now) }
{
    line.extend_from_slice(b"\"")?;
    push_shown(line, or_dash(text))?;
    line.extend_from_slice(b"\"")
}

fn push_number(line: &mut Bytes, number: u64) -> Result<(), NoMemory>
    ensures { OnOk result (line.new ≡ line.old ++ decimal number) }
{
    let mut digits = Buffer::new();
    line.extend_from_slice(digits.format(number).as_bytes())
}

fn push_status(line: &mut Bytes, status: Option<u16>) -> Result<(), NoMemory>
    ensures { OnOk result (line.new ≡ line.old ++ status_text status) }
{
    match status {
        Some(code) => push_number(line, u64::from(code)),
        None => line.extend_from_slice(b"-"),
    }
}

fn push_cut(line: &mut Bytes, cause: Cause) -> Result<(), NoMemory>
    ensures { OnOk result (line.new ≡ line.old ++ remark_text (Remark.Cut cause)) }
{
    line.extend_from_slice(b"\"cut off: ")?;
    push_shown(line, cause.text().as_bytes())?;
    line.extend_from_slice(b"\"")
}

fn push_remark(line: &mut Bytes, remark: Remark) -> Result<(), NoMemory>
    ensures { OnOk result (line.new ≡ line.old ++ remark_text remark) }
{
    match remark {
        Remark::Whole => line.extend_from_slice(b"-"),
        Remark::Own(cause) => push_quoted(line, cause.text().as_bytes()),
        Remark::Bare => line.extend_from_slice(b"\"own reply\""),
        Remark::Cut(cause) => push_cut(line, cause),
        Remark::Gone => line.extend_from_slice(b"\"client gone\""),
        Remark::Stopped => line.extend_from_slice(b"\"server stopped\""),
        Remark::NoMemory => line.extend_from_slice(b"\"out of memory\""),
    }
}

fn push_dropped(line: &mut Bytes, dropped: u64) -> Result<(), NoMemory>
    ensures { OnOk result (line.new ≡ line.old ++ dropped_text dropped) }
{
    if dropped == 0 {
        return Ok(());
    }
    line.extend_from_slice(b" dropped=")?;
    push_number(line, dropped)
}

// What the common log format has: the client, nobody's name twice, the time, the request line, the status, the bytes.
fn push_common(line: &mut Bytes, entry: &Entry) -> Result<(), NoMemory>
    ensures { OnOk result (line.new ≡ line.old ++ opening entry.now) }
{
    push_shown(line, or_dash(entry.peer.as_bytes()))?;
    line.extend_from_slice(b" - - [")?;
    push_time(line, entry.began)?;
    line.extend_from_slice(b"] ")?;
    push_quoted(line, entry.request.as_slice())?;
    line.extend_from_slice(b" ")?;
    push_status(line, entry.status)?;
    line.extend_from_slice(b" ")?;
    push_number(line, entry.bytes)
}

// What it has behind that.
fn push_rest(line: &mut Bytes, entry: &Entry) -> Result<(), NoMemory>
    ensures { OnOk result (line.new ≡ line.old ++ closing entry.now) }
{
    line.extend_from_slice(b" ")?;
    push_quoted(line, entry.script.as_bytes())?;
    line.extend_from_slice(b" ")?;
    push_number(line, entry.millis)?;
    line.extend_from_slice(b" ")?;
    push_remark(line, entry.remark)?;
    push_dropped(line, entry.dropped)
}

/// Adds the line of an entry, with its line end.
pub fn push_line(line: &mut Bytes, entry: &Entry) -> Result<(), NoMemory>
    ensures { OnOk result (line.new ≡ line.old ++ line_of entry.now) }
{
    push_common(line, entry)?;
    push_rest(line, entry)?;
    line.extend_from_slice(b"\n")
}

/// Whatever an entry holds, a client's bytes among it, its line has one line end, which is its last byte.
pub fn lines_are_single()
    ensures { LinesAreSingle }
{}
