// Where a reader stands within a chunked body (RFC 9112 7.1).
ghost use Rattle.std.specs.Prelude.{◌≡◌, ◌+◌, ◌*◌, ◌<◌, nat_lt, nat_le, if◌then◌else◌};
ghost use Rattle.body_framing.specs.Places.{most_digits, after_data, after_digit, after_extension, after_line, after_other, after_trailer, after_trailer_line, is_done, is_extension_start, is_text, place_after};

use host_base::{Cause, hex_digit};

// Hexadecimal digits of a size line, bytes of its extension, and bytes of all trailer lines without their ends.
const MOST_DIGITS: u64 = 16;

const MOST_EXTENSION: u64 = 256;

const MOST_TRAILERS: u64 = 8192;

/// The place of the next byte within a chunked body.
#[derive(Clone, Copy, Debug, PartialEq, Eq)]
pub enum Place {
    /// In the digits of a size line, of which so many stand before it, and their value.
    Size { digits: u64, size: u64 },
    /// In the extension of a size line, of which so many bytes stand before it.
    Extension { size: u64, count: u64 },
    /// At the LF of a size line.
    SizeEnd { size: u64 },
    /// In the data of a chunk, with so many bytes of it behind this one.
    Data { left: u64 },
    /// At the CR behind the data of a chunk.
    DataEnd,
    /// At the LF behind the data of a chunk.
    DataLf,
    /// In the trailer lines, of which so many bytes stand before it; `filled` within a line.
    Trailer { total: u64, filled: bool },
    /// At the LF of a trailer line, or of the last CRLF.
    TrailerEnd { total: u64, filled: bool },
    /// Behind the body.
    End,
    /// Behind a byte that can't stand where it stood.
    Bad(Cause),
}

// What stands within a line: no CR, LF or NUL.
fn is_text(byte: u8) -> bool
    ensures { result ≡ is_text byte }
{
    !(byte == b'\r' || (byte == b'\n' || byte == 0))
}

fn is_extension_start(byte: u8) -> bool
    ensures { result ≡ is_extension_start byte }
{
    byte == b';' || (byte == b' ' || byte == b'\t')
}

// Sixteen times the size and a digit, where that is within the room.
fn with_digit(room: u64, size: u64, digit: u8) -> Option<u64>
    requires { digit < 16 }
    ensures { result ≡ (if nat_le (size * 16 + digit) room then Some (size * 16 + digit) else None) }
{
    let size = size.checked_mul(16)?.checked_add(u64::from(digit))?;
    if size <= room { Some(size) } else { None }
}

fn after_digit(room: u64, digits: u64, size: u64, digit: u8) -> Place
    requires { digit < 16 }
    ensures { result ≡ (if nat_lt digits most_digits then after_digit room digits (size * 16 + digit) else Place.Bad Cause.BadChunk) }
{
    if digits >= MOST_DIGITS {
        return Place::Bad(Cause::BadChunk);
    }
    match with_digit(room, size, digit) {
        Some(size) => Place::Size {
            digits: digits + 1,
            size,
        },
        None => Place::Bad(Cause::BodyTooLong),
    }
}

fn after_other(digits: u64, size: u64, byte: u8) -> Place
    ensures { result ≡ after_other digits size byte }
{
    if digits == 0 {
        Place::Bad(Cause::BadChunk)
    } else if byte == b'\r' {
        Place::SizeEnd { size }
    } else if is_extension_start(byte) {
        Place::Extension { size, count: 1 }
    } else {
        Place::Bad(Cause::BadChunk)
    }
}

fn after_extension(size: u64, count: u64, byte: u8) -> Place
    ensures { result ≡ after_extension size count byte }
{
    if byte == b'\r' {
        Place::SizeEnd { size }
    } else if is_text(byte) && count < MOST_EXTENSION {
        Place::Extension {
            size,
            count: count + 1,
        }
    } else {
        Place::Bad(Cause::BadChunk)
    }
}

fn after_line(size: u64) -> Place
    ensures { result ≡ after_line size }
{
    if size == 0 {
        Place::Trailer {
            total: 0,
            filled: false,
        }
    } else {
        Place::Data { left: size - 1 }
    }
}

fn after_trailer(total: u64, filled: bool, byte: u8) -> Place
    ensures { result ≡ after_trailer total filled byte }
{
    if byte == b'\r' {
        Place::TrailerEnd { total, filled }
    } else if is_text(byte) && total < MOST_TRAILERS {
        Place::Trailer {
            total: total + 1,
            filled: true,
        }
    } else {
        Place::Bad(Cause::BadChunk)
    }
}

// The place, where the byte is the one that has to stand before it.
fn only_after(is_there: bool, place: Place) -> Place
    ensures { result ≡ (if is_there then place else Place.Bad Cause.BadChunk) }
{
    if is_there {
        place
    } else {
        Place::Bad(Cause::BadChunk)
    }
}

fn after_data(left: u64) -> Place
    ensures { result ≡ after_data left }
{
    if left == 0 {
        Place::DataEnd
    } else {
        Place::Data { left: left - 1 }
    }
}

fn after_trailer_line(total: u64, filled: bool) -> Place
    ensures { result ≡ after_trailer_line total filled }
{
    if filled {
        Place::Trailer {
            total,
            filled: false,
        }
    } else {
        Place::End
    }
}

// The place that follows a byte, where so many bytes of data may still come.
pub fn place_after(room: u64, place: Place, byte: u8) -> Place
    ensures { result ≡ place_after room place byte }
{
    match place {
        Place::Size { digits, size } => match hex_digit(byte) {
            Some(digit) => after_digit(room, digits, size, digit),
            None => after_other(digits, size, byte),
        },
        Place::Extension { size, count } => after_extension(size, count, byte),
        Place::SizeEnd { size } => only_after(byte == b'\n', after_line(size)),
        Place::Data { left } => after_data(left),
        Place::DataEnd => only_after(byte == b'\r', Place::DataLf),
        Place::DataLf => only_after(byte == b'\n', Place::Size { digits: 0, size: 0 }),
        Place::Trailer { total, filled } => after_trailer(total, filled, byte),
        Place::TrailerEnd { total, filled } => {
            only_after(byte == b'\n', after_trailer_line(total, filled))
        }
        Place::End => Place::End,
        Place::Bad(cause) => Place::Bad(cause),
    }
}

// Whether nothing is read any more.
pub fn is_done(place: Place) -> bool
    ensures { result ≡ is_done place }
{
    match place {
        Place::End | Place::Bad(_) => true,
        _ => false,
    }
}
