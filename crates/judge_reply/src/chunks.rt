// A body in chunks, read back (RFC 9112 7.1).
ghost use Rattle.std.specs.Prelude.{◌≡◌, Some, None, ◌<◌, ◌≤◌, ◌+◌, ◌-◌, ◌^◌, min, ℕ, List, Option, IfOk, length, drop, take, option_map, position, nat_eq, true, false, if◌then◌else◌};
ghost use Rattle.std.specs.List.{before_first, starts_with};
ghost use Rattle.reply_writer.specs.Chunks.{Chunks, chunk_text_of, chunks_of, first_content, hex_digit_value, hex_value, is_cr};

use host_base::{Bytes, NoMemory};
use reply_writer::chunk_text;
use std::alloc::Global;
use std::marker::Model;

/// What bytes are as chunks: their content joined, and whether the end mark follows.
#[derive(Drop)]
pub struct Found {
    pub content: Bytes,
    pub ended: bool,
}

impl Model for Found {
    ghost use Rattle.reply_writer.specs.Chunks.{Chunks};

    ghost Value = { Chunks };

    ghost view = { λ f. record { content = f.content; ended = f.ended } };
}

const END: &[u8] = b"0\r\n\r\n";

fn digit_value(digit: u8) -> u64
    ensures { result ≡ hex_digit_value digit }
{
    if digit < 97 {
        u64::from(digit.saturating_sub(48))
    } else {
        u64::from(digit - 87)
    }
}

// The number of hex digits, or the greatest where it is larger.
fn hex_value(text: &[u8]) -> u64
    ensures { result ≡ min (hex_value text.now) (2 ^ 64 - 1) }
{
    let mut value = 0_u64;
    for digit in text {
        value = value.saturating_mul(16).saturating_add(digit_value(*digit));
    }
    value
}

fn cr_at(bytes: &[u8]) -> Option<usize>
    ensures { result ≡ position is_cr bytes.now }
{
    bytes.iter().position(|byte| *byte == b'\r')
}

fn before_cr(bytes: &[u8]) -> &[u8]
    ensures { result.now ≡ before_first is_cr bytes.now }
{
    match cr_at(bytes) {
        Some(at) => &bytes[..at],
        None => bytes,
    }
}

// At most so many bytes.
fn front(bytes: &[u8], most: u64) -> &[u8]
    ensures { (n : ℕ) → most ≡ min n (2 ^ 64 - 1) → result.now ≡ take n bytes.now }
{
    if most < bytes.len() as u64 {
        &bytes[..most as usize]
    } else {
        bytes
    }
}

/// The bytes behind so many.
pub fn behind(bytes: &[u8], count: usize) -> &[u8]
    ensures { result.now ≡ drop count bytes.now }
{
    if count < bytes.len() {
        &bytes[count..]
    } else {
        &[]
    }
}

// The content of the first chunk, if the number that stands in front is its size.
fn first_content(bytes: &[u8]) -> &[u8]
    ensures { result.now ≡ first_content bytes.now }
{
    let size = before_cr(bytes);
    let value = hex_value(size);
    front(behind(bytes, size.len().saturating_add(2)), value)
}

// How many bytes a chunk of this content has, where these bytes begin with it.
fn chunk_len(alloc: Global, bytes: &[u8], content: &[u8]) -> Result<Option<usize>, NoMemory>
    requires { 0 < length content.now }
    ensures { IfOk result (λ len. len ≡ (if starts_with nat_eq bytes.now (chunk_text_of content.now) then Some (length (chunk_text_of content.now)) else None)) }
{
    let text = chunk_text(alloc, content)?;
    if bytes.starts_with(text.as_slice()) {
        Ok(Some(text.len()))
    } else {
        Ok(None)
    }
}

/// The chunks that bytes are, or none.
pub fn chunks_of(alloc: Global, bytes: &[u8]) -> Result<Option<Found>, NoMemory>
    ensures { IfOk result (λ found. found ≡ chunks_of bytes.now) }
{
    let mut content = Bytes::new(alloc);
    let mut rest = bytes;
    for _turn in 0..bytes.len() {
        if rest.is_empty() {
            return Ok(Some(Found {
                content,
                ended: false,
            }));
        }
        if rest == END {
            return Ok(Some(Found {
                content,
                ended: true,
            }));
        }
        let piece = first_content(rest);
        if piece.is_empty() {
            return Ok(None);
        }
        let Some(len) = chunk_len(alloc, rest, piece)? else {
            return Ok(None);
        };
        content.extend_from_slice(piece)?;
        rest = behind(rest, len);
    }
    if rest.is_empty() {
        return Ok(Some(Found {
            content,
            ended: false,
        }));
    }
    Ok(None)
}
