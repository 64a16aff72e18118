// The head of a request.
ghost use Rattle.std.specs.Prelude.{◌≡◌, ◌+◌, ◌<◌, ◌≤◌, ◌^◌, IfOk, Some, length, slice_get};
ghost use Rattle.scgi_reader.specs.Scgi.{by_byte, by_fields, by_head, head_of};
ghost use Rattle.scgi_reader.specs.View.{IsWithin};

use crate::length::{digits_of, head_length};
use crate::pairs::{body_length, pairs_in};
use host_base::{Cause, Fields, Limits, NoMemory};
use std::alloc::Global;

/// The head of a request as far as it was heard.
#[derive(Drop, Debug)]
pub enum Head {
    /// It has not ended.
    More,
    /// No head begins so.
    Bad(Cause),
    /// It has ended.
    Whole(WholeHead),
}

/// A head that has ended.
#[derive(Drop, Debug)]
pub struct WholeHead {
    pub fields: Fields,
    /// How many bytes it has, from the first digit of its length to its comma.
    pub used: usize,
    /// How many bytes of body it announces.
    pub len: u64,
}

fn by_fields(
    alloc: Global,
    limits: &Limits,
    used: usize,
    fields: Option<Fields>,
) -> Result<Head, NoMemory>
    ensures { IfOk result (λ head. head ≡ by_fields limits.now used fields) }
{
    let Some(fields) = fields else {
        return Ok(Head::Bad(Cause::BadScgi));
    };
    match body_length(alloc, fields.as_slice())? {
        Some(len) if len > limits.body => Ok(Head::Bad(Cause::BodyTooLong)),
        Some(len) => Ok(Head::Whole(WholeHead { fields, used, len })),
        None => Ok(Head::Bad(Cause::BadScgi)),
    }
}

fn byte_at(bytes: &[u8], at: usize) -> Option<u8>
    ensures { result ≡ slice_get bytes.now at }
{
    bytes.get(at).copied()
}

// Where the byte behind the head is a comma.
fn by_comma(
    alloc: Global,
    limits: &Limits,
    start: usize,
    n: usize,
    rest: &[u8],
) -> Result<Head, NoMemory>
    requires size { start + length rest.now < 2 ^ 63 }
    requires within { n < length rest.now }
    ensures { IfOk result (λ head. head ≡ by_byte limits.now start n rest.now (Some 44)) }
{
    let fields = pairs_in(alloc, &rest[..n])?;
    by_fields(alloc, limits, start + n + 1, fields)
}

// By the bytes behind the colon, which stands before `start`, and of which n and a comma are the head.
fn by_head(
    alloc: Global,
    limits: &Limits,
    start: usize,
    n: u64,
    rest: &[u8],
) -> Result<Head, NoMemory>
    requires { start + length rest.now < 2 ^ 63 }
    ensures { IfOk result (λ head. head ≡ by_head limits.now start n rest.now) }
{
    let n = n as usize;
    match byte_at(rest, n) {
        None => Ok(Head::More),
        Some(b',') => by_comma(alloc, limits, start, n, rest),
        Some(_) => Ok(Head::Bad(Cause::BadScgi)),
    }
}

// By the length that they begin with.
fn by_size(alloc: Global, bytes: &[u8], limits: &Limits) -> Result<Head, NoMemory>
    ensures { IfOk result (λ head. head ≡ head_of limits.now bytes.now) }
{
    match head_length(bytes, limits.head) {
        Err(cause) => Ok(Head::Bad(cause)),
        Ok(None) => Ok(Head::More),
        Ok(Some(n)) => {
            let start = digits_of(bytes).len() + 1;
            by_head(alloc, limits, start, n, &bytes[start..])
        }
    }
}

/// The head that these bytes begin with. While its comma has not come no variable is looked at.
pub fn read_head(alloc: Global, bytes: &[u8], limits: &Limits) -> Result<Head, NoMemory>
    ensures exact { IfOk result (λ head. head ≡ head_of limits.now bytes.now) }
    ensures within { IfOk result (λ head. IsWithin bytes.now head) }
{
    by_size(alloc, bytes, limits)
}
