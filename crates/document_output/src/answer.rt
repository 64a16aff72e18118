// How a document is answered (RFC 9110 15).
ghost use Rattle.std.specs.Prelude.{◌≡◌, [], unwrap_or, option_map, codes, length};
ghost use Rattle.std.specs.Option.{option_copied};
ghost use Rattle.document_output.specs.Output.{method_of, is_get, is_read, asked_range, range_answer, found_answer, answer_of, bytes_of};

use crate::range::{RangeSpec, Span, range_spec, span_of};
use crate::read::DocRead;
use crate::values::named_value;
use host_base::Pair;

/// How a document is answered.
#[derive(Clone, Copy, Debug, PartialEq, Eq)]
pub enum Answer {
    /// 405: the method is neither GET nor HEAD (RFC 9110 15.5.6).
    MethodNotAllowed,
    /// 404: no regular file stands at the path (RFC 9110 15.5.5).
    NotFound,
    /// 416: the file has none of the bytes that are asked for (RFC 9110 15.5.17).
    NotSatisfiable,
    /// 206: some bytes of the file (RFC 9110 15.3.7).
    Part(Span),
    /// 200: the whole file.
    Whole,
}

fn is_get(method: &[u8]) -> bool
    ensures { result ≡ is_get method.now }
{
    method == b"GET".as_slice()
}

fn is_read(method: &[u8]) -> bool
    ensures { result ≡ is_read method.now }
{
    is_get(method) || method == b"HEAD".as_slice()
}

fn method_of(env: &[Pair]) -> &[u8]
    ensures { result.now ≡ method_of env.now }
{
    match named_value(env, b"REQUEST_METHOD") {
        Some(method) => method.as_bytes(),
        None => b"",
    }
}

fn asked_range(env: &[Pair]) -> Option<RangeSpec>
    ensures { result ≡ asked_range env.now }
{
    if named_value(env, b"HTTP_IF_RANGE").is_some() {
        return None;
    }
    match named_value(env, b"HTTP_RANGE") {
        Some(value) => range_spec(value.as_bytes()),
        None => None,
    }
}

fn range_answer(range: Option<RangeSpec>, length: u64) -> Answer
    ensures { result ≡ range_answer range length }
{
    match range {
        Some(range) => match span_of(range, length) {
            Some(span) => Answer::Part(span),
            None => Answer::NotSatisfiable,
        },
        None => Answer::Whole,
    }
}

fn found_answer(ranged: bool, range: Option<RangeSpec>, found: Option<u64>) -> Answer
    ensures { result ≡ found_answer ranged range found }
{
    match found {
        Some(length) if ranged => range_answer(range, length),
        Some(_) => Answer::Whole,
        None => Answer::NotFound,
    }
}

// The length of what was found.
fn length_of(found: &DocRead) -> Option<u64>
    ensures { result ≡ option_map length (bytes_of found.now) }
{
    match found {
        DocRead::Found(bytes) => Some(bytes.len() as u64),
        DocRead::Missing => None,
    }
}

// The answer to a request, by what stands at its path.
pub fn answer_to(env: &[Pair], found: &DocRead) -> Answer
    ensures { result ≡ answer_of (method_of env.now) (asked_range env.now) (option_map length (bytes_of found.now)) }
{
    let method = method_of(env);
    if !is_read(method) {
        return Answer::MethodNotAllowed;
    }
    found_answer(is_get(method), asked_range(env), length_of(found))
}
