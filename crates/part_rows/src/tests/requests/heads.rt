// What heads are read as: whole, byte by byte, and cut in two at each place.
ghost use Rattle.std.specs.Prelude.{◌≤◌, length};

use super::super::tables::{Cells, Rows, are_right, is, is_field, repeated};
use super::RequestRows;
use head_lines::Search;
use head_reader::{HeadStep, read_head, read_head_from};
use host_base::{Cause, Field, Head, Limits, NoMemory, Version};
use std::alloc::Global;
use std::test::Fail;

// Bytes, after how many of them the answer comes (`never`: there is none), and its cause; no cause for a whole head.
const HEADS: &str = r"
| never | -
\r | never | -
\r\n | never | -
GET / HTTP/1.1\r\n | never | -
GET / HTTP/1.1\r\n\r | never | -
GET / HTTP/1.1\r\n\r\n | 18 | -
GET / HTTP/1.0\n\nGET | 16 | -
GET / HTTP/1.1\nA: b\r\n\nrest | 22 | -
GET / HTTP/1.1\r\nHost: a\r\n\r\nrest | 27 | -
GET / HTTP/1.1\r\nA:\r\n\r\n | 22 | -
GET / HTTP/1.1\r\nA: \x80\xff\t~\r\n\r\n | 27 | -
GET /\xc3\xa9 HTTP/1.1\r\n\r\n | 20 | -
\r\nGET / HTTP/1.1\r\n\r\n | 20 | -
\r\n\r\nGET / HTTP/1.1\r\n\r\n | 4 | BadHead
\r\n\nGET / HTTP/1.1\r\n\r\n | 3 | BadHead
\nGET / HTTP/1.1\r\n\r\n | 1 | BadHead
\rGET / HTTP/1.1\r\n\r\n | 19 | BadHead
\r\r\nGET / HTTP/1.1\r\n\r\n | 21 | BadHead
G\0T / HTTP/1.1\r\n\r\n | 18 | BadHead
GET / HTTP/1.1\r\nA: \0\r\n\r\n | 24 | BadHead
GET / HTTP/1.1\r\nA: \x7f\r\n\r\n | 24 | BadHead
GET / HTTP/1.1\r\nA: b\rc\r\n\r\n | 26 | BadHead
GET / HTTP/1.1\r\nA: b\r\r\n\r\n | 25 | BadHead
GET / HTTP/1.1\r\nA: b\r\n c\r\n\r\n | 28 | BadHead
GET / HTTP/1.1\r\n \r\n\r\n | 21 | BadHead
GET / HTTP/1.1\r\nA : b\r\n\r\n | 25 | BadHead
GET / HTTP/1.1\r\n: b\r\n\r\n | 23 | BadHead
GET / HTTP/1.1\r\nA\r\n\r\n | 21 | BadHead
GET /\r\n\r\n | 9 | BadHead
GET / HTTP/0.9\r\n\r\n | 18 | BadHead
GET / HTTP/1.2\r\n\r\n | 18 | BadHead
GET / HTTP/2.0\r\n\r\n | 18 | BadHead
GET / http/1.1\r\n\r\n | 18 | BadHead
GET  / HTTP/1.1\r\n\r\n | 19 | BadHead
GET / HTTP/1.1 \r\n\r\n | 19 | BadHead
GET /\xff HTTP/1.1\r\n\r\n | 19 | BadHead
";

// A text with a part that is repeated: what stands before it, the part, how often, what follows, and
// the answer as in the table above. The limits are the least that a site may have.
const LONG_HEADS: &str = r"
GET / HTTP/1.1\r\nA:\x20 | a | 1000 | \r\n\r\n | 1023 | -
GET / HTTP/1.1\r\nA:\x20 | a | 1001 | \r\n\r\n | 1024 | -
GET / HTTP/1.1\r\nA:\x20 | a | 1002 | \r\n\r\n | 1024 | HeadTooLong
\r\nGET / HTTP/1.1\r\nA:\x20 | a | 1001 | \r\n\r\n | 1026 | -
\r\nGET / HTTP/1.1\r\nA:\x20 | a | 1002 | \r\n\r\n | 1026 | HeadTooLong
| a | 1023 |  | never | -
| a | 1024 |  | 1024 | HeadTooLong
| a | 1025 | \r\n\r\n | 1024 | HeadTooLong
GET / | a | 63 | \x20HTTP/1.1\r\n\r\n | 81 | -
GET / | a | 64 | \x20HTTP/1.1\r\n\r\n | 82 | TargetTooLong
G@T / | a | 64 | \x20HTTP/3.0 x\r\n\r\n | 84 | TargetTooLong
GET / HTTP/1.1\r\n | A:\r\n | 100 | \r\n | 418 | -
GET / HTTP/1.1\r\n | A:\r\n | 101 | \r\n | 422 | TooManyFields
GET / HTTP/3.0\r\n | A\0\r\n | 101 | \r\n | 422 | TooManyFields
GET /aaaaaaaaaaaaaaaaaaaaaaaaaaaaaaaaaaaaaaaaaaaaaaaaaaaaaaaaaaaaaaaa HTTP/1.1\r\n | A:\r\n | 101 | \r\n | 486 | TargetTooLong
GET /aaaaaaaaaaaaaaaaaaaaaaaaaaaaaaaaaaaaaaaaaaaaaaaaaaaaaaaaaaaaaaaa\r\n | A:\r\n | 101 | \r\n | 477 | TooManyFields
GET / | a | 64 | \r\n\r\n | 73 | BadHead
GET / | a | 64 | \x20\r\n\r\n | 74 | TargetTooLong
\x20 | a | 65 | \x20\r\n\r\n | 71 | TargetTooLong
G | a | 65 | \x20/ HTTP/3.0\r\n\r\n | 81 | BadHead
";

fn least_limits() -> Limits {
    let mut limits = Limits::default();
    limits.head = 1024;
    limits.target = 64;
    limits
}

// Whether so many bytes have the answer that they should have.
fn is_right(step: &HeadStep, count: usize, end: usize, cause: Option<Cause>) -> bool {
    match step {
        HeadStep::More => count < end,
        HeadStep::Whole { used, .. } => count >= end && cause.is_none() && *used == end,
        HeadStep::Bad(found) => count >= end && cause == Some(*found),
    }
}

// Whether each front of the text has the right answer, by a search that goes on from the shorter ones.
fn is_right_by_bytes(
    alloc: Global,
    text: &[u8],
    end: usize,
    cause: Option<Cause>,
) -> Result<bool, NoMemory> {
    let limits = least_limits();
    let mut search = Search::new();
    for count in 0..text.len() + 1 {
        let step = read_head_from(alloc, &text[..count], &limits, &mut search)?;
        if !is_right(&step, count, end, cause) {
            return Ok(false);
        }
    }
    Ok(true)
}

// Whether the text has the right answer where its first `cut` bytes came before the others.
fn is_right_at_cut(
    alloc: Global,
    text: &[u8],
    cut: usize,
    limits: &Limits,
    end: usize,
    cause: Option<Cause>,
) -> Result<bool, NoMemory>
    requires { cut ≤ length text.now }
{
    let mut search = Search::new();
    let front = read_head_from(alloc, &text[..cut], limits, &mut search)?;
    let whole = read_head_from(alloc, text, limits, &mut search)?;
    Ok(is_right(&front, cut, end, cause) && is_right(&whole, text.len(), end, cause))
}

// Whether the text has the right answer, also where it came in two pieces.
fn is_right_in_two(
    alloc: Global,
    text: &[u8],
    end: usize,
    cause: Option<Cause>,
) -> Result<bool, NoMemory> {
    let limits = least_limits();
    for cut in 0..text.len() {
        if !is_right_at_cut(alloc, text, cut, &limits, end, cause)? {
            return Ok(false);
        }
    }
    Ok(is_right(&read_head(alloc, text, &limits)?, text.len(), end, cause))
}

// Whether a text has the answer however it is cut.
fn is_right_however_cut(
    alloc: Global,
    text: &[u8],
    end: usize,
    cause: Option<Cause>,
) -> Result<bool, NoMemory> {
    Ok(is_right_by_bytes(alloc, text, end, cause)? && is_right_in_two(alloc, text, end, cause)?)
}

pub fn is_head(alloc: Global, row: &Cells) -> Result<bool, NoMemory> {
    is_right_however_cut(alloc, row.at(0), row.size(1), row.cause(2))
}

#[test]
fn heads_and_causes_however_they_are_cut(rt: HostRuntime) -> Result<(), Fail> {
    are_right(&rt, rt.alloc(), HEADS, 36, Rows::Request(RequestRows::Head))
}

pub fn is_long_head(alloc: Global, row: &Cells) -> Result<bool, NoMemory> {
    let times = row.size(2).min(100_000);
    let text = repeated(alloc, row.at(0), row.at(1), times, row.at(3))?;
    is_right_however_cut(alloc, text.as_slice(), row.size(4), row.cause(5))
}

#[test]
fn the_limits_edges_however_they_are_cut(rt: HostRuntime) -> Result<(), Fail> {
    are_right(
        &rt,
        rt.alloc(),
        LONG_HEADS,
        20,
        Rows::Request(RequestRows::LongHead),
    )
}

fn has_both_fields(fields: &[Field]) -> bool {
    match fields {
        [host, other] => is_field(host, b"Host", b"") && is_field(other, b"X-Y", b"b c"),
        _ => false,
    }
}

fn has_its_words(head: &Head) -> bool {
    is(head.method.as_slice(), b"PUT")
        && is(head.target.as_slice(), b"/a?b")
        && head.version == Version::V10
        && has_both_fields(head.fields.as_slice())
}

fn is_put(step: &HeadStep) -> bool {
    match step {
        HeadStep::Whole { head, .. } => has_its_words(head),
        _ => false,
    }
}

#[test]
fn a_head_keeps_its_words(rt: HostRuntime) -> Result<(), Fail> {
    let bytes = b"PUT /a?b HTTP/1.0\r\nHost:\r\nX-Y: \t b c \r\n\r\n";
    let step = read_head(rt.alloc(), bytes, &least_limits())?;
    assert!(rt; is_put(&step));
    Ok(())
}
