// Reading a head from the bytes so far.
ghost use Rattle.std.specs.Prelude.{◌≡◌, ◌≤◌, ◌++◌, ℕ, List, length, min, take, drop, Some, IfOk, IfNone, OnErr, IsTrue};
ghost use Rattle.head_lines.specs.Lines.{Front, front_of, front_len};
ghost use Rattle.head_reader.specs.declared.step.HeadStep.TheVariants as Step;
ghost use Rattle.head_reader.specs.RequestHead.{leading_crlf, step_at_end, read_head, is_whole, IsSearchedHead};

use crate::HeadStep;
use crate::parse::parse_head;
use crate::request_line::target_len;
use head_lines::{Search, line_count};
use host_base::{Cause, Limits, NoMemory};
use std::alloc::Global;

// The request line, 100 field lines and the empty line.
const MOST_LINES: usize = 102;

// How many bytes one leading CRLF takes.
fn leading_len(buf: &[u8]) -> usize
    ensures value { result ≡ leading_crlf buf.now }
    ensures within { result ≤ length buf.now }
{
    match buf {
        [b'\r', b'\n', ..] => 2,
        _ => 0,
    }
}

// The first bytes of the text, up to the limit.
fn within(text: &[u8], limit: u64) -> &[u8]
    ensures { result.now ≡ take limit text.now }
{
    if text.len() as u64 <= limit {
        text
    } else {
        &text[..limit as usize]
    }
}

// The answer on a head that has ended.
fn judge(alloc: Global, head: &[u8], used: usize, limits: &Limits) -> Result<HeadStep, NoMemory>
    ensures exact { IfOk result (λ step. (front : Front) → front_of head.now ≡ Some front → front.len ≡ length head.now
        → step ≡ step_at_end limits.now used front) }
    ensures memory { OnErr result ((front : Front) → front_of head.now ≡ Some front → front.len ≡ length head.now
        → IsTrue (is_whole (step_at_end limits.now used front))) }
{
    if target_len(head) as u64 > limits.target {
        return Ok(HeadStep::Bad(Cause::TargetTooLong));
    }
    if line_count(head) > MOST_LINES {
        return Ok(HeadStep::Bad(Cause::TooManyFields));
    }
    match parse_head(alloc, head)? {
        Some(head) => Ok(HeadStep::Whole { head, used }),
        None => Ok(HeadStep::Bad(Cause::BadHead)),
    }
}

// Where the first empty line ends, within the limit. Whether one CR alone is of a leading CRLF is not
// known yet, so nothing is kept of it.
fn find_end(buf: &[u8], limits: &Limits, search: &mut Search) -> Option<usize>
    requires { IsSearchedHead limits.now buf.now search.old }
    ensures value { result ≡ front_len (take limits.now.head (drop (leading_crlf buf.now) buf.now)) }
    ensures kept { (more : List ℕ) → IsSearchedHead limits.now (buf.now ++ more) search.new }
    ensures looked { IfNone result (2 ≤ length buf.now
        → search.new.seen ≡ length (take limits.now.head (drop (leading_crlf buf.now) buf.now))) }
{
    let text = within(&buf[leading_len(buf)..], limits.head);
    let found = search.front_end(text);
    if buf.len() < 2 {
        *search = Search::new();
    }
    found
}

/// Reads the head at the front of the bytes so far (RFC 9112 2.1), of which the search has looked at
/// some. One CRLF before it is dropped, and counts in `used` alone. `limits.head` bounds the head with its
/// empty line, `limits.target` the request target, both in bytes. After `More` call it again with more
/// bytes and the same search; after a whole head the next one needs a new search.
pub fn read_head_from(
    alloc: Global,
    buf: &[u8],
    limits: &Limits,
    search: &mut Search,
) -> Result<HeadStep, NoMemory>
    requires { IsSearchedHead limits.now buf.now search.old }
    ensures exact { IfOk result (λ step. step ≡ read_head limits.now buf.now) }
    // Nothing but a whole head takes memory.
    ensures memory { OnErr result (IsTrue (is_whole (read_head limits.now buf.now))) }
    // The search may go on from there when more bytes have come.
    ensures kept { (more : List ℕ) → IsSearchedHead limits.now (buf.now ++ more) search.new }
    // It has looked at all bytes.
    ensures looked { read_head limits.now buf.now ≡ Step.More → 2 ≤ length buf.now
        → search.new.seen ≡ length (drop (leading_crlf buf.now) buf.now) }
{
    let before = leading_len(buf);
    let text = &buf[before..];
    match find_end(buf, limits, search) {
        Some(len) => judge(alloc, &text[..len], before + len, limits),
        None if text.len() as u64 >= limits.head => Ok(HeadStep::Bad(Cause::HeadTooLong)),
        None => Ok(HeadStep::More),
    }
}

/// Reads the head at the front of the bytes so far, as `read_head_from` with a new search.
pub fn read_head(alloc: Global, buf: &[u8], limits: &Limits) -> Result<HeadStep, NoMemory>
    ensures exact { IfOk result (λ step. step ≡ read_head limits.now buf.now) }
    // Nothing but a whole head takes memory.
    ensures memory { OnErr result (IsTrue (is_whole (read_head limits.now buf.now))) }
{
    read_head_from(alloc, buf, limits, &mut Search::new())
}
