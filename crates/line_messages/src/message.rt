// The messages of ended lines.
ghost use Rattle.std.specs.Prelude.{◌≡◌, ◌++◌, ◌∷◌, ◌≤◌, ◌<◌, true, false, length, IfOk, IfNone, IfSome, MatchOption};
ghost use Rattle.head_lines.specs.Lines.{HasNoLf};
ghost use Rattle.line_messages.specs.Lines.{has_long_line, is_long, lines_within, message_of, open_line};

use bstr::ByteSlice;
use head_lines::strip_cr;
use host_base::{NoMemory, Text, Texts};
use std::alloc::Global;

// The line up to the first LF, and what follows it.
pub fn cut_at_lf(bytes: &[u8]) -> Option<(&[u8], &[u8])>
    ensures none { IfNone result (HasNoLf bytes.now) }
    ensures line { IfSome result (λ cut. HasNoLf cut.0.now) }
    ensures parts { IfSome result (λ cut. bytes.now ≡ cut.0.now ++ 10 ∷ cut.1.now) }
{
    match bytes.iter().position(|byte| *byte == b'\n') {
        Some(at) => Some((&bytes[..at], &bytes[at + 1..])),
        None => None,
    }
}

// Whether a line of so many bytes is longer than the limit.
pub fn is_long(limit: u64, line: &[u8]) -> bool
    ensures { result ≡ is_long limit line.now }
{
    line.len() as u64 > limit
}

// The text of a line.
pub fn message(alloc: Global, line: &[u8]) -> Result<Text, NoMemory>
    ensures { IfOk result (λ text. text ≡ message_of line.now) }
{
    let mut text = String::new(alloc);
    strip_cr(line).to_str_lossy_into(&mut text)?;
    Ok(Text::from_string(text))
}

// Adds the messages of the lines that end in the bytes, and gives what stands behind the last LF; nothing
// where a line is too long.
pub fn push_lines<'a>(
    alloc: Global,
    texts: &mut Texts,
    limit: u64,
    bytes: &'a [u8],
) -> Result<Option<&'a [u8]>, NoMemory>
    ensures texts { IfOk result (λ left. texts.new ≡ texts.old ++ lines_within limit bytes.now) }
    ensures long { IfOk result (λ left. IfNone left (has_long_line limit bytes.now ≡ true)) }
    ensures within { IfOk result (λ left. IfSome left (λ line. has_long_line limit bytes.now ≡ false)) }
    ensures behind { IfOk result (λ left. IfSome left (λ line. line.now ≡ open_line bytes.now)) }
{
    let mut rest = bytes;
    while let Some((line, more)) = cut_at_lf(rest) {
        if is_long(limit, line) {
            return Ok(None);
        }
        texts.push(message(alloc, line)?)?;
        rest = more;
    }
    if is_long(limit, rest) {
        return Ok(None);
    }
    Ok(Some(rest))
}
