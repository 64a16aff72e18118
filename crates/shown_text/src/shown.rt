// A text as a line shows it.
ghost use Rattle.std.specs.Prelude.{◌≡◌, ◌<◌, Some};
ghost use Rattle.shown_text.specs.Shown.{shown, shown_char, escaped, is_hidden};

use std::fmt;

/// A text with each byte of a control, of a mark of direction (an embedding, override or isolate) and of `\` as `\x` and
/// two upper-case hex digits, so that it stands in one line, moves nothing on a terminal and reads back.
#[derive(Clone, Copy)]
pub struct Shown<'s>(pub &'s str);

// One character of such a text.
#[derive(Clone, Copy)]
struct ShownChar(char);

// One byte that is not shown as it is.
#[derive(Clone, Copy)]
struct Escaped {
    byte: u8,
    ghost small: { byte < 256 },
}

fn escaped_byte(byte: u8) -> Escaped
    ensures { result.byte ≡ byte }
{
    Escaped { byte }
}

impl fmt::Display for Shown<'_> {
    ghost output = { λ text. Some (shown text.0.now) };

    fn fmt<W: fmt::Write>(&self, f: &mut fmt::Formatter<W>) -> fmt::Result {
        let mut rest = self.0.chars();
        while let Some(c) = rest.next() {
            f.write(ShownChar(c))?;
        }
        Ok(())
    }
}

// A character that is not shown as it is.
fn is_hidden(c: char) -> bool
    ensures { result ≡ is_hidden c }
{
    c < ' '
        || (c >= '\x7f' && c <= '\u{9f}')
        || (c >= '\u{202a}' && c <= '\u{202e}')
        || (c >= '\u{2066}' && c <= '\u{2069}')
        || c == '\\'
}

impl fmt::Display for ShownChar {
    ghost output = { λ c. Some (shown_char c.0) };

    fn fmt<W: fmt::Write>(&self, f: &mut fmt::Formatter<W>) -> fmt::Result {
        let c = self.0;
        if !is_hidden(c) {
            return f.write_char(c);
        }
        let mut room = [0; 4];
        for byte in c.encode_utf8(&mut room).as_bytes() {
            f.write(escaped_byte(*byte))?;
        }
        Ok(())
    }
}

impl fmt::Display for Escaped {
    ghost output = { λ it. Some (escaped it.byte) };

    fn fmt<W: fmt::Write>(&self, f: &mut fmt::Formatter<W>) -> fmt::Result {
        write!(f, "\\x{:02X}", self.byte)
    }
}
