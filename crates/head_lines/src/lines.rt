// Lines of a text: one without its CR, the first one, and how many end.
ghost use Rattle.std.specs.Prelude.{◌≡◌, length, count_by, position};
ghost use Rattle.head_lines.specs.Lines.{without_cr, is_lf, first_line};

/// What stands before the LF of a line, without one CR at its end.
pub fn strip_cr(part: &[u8]) -> &[u8]
    ensures { result.now ≡ without_cr part.now }
{
    let count = part.len();
    if count > 0 && part[count - 1] == b'\r' {
        &part[..count - 1]
    } else {
        part
    }
}

// Where the first LF stands.
fn lf_at(text: &[u8]) -> Option<usize>
    ensures { result ≡ position is_lf text.now }
{
    text.iter().position(|byte| *byte == b'\n')
}

/// The first line without its end; all of the text, without one CR at its end, where no line ends.
pub fn first_line(text: &[u8]) -> &[u8]
    ensures { result.now ≡ first_line text.now }
{
    match lf_at(text) {
        Some(end) => strip_cr(&text[..end]),
        None => strip_cr(text),
    }
}

/// How many lines end in the text.
pub fn line_count(text: &[u8]) -> usize
    ensures { result ≡ count_by is_lf text.now }
{
    text.iter().filter(|byte| **byte == b'\n').count()
}
