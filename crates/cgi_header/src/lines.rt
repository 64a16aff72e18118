// The lines of a header one by one.
ghost use Rattle.std.specs.Prelude.{◌≡◌, ◌<◌, length, position, IfNone, IfSome};
ghost use Rattle.head_lines.specs.Lines.{HasNoLf, is_lf};
ghost use Rattle.cgi_header.specs.HeaderLines.{IsCutLine};

use head_lines::strip_cr;

// Where the first line ends.
fn lf_at(text: &[u8]) -> Option<usize>
    ensures { result ≡ position is_lf text.now }
{
    text.iter().position(|byte| *byte == b'\n')
}

// The first line without its end, and what follows it.
pub fn cut_line(text: &[u8]) -> Option<(&[u8], &[u8])>
    ensures none { IfNone result (HasNoLf text.now) }
    ensures cut { IfSome result (λ cut. IsCutLine text.now cut.0.now cut.1.now) }
    ensures shorter { IfSome result (λ cut. length cut.1.now < length text.now) }
{
    match lf_at(text) {
        Some(at) => Some((strip_cr(&text[..at]), &text[at + 1..])),
        None => None,
    }
}
