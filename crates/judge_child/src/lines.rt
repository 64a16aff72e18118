// Whether a line is too long.
ghost use Rattle.std.specs.Prelude.{◌≡◌, ◌∷◌, ◌<◌, [], length, IfNone, IfSome};
ghost use Rattle.std.specs.List.{position, slice_split};
ghost use Rattle.host_trace.specs.Decider.{has_long_line, is_line_feed};

fn lf_at(bytes: &[u8]) -> Option<usize>
    ensures { result ≡ position is_line_feed bytes.now }
{
    bytes.iter().position(|byte| *byte == b'\n')
}

// The first line, without its LF, and what follows it.
fn cut_line(bytes: &[u8]) -> Option<(&[u8], &[u8])>
    ensures alone { IfNone result (slice_split is_line_feed bytes.now ≡ bytes.now ∷ []) }
    ensures parts { IfSome result (λ cut. slice_split is_line_feed bytes.now ≡ cut.0.now ∷ slice_split is_line_feed cut.1.now) }
    ensures shorter { IfSome result (λ cut. length cut.1.now < length bytes.now) }
{
    match lf_at(bytes) {
        Some(at) => Some((&bytes[..at], &bytes[at + 1..])),
        None => None,
    }
}

/// Whether more bytes than `most` stand in a row without LF.
pub fn has_long_line(most: u64, bytes: &[u8]) -> bool
    ensures { result ≡ has_long_line most bytes.now }
{
    let mut rest = bytes;
    while let Some((line, more)) = cut_line(rest) {
        if line.len() as u64 > most {
            return true;
        }
        rest = more;
    }
    rest.len() as u64 > most
}
