// The range of a file that is asked for (RFC 9110 14.1.2). None of this takes memory.
ghost use Rattle.std.specs.Prelude.{◌≡◌, ◌==◌, ◌<◌, ◌≤◌, length, IfSome, position};
ghost use Rattle.document_output.specs.Ranges.{is_dash, range_by, range_parts, range_spec, span_of};

use crate::numbers::number_in;
use crate::slices::after_prefix;

/// A range of bytes, as it is asked for: a range-spec of RFC 9110 14.1.2.
#[derive(Clone, Copy, Debug, PartialEq, Eq)]
pub enum RangeSpec {
    /// All bytes from a position on, which counts from 0.
    From { first: u64 },
    /// The bytes from a position to another, both included.
    Between { first: u64, last: u64 },
    /// So many bytes at the end.
    Suffix { length: u64 },
}

/// The bytes of a file that are answered: from a position to another, both included and counted from 0.
#[derive(Clone, Copy, Debug, PartialEq, Eq)]
pub struct Span {
    pub first: u64,
    pub last: u64,
}

fn range_by(first: &[u8], last: &[u8]) -> Option<RangeSpec>
    ensures { result ≡ range_by first.now last.now }
{
    match (number_in(first), number_in(last)) {
        (Some(from), Some(to)) => {
            if from <= to {
                Some(RangeSpec::Between {
                    first: from,
                    last: to,
                })
            } else {
                None
            }
        }
        (Some(from), None) => {
            if last.is_empty() {
                Some(RangeSpec::From { first: from })
            } else {
                None
            }
        }
        (None, Some(length)) => {
            if first.is_empty() {
                Some(RangeSpec::Suffix { length })
            } else {
                None
            }
        }
        (None, None) => None,
    }
}

fn dash_at(set: &[u8]) -> Option<usize>
    ensures { result ≡ position is_dash set.now }
{
    set.iter().position(|byte| *byte == b'-')
}

fn range_parts(set: &[u8]) -> Option<RangeSpec>
    ensures { result ≡ range_parts set.now }
{
    match dash_at(set) {
        Some(at) => range_by(&set[..at], &set[at + 1..]),
        None => None,
    }
}

/// The range that a value of Range asks for. Another unit, several ranges, numbers of more than 18 digits and
/// what is no range ask for none (RFC 9110 14.2).
pub fn range_spec(value: &[u8]) -> Option<RangeSpec>
    ensures { result ≡ range_spec value.now }
{
    match after_prefix(value, b"bytes=") {
        Some(set) => range_parts(set),
        None => None,
    }
}

/// The bytes of a file of `length` bytes that a range has, or None where it has none of them (RFC 9110 14.1.2).
pub fn span_of(range: RangeSpec, length: u64) -> Option<Span>
    ensures exact { result ≡ span_of range length }
    ensures within { IfSome result (λ span. (span.first ≤ span.last) × (span.last < length)) }
{
    match range {
        RangeSpec::From { first } if first < length => Some(Span {
            first,
            last: length - 1,
        }),
        RangeSpec::Between { first, last } if first < length && first <= last => Some(Span {
            first,
            last: last.min(length - 1),
        }),
        RangeSpec::Suffix { length: count } if count > 0 && length > 0 => Some(Span {
            first: length - count.min(length),
            last: length - 1,
        }),
        _ => None,
    }
}
