// The words of a field's list (RFC 9110 5.6.1). None of this takes memory.
ghost use Rattle.std.specs.Prelude.{◌≡◌, ◌+◌, ◌<◌, ◌≤◌, [], ◌∷◌, min, length, filter, position, IfSome, IfNone};
ghost use Rattle.std.specs.List.{list_any, slice_split};
ghost use Rattle.httparse.specs.Grammar.{trim_ows};
ghost use Rattle.host_base.specs.Ascii.{comma_words, is_comma, is_filled};
ghost use Rattle.host_base.specs.FieldLists.{field_words, is_named};
ghost use Rattle.body_framing.specs.Framing.{is_other_part, is_other_word};

use host_base::{Field, is_same_word, trim};

// Where the first comma stands.
fn comma_at(value: &[u8]) -> Option<usize>
    ensures { result ≡ position is_comma value.now }
{
    value.iter().position(|byte| *byte == b',')
}

// The part before the first comma, and what follows it.
fn cut_at_comma(value: &[u8]) -> Option<(&[u8], &[u8])>
    ensures alone { IfNone result (slice_split is_comma value.now ≡ value.now ∷ []) }
    ensures parts { IfSome result (λ cut. slice_split is_comma value.now ≡ cut.0.now ∷ slice_split is_comma cut.1.now) }
    ensures shorter { IfSome result (λ cut. length cut.1.now < length value.now) }
{
    match comma_at(value) {
        Some(at) => Some((&value[..at], &value[at + 1..])),
        None => None,
    }
}

// Whether a part between commas is a word other than this one.
fn is_other_part(part: &[u8], word: &[u8]) -> bool
    ensures { result ≡ is_other_part word.now part.now }
{
    let trimmed = trim(part);
    !trimmed.is_empty() && !is_same_word(word, trimmed)
}

fn has_other_part(value: &[u8], word: &[u8]) -> bool
    ensures { result ≡ list_any (is_other_part word.now) (slice_split is_comma value.now) }
{
    let mut rest = value;
    while let Some((part, more)) = cut_at_comma(rest) {
        if is_other_part(part, word) {
            return true;
        }
        rest = more;
    }
    is_other_part(rest, word)
}

// Whether a comma list has a word other than this one.
fn has_other_comma_word(value: &[u8], word: &[u8]) -> bool
    ensures { result ≡ list_any (is_other_word word.now) (comma_words value.now) }
{
    has_other_part(value, word)
}

// The lines of the field one by one.
fn has_other_in_line(fields: &[Field], name: &[u8], word: &[u8]) -> bool
    ensures { result ≡ list_any (λ f. list_any (is_other_word word.now) (comma_words f.value)) (filter (is_named name.now) fields.now) }
{
    fields
        .iter()
        .filter(|field| is_same_word(name, field.name.as_slice()))
        .any(|field| has_other_comma_word(field.value.as_slice(), word))
}

/// Whether the list of a field has a word other than this one; all without regard to ASCII case.
pub fn has_other_word(fields: &[Field], name: &[u8], word: &[u8]) -> bool
    ensures { result ≡ list_any (is_other_word word.now) (field_words name.now fields.now) }
{
    has_other_in_line(fields, name, word)
}

// The sum, or 2 where it is more.
fn sum_to_two(a: usize, b: usize) -> usize
    requires first { a ≤ 2 }
    requires second { b ≤ 2 }
    ensures { result ≡ min 2 (a + b) }
{
    (a + b).min(2)
}

// How many words a part between commas is.
fn count_word(part: &[u8]) -> usize
    ensures value { result ≡ length (filter is_filled (trim_ows part.now ∷ [])) }
    ensures small { result ≤ 1 }
{
    if trim(part).is_empty() { 0 } else { 1 }
}

// How many words a comma list has, or 2 where it has more.
fn count_words(value: &[u8]) -> usize
    ensures { result ≡ min 2 (length (comma_words value.now)) }
{
    let mut count = 0;
    let mut rest = value;
    while let Some((part, more)) = cut_at_comma(rest) {
        count = sum_to_two(count, count_word(part));
        rest = more;
    }
    sum_to_two(count, count_word(rest))
}

/// How many words the list of a field has, or 2 where it has more.
pub fn count_field_words(fields: &[Field], name: &[u8]) -> usize
    ensures { result ≡ min 2 (length (field_words name.now fields.now)) }
{
    let mut count = 0;
    for field in fields {
        if is_same_word(name, field.name.as_slice()) {
            count = sum_to_two(count, count_words(field.value.as_slice()));
        }
    }
    count
}
