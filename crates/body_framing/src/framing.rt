// How the body of a request is delimited (RFC 9112 6.3).
ghost use Rattle.std.specs.Prelude.{◌≡◌, ◌==◌, Ok, Err, filter, find, codes, if◌then◌else◌};
ghost use Rattle.std.specs.List.{list_all};
ghost use Rattle.std.specs.Option.{option_copied};
ghost use Rattle.host_base.specs.FieldLists.{field_words, is_named, values_named};
ghost use Rattle.body_framing.specs.Framing.{framing_by_codings, framing_by_lengths, framing_by_number, framing_of, has_field, is_codings_refused, is_length, number_of};

use crate::lengths::{is_length, length_digits, number_of};
use crate::words::{count_field_words, has_other_word};
use host_base::{Cause, Field, Framing, Head, Limits, Version, is_same_word};

fn has_field(fields: &[Field], name: &[u8]) -> bool
    ensures { result ≡ has_field name.now fields.now }
{
    fields
        .iter()
        .any(|field| is_same_word(name, field.name.as_slice()))
}

// By the transfer codings.
fn framing_by_codings(fields: &[Field]) -> Result<Framing, Cause>
    ensures { result ≡ framing_by_codings (field_words (codes "Transfer-Encoding") fields.now) }
{
    let count = count_field_words(fields, b"Transfer-Encoding");
    framing_by(
        has_other_word(fields, b"Transfer-Encoding", b"chunked"),
        count,
    )
}

fn framing_by(is_other: bool, count: usize) -> Result<Framing, Cause>
    ensures { result ≡ (if is_other then Err Cause.CodingUnknown else (if count == 1 then Ok Framing.Chunked else Err Cause.BadFraming)) }
{
    if is_other {
        Err(Cause::CodingUnknown)
    } else if count == 1 {
        Ok(Framing::Chunked)
    } else {
        Err(Cause::BadFraming)
    }
}

fn first_named<'a>(fields: &'a [Field], name: &[u8]) -> Option<&'a Field>
    ensures { option_copied result ≡ find (is_named name.now) fields.now }
{
    fields
        .iter()
        .find(|field| is_same_word(name, field.name.as_slice()))
}

// The lines of Content-Length one by one.
fn are_lengths(digits: &[u8], fields: &[Field]) -> bool
    ensures { result ≡ list_all (λ f. is_length digits.now f.value) (filter (is_named (codes "Content-Length")) fields.now) }
{
    fields
        .iter()
        .filter(|field| is_same_word(b"Content-Length", field.name.as_slice()))
        .all(|field| is_length(digits, field.value.as_slice()))
}

fn framing_by_number(limit: u64, digits: &[u8]) -> Result<Framing, Cause>
    ensures { result ≡ framing_by_number limit (number_of digits.now) }
{
    match number_of(digits) {
        Some(number) if number <= limit => Ok(Framing::Length(number)),
        _ => Err(Cause::BodyTooLong),
    }
}

// By the digits of a length, where all lengths are the same.
fn framing_if_same(is_same: bool, limit: u64, digits: &[u8]) -> Result<Framing, Cause>
    ensures { result ≡ (if is_same then framing_by_number limit (number_of digits.now) else Err Cause.BadFraming) }
{
    if is_same {
        framing_by_number(limit, digits)
    } else {
        Err(Cause::BadFraming)
    }
}

// By the values of Content-Length.
fn framing_by_lengths(limit: u64, fields: &[Field]) -> Result<Framing, Cause>
    ensures { result ≡ framing_by_lengths limit (values_named (codes "Content-Length") fields.now) }
{
    let Some(first) = first_named(fields, b"Content-Length") else {
        return Ok(Framing::Empty);
    };
    match length_digits(first.value.as_slice()) {
        Some(digits) => framing_if_same(are_lengths(digits, fields), limit, digits),
        None => Err(Cause::BadFraming),
    }
}

// Whether a transfer coding may not stand in the head.
fn is_codings_refused(head: &Head) -> bool
    ensures { result ≡ is_codings_refused head.now }
{
    head.version == Version::V10 || has_field(head.fields.as_slice(), b"Content-Length")
}

/// How the body of a request is delimited (RFC 9112 6.3). Where a Transfer-Encoding field stands:
/// `BadFraming` in HTTP/1.0 or beside a Content-Length field, then `CodingUnknown` where its list has a
/// coding other than chunked, then `BadFraming` where the list is not exactly chunked. Else, where a
/// Content-Length field stands: `BadFraming` where a value is not of digits or two values differ, then
/// `BodyTooLong` above `limits.body`. Else there is no body.
pub fn framing_of(head: &Head, limits: &Limits) -> Result<Framing, Cause>
    ensures { result ≡ framing_of head.now limits.now }
{
    let fields = head.fields.as_slice();
    if !has_field(fields, b"Transfer-Encoding") {
        framing_by_lengths(limits.body, fields)
    } else if is_codings_refused(head) {
        Err(Cause::BadFraming)
    } else {
        framing_by_codings(fields)
    }
}
