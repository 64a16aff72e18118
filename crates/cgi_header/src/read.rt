// The reading of a header.
ghost use Rattle.std.specs.Prelude.{◌≡◌, ◌≤◌, ◌++◌, [], length, take, is_some, Some, IsTrue, IfOk, IfSome, OnErr, option_copied};
ghost use Rattle.std.specs.List.{list_any};
ghost use Rattle.host_base.specs.FieldLists.{is_named};
ghost use Rattle.head_lines.specs.Lines.{Front, front_of, front_len};
ghost use Rattle.head_reader.specs.RequestHead.{field_of};
ghost use Rattle.cgi_header.specs.ScriptHeader.{most_header, is_cgi_field, fault_of, fault_of_field, sent_fields, fields_of_lines, first_fault, head_of, value_named, read_header, missing_cause, step_by_fault};
ghost use Rattle.cgi_header.specs.HeaderLines.{Answers};

use crate::field_line::read_field;
use crate::lines::cut_line;
use crate::status::{is_status, read_status};
use crate::{CgiHead, Given, HdrStep};
use head_lines::Search;
use host_base::{Bytes, Cause, Field, Fields, NoMemory, Refusal, is_same_word};
use std::alloc::Global;

const MOST_HEADER: usize = 8192;

fn is_named(field: &Field, name: &[u8]) -> bool
    ensures { result ≡ is_named name.now field.now }
{
    is_same_word(name, field.name.as_slice())
}

fn has_named(fields: &[Field], name: &[u8]) -> bool
    ensures { result ≡ list_any (is_named name.now) fields.now }
{
    fields.iter().any(|field| is_named(field, name))
}

fn is_cgi_field(field: &Field) -> bool
    ensures { result ≡ is_cgi_field field.now }
{
    is_named(field, b"Content-Type") || is_named(field, b"Location") || is_named(field, b"Status")
}

// Why a field is refused that stands after others.
fn fault_of(before: &[Field], field: &Field) -> Option<Cause>
    ensures { result ≡ fault_of_field before.now field.now }
{
    if is_cgi_field(field) && has_named(before, field.name.as_slice()) {
        Some(Cause::HeaderRepeated)
    } else if is_named(field, b"Status") && !is_status(field.value.as_slice()) {
        Some(Cause::BadStatus)
    } else {
        None
    }
}

// Adds the field that a line is, unless it has no value.
fn read_line(alloc: Global, fields: &mut Fields, line: &[u8]) -> Result<(), Refusal>
    ensures { Answers (fault_of fields.old (field_of line.now)) (λ _. fields.new ≡ fields.old ++ sent_fields (field_of line.now)) result }
{
    let Some(field) = read_field(alloc, line)? else {
        return Err(Refusal::Cause(Cause::HeaderLine));
    };
    if field.value.is_empty() {
        return Ok(());
    }
    if let Some(cause) = fault_of(fields.as_slice(), &field) {
        return Err(Refusal::Cause(cause));
    }
    fields.push(field)?;
    Ok(())
}

// The fields of a header that ends with its empty line.
fn read_fields(alloc: Global, header: &[u8]) -> Result<Fields, Refusal>
    ensures { (front : Front) → front_of header.now ≡ Some front
        → Answers (first_fault [] front.lines) (λ fields. fields ≡ fields_of_lines front.lines) result }
{
    let mut fields = Fields::new(alloc);
    let mut rest = header;
    while let Some((line, more)) = cut_line(rest) {
        if line.is_empty() {
            break;
        }
        read_line(alloc, &mut fields, line)?;
        rest = more;
    }
    Ok(fields)
}

// The first field of a name.
fn first_named<'a>(fields: &'a [Field], name: &[u8]) -> Option<&'a [u8]>
    ensures { option_copied result ≡ value_named name.now fields.now }
{
    for field in fields {
        if is_named(field, name) {
            return Some(field.value.as_slice());
        }
    }
    None
}

fn copy_location(alloc: Global, fields: &[Field]) -> Result<Option<Bytes>, NoMemory>
    ensures { IfOk result (λ location. location ≡ (head_of fields.now).location) }
{
    match first_named(fields, b"Location") {
        Some(location) => Ok(Some(Bytes::from_slice(alloc, location)?)),
        None => Ok(None),
    }
}

fn copy_status(alloc: Global, fields: &[Field]) -> Result<Option<Given>, NoMemory>
    ensures { IfOk result (λ status. status ≡ (head_of fields.now).status) }
{
    match first_named(fields, b"Status") {
        Some(value) => read_status(alloc, value),
        None => Ok(None),
    }
}

fn head_of(alloc: Global, fields: Fields) -> Result<CgiHead, NoMemory>
    ensures { IfOk result (λ head. head ≡ head_of fields) }
{
    let status = copy_status(alloc, fields.as_slice())?;
    let location = copy_location(alloc, fields.as_slice())?;
    let has_type = has_named(fields.as_slice(), b"Content-Type");
    Ok(CgiHead {
        fields,
        status,
        location,
        has_type,
    })
}

// What a header is that ends with its empty line.
fn read_whole(alloc: Global, header: &[u8]) -> Result<HdrStep, NoMemory>
    ensures { IfOk result (λ step. (front : Front) → front_of header.now ≡ Some front → front.len ≡ length header.now
        → step ≡ step_by_fault front.len front.lines (first_fault [] front.lines)) }
{
    match read_fields(alloc, header) {
        Ok(fields) => Ok(HdrStep::Whole {
            head: head_of(alloc, fields)?,
            used: header.len(),
        }),
        Err(Refusal::Cause(cause)) => Ok(HdrStep::Bad(cause)),
        Err(Refusal::NoMemory) => Err(NoMemory),
    }
}

// The first bytes, up to so many.
fn first(output: &[u8], most: usize) -> &[u8]
    ensures { result.now ≡ take most output.now }
{
    if output.len() <= most {
        output
    } else {
        &output[..most]
    }
}

// Where the header ends, with its empty line.
fn header_len(output: &[u8]) -> Option<usize>
    ensures value { result ≡ front_len (take most_header output.now) }
    ensures within { IfSome result (λ len. len ≤ length output.now) }
{
    Search::new().front_end(first(output, MOST_HEADER))
}

/// What all bytes of an output so far begin with (RFC 3875 6.2 and 6.3). A line ends at LF, and one CR
/// before it belongs to the line end. Memory is taken only where an empty line ends in the first 8,192
/// bytes.
pub fn read_header(alloc: Global, buf: &[u8]) -> Result<HdrStep, NoMemory>
    ensures exact { IfOk result (λ step. step ≡ read_header buf.now) }
    ensures memory { OnErr result (IsTrue (is_some (front_of (take most_header buf.now)))) }
{
    match header_len(buf) {
        Some(used) => read_whole(alloc, &buf[..used]),
        None if buf.len() >= MOST_HEADER => Ok(HdrStep::Bad(Cause::HeaderTooLarge)),
        None => Ok(HdrStep::More),
    }
}

/// Why an output is refused that ends where `read_header` answers `More`: it is empty, or its header is
/// incomplete.
pub fn missing_cause(buf: &[u8]) -> Cause
    ensures { result ≡ missing_cause buf.now }
{
    if buf.is_empty() {
        Cause::NoOutput
    } else {
        Cause::HeaderIncomplete
    }
}
