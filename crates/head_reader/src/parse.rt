// A head whose bytes have all come.
ghost use Rattle.std.specs.Prelude.{◌≡◌, ◌≤◌, All, length, map, Some, IfOk, OnErr, IsSome};
ghost use Rattle.httparse.specs.Grammar.{RequestHead};
ghost use Rattle.httparse.specs.Spans.{IsHeaderWithin, IsRequestWithin, IsRequestAt};
ghost use Rattle.head_lines.specs.Lines.{Front, front_of};
ghost use Rattle.head_reader.specs.RequestHead.{head_of};
ghost use Rattle.head_reader.specs.HeadLaws.{parsed_head, version_named};
ghost use Rattle.head_reader.specs.HeadSpans.{field_at};

use host_base::{Bytes, Field, Fields, Head, NoMemory, Version};
use httparse::Status;
use httparse::spans::{EMPTY_HEADER_SPAN, HeaderSpan, RequestSpans, parse_request};
use std::alloc::Global;

// The field that the spans cover.
fn copy_field(alloc: Global, bytes: &[u8], span: HeaderSpan) -> Result<Field, NoMemory>
    requires { IsHeaderWithin (length bytes.now) span }
    ensures { IfOk result (λ field. field ≡ field_at bytes.now span) }
{
    Ok(Field {
        name: Bytes::from_slice(alloc, span.name.of(bytes))?,
        value: Bytes::from_slice(alloc, span.value.of(bytes))?,
    })
}

// The fields that the spans cover.
fn copy_fields(alloc: Global, bytes: &[u8], spans: &[HeaderSpan]) -> Result<Fields, NoMemory>
    requires { All (IsHeaderWithin (length bytes.now)) spans.now }
    ensures { IfOk result (λ fields. fields ≡ map (field_at bytes.now) spans.now) }
{
    let mut fields = Fields::with_capacity(alloc, spans.len())?;
    for span in spans {
        fields.push(copy_field(alloc, bytes, *span)?)?;
    }
    Ok(fields)
}

fn version_of(minor: u8) -> Version
    ensures { result ≡ version_named minor }
{
    if minor == 0 {
        Version::V10
    } else {
        Version::V11
    }
}

// The head that the parser found.
fn copy_head(
    alloc: Global,
    bytes: &[u8],
    spans: &[HeaderSpan],
    found: RequestSpans,
) -> Result<Head, NoMemory>
    requires { IsRequestWithin bytes.now spans.now found }
    ensures { IfOk result (λ head. (r : RequestHead) → IsRequestAt bytes.now spans.now found r → head ≡ parsed_head r) }
{
    let method = Bytes::from_slice(alloc, found.method.of(bytes))?;
    let target = Bytes::from_slice(alloc, found.path.of(bytes))?;
    let fields = copy_fields(alloc, bytes, &spans[..found.headers])?;
    Ok(Head {
        method,
        target,
        version: version_of(found.version),
        fields,
    })
}

// How many field lines a head may have.
const MOST_FIELDS: usize = 100;

// The head whose bytes these are, up to and with its empty line and of at most MOST_FIELDS field lines, or None.
pub fn parse_head(alloc: Global, bytes: &[u8]) -> Result<Option<Head>, NoMemory>
    ensures exact { IfOk result (λ head. (front : Front) → front_of bytes.now ≡ Some front → front.len ≡ length bytes.now
        → length front.lines ≤ 101 → head ≡ head_of front.lines) }
    ensures memory { OnErr result ((front : Front) → front_of bytes.now ≡ Some front → front.len ≡ length bytes.now
        → IsSome (head_of front.lines)) }
{
    let mut spans = [EMPTY_HEADER_SPAN; MOST_FIELDS];
    match parse_request(bytes, &mut spans) {
        Ok(Status::Complete(found)) => Ok(Some(copy_head(alloc, bytes, &spans, found)?)),
        Ok(Status::Partial) => Ok(None),
        Err(_) => Ok(None),
    }
}
