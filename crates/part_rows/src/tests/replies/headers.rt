// What headers are read as, whole and cut at each place.
use super::super::tables::{Cells, Rows, are_right, front_of, is, joined, repeated};
use super::ReplyRows;
use cgi_header::{CgiHead, Given, HdrStep, missing_cause, read_header};
use host_base::{Bytes, Cause, NoMemory};
use std::alloc::Global;
use std::test::Fail;

// A header, the code and the phrase that Status gives, what Location says, whether Content-Type stands, and the names and
// values of its fields. A `-` is for no Status and no Location.
const HEADERS: &str = r"
\n | - |  | - | no
\r\n | - |  | - | no
Content-Type: text/plain\n\n | - |  | - | yes | Content-Type | text/plain
Status: 204\nContent-Length: 99\n\n | 204 |  | - | no | Status | 204 | Content-Length | 99
Location: http://x/y\nSet-Cookie: a=1\n\n | - |  | http://x/y | no | Location | http://x/y | Set-Cookie | a=1
// LF and CRLF mixed.
A: 1\r\nB: 2\nC: 3\r\n\n | - |  | - | no | A | 1 | B | 2 | C | 3
A: 1\nB: 2\n\r\n | - |  | - | no | A | 1 | B | 2
// Blanks round a value, and a tab within it.
A:\t x\ty \t\nB:z\n\n | - |  | - | no | A | x\ty | B | z
!#$%&'*+-.^_`\x7c~09AZaz: \x80\xff ~!\n\n | - |  | - | no | !#$%&'*+-.^_`\x7c~09AZaz | \x80\xff ~!
Location:http://a:80/b:c\n\n | - |  | http://a:80/b:c | no | Location | http://a:80/b:c
// Names that are others.
Content-Type-X: 1\nX-Status: 2\nLocations: 3\nStatus_: 4\n\n | - |  | - | no | Content-Type-X | 1 | X-Status | 2 | Locations | 3 | Status_ | 4
// Fields that may stand twice.
Set-Cookie: a\nset-cookie: b\nSet-Cookie: a\n\n | - |  | - | no | Set-Cookie | a | set-cookie | b | Set-Cookie | a
// Fields without a value are not sent.
A:\nStatus:\nStatus: 201\nLocation: \t \nLocation: /x\ncontent-type:\n\n | 201 |  | /x | no | Status | 201 | Location | /x
Status: 201 Made\nSTATUS:  \nLOCATION: a\nlocation:\nContent-type: b\nContent-Type:\n\n | 201 | Made | a | yes | Status | 201 Made | LOCATION | a | Content-type | b
// Status (RFC 3875 6.3.3).
Status: 200\n\n | 200 |  | - | no | Status | 200
Status:200 OK\n\n | 200 | OK | - | no | Status | 200 OK
Status: 200\tOK\n\n | 200 | OK | - | no | Status | 200\tOK
status: \t404 \t Not  Here\t \n\n | 404 | Not  Here | - | no | status | 404 \t Not  Here
STATUS: 599 \xe9\n\n | 599 | \xe9 | - | no | STATUS | 599 \xe9
Status: 302 \n\n | 302 |  | - | no | Status | 302
Status: 200 200\n\n | 200 | 200 | - | no | Status | 200 200
Status: 299 a\nLocation: /a b\nContent-Type: c\n\n | 299 | a | /a b | yes | Status | 299 a | Location | /a b | Content-Type | c
X: Status: 300\n\n | - |  | - | no | X | Status: 300
Location: \xc3\xa4\n\n | - |  | \xc3\xa4 | no | Location | \xc3\xa4
A: \r\n\r\n | - |  | - | no
A::\n\n | - |  | - | no | A | :
";

// Headers that are refused, and the cause.
const FAULTS: &str = r#"
// No field line (RFC 3875 6.3).
Content-Type\n\n | HeaderLine
Content-Type : a\n\n | HeaderLine
Content-Type\t: a\n\n | HeaderLine
: a\n\n | HeaderLine
:\n\n | HeaderLine
\x20A: b\n\n | HeaderLine
\tA: b\n\n | HeaderLine
\x20\n\n | HeaderLine
A B: c\n\n | HeaderLine
A(: b\n\n | HeaderLine
\xc3\xa4: b\n\n | HeaderLine
"A": b\n\n | HeaderLine
// No line goes on in the next one.
A: b\n c\n\n | HeaderLine
A: b\r\n\tc\r\n\r\n | HeaderLine
// No byte of a value.
A: b\x7f\n\n | HeaderLine
A: \0\n\n | HeaderLine
A: \x1f\n\n | HeaderLine
A: b\x0b\n\n | HeaderLine
A: b\rc\n\n | HeaderLine
A: b\r\r\n\n | HeaderLine
\r\r\n\n | HeaderLine
HTTP/1.1 200 OK\r\nA: b\r\n\r\n | HeaderLine
// What stands once.
Status: 200 OK\nStatus: 404 X\n\n | HeaderRepeated
Status: 200\nA: b\nsTATUS: 200\n\n | HeaderRepeated
Content-Type: a\ncontent-TYPE: a\n\n | HeaderRepeated
Location: /a\nlocation: /a\n\n | HeaderRepeated
Status: 200\nStatus: x\n\n | HeaderRepeated
Location:\nLocation: a\nLocation:\nLocation: b\n\n | HeaderRepeated
// Status (RFC 3875 6.3.3).
Status: 199\n\n | BadStatus
Status: 600\n\n | BadStatus
Status: 100 Continue\n\n | BadStatus
Status: 2000\n\n | BadStatus
Status: 20\n\n | BadStatus
Status: 200OK\n\n | BadStatus
Status: 200: OK\n\n | BadStatus
Status: 2 0 OK\n\n | BadStatus
Status: OK\n\n | BadStatus
Status: +200\n\n | BadStatus
Status: 20a\n\n | BadStatus
Status: 2/0\n\n | BadStatus
Status: 0200\n\n | BadStatus
// The first faulty line.
Status: 20\nA\n\n | BadStatus
A\nStatus: 20\n\n | HeaderLine
Status: 200\nStatus: 201\nA\n\n | HeaderRepeated
Location: a\nStatus: x\nLocation: b\n\n | BadStatus
A:\nB\nStatus: 1\n\n | HeaderLine
"#;

fn is_status(given: &Option<Given>, row: &Cells) -> bool {
    match given {
        Some(given) => u64::from(given.code) == row.number(1)
            && is(given.phrase.as_slice(), row.at(2)),
        None => row.is(1, "-") && row.is(2, ""),
    }
}

fn is_location(given: &Option<Bytes>, row: &Cells) -> bool {
    match given {
        Some(given) => !row.is(3, "-") && is(given.as_slice(), row.at(3)),
        None => row.is(3, "-"),
    }
}

fn is_head(head: &CgiHead, row: &Cells) -> bool {
    row.are_fields(5, &head.fields)
        && is_status(&head.status, row)
        && is_location(&head.location, row)
        && row.says(4, head.has_type)
}

fn is_more(step: &Result<HdrStep, NoMemory>) -> bool {
    match step {
        Ok(HdrStep::More) => true,
        _ => false,
    }
}

fn is_bad(step: &Result<HdrStep, NoMemory>, cause: Cause) -> bool {
    match step {
        Ok(HdrStep::Bad(given)) => *given == cause,
        _ => false,
    }
}

fn is_bad_so(
    alloc: Global,
    step: &Result<HdrStep, NoMemory>,
    row: &Cells,
) -> Result<bool, NoMemory> {
    match step {
        Ok(HdrStep::Bad(given)) => row.names(alloc, 1, *given),
        _ => Ok(false),
    }
}

fn is_whole(step: &Result<HdrStep, NoMemory>, row: &Cells) -> bool {
    match step {
        Ok(HdrStep::Whole { head, used }) => *used == row.at(0).len() && is_head(head, row),
        _ => false,
    }
}

fn step_of(alloc: Global, front: &[u8]) -> Result<HdrStep, NoMemory> {
    read_header(alloc, front)
}

// Whether a front of so many bytes is More before the header ends, and the header from there on.
fn is_read_so(step: &Result<HdrStep, NoMemory>, row: &Cells, count: usize) -> bool {
    if count < row.at(0).len() {
        is_more(step)
    } else {
        is_whole(step, row)
    }
}

fn is_read_at(alloc: Global, row: &Cells, front: &[u8]) -> bool {
    is_read_so(&step_of(alloc, front), row, front.len())
}

fn is_read_at_each(alloc: Global, row: &Cells, output: &[u8]) -> bool {
    for count in 0..output.len() + 1 {
        if !is_read_at(alloc, row, front_of(output, count)) {
            return false;
        }
    }
    true
}

// Whether each front of the output is More before the header ends and the header from there on.
fn is_read_however_cut(alloc: Global, row: &Cells, body: &[u8]) -> Result<bool, NoMemory> {
    let output = joined(alloc, &[row.at(0), body])?;
    Ok(is_read_at_each(alloc, row, output.as_slice()))
}

fn is_refused_so(
    alloc: Global,
    step: &Result<HdrStep, NoMemory>,
    row: &Cells,
    count: usize,
) -> Result<bool, NoMemory> {
    if count < row.at(0).len() {
        Ok(is_more(step))
    } else {
        is_bad_so(alloc, step, row)
    }
}

fn is_refused_at(alloc: Global, row: &Cells, front: &[u8]) -> Result<bool, NoMemory> {
    is_refused_so(alloc, &step_of(alloc, front), row, front.len())
}

fn is_refused_at_each(alloc: Global, row: &Cells, output: &[u8]) -> Result<bool, NoMemory> {
    for count in 0..output.len() + 1 {
        if !is_refused_at(alloc, row, front_of(output, count))? {
            return Ok(false);
        }
    }
    Ok(true)
}

fn is_refused_however_cut(alloc: Global, row: &Cells, body: &[u8]) -> Result<bool, NoMemory> {
    let output = joined(alloc, &[row.at(0), body])?;
    is_refused_at_each(alloc, row, output.as_slice())
}

// The header, with nothing behind it and with something.
pub fn is_read_with_any(alloc: Global, row: &Cells) -> Result<bool, NoMemory> {
    Ok(is_read_however_cut(alloc, row, b"")? && is_read_however_cut(alloc, row, b"Status: x\n\n")?)
}

#[test]
fn headers_are_read_however_they_are_cut(rt: HostRuntime) -> Result<(), Fail> {
    are_right(&rt, rt.alloc(), HEADERS, 26, Rows::Reply(ReplyRows::Header))
}

// Whether the header is refused at each cut, with a field line behind it.
pub fn is_fault(alloc: Global, row: &Cells) -> Result<bool, NoMemory> {
    is_refused_however_cut(alloc, row, b"A: b\n\n")
}

#[test]
fn the_first_fault_is_the_cause(rt: HostRuntime) -> Result<(), Fail> {
    are_right(&rt, rt.alloc(), FAULTS, 46, Rows::Reply(ReplyRows::Fault))
}

// A field line and an empty one of so many bytes together, where there is room for them.
fn long_header(alloc: Global, count: usize, end: &[u8]) -> Result<Vec<u8>, NoMemory> {
    let len = count.saturating_sub(end.len().saturating_add(2));
    repeated(alloc, b"A:", b"a", len, end)
}

fn is_whole_at(step: &Result<HdrStep, NoMemory>, count: usize) -> bool {
    match step {
        Ok(HdrStep::Whole { used, .. }) => *used == count,
        _ => false,
    }
}

fn is_awaited(alloc: Global, header: &[u8]) -> bool {
    is_more(&step_of(alloc, header))
}

fn is_too_large(alloc: Global, header: &[u8]) -> bool {
    is_bad(&step_of(alloc, header), Cause::HeaderTooLarge)
}

fn is_read_whole(alloc: Global, header: &[u8]) -> bool {
    is_whole_at(&step_of(alloc, header), header.len())
}

fn all_but_one(header: &[u8]) -> &[u8] {
    front_of(header, header.len().saturating_sub(1))
}

// Whether a header of so many bytes is read whole, and awaited before its last byte.
fn is_within(alloc: Global, count: usize, end: &[u8]) -> Result<bool, NoMemory> {
    let header = long_header(alloc, count, end)?;
    let header = header.as_slice();
    let whole = header.len() == count && is_read_whole(alloc, header);
    Ok(whole && is_awaited(alloc, all_but_one(header)))
}

// Whether a header of one byte more than the limit is refused, and before its last byte too.
fn is_beyond(alloc: Global, end: &[u8]) -> Result<bool, NoMemory> {
    let header = long_header(alloc, 8193, end)?;
    let header = header.as_slice();
    Ok(is_too_large(alloc, header) && is_too_large(alloc, all_but_one(header)))
}

fn is_limited(alloc: Global, end: &[u8]) -> Result<bool, NoMemory> {
    let within = is_within(alloc, 8191, end)? && is_within(alloc, 8192, end)?;
    Ok(within && is_beyond(alloc, end)?)
}

#[test]
fn headers_up_to_the_limit(rt: HostRuntime) -> Result<(), Fail> {
    for end in [b"\n\n".as_slice(), b"\n\r\n", b"\r\n\r\n"] {
        assert!(rt; is_limited(rt.alloc(), end)?, "{end:?}");
    }
    Ok(())
}

// Whether a header without an empty line, and with nothing that could be one, is awaited, or else too large.
fn is_open(alloc: Global, count: usize, more: bool) -> Result<bool, NoMemory> {
    let header = long_header(alloc, count, b"")?;
    let header = header.as_slice();
    Ok(is_awaited(alloc, header) == more && is_too_large(alloc, header) != more)
}

#[test]
fn headers_without_an_end(rt: HostRuntime) -> Result<(), Fail> {
    for (count, more) in [(8191, true), (8192, false), (8193, false)] {
        assert!(rt; is_open(rt.alloc(), count, more)?, "{count}");
    }
    Ok(())
}

fn is_missing(output: &[u8], cause: Cause) -> bool {
    missing_cause(output) == cause
}

#[test]
fn what_is_missing_at_the_end(rt: HostRuntime) -> Result<(), Fail> {
    for (output, cause) in [
        (b"".as_slice(), Cause::NoOutput),
        (b"\r", Cause::HeaderIncomplete),
        (b"Content-Type: text/plain\n", Cause::HeaderIncomplete),
    ] {
        assert!(rt; is_missing(output, cause), "{cause:?}");
    }
    Ok(())
}
