// What outputs derive, whole and cut at each place.
ghost use Rattle.std.specs.Prelude.{◌≢◌};

use super::super::tables::{Cells, Rows, are_right, front_of, is, joined};
use super::ReplyRows;
use cgi_header::{CgiHead, HdrStep, read_header};
use host_base::{Cause, NoMemory, Reply, ScriptKind};
use reply_kinds::{Derived, ReplyKind, derive, kind_of, reply_of};
use std::alloc::Global;
use std::test::Fail;

// A header, the kind, the status and the phrase of its reply, whether what follows it is the body, and the names and values of the
// reply's fields.
const REPLIES: &str = r#"
// No Location (RFC 3875 6.2.1).
Content-Type: text/plain\n\n | Document | 200 | OK | yes | Content-Type | text/plain
Status: 404\n\n | Document | 404 | Not Found | yes
Status: 404 Nothing\nContent-Type: a\n\n | Document | 404 | Nothing | yes | Content-Type | a
// A local path with Status.
Location: /x\nStatus: 303\n\n | Document | 303 | See Other | yes | Location | /x
Location: /x\nContent-Type: a\nStatus: 201 Made\n\n | Document | 201 | Made | yes | Location | /x | Content-Type | a
// A path that is not local, with Status.
Location: /a b\nStatus: 303\n\n | Document | 303 | See Other | yes | Location | /a b
Location: /\xc3\xa4\nContent-Type: a\nStatus: 303\n\n | Document | 303 | See Other | yes | Location | /\xc3\xa4 | Content-Type | a
// Another URI alone (RFC 3875 6.2.3).
Location: http://x/y\nSet-Cookie: a=1\n\n | Redirect | 302 | Found | no | Location | http://x/y | Set-Cookie | a=1
Location: /x#y\n\n | Redirect | 302 | Found | no | Location | /x#y
Location: x/y\n\n | Redirect | 302 | Found | no | Location | x/y
Location: a b#/c\n\n | Redirect | 302 | Found | no | Location | a b#/c
Location: #\n\n | Redirect | 302 | Found | no | Location | #
// Another URI with a document (RFC 3875 6.2.4).
Location: http://x/y\nContent-Type: a\n\n | RedirectDocument | 302 | Found | yes | Location | http://x/y | Content-Type | a
Location: http://x/y\nStatus: 301\n\n | RedirectDocument | 301 | Moved Permanently | yes | Location | http://x/y
Content-Type: a\nStatus: 302 Over there\nLocation: http://x/y\n\n | RedirectDocument | 302 | Over there | yes | Content-Type | a | Location | http://x/y
Location: /x#y\nContent-Type: a\n\n | RedirectDocument | 302 | Found | yes | Location | /x#y | Content-Type | a
Location: /a b#\nStatus: 307\n\n | RedirectDocument | 307 | Temporary Redirect | yes | Location | /a b#
Location: /#\nStatus: 307 X\nContent-Type: a\n\n | RedirectDocument | 307 | X | yes | Location | /# | Content-Type | a
// 205 has no body; 204 and 304 leave theirs to the writer.
Status: 205\n\n | Document | 205 | Reset Content | no
Status: 205 Clear\nContent-Type: a\n\n | Document | 205 | Clear | no | Content-Type | a
Status: 205\nLocation: http://x/\n\n | RedirectDocument | 205 | Reset Content | no | Location | http://x/
Status: 204\nContent-Length: 99\n\n | Document | 204 | No Content | yes
Status: 304\nETag: "a"\n\n | Document | 304 | Not Modified | yes | ETag | "a"
// Phrases.
Status: 299\n\n | Document | 299 | Status | yes
Status: 599 \n\n | Document | 599 | Status | yes
Status: 200\tFine  by me\t\n\n | Document | 200 | Fine  by me | yes
// Fields that are not handed on, in any case.
Content-Type: text/plain\nContent-Length: 99\nTransfer-Encoding: x\nX-CGI-A: 1\n\n | Document | 200 | OK | yes | Content-Type | text/plain
Status: 200\ncontent-length: 1\nTRANSFER-ENCODING: chunked\nConnection: close\nkeep-alive: 1\nProxy-connection: a\nte: trailers\nTRAILER: A\nupgrade: b\n\n | Document | 200 | OK | yes
Status: 200\nX-CGI-: 1\nx-cgi-a: 2\nX-cGi-Content-Type: 3\n\n | Document | 200 | OK | yes
// Others are, in their order and spelling.
Set-Cookie: a\nStatus: 200\nset-cookie: b\nDate: c\nServer: d\nSet-Cookie: a\n\n | Document | 200 | OK | yes | Set-Cookie | a | set-cookie | b | Date | c | Server | d | Set-Cookie | a
Status: 200\nX-CGI: 1\nX-CGIA: 2\nXX-CGI-A: 3\nX-CGI_A: 4\nContent-Lengths: 5\nTEs: 6\nT: 7\nTrailers: 8\nKeep_Alive: 9\n\n | Document | 200 | OK | yes | X-CGI | 1 | X-CGIA | 2 | XX-CGI-A | 3 | X-CGI_A | 4 | Content-Lengths | 5 | TEs | 6 | T | 7 | Trailers | 8 | Keep_Alive | 9
Location: http://x/\nConnection: close\nVia: a\nContent-Length: 3\n\n | Redirect | 302 | Found | no | Location | http://x/ | Via | a
// Fields without a value are not sent.
Location:\nStatus:\nContent-Type: a\r\nVia:\r\n\r\n | Document | 200 | OK | yes | Content-Type | a
Content-Type:\nStatus: 200\nStatus:\n\n | Document | 200 | OK | yes
"#;

// Headers of local redirects (RFC 3875 6.2.2), and where they go.
const HOPS: &str = r"
Location: /cgi-bin/hello\n\n | /cgi-bin/hello
Location: /\n\n | /
Location: /x?a=b&c=%23\r\n\r\n | /x?a=b&c=%23
Content-Type: a\nLocation: //b/../c!~\n\n | //b/../c!~
Set-Cookie: a\nlocation: \t/x \nX-CGI-A: b\n\n | /x
Location: /x\nStatus:\n\n | /x
";

// Headers that are refused, and the cause.
const REFUSED: &str = r"
\n | NoneOfThree
\r\n | NoneOfThree
X: 1\n\n | NoneOfThree
Content-Type:\nLocation: \nStatus:\t\n\n | NoneOfThree
Content-Length: 0\n\n | NoneOfThree
Location: /a b\n\n | BadLocation
Location: /a b\nContent-Type: a\n\n | BadLocation
Location: /a\tb\n\n | BadLocation
Location: /\xc3\xa4\n\n | BadLocation
Status: 199\n\n | BadStatus
Status: 600\nContent-Type: a\n\n | BadStatus
Location: /x\nStatus: 30\n\n | BadStatus
Content-Type : a\n\n | HeaderLine
Content-Type: a\n b\n\n | HeaderLine
HTTP/1.1 200 OK\r\nContent-Type: a\r\n\r\n | HeaderLine
Status: 200 OK\nStatus: 404 X\n\n | HeaderRepeated
Content-Type: a\nContent-Type: a\n\n | HeaderRepeated
Location: /x\nLocation: /x\n\n | HeaderRepeated
Location: /a b\nStatus: 1\n\n | BadStatus
";

fn is_reply(reply: &Reply, row: &Cells, body: &[u8]) -> bool {
    u64::from(reply.status) == row.number(2)
        && is(reply.phrase.as_slice(), row.at(3))
        && row.are_fields(5, &reply.fields)
        && (row.is(4, "yes") || row.is(4, "no"))
        && is(
            reply.body.as_slice(),
            if row.is_yes(4) { body } else { b"" },
        )
}

fn is_bad(derived: &Result<Derived, NoMemory>, cause: Cause) -> bool {
    match derived {
        Ok(Derived::Bad(given)) => *given == cause,
        _ => false,
    }
}

fn is_bad_so(
    alloc: Global,
    derived: &Result<Derived, NoMemory>,
    row: &Cells,
) -> Result<bool, NoMemory> {
    match derived {
        Ok(Derived::Bad(given)) => row.names(alloc, 1, *given),
        _ => Ok(false),
    }
}

fn is_hop(derived: &Result<Derived, NoMemory>, row: &Cells) -> bool {
    match derived {
        Ok(Derived::Hop(given)) => is(given.as_slice(), row.at(1)),
        _ => false,
    }
}

fn is_raw(derived: &Result<Derived, NoMemory>, output: &[u8]) -> bool {
    match derived {
        Ok(Derived::Raw(bytes)) => is(bytes.as_slice(), output),
        _ => false,
    }
}

fn derives_reply(derived: &Result<Derived, NoMemory>, row: &Cells, body: &[u8]) -> bool {
    match derived {
        Ok(Derived::Reply(reply)) => is_reply(reply, row, body),
        _ => false,
    }
}

// Why an output is refused that ends within its header.
fn open_cause(count: usize) -> Cause {
    if count == 0 {
        Cause::NoOutput
    } else {
        Cause::HeaderIncomplete
    }
}

fn derived(alloc: Global, kind: ScriptKind, output: &[u8]) -> Result<Derived, NoMemory> {
    derive(alloc, kind, output)
}

const BODY: &[u8] = b"a\n\nStatus: 500\n\n\xff";

fn is_right_of(derived: &Result<Derived, NoMemory>, row: &Cells, front: &[u8]) -> bool {
    match front.get(row.at(0).len()..) {
        Some(body) => derives_reply(derived, row, body),
        None => is_bad(derived, open_cause(front.len())),
    }
}

// Whether a front of the output gives the row's reply where it has the header whole, and none where it has not.
fn is_right_front(alloc: Global, row: &Cells, front: &[u8]) -> bool {
    is_right_of(&derived(alloc, ScriptKind::Cgi, front), row, front)
}

fn are_right_fronts(alloc: Global, row: &Cells, output: &[u8]) -> bool {
    for count in 0..output.len() + 1 {
        if !is_right_front(alloc, row, front_of(output, count)) {
            return false;
        }
    }
    true
}

// Whether each front of the output that has the header whole gives its reply, and no other front does.
fn replies_however_it_ends(alloc: Global, row: &Cells) -> Result<bool, NoMemory> {
    let output = joined(alloc, &[row.at(0), BODY])?;
    Ok(are_right_fronts(alloc, row, output.as_slice()))
}

fn is_kind(alloc: Global, kind: ReplyKind, row: &Cells) -> Result<bool, NoMemory> {
    Ok(row.is(1, format!(in alloc; "{kind:?}")?.as_str()))
}

fn is_reply_of(
    alloc: Global,
    head: &CgiHead,
    kind: ReplyKind,
    row: &Cells,
) -> Result<bool, NoMemory>
    requires { kind ≢ ReplyKind.LocalRedirect }
{
    Ok(is_reply(&reply_of(alloc, head, kind, BODY)?, row, BODY))
}

fn is_of_kind(alloc: Global, head: &CgiHead, row: &Cells) -> Result<bool, NoMemory> {
    match kind_of(head) {
        Ok(kind) if kind != ReplyKind::LocalRedirect => {
            Ok(is_kind(alloc, kind, row)? && is_reply_of(alloc, head, kind, row)?)
        }
        _ => Ok(false),
    }
}

fn is_step_of_kind(alloc: Global, step: &HdrStep, row: &Cells) -> Result<bool, NoMemory> {
    match step {
        HdrStep::Whole { head, .. } => is_of_kind(alloc, head, row),
        _ => Ok(false),
    }
}

// Whether the header has the kind of its row, and gives the row's reply with a body.
fn has_kind(alloc: Global, row: &Cells) -> Result<bool, NoMemory> {
    is_step_of_kind(alloc, &read_header(alloc, row.at(0))?, row)
}

pub fn is_right(alloc: Global, row: &Cells) -> Result<bool, NoMemory> {
    Ok(has_kind(alloc, row)? && replies_however_it_ends(alloc, row)?)
}

#[test]
fn replies_and_kinds(rt: HostRuntime) -> Result<(), Fail> {
    are_right(&rt, rt.alloc(), REPLIES, 34, Rows::Reply(ReplyRows::Reply))
}

// What the header derives, with this behind it.
fn derived_of(alloc: Global, row: &Cells, body: &[u8]) -> Result<Derived, NoMemory> {
    let output = joined(alloc, &[row.at(0), body])?;
    derived(alloc, ScriptKind::Cgi, output.as_slice())
}

fn hops_with(alloc: Global, row: &Cells, body: &[u8]) -> bool {
    is_hop(&derived_of(alloc, row, body), row)
}

pub fn hops(alloc: Global, row: &Cells) -> Result<bool, NoMemory> {
    Ok(hops_with(alloc, row, b"") && hops_with(alloc, row, BODY))
}

fn is_refused_with(alloc: Global, row: &Cells, body: &[u8]) -> Result<bool, NoMemory> {
    is_bad_so(alloc, &derived_of(alloc, row, body), row)
}

pub fn is_refused(alloc: Global, row: &Cells) -> Result<bool, NoMemory> {
    Ok(is_refused_with(alloc, row, b"")? && is_refused_with(alloc, row, BODY)?)
}

#[test]
fn local_redirects(rt: HostRuntime) -> Result<(), Fail> {
    are_right(&rt, rt.alloc(), HOPS, 6, Rows::Reply(ReplyRows::Hop))
}

#[test]
fn refusals(rt: HostRuntime) -> Result<(), Fail> {
    are_right(
        &rt,
        rt.alloc(),
        REFUSED,
        19,
        Rows::Reply(ReplyRows::Refused),
    )
}

fn gives_raw(alloc: Global, output: &[u8]) -> bool {
    is_raw(&derived(alloc, ScriptKind::Nph, output), output)
}

fn gives_none(alloc: Global, kind: ScriptKind, output: &[u8]) -> bool {
    is_bad(&derived(alloc, kind, output), Cause::NoOutput)
}

// What a script writes is the reply where it writes its own, and none where it speaks WebSocket.
fn is_own(alloc: Global, output: &[u8]) -> bool {
    gives_raw(alloc, output) && gives_none(alloc, ScriptKind::WebSocket, output)
}

#[test]
fn raw_replies(rt: HostRuntime) -> Result<(), Fail> {
    for output in [
        b"HTTP/1.0 200 OK\r\n\r\nx".as_slice(),
        b"x",
        b"\n",
        b"Status: 1\n\n",
    ] {
        assert!(rt; is_own(rt.alloc(), output), "{output:?}");
    }
    Ok(())
}

#[test]
fn no_output_of_any_kind(rt: HostRuntime) -> Result<(), Fail> {
    for kind in [ScriptKind::Cgi, ScriptKind::Nph, ScriptKind::WebSocket] {
        assert!(rt; gives_none(rt.alloc(), kind, b""), "{kind:?}");
    }
    Ok(())
}
