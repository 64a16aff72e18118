// The reply that a header and what follows it give.
ghost use Rattle.std.specs.Prelude.{◌≡◌, ◌≢◌, filter, IfOk};
ghost use Rattle.host_base.specs.FieldLists.{is_named};
ghost use Rattle.reply_kinds.specs.Kind.{is_extension, is_withheld, is_handed_on, default_status, status_code, status_phrase, has_body, body_of, reply_of};

use crate::ReplyKind;
use cgi_header::{CgiHead, Given};
use host_base::{Bytes, Field, Fields, NoMemory, Reply, is_same_word};
use reply_writer::phrase;
use std::alloc::Global;

fn is_named(field: &Field, name: &[u8]) -> bool
    ensures { result ≡ is_named name.now field.now }
{
    is_same_word(name, field.name.as_slice())
}

fn is_extension(field: &Field) -> bool
    ensures { result ≡ is_extension field.now }
{
    let name = field.name.as_slice();
    name.len() >= 6 && is_same_word(b"X-CGI-", &name[..6])
}

fn is_withheld(field: &Field) -> bool
    ensures { result ≡ is_withheld field.now }
{
    is_named(field, b"Status")
        || is_named(field, b"Content-Length")
        || is_named(field, b"Transfer-Encoding")
        || is_named(field, b"Connection")
        || is_named(field, b"Keep-Alive")
        || is_named(field, b"Proxy-Connection")
        || is_named(field, b"TE")
        || is_named(field, b"Trailer")
        || is_named(field, b"Upgrade")
        || is_extension(field)
}

fn copy_field(alloc: Global, field: &Field) -> Result<Field, NoMemory>
    ensures { IfOk result (λ copy. copy ≡ field.now) }
{
    Ok(Field {
        name: Bytes::from_slice(alloc, field.name.as_slice())?,
        value: Bytes::from_slice(alloc, field.value.as_slice())?,
    })
}

// The fields that are handed on.
fn copy_fields(alloc: Global, fields: &[Field]) -> Result<Fields, NoMemory>
    ensures { IfOk result (λ copy. copy ≡ filter is_handed_on fields.now) }
{
    let mut copy = Fields::new(alloc);
    for field in fields {
        if !is_withheld(field) {
            copy.push(copy_field(alloc, field)?)?;
        }
    }
    Ok(copy)
}

// The status that a kind has where the script names none.
fn default_status(kind: ReplyKind) -> u16
    ensures { result ≡ default_status kind }
{
    match kind {
        ReplyKind::Document => 200,
        ReplyKind::LocalRedirect | ReplyKind::Redirect | ReplyKind::RedirectDocument => 302,
    }
}

fn status_code(given: &Option<Given>, kind: ReplyKind) -> u16
    ensures { result ≡ status_code given.now kind }
{
    match given {
        Some(given) => given.code,
        None => default_status(kind),
    }
}

fn status_phrase<'a>(given: &'a Option<Given>, kind: ReplyKind) -> &'a [u8]
    ensures { result.now ≡ status_phrase given.now kind }
{
    match given {
        Some(given) if given.phrase.is_empty() => phrase(given.code),
        Some(given) => given.phrase.as_slice(),
        None => phrase(default_status(kind)),
    }
}

// Whether what follows the header is the body.
fn has_body(kind: ReplyKind) -> bool
    ensures { result ≡ has_body kind }
{
    match kind {
        ReplyKind::Document | ReplyKind::RedirectDocument => true,
        ReplyKind::LocalRedirect | ReplyKind::Redirect => false,
    }
}

fn body_of(status: u16, kind: ReplyKind, body: &[u8]) -> &[u8]
    ensures { result.now ≡ body_of status kind body.now }
{
    if has_body(kind) && status != 205 {
        body
    } else {
        &[]
    }
}

/// The reply of a kind, with what follows the header as its body where the kind has one. Its fields are
/// those of the header in their order and spelling, but for Status, what frames a reply or is about the
/// connection, and extension fields (RFC 3875 6.3.4 and 6.3.5). Where the script names no status it is 200
/// for a document and 302 for a redirect. 205 has no body (RFC 9110 15.3.6).
pub fn reply_of(
    alloc: Global,
    head: &CgiHead,
    kind: ReplyKind,
    body: &[u8],
) -> Result<Reply, NoMemory>
    requires { kind ≢ ReplyKind.LocalRedirect }
    ensures { IfOk result (λ reply. reply ≡ reply_of head.now kind body.now) }
{
    let status = status_code(&head.status, kind);
    Ok(Reply {
        status,
        phrase: Bytes::from_slice(alloc, status_phrase(&head.status, kind))?,
        fields: copy_fields(alloc, head.fields.as_slice())?,
        body: Bytes::from_slice(alloc, body_of(status, kind, body))?,
    })
}
