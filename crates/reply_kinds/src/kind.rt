// The kind of a response.
ghost use Rattle.std.specs.Prelude.{◌≡◌};
ghost use Rattle.std.specs.List.{list_all, list_any};
ghost use Rattle.reply_kinds.specs.Kind.{is_rooted, is_hash, is_path, is_visible, is_local, kind_of_path, kind_of_uri, kind_without, kind_of};

use cgi_header::CgiHead;
use host_base::Cause;

/// The kinds of response that a script header asks for (RFC 3875 6.2).
#[derive(Clone, Copy, Debug, PartialEq, Eq)]
pub enum ReplyKind {
    /// A document (RFC 3875 6.2.1).
    Document,
    /// Another path of this server, which is asked in the client's place (RFC 3875 6.2.2).
    LocalRedirect,
    /// A place that the client is sent to (RFC 3875 6.2.3).
    Redirect,
    /// The same with a document (RFC 3875 6.2.4).
    RedirectDocument,
}

fn is_rooted(location: &[u8]) -> bool
    ensures { result ≡ is_rooted location.now }
{
    match location {
        [first, ..] => *first == b'/',
        [] => false,
    }
}

fn has_hash(location: &[u8]) -> bool
    ensures { result ≡ list_any is_hash location.now }
{
    location.iter().any(|byte| *byte == b'#')
}

fn is_path(location: &[u8]) -> bool
    ensures { result ≡ is_path location.now }
{
    is_rooted(location) && !has_hash(location)
}

fn are_visible(bytes: &[u8]) -> bool
    ensures { result ≡ list_all is_visible bytes.now }
{
    bytes.iter().all(|byte| *byte >= 0x21 && *byte <= 0x7e)
}

fn is_local(location: &[u8]) -> bool
    ensures { result ≡ is_local location.now }
{
    is_path(location) && are_visible(location)
}

// The kind where Location is a path.
fn kind_of_path(location: &[u8], has_status: bool) -> Result<ReplyKind, Cause>
    ensures { result ≡ kind_of_path location.now has_status }
{
    if has_status {
        Ok(ReplyKind::Document)
    } else if is_local(location) {
        Ok(ReplyKind::LocalRedirect)
    } else {
        Err(Cause::BadLocation)
    }
}

// The kind where Location is another URI.
fn kind_of_uri(has_status: bool, has_type: bool) -> ReplyKind
    ensures { result ≡ kind_of_uri has_status has_type }
{
    if has_status || has_type {
        ReplyKind::RedirectDocument
    } else {
        ReplyKind::Redirect
    }
}

// The kind where there is no Location.
fn kind_without(has_status: bool, has_type: bool) -> Result<ReplyKind, Cause>
    ensures { result ≡ kind_without has_status has_type }
{
    if has_status || has_type {
        Ok(ReplyKind::Document)
    } else {
        Err(Cause::NoneOfThree)
    }
}

/// The kind of response that a header asks for (RFC 3875 6.2). `NoneOfThree` where Location, Status and
/// Content-Type are all missing; `BadLocation` where Location without Status begins with `/`, has no `#`,
/// and has a byte that is no visible ASCII. It takes no memory.
pub fn kind_of(head: &CgiHead) -> Result<ReplyKind, Cause>
    ensures { result ≡ kind_of head.now }
{
    let has_status = head.status.is_some();
    match &head.location {
        Some(location) if is_path(location.as_slice()) => {
            kind_of_path(location.as_slice(), has_status)
        }
        Some(_) => Ok(kind_of_uri(has_status, head.has_type)),
        None => kind_without(has_status, head.has_type),
    }
}
