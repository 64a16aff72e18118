// What is asked of a request and of its head. None of this takes memory.
ghost use Rattle.std.specs.Prelude.{◌≡◌};
ghost use Rattle.request_reader.specs.Request.{is_head_method, persists};

use host_base::{Head, Request, Version};

// Whether a reply to it has no body.
pub fn is_head_method(head: &Head) -> bool
    ensures { result ≡ is_head_method head.now }
{
    head.method.as_slice() == b"HEAD".as_slice()
}

/// Whether the client may send another request on the connection: the version is HTTP/1.1, and the
/// list of Connection has no `close` in any case (RFC 9112 9.3).
pub fn persists(request: &Request) -> bool
    ensures { result ≡ persists request.now }
{
    request.version == Version::V11 && !request.fields.has_word(b"Connection", b"close")
}
