// How a head frames what follows it.

/// What a reply's head says of where its body ends (RFC 9112 6.3).
#[derive(Clone, Copy, Debug, PartialEq, Eq)]
pub enum Shape {
    /// No framing field, and no body: after HEAD, and with 204 or 304.
    Bare,
    /// `Content-Length`, with the number of bytes of the body.
    Length(u64),
    /// `Transfer-Encoding: chunked`.
    Chunked,
    /// No framing field: the body goes up to the close of the connection.
    ToClose,
}
