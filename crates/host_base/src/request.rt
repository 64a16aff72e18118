// A request as it was read.
use super::{Bytes, Fields};

/// The versions of HTTP that are served.
#[derive(Clone, Copy, Debug, PartialEq, Eq)]
pub enum Version {
    V10,
    V11,
}

/// How a request's body is delimited (RFC 9112 6).
#[derive(Clone, Copy, Debug, PartialEq, Eq)]
pub enum Framing {
    /// There is no body.
    Empty,
    /// The body has this many bytes.
    Length(u64),
    /// The body comes in chunks.
    Chunked,
}

/// A request head (RFC 9112 2.1): the request line and the field lines.
#[derive(Clone, Drop, Debug)]
pub struct Head {
    pub method: Bytes,
    pub target: Bytes,
    pub version: Version,
    pub fields: Fields,
}

/// What a request target and the Host field name (RFC 9112 3.2 and 3.3).
#[derive(Clone, Drop, Debug)]
pub struct Target {
    /// The path as it was sent, without dot segments (RFC 3986 5.2.4). It begins with `/`.
    pub path: Bytes,
    /// What follows the first `?`.
    pub query: Option<Bytes>,
    /// The host without its port. Brackets are kept.
    pub host: Option<Bytes>,
}

/// A request with its decoded body.
#[derive(Clone, Drop, Debug)]
pub struct Request {
    pub method: Bytes,
    pub target: Target,
    pub version: Version,
    pub fields: Fields,
    pub framing: Framing,
    pub body: Bytes,
}
