// What is found in the bytes of an exchange.
use host_base::{Cause, Request, Version};

/// What a reply to a request depends on beside its answer.
#[derive(Clone, Copy, Debug, PartialEq, Eq)]
pub struct Manner {
    pub version: Version,
    /// Its method is HEAD, so a reply has no body (RFC 9110 9.3.2).
    pub head_only: bool,
    /// The client may send another request after it (RFC 9112 9.3).
    pub persists: bool,
}

/// What the bytes heard so far are.
#[derive(Drop, Debug)]
pub enum Found {
    /// No request that a script may be started for.
    More,
    /// A request that a script may be started for: it is whole, or its head is, and its body has a known length. The
    /// body is what has come of it.
    Ready(Request),
    /// No request that is served, whatever follows. `bare` where a reply to it has no body.
    Refused { cause: Cause, bare: bool },
}
