// What an output derives.
use host_base::{Bytes, Cause, Reply};

/// What the output of a script derives.
#[derive(Clone, Drop, Debug)]
pub enum Derived {
    /// A reply, without the fields that frame it.
    Reply(Reply),
    /// A local redirect, to this location (RFC 3875 6.2.2).
    Hop(Bytes),
    /// The bytes of a whole reply (RFC 3875 5).
    Raw(Bytes),
    /// It is refused.
    Bad(Cause),
}
