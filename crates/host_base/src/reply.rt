// A reply before it is spelled.
use super::{Bytes, Fields};

/// A reply of a script or of the host (RFC 9110 15), without the fields that frame it.
#[derive(Clone, Drop, Debug)]
pub struct Reply {
    /// The status code, 200 to 599.
    pub status: u16,
    /// The reason phrase.
    pub phrase: Bytes,
    pub fields: Fields,
    pub body: Bytes,
}
