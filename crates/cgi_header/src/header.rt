// The header of an output, as it was read.
use host_base::{Bytes, Cause, Fields};

/// The status that a script names (RFC 3875 6.3.3).
#[derive(Clone, Drop, Debug)]
pub struct Given {
    /// The status code, 200 to 599.
    pub code: u16,
    /// The reason phrase without the blanks around it; empty where the script names none.
    pub phrase: Bytes,
}

/// A script header (RFC 3875 6.3).
#[derive(Clone, Drop, Debug)]
pub struct CgiHead {
    /// All fields that have a value, in their order and spelling.
    pub fields: Fields,
    /// What Status says, where it stands.
    pub status: Option<Given>,
    /// The value of Location, where it stands.
    pub location: Option<Bytes>,
    /// Whether Content-Type stands.
    pub has_type: bool,
}

/// What the output of a script begins with, as far as it has come.
#[derive(Drop, Debug)]
pub enum HdrStep {
    /// A whole header, and how many bytes it took with its empty line.
    Whole { head: CgiHead, used: usize },
    /// No empty line ends yet, and more bytes may follow.
    More,
    /// No header that is taken, whatever follows: `HeaderTooLarge` where no empty line ends in the first
    /// 8,192 bytes; else the cause of the first line that is refused. A line that is no field is
    /// `HeaderLine`, a second Content-Type, Location or Status `HeaderRepeated`, and a Status without a
    /// number from 200 to 599 `BadStatus`, in this order where a line is both.
    Bad(Cause),
}
