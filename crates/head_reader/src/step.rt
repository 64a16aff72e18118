// What the bytes so far are.
use host_base::{Cause, Head};

/// What the bytes at the front of a connection are.
#[derive(Drop, Debug)]
pub enum HeadStep {
    /// A whole head, and how many bytes it took with a CRLF before it.
    Whole { head: Head, used: usize },
    /// The head has not ended yet, and more bytes may follow.
    More,
    /// No head that is served, whatever follows. The first of these that holds: `HeadTooLong` where no
    /// empty line ends within the limit, `TargetTooLong`, `TooManyFields` at more than 100 field lines,
    /// and `BadHead` where the bytes are none of the grammar.
    Bad(Cause),
}
