// How serving a world ends.

use crate::serve::LoopEnd;

/// How serving a world ended.
#[derive(Clone, Copy, Debug, PartialEq, Eq)]
pub enum WorldEnd {
    /// The world could not be entered.
    Refused,
    /// No memory was found to enter it.
    Unentered,
    /// The loops ended so.
    Ended(LoopEnd),
}
