// What a look at a request finds.
use crate::fault::Fault;

/// What the bytes of a request are so far.
#[derive(Clone, Copy, Debug)]
pub enum Look {
    /// It has not ended yet; `due` where the client waits for 100 Continue.
    More { due: bool },
    /// It is whole.
    Whole,
    /// It is refused.
    Fault(Fault),
}
