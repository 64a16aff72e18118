// Want of memory.
use super::Cause;
use std::alloc::{AllocError, AllocFailed};

/// No memory was found. Except where a call says otherwise, what it was given is as it was before.
#[derive(Clone, Copy, Debug, PartialEq, Eq)]
pub struct NoMemory;

impl From<AllocError> for NoMemory {
    fn from(_: AllocError) -> Self {
        NoMemory
    }
}

impl<T: Drop> From<AllocFailed<T>> for NoMemory {
    fn from(_: AllocFailed<T>) -> Self {
        NoMemory
    }
}

/// Why a call has no value: the request or the output is refused for a cause, or no memory was found.
#[derive(Clone, Copy, Debug, PartialEq, Eq)]
pub enum Refusal {
    Cause(Cause),
    NoMemory,
}

impl From<NoMemory> for Refusal {
    ghost use Rattle.std.specs.Prelude.{◌≡◌};
    ghost use Rattle.host_base.specs.declared.memory.Refusal.{Refusal};
    ghost use Rattle.host_base.specs.declared.memory.Refusal.TheVariants as Refused;

    ghost from_gives = { λ _ refusal. refusal ≡ Refused.NoMemory };

    fn from(_: NoMemory) -> Self {
        Refusal::NoMemory
    }
}
