// Why a text is no trace's.
use host_base::NoMemory;

/// Why a text has no trace.
#[derive(Clone, Copy, Debug, PartialEq, Eq)]
pub enum TextFault {
    /// It has more than 2,048 lines.
    TooLong,
    /// The first line, from 0, that is no item's spelling, lacks its LF, or is an act's where the first event is due.
    Line(u32),
    NoMemory,
}

impl From<NoMemory> for TextFault {
    ghost use Rattle.std.specs.Prelude.{◌≡◌};
    ghost use Rattle.trace_text.specs.declared.fault.TextFault.{TextFault};
    ghost use Rattle.trace_text.specs.declared.fault.TextFault.TheVariants as Refused;

    ghost from_gives = { λ _ fault. fault ≡ Refused.NoMemory };

    fn from(_: NoMemory) -> Self {
        TextFault::NoMemory
    }
}
