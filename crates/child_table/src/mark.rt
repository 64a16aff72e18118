// What becomes of a child, and want of a place.

/// What became of a child.
#[derive(Clone, Copy, Debug, PartialEq, Eq)]
pub enum Mark {
    Started,
    /// It could not be started.
    NotStarted,
    InputEnded,
    OutputEnded,
    /// It was reaped.
    Exited,
}

/// As many children are held as may.
#[derive(Clone, Copy, Debug, PartialEq, Eq)]
pub struct TableFull {
    pub held: u32,
    pub cap: u32,
}
