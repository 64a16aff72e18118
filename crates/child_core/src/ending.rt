// How a run ends.
use host_base::Cause;

/// What became of a run.
#[derive(Clone, Copy, Debug, PartialEq, Eq)]
pub enum Outcome {
    /// Its output ended: the reply is derived from it.
    Output,
    /// The run failed for a cause.
    Failed(Cause),
    /// The client is gone.
    Gone,
    /// The server ends.
    Stopped,
    /// The run is given up, and nothing is answered.
    Dropped,
}

/// Why its connection ends a run.
#[derive(Clone, Copy, Debug, PartialEq, Eq)]
pub enum Ending {
    /// The connection failed, or a frame was refused.
    Gone,
    /// The server ends.
    Stopped,
    /// No memory was found.
    Dropped,
    /// A binary message, or a text or a line that is too long.
    Refused,
    /// The client ended its input within the request's body.
    Incomplete,
}
