// How far a connection is.
ghost use Rattle.std.specs.Prelude.{◌≡◌};
ghost use Rattle.scgi_conn.specs.Ends.{why_for};

use host_base::{Bytes, Launch};
use host_trace::Why;
use scgi_reader::{Reading, Request};

/// How far the one request of a connection is.
#[derive(Drop)]
pub enum Stage {
    /// More of it is to come.
    Hearing(Reading),
    /// It is whole, and its script is to be started.
    Starting(Launch, Request),
    /// Its script was started, and its answer is not decided.
    Running,
    /// This is its answer, which is to be written.
    Answered(Bytes),
    /// The connection is to be shut for this reason, or was.
    Over(End),
}

/// Why a connection is over.
#[derive(Clone, Copy, Debug, PartialEq, Eq)]
pub enum End {
    /// It was answered, or its client ended its input and had sent nothing.
    Done,
    /// Its client sent nothing for the idle time.
    Idle,
    /// The connection failed.
    Gone,
    /// The server ends.
    Stopped,
    /// No memory was found.
    NoMemory,
}

impl End {
    /// As the outside is told.
    pub fn why(self) -> Why
        ensures { result ≡ why_for self }
    {
        match self {
            End::Done => Why::Done,
            End::Idle => Why::Idle,
            End::Gone => Why::Gone,
            End::Stopped => Why::Stopped,
            End::NoMemory => Why::NoMemory,
        }
    }
}
