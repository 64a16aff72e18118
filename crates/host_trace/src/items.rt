// Events, acts, and a trace's items.
ghost use Rattle.std.specs.Prelude.{◌≡◌, IfOk};

use host_base::{Bytes, Cause, Launch, NoMemory, Peer, Sequence, Texts};

/// What an outside hands up. Connections (`c`) and children (`k`) are numbered from 0, each by
/// its first Accepted or Start.
#[derive(Clone, Drop, Debug)]
pub enum Event {
    /// A client connected.
    Accepted { peer: Peer },
    /// 1 to 65,536 bytes of the client.
    ClientBytes { c: u64, bytes: Bytes },
    /// The client ended its input.
    ClientEof { c: u64 },
    /// The connection failed.
    ClientGone { c: u64 },
    /// So many written bytes left for the client; after Upgrade, bytes of said texts.
    Wrote { c: u64, n: u64 },
    /// The child runs.
    Started { k: u64 },
    /// The child could not be started.
    StartFailed { k: u64 },
    /// As many children ran as may: `seen` of them.
    StartFull { k: u64, seen: u32 },
    /// 1 to 65,536 bytes of the child's output.
    ChildBytes { k: u64, bytes: Bytes },
    /// The child's output ended.
    ChildEof { k: u64 },
    /// Reading the child's output failed, which ends it.
    ChildBroken { k: u64 },
    /// The child's input pipe took so many bytes.
    Took { k: u64, n: u64 },
    /// The child's input pipe failed, which ends the input.
    InputGone { k: u64 },
    /// The child was reaped.
    Exited { k: u64 },
    /// One text message of a WebSocket.
    WsText { c: u64, bytes: Bytes },
    /// A binary message of a WebSocket.
    WsBinary { c: u64 },
    /// The client closed its WebSocket.
    WsClosed { c: u64 },
    /// A frame of a WebSocket was refused.
    WsBad { c: u64 },
    /// No memory was found to hear the connection.
    NoRoom { c: u64 },
    /// 100 ms passed. `secs` is what the clock shows: Unix seconds, below 253,402,300,800 (the year 10,000).
    Tick { secs: u64 },
    /// The server is to end.
    Stop,
}

/// Why a connection is over.
#[derive(Clone, Copy, Debug, PartialEq, Eq)]
pub enum Why {
    /// It was answered, the client ended between requests, or the WebSocket ended.
    Done,
    /// The connection failed or a frame was refused.
    Gone,
    /// A reply that had begun can't be finished.
    Cut(Cause),
    /// No request began within the idle time.
    Idle,
    /// As many connections are held as may.
    Full,
    /// The server ends.
    Stopped,
    /// No memory was found.
    NoMemory,
}

/// What the host asks of an outside.
#[derive(Clone, Drop, Debug)]
pub enum Act {
    /// Asks for one event of the client.
    WantClient {
        c: u64,
    },
    /// Bytes for the client, at least one.
    Write {
        c: u64,
        bytes: Bytes,
    },
    /// The connection is over.
    Shut {
        c: u64,
        why: Why,
    },
    /// Start child `k` for exchange `j` of connection `c`, after `hop` local redirects.
    Start {
        k: u64,
        c: u64,
        j: u128,
        hop: u32,
        launch: Launch,
    },
    /// Bytes for the child's input, at least one.
    Feed {
        k: u64,
        bytes: Bytes,
    },
    /// Close the child's input after what was fed.
    EndInput {
        k: u64,
    },
    /// Asks for one event of the child's output.
    WantChild {
        k: u64,
    },
    Kill {
        k: u64,
    },
    /// Give up the child's output.
    Release {
        k: u64,
    },
    /// The connection speaks WebSocket from `rest` on.
    Upgrade {
        c: u64,
        rest: Bytes,
    },
    /// One text message for each text, at least one.
    Says {
        c: u64,
        texts: Texts,
    },
    /// Send a close frame with this code (RFC 6455 7.4).
    CloseWs {
        c: u64,
        code: u16,
    },
}

/// An item of a trace: an event that was handed up, or an act that was done.
#[derive(Clone, Drop, Debug)]
pub enum Item {
    In(Event),
    Out(Act),
}

/// A trace, or a part of one.
pub type Items = Sequence<Item>;

/// Events in the order in which they are to come.
pub type Events = Sequence<Event>;

impl Event {
    /// The same event once more.
    pub fn copy(&self) -> Result<Self, NoMemory>
        ensures { IfOk result (λ event. event ≡ self.now) }
    {
        Ok(self.clone()?)
    }
}

impl Act {
    ghost use Rattle.std.specs.Prelude.{◌≡◌, IfOk, IfSome, is_some};
    ghost use Rattle.host_trace.specs.Told.{carries_nothing};

    /// The same act once more where it carries no bytes, texts or launch. It takes no memory.
    pub fn copy_plain(&self) -> Option<Self>
        ensures which { is_some result ≡ carries_nothing self.now }
        ensures same { IfSome result (λ act. act ≡ self.now) }
    {
        match self {
            Act::WantClient { c } => Some(Act::WantClient { c: *c }),
            Act::Shut { c, why } => Some(Act::Shut { c: *c, why: *why }),
            Act::EndInput { k } => Some(Act::EndInput { k: *k }),
            Act::WantChild { k } => Some(Act::WantChild { k: *k }),
            Act::Kill { k } => Some(Act::Kill { k: *k }),
            Act::Release { k } => Some(Act::Release { k: *k }),
            Act::CloseWs { c, code } => Some(Act::CloseWs { c: *c, code: *code }),
            Act::Write { .. }
            | Act::Start { .. }
            | Act::Feed { .. }
            | Act::Upgrade { .. }
            | Act::Says { .. } => None,
        }
    }

    /// The same act once more.
    pub fn copy(&self) -> Result<Self, NoMemory>
        ensures { IfOk result (λ act. act ≡ self.now) }
    {
        match self {
            Act::WantClient { c } => Ok(Act::WantClient { c: *c }),
            Act::Write { c, bytes } => Ok(Act::Write {
                c: *c,
                bytes: bytes.clone()?,
            }),
            Act::Shut { c, why } => Ok(Act::Shut { c: *c, why: *why }),
            Act::Start {
                k,
                c,
                j,
                hop,
                launch,
            } => Ok(Act::Start {
                k: *k,
                c: *c,
                j: *j,
                hop: *hop,
                launch: launch.copy()?,
            }),
            Act::Feed { k, bytes } => Ok(Act::Feed {
                k: *k,
                bytes: bytes.clone()?,
            }),
            Act::EndInput { k } => Ok(Act::EndInput { k: *k }),
            Act::WantChild { k } => Ok(Act::WantChild { k: *k }),
            Act::Kill { k } => Ok(Act::Kill { k: *k }),
            Act::Release { k } => Ok(Act::Release { k: *k }),
            Act::Upgrade { c, rest } => Ok(Act::Upgrade {
                c: *c,
                rest: rest.clone()?,
            }),
            Act::Says { c, texts } => Ok(Act::Says {
                c: *c,
                texts: texts.clone()?,
            }),
            Act::CloseWs { c, code } => Ok(Act::CloseWs { c: *c, code: *code }),
        }
    }
}
