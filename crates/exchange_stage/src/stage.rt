// Where an exchange stands.
use exchange_reply::LegReply;
use host_base::{Bytes, Cause, Launch, Request, ScriptKind};

/// A hop whose script is started.
#[derive(Drop)]
pub struct Leg {
    /// How many local redirects came before it.
    pub hop: u32,
    pub kind: ScriptKind,
    pub request: Request,
    pub reply: LegReply,
    /// A Tick was heard that the reply wasn't told of.
    pub ticked: bool,
    /// What is to be written now of the reply.
    pub text: Bytes,
}

/// The stage of an exchange.
#[derive(Drop)]
pub enum Stage {
    /// Its request is being read.
    Reading,
    /// The request was refused as it was read. `bare`: the reply has no body.
    Rejected {
        cause: Cause,
        bare: bool,
    },
    /// The request was broken before anything was done for it.
    Interrupted(Cause),
    /// Its target or its handshake was refused, or there was one local redirect too many: that is answered where a
    /// script might be started.
    Refused(Cause),
    /// A script is to be started for the request of this hop.
    Unstarted {
        hop: u32,
        request: Request,
    },
    /// The script of a hop is to be started now. `body` is what has come of its input, all of it where `whole`.
    Starting {
        leg: Leg,
        launch: Launch,
        body: Bytes,
        whole: bool,
    },
    /// The script of a hop was started, and nothing is done yet about what decided its run.
    Running(Leg),
    /// This is to be written now, and with it the whole answer stands.
    Finishing {
        text: Bytes,
        closes: bool,
    },
    /// The whole answer stands.
    Answered,
    /// Nothing more is written of its answer.
    Silent,
}
