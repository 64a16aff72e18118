// The state of a talk.
use host_base::{Limits, Texts};
use line_messages::Lines;
use std::alloc::Global;
use std::marker::Model;

/// The talk of one WebSocket with its program, from its Upgrade on: what the program writes is read line by line and
/// said, each line as a message, and what the client sends is fed to the program, each text as a line. It ends with the
/// program's output, with the client's close, or with an event that ends the run; then its connection is to be shut.
#[derive(Drop)]
pub struct Talk {
    pub(crate) alloc: Global,
    pub(crate) conn: u64,
    pub(crate) child: u64,
    /// How many bytes a text or a line may have.
    pub(crate) limit: u64,
    pub(crate) lines: Lines,
    /// Messages that are to be said.
    pub(crate) texts: Texts,
    /// The code of the close frame that is to be sent.
    pub(crate) code: Option<u16>,
    pub(crate) over: bool,
}

impl Model for Talk {
    ghost use Rattle.std.specs.Prelude.{◌≡◌, false};
    ghost use Rattle.line_messages.specs.Reading.{StandsFor};
    ghost use Rattle.talk_core.specs.View.{View};

    ghost Value = { View };

    ghost view = { λ t. record { conn = t.conn; child = t.child; limit = t.limit; rest = t.lines.rest; texts = t.texts; code = t.code; over = t.over } };

    ghost invariant = { λ t. StandsFor t.lines t.lines.rest × (t.lines.over ≡ false) × (t.lines.ended ≡ false) × (t.lines.limit ≡ t.limit) };
}

impl Talk {
    ghost use Rattle.std.specs.Prelude.{◌≡◌};
    ghost use Rattle.talk_core.specs.View.{begun, given_up};

    /// The talk of connection `c`, which was upgraded, with child `k`, whose Start is given. It takes no memory.
    pub fn new(alloc: Global, c: u64, k: u64, limits: &Limits) -> Self
        ensures { result ≡ begun c k limits.now.ws_text }
    {
        Talk {
            alloc,
            conn: c,
            child: k,
            limit: limits.ws_text,
            lines: Lines::new(alloc, limits.ws_text),
            texts: Texts::new(alloc),
            code: None,
            over: false,
        }
    }

    /// The connection is shut: nothing more is heard, said or sent. It takes no memory.
    pub fn shut(&mut self)
        ensures { self.new ≡ given_up self.old }
    {
        self.lines = Lines::new(self.alloc, self.limit);
        self.texts = Texts::new(self.alloc);
        self.code = None;
        self.over = true;
    }

    /// Whether the talk has ended, or its connection is shut.
    pub fn is_over(&self) -> bool
        ensures { result ≡ self.now.over }
    {
        self.over
    }
}
