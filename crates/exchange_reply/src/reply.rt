// The reply of a leg.
ghost use Rattle.std.specs.Prelude.{◌≡◌, ◌||◌, ◌++◌, ℕ, Bool, false, List, [], IfOk, OnErr};
ghost use Rattle.reply_kinds.specs.Derived.{is_header_whole};
ghost use Rattle.reply_stream.specs.declared.asked.Asked.{Asked};
ghost use Rattle.reply_stream.specs.Writing.{Stood, nothing, is_begun};
ghost use Rattle.reply_writer.specs.WholeRules.{IsStamp};
ghost use Rattle.exchange_reply.specs.Reply.{Fails, Gives, KnowsReply, MayEndWithout, MayTickWithout, closes_of};
ghost use Rattle.exchange_reply.specs.Standings.{Ends};

use crate::fault_text;
use host_base::{Bytes, Cause, NoMemory};
use reply_stream::{Asked, Last, Stream};
use std::alloc::Global;

/// The reply of a leg: the script that was started for a hop, the request's own or one after local redirects. What is to
/// be written of it is handed out once.
#[derive(Drop, Debug)]
pub struct LegReply {
    alloc: Global,
    asked: Asked,
    stream: Stream,
    // Of a reply that has begun: the connection closes after it.
    closes: bool,
}

impl LegReply {
    /// The script has given nothing. It takes no memory.
    pub fn new(alloc: Global, asked: Asked) -> Self
        ensures { KnowsReply result asked [] false nothing }
    {
        LegReply {
            alloc,
            asked,
            stream: Stream::new(alloc, asked),
            closes: false,
        }
    }

    /// Whether a byte of it was handed out.
    pub fn has_begun(&self) -> bool
        ensures { (asked : Asked) (output : List ℕ) (ticked : Bool) (stood : Stood) → KnowsReply self.now asked output ticked stood
            → result ≡ is_begun stood }
    {
        self.stream.has_begun()
    }

    /// Whether the connection closes after it. That is fixed with its first byte; before, `closes_now` says whether
    /// it closes after an answer that begins now.
    pub fn closes(&self, closes_now: bool) -> bool
        ensures { (asked : Asked) (output : List ℕ) (ticked : Bool) (stood : Stood) → KnowsReply self.now asked output ticked stood
            → result ≡ closes_of stood closes_now }
    {
        if self.has_begun() {
            self.closes
        } else {
            closes_now
        }
    }

    /// Takes a piece of the output, and answers what is to be written now, which may be nothing. If the reply begins,
    /// `closes_now` says whether the connection closes after it, and `now` is the Unix second of its Date.
    pub fn hear(
        &mut self,
        piece: Bytes,
        closes_now: bool,
        now: Option<u64>,
    ) -> Result<Bytes, NoMemory>
        requires { IsStamp now }
        ensures heard { (asked : Asked) (output : List ℕ) (ticked : Bool) (stood : Stood) → KnowsReply self.old asked output ticked stood
            → IfOk result (λ text. Gives asked (output ++ piece) ticked closes_now now stood text self.new) }
        ensures err { OnErr result (self.new ≡ self.old) }
    {
        let closes = self.closes(closes_now);
        let text = self.stream.hear(piece, closes_now, now)?;
        self.closes = closes;
        Ok(text)
    }

    /// Takes a Tick, and answers as `hear` does. It takes memory only where the reply begins.
    pub fn tick(&mut self, closes_now: bool, now: Option<u64>) -> Result<Bytes, NoMemory>
        requires { IsStamp now }
        ensures ticked { (asked : Asked) (output : List ℕ) (ticked : Bool) (stood : Stood) → KnowsReply self.old asked output ticked stood
            → IfOk result (λ text. Gives asked output (ticked || is_header_whole asked.kind output) closes_now now stood text self.new) }
        ensures memory { (asked : Asked) (output : List ℕ) (ticked : Bool) (stood : Stood) → KnowsReply self.old asked output ticked stood
            → OnErr result (MayTickWithout asked output ticked stood) }
        ensures err { OnErr result (self.new ≡ self.old) }
    {
        let closes = self.closes(closes_now);
        let text = self.stream.tick(closes_now, now)?;
        self.closes = closes;
        Ok(text)
    }

    /// Takes the end of the output, and answers what is then to be written, where it is to be asked for again, or the
    /// cause for which it is refused. `closes_now` and `now` are those of `hear`. Of a reply that has begun, it takes
    /// memory for the end of its chunks alone.
    pub fn end(self, closes_now: bool, now: Option<u64>) -> Result<Last, NoMemory>
        requires { IsStamp now }
        ensures last { (asked : Asked) (output : List ℕ) (ticked : Bool) (stood : Stood) → KnowsReply self asked output ticked stood
            → IfOk result (Ends asked output closes_now now stood) }
        ensures memory { (asked : Asked) (output : List ℕ) (ticked : Bool) (stood : Stood) → KnowsReply self asked output ticked stood
            → OnErr result (MayEndWithout asked output stood) }
    {
        let LegReply { stream, .. } = self;
        stream.end(closes_now, now)
    }

    /// The run failed for a cause: the host's own reply, or none where a reply has begun, which can't be finished.
    /// `closes_now` and `now` are those of `hear`.
    pub fn fail(
        &self,
        cause: Cause,
        closes_now: bool,
        now: Option<u64>,
    ) -> Result<Option<Bytes>, NoMemory>
        requires { IsStamp now }
        ensures fails { (asked : Asked) (output : List ℕ) (ticked : Bool) (stood : Stood) → KnowsReply self.now asked output ticked stood
            → IfOk result (Fails asked cause closes_now now stood) }
        ensures memory { (asked : Asked) (output : List ℕ) (ticked : Bool) (stood : Stood) → KnowsReply self.now asked output ticked stood
            → OnErr result (is_begun stood ≡ false) }
    {
        if self.has_begun() {
            return Ok(None);
        }
        let text = fault_text(self.alloc, cause, self.asked.head_only, closes_now, now)?;
        Ok(Some(text))
    }
}
