// The stream of a reply.
ghost use Rattle.std.specs.Prelude.{◌≡◌, true, List, [], ◌∷◌, ◌++◌, take, IfOk, OnOk, OnErr};
ghost use Rattle.head_lines.specs.Lines.{IsSearched};
ghost use Rattle.reply_writer.specs.WholeRules.{IsStamp};
ghost use Rattle.reply_stream.specs.declared.asked.Asked.{Asked};
ghost use Rattle.reply_stream.specs.Hearing.{Told, piece, tick};
ghost use Rattle.reply_stream.specs.Memory.{NeedsAtEnd, NeedsAtTick};
ghost use Rattle.reply_stream.specs.Openings.{stage_by};
ghost use Rattle.reply_stream.specs.Stages.{IsAt, Joins, Looks, Reads, Writes, is_holding};
ghost use Rattle.reply_stream.specs.Writing.{Stood, nothing, is_begun, IsLast, IsLastOf, whole_way};

use crate::Asked;
use crate::open::{date_of, header_of, open};
use crate::pieces::{end_text, piece_text};
use crate::stage::{Header, Opening, Stage};
use head_lines::Search;
use host_base::{Bytes, Cause, NoMemory, ScriptKind};
use reply_kinds::{Derived, derive};
use reply_writer::whole_text;
use std::alloc::Global;
use std::marker::Model;

// So many bytes of output may wait for its end, or for a tick.
const MOST_KEPT: usize = 8192;

/// What an output comes to at its end.
#[derive(Drop, Debug)]
pub enum Last {
    /// The reply is whole with these bytes, which may be none.
    Written(Bytes),
    /// A local redirect, to this location (RFC 3875 6.2.2). Nothing was written.
    Hop(Bytes),
    /// The output is refused. Nothing was written.
    Bad(Cause),
}

/// The reply of a run, written as its output comes. It holds the output until the reply begins.
#[derive(Drop, Debug)]
pub struct Stream {
    alloc: Global,
    asked: Asked,
    held: Bytes,
    stage: Stage,
}

impl Model for Stream {
    ghost use Rattle.reply_stream.specs.Stages.{State, IsSoughtIn};

    ghost Value = { State };

    ghost view = { λ s. record { asked = s.asked; held = s.held; stage = s.stage } };

    ghost invariant = { λ s. IsSoughtIn s.held s.stage };
}

// Adds a piece. The first one isn't copied.
fn add(held: &mut Bytes, piece: Bytes) -> Result<(), NoMemory>
    ensures ok { OnOk result (held.new ≡ held.old ++ piece) }
    ensures err { OnErr result (held.new ≡ held.old) }
{
    if held.is_empty() {
        *held = piece;
        return Ok(());
    }
    held.extend_from_slice(piece.as_slice())
}

// Drops all but the first bytes.
fn cut_back(alloc: Global, held: &mut Bytes, len: usize)
    ensures { held.new ≡ take len held.old }
{
    let mut bytes = std::mem::replace(held, Bytes::new(alloc)).into_vec();
    bytes.truncate(len);
    *held = Bytes::from_vec(bytes);
}

fn stage_of(search: Search, header: Header) -> Stage
    ensures { result ≡ stage_by search header }
{
    match header {
        Header::Open => Stage::Waiting(search),
        Header::Settled => Stage::Settled,
        Header::Ready => Stage::Ready,
    }
}

impl Stream {
    /// A stream that was told nothing. It takes no memory.
    pub fn new(alloc: Global, asked: Asked) -> Self
        ensures { IsAt asked [] nothing result }
    {
        Stream {
            alloc,
            asked,
            held: Bytes::new(alloc),
            stage: Stage::Waiting(Search::new()),
        }
    }

    /// Whether the reply has begun.
    pub fn has_begun(&self) -> bool
        ensures { (asked : Asked) (told : List Told) (stood : Stood) → IsAt asked told stood self.now → result ≡ is_begun stood }
    {
        matches!(self.stage, Stage::Going(_))
    }

    /// Takes a piece of the output, and answers what is to be written now, which may be nothing. If the
    /// reply begins, `close` says whether the connection closes after it, and `stamp` is the Unix second
    /// of its Date.
    pub fn hear(&mut self, bytes: Bytes, close: bool, stamp: Option<u64>) -> Result<Bytes, NoMemory>
        requires { IsStamp stamp }
        ensures heard { (asked : Asked) (told : List Told) (stood : Stood) → IsAt asked told stood self.old
            → IfOk result (λ text. Writes asked (told ++ piece bytes ∷ []) close stamp stood text self.new) }
        ensures err { OnErr result (self.new ≡ self.old) }
    {
        match self.stage {
            Stage::Waiting(_) | Stage::Ready => self.hold(bytes, close, stamp),
            Stage::Settled => Ok(Bytes::new(self.alloc)),
            Stage::Going(flow) => piece_text(self.alloc, flow, bytes),
        }
    }

    /// Takes a tick of the clock, and answers as `hear` does. It takes memory only where the reply begins.
    pub fn tick(&mut self, close: bool, stamp: Option<u64>) -> Result<Bytes, NoMemory>
        requires { IsStamp stamp }
        ensures ticked { (asked : Asked) (told : List Told) (stood : Stood) → IsAt asked told stood self.old
            → IfOk result (λ text. Writes asked (told ++ tick ∷ []) close stamp stood text self.new) }
        ensures memory { (asked : Asked) (told : List Told) (stood : Stood) → IsAt asked told stood self.old
            → OnErr result (NeedsAtTick asked told stood) }
        ensures err { OnErr result (self.new ≡ self.old) }
    {
        match self.stage {
            Stage::Ready => self.look(close, stamp),
            Stage::Waiting(_) | Stage::Settled | Stage::Going(_) => Ok(Bytes::new(self.alloc)),
        }
    }

    /// Takes the end of the output. If no reply had begun, `close` and `stamp` are those of `hear`. Of one that
    /// has, it takes memory for the end of its chunks alone.
    pub fn end(self, close: bool, stamp: Option<u64>) -> Result<Last, NoMemory>
        requires { IsStamp stamp }
        ensures last { (asked : Asked) (told : List Told) (stood : Stood) → IsAt asked told stood self
            → IfOk result (IsLast asked told close stamp stood) }
        ensures memory { (asked : Asked) (told : List Told) (stood : Stood) → IsAt asked told stood self
            → OnErr result (NeedsAtEnd asked told stood) }
    {
        match self.stage {
            Stage::Waiting(_) | Stage::Ready | Stage::Settled => {
                let derived = derive(self.alloc, self.asked.kind, self.held.as_slice())?;
                last_of(self.alloc, derived, self.asked, close, stamp)
            }
            Stage::Going(flow) => Ok(Last::Written(end_text(self.alloc, flow)?)),
        }
    }

    // Takes a piece while all of the output is held.
    fn hold(&mut self, bytes: Bytes, close: bool, stamp: Option<u64>) -> Result<Bytes, NoMemory>
        requires stage { is_holding self.old.stage ≡ true }
        requires stamp { IsStamp stamp }
        ensures heard { (asked : Asked) (told : List Told) → IsAt asked told nothing self.old
            → IfOk result (λ text. Writes asked (told ++ piece bytes ∷ []) close stamp nothing text self.new) }
        ensures err { OnErr result (self.new ≡ self.old) }
    {
        let before = self.held.len();
        add(&mut self.held, bytes)?;
        match self.take_in(close, stamp) {
            Ok(text) => Ok(text),
            Err(NoMemory) => {
                cut_back(self.alloc, &mut self.held, before);
                Err(NoMemory)
            }
        }
    }

    // Reads what is held after a piece.
    fn take_in(&mut self, close: bool, stamp: Option<u64>) -> Result<Bytes, NoMemory>
        requires stamp { IsStamp stamp }
        ensures joined { (asked : Asked) (told : List Told) → Joins asked told self.old
            → IfOk result (λ text. Writes asked told close stamp nothing text self.new) }
        ensures err { OnErr result (self.new ≡ self.old) }
    {
        if self.held.len() > MOST_KEPT {
            return self.look(close, stamp);
        }
        if let Stage::Waiting(search) = self.stage {
            self.read_on(search)?;
        }
        Ok(Bytes::new(self.alloc))
    }

    // Reads the header, if it has come to its end.
    fn read_on(&mut self, search: Search) -> Result<(), NoMemory>
        requires searched { IsSearched self.old.held search.start search.seen }
        ensures reads { (asked : Asked) (told : List Told) → Reads asked told self.old → OnOk result (IsAt asked told nothing self.new) }
        ensures err { OnErr result (self.new ≡ self.old) }
    {
        match self.asked.kind {
            ScriptKind::Cgi => self.search_on(search),
            ScriptKind::Nph | ScriptKind::WebSocket => self.read(search),
        }
    }

    // Searches for the end of the header.
    fn search_on(&mut self, search: Search) -> Result<(), NoMemory>
        requires kind { self.old.asked.kind ≡ ScriptKind.Cgi }
        requires searched { IsSearched self.old.held search.start search.seen }
        ensures reads { (asked : Asked) (told : List Told) → Reads asked told self.old → OnOk result (IsAt asked told nothing self.new) }
        ensures err { OnErr result (self.new ≡ self.old) }
    {
        let mut search = search;
        if search.front_end(self.held.as_slice()).is_some() {
            return self.read(search);
        }
        self.stage = Stage::Waiting(search);
        Ok(())
    }

    // Reads the header.
    fn read(&mut self, search: Search) -> Result<(), NoMemory>
        requires searched { IsSearched self.old.held search.start search.seen }
        ensures reads { (asked : Asked) (told : List Told) → Reads asked told self.old → OnOk result (IsAt asked told nothing self.new) }
        ensures err { OnErr result (self.new ≡ self.old) }
    {
        let header = header_of(self.alloc, self.held.as_slice(), self.asked.kind)?;
        self.stage = stage_of(search, header);
        Ok(())
    }

    // Reads what is held, and begins the reply if it can.
    fn look(&mut self, close: bool, stamp: Option<u64>) -> Result<Bytes, NoMemory>
        requires stamp { IsStamp stamp }
        ensures looks { (asked : Asked) (told : List Told) → Looks asked told self.old
            → IfOk result (λ text. Writes asked told close stamp nothing text self.new) }
        ensures err { OnErr result (self.new ≡ self.old) }
    {
        match open(self.alloc, self.held.as_slice(), self.asked, close, stamp)? {
            Opening::Wait => Ok(Bytes::new(self.alloc)),
            Opening::Settle => {
                self.stage = Stage::Settled;
                Ok(Bytes::new(self.alloc))
            }
            Opening::Begin(flow, text) => {
                self.held = Bytes::new(self.alloc);
                self.stage = Stage::Going(flow);
                Ok(text)
            }
        }
    }
}

// What an output comes to of which nothing was written.
fn last_of(
    alloc: Global,
    derived: Derived,
    asked: Asked,
    close: bool,
    stamp: Option<u64>,
) -> Result<Last, NoMemory>
    requires { IsStamp stamp }
    ensures { IfOk result (IsLastOf (whole_way asked close stamp) derived) }
{
    match derived {
        Derived::Reply(reply) => {
            let date = date_of(stamp);
            let text = whole_text(alloc, &reply, asked.head_only, close, date.as_ref())?;
            Ok(Last::Written(text))
        }
        Derived::Raw(bytes) => Ok(Last::Written(bytes)),
        Derived::Hop(location) => Ok(Last::Hop(location)),
        Derived::Bad(cause) => Ok(Last::Bad(cause)),
    }
}
