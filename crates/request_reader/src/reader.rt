// A reader of the requests of one connection.
ghost use Rattle.std.specs.Prelude.{◌≡◌, ◌≤◌, ◌+◌, ◌++◌, ℕ, Bool, true, List, [], Some, None, length, take, drop, vec_len, min, IfSome, IfOk, OnOk, OnErr, IsTrue, is_some, option_map};
ghost use Rattle.request_reader.specs.Looks.{FaultsKeep, LookSays, early_opened, look_of, settled};
ghost use Rattle.request_reader.specs.Opening.{emptied, kept_of, wanted_by, with_bytes};
ghost use Rattle.request_reader.specs.Reader.{BadKeeps, Reader, IsBehind, IsHeard, IsOpened, data_kept, is_unread, unread};
ghost use Rattle.request_reader.specs.declared.step.ReqStep.TheVariants as Answer;
ghost use Rattle.request_reader.specs.declared.opened.Opened.{Opened};
ghost use Rattle.request_reader.specs.Request.{More, early_of, is_begun, is_length, is_whole_head, read_request, step_of, with_body};
ghost use Rattle.host_base.specs.declared.request.Request.{Request};

use crate::ReqStep;
use crate::fault::Fault;
use crate::look::Look;
use crate::opened::{Opened, is_length};
use crate::start::{Start, behind, first_look};
use body_framing::ChunkStep;
use head_lines::Search;
use host_base::{Bytes, Limits, NoMemory, Request};
use std::alloc::Global;
use std::marker::Model;
use std::mem;

/// Reads the requests of one connection from its bytes, in whatever pieces they come. It looks at each
/// byte once for the end of a head, reads a head once, and copies a byte of a body twice at most.
#[derive(Drop, Debug)]
pub struct ReqReader {
    alloc: Global,
    limits: Limits,
    // All bytes fed, but for those of whole requests and of bodies that were dropped in between.
    buffer: Vec<u8>,
    // Where the request begins that is read.
    begin: usize,
    // The search for the end of its head.
    search: Search,
    // The request, once its head was read.
    opened: Option<Opened>,
    // The fault that was found in it.
    fault: Option<Fault>,
}

impl Model for ReqReader {
    ghost use Rattle.std.specs.Prelude.{drop};
    ghost use Rattle.request_reader.specs.Reader.{Reader, IsSound};

    ghost Value = { Reader };

    ghost view = { λ r. record { limits = r.limits; opened = r.opened; fault = r.fault; rest = drop r.begin r.buffer.items } };

    ghost invariant = { λ r. IsSound r.limits r.buffer.items r.begin r.search r.opened };
}

// Drops the bytes before `begin` where they are half of the buffer or more, and says where the rest
// begins. So no more bytes are moved in all than were fed.
fn compact(buffer: &mut Vec<u8>, begin: usize) -> usize
    requires { begin ≤ vec_len buffer.old }
    ensures within { result ≤ length buffer.new.items }
    ensures same { drop result buffer.new.items ≡ drop begin buffer.old.items }
{
    let rest = buffer.len() - begin;
    if begin < rest {
        return begin;
    }
    buffer.copy_within(begin.., 0);
    buffer.truncate(rest);
    0
}

// Drops so many bytes behind a head of `used` bytes, and says where the rest begins. Where bytes follow
// them the head is moved.
fn drop_read(buffer: &mut Vec<u8>, begin: usize, used: usize, count: usize) -> usize
    requires { begin + used ≤ vec_len buffer.old }
    ensures within { result ≤ length buffer.new.items }
    ensures same { drop result buffer.new.items ≡ take used (drop begin buffer.old.items) ++ drop (used + count) (drop begin buffer.old.items) }
{
    let rest = buffer.len() - (begin + used);
    if count >= rest {
        buffer.truncate(begin + used);
        return begin;
    }
    buffer.copy_within(begin..begin + used, begin + count);
    begin + count
}

// The fault where it stays whatever follows: after one byte a CRLF may still come, which would be none of
// the head, and a limit of one byte would be reached before.
fn lasting(fault: Fault, limits: &Limits) -> Option<Fault>
    ensures same { IfSome result (λ lasting. (2 ≤ limits.now.head) × (lasting ≡ fault)) }
    ensures some { 2 ≤ limits.now.head → result ≡ Some fault }
{
    if limits.head >= 2 { Some(fault) } else { None }
}

// How many of so many bytes belong to an opened request.
fn wanted_by(opened: &Option<Opened>, len: usize) -> usize
    ensures { result ≡ wanted_by opened.now len }
{
    match opened {
        Some(opened) => opened.wanted(len),
        None => 0,
    }
}

// Reads bytes that belong to an opened request.
fn read_wanted(opened: &mut Option<Opened>, bytes: &[u8]) -> Result<(), NoMemory>
    requires { length bytes.now ≤ wanted_by opened.old (length bytes.now) }
    ensures ok { OnOk result (opened.new ≡ option_map (λ o. with_bytes o bytes.now) opened.old) }
    ensures err { OnErr result (opened.new ≡ opened.old) }
{
    match opened {
        Some(opened) => opened.read(bytes),
        None => Ok(()),
    }
}

// Takes out what is kept of the body of known length.
fn take_kept(alloc: Global, opened: &mut Option<Opened>) -> Bytes
    ensures value { result ≡ kept_of opened.old }
    ensures emptied { opened.new ≡ option_map emptied opened.old }
{
    match opened {
        Some(opened) => mem::replace(&mut opened.request.body, Bytes::new(alloc)),
        None => Bytes::new(alloc),
    }
}

impl ReqReader {
    /// A reader that was fed nothing. It takes no memory.
    pub fn new(alloc: Global, limits: &Limits) -> Self
        ensures { result ≡ unread limits.now [] }
    {
        ReqReader {
            alloc,
            limits: *limits,
            buffer: Vec::new(alloc),
            begin: 0,
            search: Search::new(),
            opened: None,
            fault: None,
        }
    }

    // Keeps an opened request, of whose body bytes were read, and drops these.
    fn settle(&mut self, opened: Opened, step: ChunkStep) -> Look
        requires { opened.used ≤ length self.old.rest }
        ensures look { result ≡ look_of opened step }
        ensures state { self.new ≡ settled self.old opened step }
        ensures rest { FaultsKeep result self.old self.new }
    {
        self.search = Search::new();
        match step {
            ChunkStep::More => {
                let due = opened.due;
                self.buffer.truncate(self.begin + opened.used);
                self.opened = Some(opened);
                Look::More { due }
            }
            ChunkStep::End { used } => {
                self.begin = drop_read(&mut self.buffer, self.begin, opened.used, used);
                self.opened = Some(opened);
                Look::Whole
            }
            ChunkStep::Bad(cause) => {
                let bare = opened.request.method.as_slice() == b"HEAD".as_slice();
                let fault = Fault { cause, bare };
                self.opened = Some(opened);
                self.fault = Some(fault);
                Look::Fault(fault)
            }
        }
    }

    // Looks at a request whose head was not read before.
    fn start(&mut self) -> Result<Look, NoMemory>
        requires { self.old.opened ≡ None }
        ensures heard { self.old.fault ≡ None
            → IfOk result (λ look. LookSays self.old.limits self.old.rest 0 look self.new) }
        ensures rest { IfOk result (λ look. FaultsKeep look self.old self.new) }
        ensures err { OnErr result (self.new ≡ self.old) }
        ensures memory { OnErr result (IsTrue (is_whole_head self.old.limits self.old.rest)) }
    {
        let mut search = self.search;
        match first_look(self.alloc, self.rest(), &self.limits, &mut search)? {
            Start::More => {
                self.search = search;
                Ok(Look::More { due: false })
            }
            Start::Fault(fault) => {
                self.fault = lasting(fault, &self.limits);
                Ok(Look::Fault(fault))
            }
            Start::Opened { opened, step } => Ok(self.settle(opened, step)),
        }
    }

    // Looks at a request whose head was read before.
    fn go_on(&mut self, opened: Opened) -> Result<Look, NoMemory>
        requires { opened.used ≤ length self.old.rest }
        ensures heard { (bytes : List ℕ) (taken : ℕ) → IsOpened self.old.limits opened self.old.rest bytes taken → self.old.fault ≡ None
            → IfOk result (λ look. LookSays self.old.limits bytes taken look self.new) }
        ensures rest { IfOk result (λ look. FaultsKeep look self.old self.new) }
        ensures err { OnErr result (self.new ≡ record self.old { opened = Some opened }) }
    {
        let mut opened = opened;
        let rest = behind(self.rest(), opened.used);
        match opened.advance(rest) {
            Ok(step) => Ok(self.settle(opened, step)),
            Err(NoMemory) => {
                self.opened = Some(opened);
                Err(NoMemory)
            }
        }
    }

    // Looks at the bytes that were fed since the last look.
    fn look(&mut self) -> Result<Look, NoMemory>
        ensures heard { (bytes : List ℕ) (taken : ℕ) → IsHeard self.old bytes taken → self.old.fault ≡ None
            → IfOk result (λ look. LookSays self.old.limits bytes taken look self.new) }
        ensures rest { IfOk result (λ look. FaultsKeep look self.old self.new) }
        ensures err { OnErr result (self.new ≡ self.old) }
        ensures memory { (bytes : List ℕ) (taken : ℕ) → IsHeard self.old bytes taken → self.old.fault ≡ None
            → OnErr result (IsTrue (is_whole_head self.old.limits bytes)) }
    {
        match self.opened.take() {
            Some(opened) => self.go_on(opened),
            None => self.start(),
        }
    }

    // Takes off the request that is opened, with its head; its body was dropped before.
    fn take_off(&mut self) -> ReqStep
        // It is no fault.
        ensures sound { (before : Reader) → BadKeeps result before self.new }
        ensures request { (o : Opened) → self.old.opened ≡ Some o
            → (result ≡ Answer.Whole (with_body o.request (data_kept o.request.framing o)))
            × (self.new ≡ record self.old { opened = None; rest = drop o.used self.old.rest }) }
    {
        match self.opened.take() {
            Some(opened) => {
                self.begin += opened.used;
                self.search = Search::new();
                ReqStep::Whole(opened.into_request())
            }
            None => ReqStep::More {
                continue_due: false,
            },
        }
    }

    /// Says what the bytes are that were fed since the last whole request. A whole request is taken off,
    /// with a CRLF before it and without what `take_body` handed out of its body, and the next one begins
    /// in the rest. The causes come in this order: those of the head (`HeadTooLong`, `TargetTooLong`,
    /// `TooManyFields`, `BadHead`), of its target (`NotServed`, `BadHost`, `BadTarget`), of its framing
    /// (`BadFraming`, `CodingUnknown`, `BodyTooLong`), `BadExpect`, and then those of a body in chunks
    /// (`BadChunk`, `BodyTooLong`). After a fault nothing is taken off, and where `limits.head` is at
    /// least 2 it is answered again however many bytes follow.
    pub fn step(&mut self) -> Result<ReqStep, NoMemory>
        ensures exact { (bytes : List ℕ) (taken : ℕ) → IsHeard self.old bytes taken
            → IfOk result (λ step. step ≡ step_of taken (read_request self.old.limits bytes)) }
        ensures behind { (bytes : List ℕ) (taken : ℕ) → IsHeard self.old bytes taken
            → OnOk result (IsBehind self.old.limits bytes taken (read_request self.old.limits bytes) self.new) }
        ensures rest { IfOk result (λ step. BadKeeps step self.old self.new) }
        // Of a body of known length, `take_body` hands out what it has of it.
        ensures next { (bytes : List ℕ) (taken : ℕ) (request : Request) (due : Bool) → IsHeard self.old bytes taken
            → read_request self.old.limits bytes ≡ More (Some request) due → is_length request.framing ≡ true
            → OnOk result (kept_of self.new.opened ≡ drop taken request.body) }
        ensures err { OnErr result (self.new ≡ self.old) }
        // Nothing but a whole head and its body take memory.
        ensures memory { (bytes : List ℕ) (taken : ℕ) → IsHeard self.old bytes taken
            → OnErr result (IsTrue (is_whole_head self.old.limits bytes)) }
    {
        if let Some(fault) = self.fault {
            return Ok(ReqStep::Bad {
                cause: fault.cause,
                bare: fault.bare,
            });
        }
        match self.look()? {
            Look::More { due } => Ok(ReqStep::More { continue_due: due }),
            Look::Whole => Ok(self.take_off()),
            Look::Fault(fault) => Ok(ReqStep::Bad {
                cause: fault.cause,
                bare: fault.bare,
            }),
        }
    }

    // A copy of the opened request, where its length is known.
    fn copy_early(&self) -> Result<Option<Request>, NoMemory>
        ensures exact { IfOk result (λ request. request ≡ early_opened self.now.opened) }
        ensures next { IfOk result (λ request. IfSome request (λ r. kept_of self.now.opened ≡ r.body)) }
        ensures memory { OnErr result (is_some self.now.opened ≡ true) }
    {
        match &self.opened {
            Some(opened) if is_length(opened.request.framing) => {
                Ok(Some(opened.copy_request()?))
            }
            _ => Ok(None),
        }
    }

    /// The request that can be served before its body has ended: its head is whole, nothing is wrong with
    /// it, and its body has a known length. Its body is what was fed of it and not handed out. After want
    /// of memory the reader has still heard the same bytes.
    pub fn early(&mut self) -> Result<Option<Request>, NoMemory>
        ensures exact { (bytes : List ℕ) (taken : ℕ) → IsHeard self.old bytes taken
            → IfOk result (λ request. request ≡ early_of taken (read_request self.old.limits bytes)) }
        ensures kept { (bytes : List ℕ) (taken : ℕ) → IsHeard self.old bytes taken
            → (self.new.limits ≡ self.old.limits) × IsHeard self.new bytes taken }
        // `take_body` hands out its body next.
        ensures next { IfOk result (λ request. IfSome request (λ r. kept_of self.new.opened ≡ r.body)) }
        ensures memory { (bytes : List ℕ) (taken : ℕ) → IsHeard self.old bytes taken
            → OnErr result (IsTrue (is_whole_head self.old.limits bytes)) }
    {
        if self.fault.is_some() {
            return Ok(None);
        }
        match self.look()? {
            Look::More { .. } => self.copy_early(),
            Look::Whole => self.copy_early(),
            Look::Fault(_) => Ok(None),
        }
    }

    /// Hands out the body of the request that `early` gave, of which nothing was handed out before. It takes
    /// no memory.
    pub fn take_body(&mut self) -> Bytes
        ensures body { result ≡ kept_of self.old.opened }
        ensures state { self.new ≡ record self.old { opened = option_map emptied self.old.opened } }
        ensures kept { (bytes : List ℕ) (taken : ℕ) → IsHeard self.old bytes taken → IsHeard self.new bytes (taken + length result) }
    {
        take_kept(self.alloc, &mut self.opened)
    }

    /// Takes bytes that the client sent.
    pub fn feed(&mut self, piece: &[u8]) -> Result<(), NoMemory>
        ensures ok { (bytes : List ℕ) (taken : ℕ) → IsHeard self.old bytes taken
            → OnOk result (IsHeard self.new (bytes ++ piece.now) taken) }
        ensures unread { is_unread self.new ≡ is_unread self.old }
        ensures limits { self.new.limits ≡ self.old.limits }
        ensures err { OnErr result (self.new ≡ self.old) }
    {
        self.begin = compact(&mut self.buffer, self.begin);
        let count = wanted_by(&self.opened, piece.len());
        let len = self.buffer.len();
        self.buffer.extend_from_slice(&piece[count..])?;
        if let Err(NoMemory) = read_wanted(&mut self.opened, &piece[..count]) {
            self.buffer.truncate(len);
            return Err(NoMemory);
        }
        Ok(())
    }

    /// Whether a request has begun in the bytes that are left. A CRLF before it and a lone CR begin none.
    pub fn begun(&self) -> bool
        ensures { (bytes : List ℕ) (taken : ℕ) → IsHeard self.now bytes taken → result ≡ is_begun bytes }
    {
        if self.opened.is_some() {
            return true;
        }
        if self.fault.is_some() {
            return true;
        }
        match self.rest() {
            [] => false,
            [b'\r'] => false,
            [b'\r', b'\n'] => false,
            _ => true,
        }
    }

    /// The bytes fed since the last whole request, less those of its body that were read: the head stays
    /// until the request is whole.
    pub fn rest(&self) -> &[u8]
        ensures { result.now ≡ self.now.rest }
    {
        &self.buffer[self.begin..]
    }
}
