// The bytes of an exchange.
ghost use Rattle.std.specs.Prelude.{◌≡◌, bytes_eq, codes};
ghost use Rattle.exchange_request.specs.Due.{due_of};
ghost use Rattle.exchange_request.specs.Manner.{manner_of};

use crate::{Found, Manner};
use head_reader::{HeadStep, read_head};
use host_base::{Bytes, Limits, NoMemory, Request};
use request_reader::{ReqReader, ReqStep, expects_continue, persists};
use std::alloc::Global;

/// The bytes of the client that no earlier request used, read as the request of an exchange.
#[derive(Drop, Debug)]
pub struct Incoming {
    alloc: Global,
    limits: Limits,
    reader: ReqReader,
    // Once it was found ready.
    manner: Option<Manner>,
    // It was read to its end, and taken off the reader.
    whole: bool,
    // 100 Continue is due.
    due: bool,
    // Bytes came that nobody has looked at.
    fresh: bool,
}

fn manner_of(request: &Request) -> Manner
    ensures { result ≡ manner_of request.now }
{
    Manner {
        version: request.version,
        head_only: request.method.as_slice() == b"HEAD".as_slice(),
        persists: persists(request),
    }
}

fn due_of(request: &Request) -> bool
    ensures { result ≡ due_of request.now }
{
    match expects_continue(request.version, &request.fields, request.framing) {
        Ok(due) => due,
        Err(_) => false,
    }
}

impl Incoming {
    ghost use Rattle.std.specs.Prelude.{◌≡◌, ◌≤◌, ◌+◌, ◌++◌, ◌&&◌, ℕ, List, [], length, drop, Option, Some, true, false, not, option_map, is_some, IfOk, OnOk, OnErr, IsTrue};
    ghost use Rattle.request_reader.specs.Request.{More, is_begun, is_whole_head, used_by};
    ghost use Rattle.host_base.specs.declared.request.Request.{Request};
    ghost use Rattle.trace_model.specs.Readings.{headed, startable};
    ghost use Rattle.trace_model.specs.Readings.{is_due as is_due_of, is_whole as is_whole_of, is_bare as is_bare_of};
    ghost use Rattle.trace_model.specs.Closes.{persists_by};
    ghost use Rattle.exchange_request.specs.Knows.{KnowsRequest, Finds, HandsOut, limits_of, is_ready, is_taken, kept_of, bare_of, is_looked_at, is_read, is_refused, reading_of};

    /// Nothing was heard. It takes no memory.
    pub fn new(alloc: Global, limits: &Limits) -> Self
        ensures knows { 2 ≤ limits.now.head → KnowsRequest result [] 0 }
        ensures limits { limits_of result ≡ limits.now }
        ensures ready { is_ready result ≡ false }
    {
        Incoming {
            alloc,
            limits: *limits,
            reader: ReqReader::new(alloc, limits),
            manner: None,
            whole: false,
            due: false,
            fresh: false,
        }
    }

    /// Hears bytes of the client. For want of memory nothing changes.
    pub fn feed(&mut self, bytes: &[u8]) -> Result<(), NoMemory>
        ensures ok { (heard : List ℕ) (taken : ℕ) → KnowsRequest self.old heard taken → 2 ≤ (limits_of self.old).head
            → OnOk result (KnowsRequest self.new (heard ++ bytes.now) taken) }
        ensures err { OnErr result (self.new ≡ self.old) }
        ensures limits { limits_of self.new ≡ limits_of self.old }
        ensures ready { is_ready self.new ≡ is_ready self.old }
        ensures taken { is_taken self.new ≡ is_taken self.old }
        ensures looked { OnOk result (is_looked_at self.new ≡ false) }
    {
        self.reader.feed(bytes)?;
        self.fresh = true;
        Ok(())
    }

    /// Looks for a request that a script may be started for, where none was found before.
    pub fn look(&mut self) -> Result<Found, NoMemory>
        ensures finds { (bytes : List ℕ) → KnowsRequest self.old bytes 0 → is_ready self.old ≡ false
            → IfOk result (λ found. Finds bytes found self.new) }
        ensures err { (bytes : List ℕ) → KnowsRequest self.old bytes 0 → is_ready self.old ≡ false → OnErr result (KnowsRequest self.new bytes 0) }
        ensures memory { (bytes : List ℕ) → KnowsRequest self.old bytes 0 → is_ready self.old ≡ false
            → OnErr result (IsTrue (is_whole_head (limits_of self.old) bytes)) }
        ensures limits { limits_of self.new ≡ limits_of self.old }
    {
        match self.reader.step()? {
            ReqStep::Whole(request) => {
                self.due = due_of(&request);
                self.manner = Some(manner_of(&request));
                self.whole = true;
                self.fresh = false;
                Ok(Found::Ready(request))
            }
            ReqStep::More { continue_due } => self.look_early(continue_due),
            ReqStep::Bad { cause, bare } => {
                self.due = false;
                self.fresh = false;
                Ok(Found::Refused { cause, bare })
            }
        }
    }

    // Looks for one that is not whole.
    fn look_early(&mut self, due: bool) -> Result<Found, NoMemory>
        ensures finds { (bytes : List ℕ) (request : Option Request) → KnowsRequest self.old bytes 0 → is_ready self.old ≡ false
            → reading_of self.old bytes ≡ More request due
            → IfOk result (λ found. Finds bytes found self.new) }
        ensures err { (bytes : List ℕ) → KnowsRequest self.old bytes 0 → is_ready self.old ≡ false → OnErr result (KnowsRequest self.new bytes 0) }
        ensures memory { (bytes : List ℕ) → KnowsRequest self.old bytes 0 → is_ready self.old ≡ false
            → OnErr result (IsTrue (is_whole_head (limits_of self.old) bytes)) }
        ensures limits { limits_of self.new ≡ limits_of self.old }
    {
        match self.reader.early()? {
            None => {
                self.due = due;
                self.fresh = false;
                Ok(Found::More)
            }
            Some(request) => {
                let _body = self.reader.take_body();
                self.due = due;
                self.manner = Some(manner_of(&request));
                self.fresh = false;
                Ok(Found::Ready(request))
            }
        }
    }

    /// Hands out what came of the body since, once the request was found ready and while it was not whole.
    pub fn more_body(&mut self) -> Result<Bytes, NoMemory>
        ensures body { (bytes : List ℕ) (taken : ℕ) → KnowsRequest self.old bytes taken → is_ready self.old ≡ true → is_taken self.old ≡ false
            → IfOk result (λ body. HandsOut self.new bytes taken body) }
        ensures err { OnErr result (self.new ≡ self.old) }
        ensures limits { limits_of self.new ≡ limits_of self.old }
        ensures ready { is_ready self.new ≡ is_ready self.old }
    {
        match self.reader.step()? {
            ReqStep::Whole(request) => {
                self.whole = true;
                self.fresh = false;
                Ok(request.body)
            }
            ReqStep::More { .. } => {
                self.fresh = false;
                Ok(self.reader.take_body())
            }
            ReqStep::Bad { .. } => {
                self.fresh = false;
                Ok(Bytes::new(self.alloc))
            }
        }
    }

    /// Whether the request is whole.
    pub fn is_whole(&self) -> bool
        ensures value { result ≡ is_taken self.now }
        ensures whole { (bytes : List ℕ) (taken : ℕ) → KnowsRequest self.now bytes taken → is_read self.now ≡ true
            → result ≡ is_whole_of (reading_of self.now bytes) }
    {
        self.whole
    }

    /// Whether 100 Continue is due (RFC 9110 10.1.1).
    pub fn is_due(&self) -> bool
        ensures { (bytes : List ℕ) (taken : ℕ) → KnowsRequest self.now bytes taken → is_read self.now ≡ true
            → result ≡ is_due_of (reading_of self.now bytes) }
    {
        self.due
    }

    /// Whether there is something to look at.
    pub fn is_fresh(&self) -> bool
        ensures { result ≡ not (is_looked_at self.now) }
    {
        self.fresh
    }

    /// Whether a request has begun.
    pub fn has_begun(&self) -> bool
        ensures { (bytes : List ℕ) (taken : ℕ) → KnowsRequest self.now bytes taken → 2 ≤ (limits_of self.now).head → result ≡ is_begun bytes }
    {
        self.manner.is_some() || self.reader.begun()
    }

    /// What a reply depends on, once the request was found ready.
    pub fn manner(&self) -> Option<Manner>
        ensures ready { is_some result ≡ is_ready self.now }
        ensures value { (bytes : List ℕ) (taken : ℕ) → KnowsRequest self.now bytes taken → is_read self.now ≡ true
            → result ≡ option_map manner_of (startable (reading_of self.now bytes)) }
    {
        self.manner
    }

    /// Whether an answer that begins now leaves the connection open, as far as the request says: it persists, and is
    /// whole.
    pub fn lets_persist(&self) -> bool
        ensures { (bytes : List ℕ) (taken : ℕ) → KnowsRequest self.now bytes taken → is_read self.now ≡ true
            → result ≡ persists_by (headed (reading_of self.now bytes)) && is_whole_of (reading_of self.now bytes) }
    {
        match self.manner {
            None => false,
            Some(manner) => manner.persists && self.whole,
        }
    }

    /// Whether a reply to it has no body, ready or not (RFC 9110 9.3.2).
    pub fn is_bare(&self) -> Result<bool, NoMemory>
        ensures value { IfOk result (λ bare. bare ≡ bare_of self.now) }
        ensures memory { OnErr result (is_ready self.now ≡ false) }
        ensures ready { (bytes : List ℕ) (taken : ℕ) → KnowsRequest self.now bytes taken → is_looked_at self.now ≡ true → is_ready self.now ≡ true
            → bare_of self.now ≡ is_bare_of (reading_of self.now bytes) }
        ensures served { (bytes : List ℕ) (taken : ℕ) → KnowsRequest self.now bytes taken → is_refused (reading_of self.now bytes) ≡ false
            → bare_of self.now ≡ is_bare_of (reading_of self.now bytes) }
    {
        if let Some(manner) = self.manner {
            return Ok(manner.head_only);
        }
        match read_head(self.alloc, self.reader.rest(), &self.limits)? {
            HeadStep::Whole { head, .. } => Ok(head.method.as_slice() == b"HEAD".as_slice()),
            HeadStep::More | HeadStep::Bad(_) => Ok(false),
        }
    }

    /// How many bytes are kept.
    pub fn kept_len(&self) -> usize
        ensures { result ≡ kept_of self.now }
    {
        self.reader.rest().len()
    }

    /// What came behind a request that was read to its end; nothing behind any other.
    pub fn rest(&self) -> Result<Bytes, NoMemory>
        ensures value { (bytes : List ℕ) (taken : ℕ) → KnowsRequest self.now bytes taken → is_taken self.now ≡ true
            → IfOk result (λ rest. rest ≡ drop (used_by (reading_of self.now bytes)) bytes) }
        ensures none { is_taken self.now ≡ false → IfOk result (λ rest. rest ≡ []) }
        ensures memory { OnErr result (is_taken self.now ≡ true) }
    {
        if !self.whole {
            return Ok(Bytes::new(self.alloc));
        }
        Bytes::from_slice(self.alloc, self.reader.rest())
    }

    /// The exchange is over, and the next one begins with what its request left.
    pub fn go_on(&mut self)
        ensures next { (bytes : List ℕ) (taken : ℕ) → KnowsRequest self.old bytes taken → is_taken self.old ≡ true
            → KnowsRequest self.new (drop (used_by (reading_of self.old bytes)) bytes) 0 }
        ensures looked { is_looked_at self.new ≡ false }
        ensures ready { is_ready self.new ≡ false }
        ensures limits { limits_of self.new ≡ limits_of self.old }
    {
        self.manner = None;
        self.whole = false;
        self.due = false;
        self.fresh = true;
    }
}
