// A request whose head was read.
ghost use Rattle.std.specs.Prelude.{◌≡◌, ◌≤◌, ◌++◌, ℕ, List, min, length, take, IfOk, OnOk, OnErr};
ghost use Rattle.body_framing.specs.Chunked.{after_all, chunk_step, read_chunked, standing_after};
ghost use Rattle.request_reader.specs.Advance.{AdvancesTo, IsSameHead};
ghost use Rattle.request_reader.specs.Opening.{counted_step, opened_of, with_bytes};
ghost use Rattle.request_reader.specs.Reader.{IsInBody, data_kept};
ghost use Rattle.request_reader.specs.Request.{is_chunked, is_length, with_body};

use crate::asked::Asked;
use body_framing::{ChunkStep, Chunks};
use host_base::{Framing, Limits, NoMemory, Request, Target};
use std::alloc::Global;

/// A request whose head was read, and how far its body was.
#[derive(Drop, Debug)]
pub struct Opened {
    /// The request. Its body is what has come of one of known length and was not handed out.
    pub request: Request,
    /// How many bytes the head took, with a CRLF before it.
    pub used: usize,
    /// Whether the client waits for 100 Continue (RFC 9110 10.1.1).
    pub due: bool,
    /// How many bytes of a body of known length are to come.
    pub left: u64,
    /// The reader of a body in chunks.
    pub chunks: Chunks,
}

// Whether the length of the body is known beforehand.
pub fn is_length(framing: Framing) -> bool
    ensures { result ≡ is_length framing }
{
    match framing {
        Framing::Length(_) => true,
        Framing::Empty => false,
        Framing::Chunked => false,
    }
}

fn is_chunked(framing: Framing) -> bool
    ensures { result ≡ is_chunked framing }
{
    framing == Framing::Chunked
}

impl Opened {
    // The request of a head that took so many bytes, of whose body nothing was read yet.
    pub fn unread(alloc: Global, asked: Asked, used: usize, limits: &Limits) -> Self
        ensures { result ≡ opened_of limits.now asked used }
    {
        let left = match asked.request.framing {
            Framing::Length(count) => count,
            Framing::Empty => 0,
            Framing::Chunked => 0,
        };
        Opened {
            request: asked.request,
            used,
            due: asked.due,
            left,
            chunks: Chunks::new(alloc, limits.body),
        }
    }

    // How many of the bytes belong to a body of known length.
    pub fn wanted(&self, len: usize) -> usize
        ensures { result ≡ min self.now.left len }
    {
        if self.left < len as u64 {
            self.left as usize
        } else {
            len
        }
    }

    // Reads bytes of a body of known length.
    pub fn read(&mut self, bytes: &[u8]) -> Result<(), NoMemory>
        requires { length bytes.now ≤ self.old.left }
        ensures ok { OnOk result (self.new ≡ with_bytes self.old bytes.now) }
        ensures err { OnErr result (self.new ≡ self.old) }
    {
        self.request.body.extend_from_slice(bytes)?;
        self.left -= bytes.len() as u64;
        Ok(())
    }

    // Reads bytes of a body of known length, up to its end.
    fn advance_counted(&mut self, bytes: &[u8]) -> Result<ChunkStep, NoMemory>
        ensures ok { IfOk result (λ step. (self.new ≡ with_bytes self.old (take (min self.old.left (length bytes.now)) bytes.now))
            × (step ≡ counted_step self.old.left (length bytes.now))) }
        ensures err { OnErr result (self.new ≡ self.old) }
    {
        let count = self.wanted(bytes.len());
        self.read(&bytes[..count])?;
        Ok(if self.left == 0 {
            ChunkStep::End { used: count }
        } else {
            ChunkStep::More
        })
    }

    // Reads bytes of a body in chunks, up to its end.
    fn advance_chunks(&mut self, bytes: &[u8]) -> Result<ChunkStep, NoMemory>
        ensures reads { OnOk result (self.new ≡ record self.old { chunks = after_all self.old.chunks bytes.now }) }
        ensures exact { (limit : ℕ) (fed : List ℕ) → self.old.chunks ≡ standing_after limit fed
            → IfOk result (λ step. step ≡ chunk_step (length fed) (read_chunked limit (fed ++ bytes.now))) }
        ensures err { OnErr result (self.new ≡ self.old) }
    {
        self.chunks.feed(bytes)
    }

    // Reads the bytes of the body that were not read yet, up to its end.
    pub fn advance(&mut self, bytes: &[u8]) -> Result<ChunkStep, NoMemory>
        ensures body { (limit : ℕ) (read : List ℕ) (taken : ℕ) → IsInBody self.old.request.framing limit self.old read taken
            → IfOk result (λ step. AdvancesTo limit self.old.request.framing read bytes.now taken step self.new) }
        ensures head { IsSameHead self.old self.new }
        ensures err { OnErr result (self.new ≡ self.old) }
    {
        if is_chunked(self.request.framing) {
            self.advance_chunks(bytes)
        } else {
            self.advance_counted(bytes)
        }
    }

    // The request with what was decoded of its body.
    pub fn into_request(self) -> Request
        ensures { result ≡ with_body self.request (data_kept self.request.framing self) }
    {
        let Opened {
            request,
            chunks,
            ..
        } = self;
        if !is_chunked(request.framing) {
            return request;
        }
        Request {
            body: chunks.into_body(),
            ..request
        }
    }

    // The same request with a copy of what came of its body.
    pub fn copy_request(&self) -> Result<Request, NoMemory>
        ensures { IfOk result (λ request. request ≡ self.now.request) }
    {
        copy_request(&self.request)
    }
}

fn copy_target(target: &Target) -> Result<Target, NoMemory>
    ensures { IfOk result (λ copy. copy ≡ target.now) }
{
    Ok(Target {
        path: target.path.clone()?,
        query: target.query.clone()?,
        host: target.host.clone()?,
    })
}

fn copy_request(request: &Request) -> Result<Request, NoMemory>
    ensures { IfOk result (λ copy. copy ≡ request.now) }
{
    Ok(Request {
        method: request.method.clone()?,
        target: copy_target(&request.target)?,
        version: request.version,
        fields: request.fields.clone()?,
        framing: request.framing,
        body: request.body.clone()?,
    })
}
