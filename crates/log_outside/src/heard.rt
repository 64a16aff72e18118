// What was heard of a client, as far as no request has used it.
ghost use Rattle.std.specs.Prelude.{◌≡◌, ◌⊎◌, ◌++◌, ◌-◌, [], drop, length, min, IfOk};
ghost use Rattle.log_outside.specs.Requests.{after_body, after_chunks, after_framing, after_request, after_step};
ghost use Rattle.body_framing.specs.Chunked.{chunk_step, read_chunked};

use body_framing::{ChunkStep, Chunks, framing_of};
use head_reader::{HeadStep, read_head};
use host_base::{Bytes, Cause, Framing, Limits, NoMemory};
use std::alloc::Global;

/// The bytes of a client from the first of a request on, and how many bytes to come belong to the body of the request
/// before it.
#[derive(Drop, Debug)]
pub struct Heard {
    pub bytes: Bytes,
    pub skip: u64,
}

impl Heard {
    /// Nothing was heard.
    pub fn new(alloc: Global) -> Self
        ensures { (result.bytes ≡ []) × (result.skip ≡ 0) }
    {
        Heard {
            bytes: Bytes::new(alloc),
            skip: 0,
        }
    }

    // How many of so many bytes belong to the body before.
    fn skipped(&self, len: usize) -> usize
        ensures { result ≡ min self.now.skip len }
    {
        if self.skip < len as u64 {
            self.skip as usize
        } else {
            len
        }
    }

    /// Hears more. For want of memory it is as if those bytes, but for what ends the body before, hadn't come.
    pub fn hear(&mut self, bytes: &[u8])
        ensures skip { self.new.skip ≡ self.old.skip - length bytes.now }
        ensures bytes { (self.new.bytes ≡ self.old.bytes ++ drop self.old.skip bytes.now) ⊎ (self.new.bytes ≡ self.old.bytes) }
    {
        let count = self.skipped(bytes.len());
        self.skip -= count as u64;
        let _ = self.bytes.extend_from_slice(&bytes[count..]);
    }

    /// Takes off the request that stands at the front. For want of memory, and where no request stands there, nothing is
    /// kept of what was heard.
    pub fn take_request(&mut self, alloc: Global, limits: &Limits)
        ensures { (self.new ≡ after_request limits.now self.old.bytes) ⊎ (self.new ≡ record { bytes = []; skip = (after_request limits.now self.old.bytes).skip }) ⊎ (self.new ≡ record { bytes = []; skip = 0 }) }
    {
        match after_head(alloc, self.bytes.as_slice(), limits) {
            Ok(heard) => *self = heard,
            Err(NoMemory) => *self = Heard::new(alloc),
        }
    }
}

fn copied(alloc: Global, bytes: &[u8], skip: u64) -> Result<Heard, NoMemory>
    ensures { IfOk result (λ heard. heard ≡ record { bytes = bytes.now; skip = skip }) }
{
    Ok(Heard {
        bytes: Bytes::from_slice(alloc, bytes)?,
        skip,
    })
}

// What is left behind a body of so many bytes.
fn after_body(alloc: Global, bytes: &[u8], count: u64) -> Result<Heard, NoMemory>
    ensures { IfOk result (λ heard. heard ≡ after_body count bytes.now) }
{
    let len = bytes.len() as u64;
    if count < len {
        copied(alloc, &bytes[count as usize..], 0)
    } else {
        Ok(Heard {
            bytes: Bytes::new(alloc),
            skip: count - len,
        })
    }
}

// What the bytes are as a body in chunks.
fn chunk_step(alloc: Global, bytes: &[u8], limit: u64) -> Result<ChunkStep, NoMemory>
    ensures { IfOk result (λ step. step ≡ chunk_step 0 (read_chunked limit bytes.now)) }
{
    let mut chunks = Chunks::new(alloc, limit);
    chunks.feed(bytes)
}

fn behind(bytes: &[u8], count: usize) -> &[u8]
    ensures { result.now ≡ drop count bytes.now }
{
    if count < bytes.len() {
        &bytes[count..]
    } else {
        &[]
    }
}

fn after_step(alloc: Global, bytes: &[u8], step: ChunkStep) -> Result<Heard, NoMemory>
    ensures { IfOk result (λ heard. heard ≡ after_step bytes.now step) }
{
    match step {
        ChunkStep::End { used } => copied(alloc, behind(bytes, used), 0),
        ChunkStep::More | ChunkStep::Bad(_) => Ok(Heard::new(alloc)),
    }
}

// .. behind one in chunks.
fn after_chunks(alloc: Global, bytes: &[u8], limit: u64) -> Result<Heard, NoMemory>
    ensures { IfOk result (λ heard. heard ≡ after_chunks limit bytes.now) }
{
    let step = chunk_step(alloc, bytes, limit)?;
    after_step(alloc, bytes, step)
}

// .. behind a head, by how the body is delimited.
fn after_framing(
    alloc: Global,
    bytes: &[u8],
    framing: Result<Framing, Cause>,
    limits: &Limits,
) -> Result<Heard, NoMemory>
    ensures { IfOk result (λ heard. heard ≡ after_framing limits.now bytes.now framing) }
{
    match framing {
        Ok(Framing::Empty) => after_body(alloc, bytes, 0),
        Ok(Framing::Length(count)) => after_body(alloc, bytes, count),
        Ok(Framing::Chunked) => after_chunks(alloc, bytes, limits.body),
        Err(_) => Ok(Heard::new(alloc)),
    }
}

// .. behind a head.
fn after_head(alloc: Global, bytes: &[u8], limits: &Limits) -> Result<Heard, NoMemory>
    ensures { IfOk result (λ heard. heard ≡ after_request limits.now bytes.now) }
{
    let HeadStep::Whole { head, used } = read_head(alloc, bytes, limits)? else {
        return Ok(Heard::new(alloc));
    };
    after_framing(
        alloc,
        behind(bytes, used),
        framing_of(&head, limits),
        limits,
    )
}
