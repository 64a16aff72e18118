// A reader of a body in chunks.
ghost use Rattle.std.specs.Prelude.{◌≡◌, ◌≤◌, ◌<◌, ◌+◌, ◌-◌, ◌++◌, false, ℕ, List, length, take, IfOk, OnOk, OnErr};
ghost use Rattle.body_framing.specs.Places.{is_done};
ghost use Rattle.body_framing.specs.Chunked.{after_all, at_start, chunk_step, read_chunked, read_len, standing_after, step_at};

use crate::place::{Place, is_done, place_after};
use crate::step::ChunkStep;
use host_base::{Bytes, NoMemory};
use std::alloc::Global;
use std::marker::Model;

/// Reads one body in chunks (RFC 9112 7.1) from its bytes, in whatever pieces they come, and keeps its
/// data. A size line has at most 16 digits and 256 bytes of extension, and all trailer lines 8,192 bytes
/// without their ends; extensions and trailers are dropped.
#[derive(Drop, Debug)]
pub struct Chunks {
    // Bytes of data at most.
    limit: u64,
    place: Place,
    decoded: Vec<u8>,
}

impl Model for Chunks {
    ghost use Rattle.body_framing.specs.Chunked.{Standing};

    ghost Value = { Standing };

    ghost view = { λ c. record { limit = c.limit; place = c.place; decoded = c.decoded.items } };
}

// The bytes of a chunk's data, of which one and so many more are left, and the place behind them.
fn data_front(left: u64, bytes: &[u8]) -> (&[u8], Place)
    ensures front { result.0.now ≡ take (length result.0.now) bytes.now }
    ensures within { length result.0.now ≤ length bytes.now }
    ensures some { 0 < length bytes.now → 0 < length result.0.now }
    ensures fits { length result.0.now ≤ left + 1 }
    ensures next { (limit : ℕ) (decoded : List ℕ)
        → after_all (record { limit = limit; place = Place.Data left; decoded = decoded }) result.0.now
        ≡ record { limit = limit; place = result.1; decoded = decoded ++ result.0.now } }
{
    let count = bytes.len() as u64;
    if count > left {
        (&bytes[..left as usize + 1], Place::DataEnd)
    } else {
        (bytes, Place::Data { left: left - count })
    }
}

// The answer at a place, where so many of the last bytes were read.
fn step_at(place: Place, used: usize) -> ChunkStep
    ensures { result ≡ step_at place used }
{
    match place {
        Place::End => ChunkStep::End { used },
        Place::Bad(cause) => ChunkStep::Bad(cause),
        _ => ChunkStep::More,
    }
}

impl Chunks {
    /// A reader that was fed nothing, for a body of at most `limit` bytes. It takes no memory.
    pub fn new(alloc: Global, limit: u64) -> Self
        ensures { result ≡ at_start limit }
    {
        Chunks {
            limit,
            place: Place::Size { digits: 0, size: 0 },
            decoded: Vec::new(alloc),
        }
    }

    // How many bytes of data may still come.
    fn room(&self) -> u64
        ensures { result ≡ self.now.limit - length self.now.decoded }
    {
        self.limit.saturating_sub(self.decoded.len() as u64)
    }

    // Reads the data of a chunk up to its end, or one other byte, and says how many bytes it read.
    fn read_some(&mut self, bytes: &[u8]) -> Result<usize, NoMemory>
        requires some { 0 < length bytes.now }
        requires going { is_done self.old.place ≡ false }
        ensures read { IfOk result (λ count. self.new ≡ after_all self.old (take count bytes.now)) }
        ensures within { IfOk result (λ count. (0 < count) × (count ≤ length bytes.now)) }
        ensures counted { IfOk result (λ count. read_len self.old (take count bytes.now) ≡ count) }
        ensures err { OnErr result (self.new ≡ self.old) }
    {
        if let Place::Data { left } = self.place {
            let (front, next) = data_front(left, bytes);
            self.decoded.extend_from_slice(front)?;
            self.place = next;
            return Ok(front.len());
        }
        self.place = place_after(self.room(), self.place, bytes[0]);
        Ok(1)
    }

    // Reads the bytes up to the end of the body or a byte that is refused, and says how many it read.
    fn read(&mut self, bytes: &[u8]) -> Result<usize, NoMemory>
        ensures read { IfOk result (λ count. (self.new ≡ after_all self.old bytes.now) × (count ≡ read_len self.old bytes.now)) }
        ensures kept { take (length self.old.decoded) self.new.decoded ≡ self.old.decoded }
        ensures limit { self.new.limit ≡ self.old.limit }
    {
        let mut at = 0;
        while at < bytes.len() && !is_done(self.place) {
            at += self.read_some(&bytes[at..])?;
        }
        Ok(at)
    }

    /// Reads the next bytes of the body. `End` comes exactly where the bytes fed so far begin with a
    /// chunked body of at most `limit` bytes of data, and says how many of the last ones belong to it;
    /// `Bad` exactly where they can't begin with one whatever follows. After either a feed changes nothing
    /// and answers the same, with `used` 0.
    pub fn feed(&mut self, piece: &[u8]) -> Result<ChunkStep, NoMemory>
        ensures reads { OnOk result (self.new ≡ after_all self.old piece.now) }
        // The answer is that on all bytes fed, however they were cut.
        ensures exact { (limit : ℕ) (fed : List ℕ) → self.old ≡ standing_after limit fed
            → IfOk result (λ step. step ≡ chunk_step (length fed) (read_chunked limit (fed ++ piece.now))) }
        ensures joined { (limit : ℕ) (fed : List ℕ) → self.old ≡ standing_after limit fed
            → OnOk result (self.new ≡ standing_after limit (fed ++ piece.now)) }
        ensures err { OnErr result (self.new ≡ self.old) }
    {
        let place = self.place;
        let count = self.decoded.len();
        match self.read(piece) {
            Ok(used) => Ok(step_at(self.place, used)),
            Err(NoMemory) => {
                self.place = place;
                self.decoded.truncate(count);
                Err(NoMemory)
            }
        }
    }

    /// The data decoded so far.
    pub fn body(&self) -> &[u8]
        ensures { result.now ≡ self.now.decoded }
    {
        self.decoded.as_slice()
    }

    /// The data decoded so far, without copying it.
    pub fn into_body(self) -> Bytes
        ensures { result ≡ self.decoded }
    {
        let Chunks { decoded, .. } = self;
        Bytes::from_vec(decoded)
    }
}
