// What a pump moves its bytes through.
ghost use Rattle.std.specs.Prelude.{◌≡◌, ◌≤◌, [], vec_len, vec_capacity};

use host_base::NoMemory;
use std::alloc::Global;

// How many bytes a pump moves at a time at first: most programs write less, and each page that is touched costs.
const SMALL: usize = 4_096;

// .. and once a piece was as long as that.
const LARGE: usize = 65_536;

// What a buffer holds at first, which is copied as one piece.
const NOTHING: [u8; SMALL] = [0; SMALL];

/// The memory of a large buffer. It is touched by the thread of the pump alone.
#[derive(Drop)]
pub struct Buffer {
    room: Vec<u8>,
    ghost empty: { room.items ≡ [] },
    ghost large: { 65536 ≤ vec_capacity room },
}

impl Buffer {
    ghost use Rattle.std.specs.Prelude.{◌≡◌, ◌≤◌, ◌<◌, [], IfOk, vec_len, vec_capacity};

    /// The memory of one.
    pub fn new(alloc: Global) -> Result<Self, NoMemory>
        ensures empty { IfOk result (λ buffer. buffer.room.items ≡ []) }
        ensures large { IfOk result (λ buffer. 65536 ≤ vec_capacity buffer.room) }
    {
        Ok(Buffer {
            room: Vec::with_capacity(alloc, LARGE)?,
        })
    }

    /// A small buffer in the memory of the large one.
    pub fn into_small(self) -> Vec<u8>
        ensures small { vec_len result ≡ 4096 }
        ensures some { 0 < vec_len result }
        ensures room { 65536 ≤ vec_capacity result }
    {
        let Buffer { room } = self;
        let mut bytes = room;
        let _ = bytes.extend_from_slice(&NOTHING);
        bytes
    }
}

/// Has a buffer grow where a piece of so many bytes filled it.
pub(crate) fn grow(buffer: &mut Vec<u8>, count: usize)
    ensures kept { vec_len buffer.old ≤ vec_len buffer.new }
    ensures grown { count ≡ vec_len buffer.old → 65536 ≤ vec_capacity buffer.old → 65536 ≤ vec_len buffer.new }
{
    if count < LARGE && count == buffer.len() {
        let _ = buffer.resize(LARGE, 0);
    }
}
