// Lines on their way to who writes them.
ghost use Rattle.std.specs.Prelude.{◌≡◌, ◌<◌, ◌++◌, length, true, false, IfOk};
ghost use Rattle.rtrb.specs.Ring.{known_free, sent};
ghost use Rattle.log_line.specs.Line.{line_of};
ghost use Rattle.log_outside.specs.Queues.{Tells, counting};

use host_base::{Bytes, NoMemory};
use log_line::{Entry, push_line};
use rtrb::Producer;
use std::alloc::Global;

// Room for most lines.
const ROOM: usize = 256;

/// The end of a queue of bytes that takes whole lines. It never waits.
#[derive(Drop)]
pub struct LineQueue {
    alloc: Global,
    ring: Producer<u8>,
    // How many lines found no room since the last one that did.
    dropped: u64,
}

impl LineQueue {
    /// Nothing was dropped.
    pub fn new(alloc: Global, ring: Producer<u8>) -> Self
        ensures { (result.ring ≡ ring) × (result.dropped ≡ 0) }
    {
        LineQueue {
            alloc,
            ring,
            dropped: 0,
        }
    }

    fn line_of(&self, entry: Entry) -> Result<Bytes, NoMemory>
        ensures { IfOk result (λ line. line ≡ line_of (counting self.now.dropped entry)) }
    {
        let entry = Entry {
            dropped: self.dropped,
            ..entry
        };
        let mut line = Bytes::with_capacity(self.alloc, ROOM)?;
        push_line(&mut line, &entry)?;
        Ok(line)
    }

    // All of it, or nothing.
    fn push(&mut self, line: &[u8]) -> bool
        ensures whole { result ≡ true → sent self.new.ring ≡ sent self.old.ring ++ line.now }
        ensures none { result ≡ false → sent self.new.ring ≡ sent self.old.ring }
        ensures full { result ≡ false → known_free self.new.ring < length line.now }
        ensures same { self.new.dropped ≡ self.old.dropped }
    {
        self.ring.push_entire_slice(line).is_ok()
    }

    /// Hands over the line of an entry, which says how many were dropped before it. It is dropped itself where there is no
    /// room for all of it, or no memory for the line.
    pub fn tell(&mut self, entry: Entry)
        ensures { Tells entry self.old self.new }
    {
        let is_told = match self.line_of(entry) {
            Ok(line) => self.push(line.as_slice()),
            Err(NoMemory) => false,
        };
        self.dropped = if is_told {
            0
        } else {
            self.dropped.saturating_add(1)
        };
    }
}
