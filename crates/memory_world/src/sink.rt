// A sink in memory.
ghost use Rattle.std.specs.Prelude.{◌≡◌, [], Some};

use host_base::{Bytes, Sink, SinkFault};
use std::alloc::Global;

/// A sink that keeps what is put. The calls with the numbers of `failing`, counted from 0, fail once half
/// of their piece was put.
#[derive(Drop)]
pub struct MemorySink {
    written: Bytes,
    failing: Vec<u64>,
    puts: u64,
    faults: u64,
}

impl MemorySink {
    pub fn new(alloc: Global, failing: Vec<u64>) -> Self
        ensures written { ⟦<MemorySink as Sink>⟧.written result ≡ Some [] }
        ensures failing { result.failing ≡ failing }
        ensures counts { (result.puts ≡ 0) × (result.faults ≡ 0) }
    {
        MemorySink {
            written: Bytes::new(alloc),
            failing,
            puts: 0,
            faults: 0,
        }
    }

    /// What was put so far.
    pub fn written(&self) -> &[u8]
        ensures { ⟦<MemorySink as Sink>⟧.written self.now ≡ Some result.now }
    {
        self.written.as_slice()
    }

    /// How many puts failed.
    pub fn faults(&self) -> u64
        ensures { result ≡ ⟦<MemorySink as Sink>⟧.faults self.now }
    {
        self.faults
    }
}

impl Sink for MemorySink {
    ghost use Rattle.std.specs.Prelude.{◌≡◌, ◌≤◌, ◌↔◌, true, Some, OnOk};
    ghost use Rattle.host_base.specs.Outsides.{Rose, Puts, PutsPart};
    ghost use Rattle.memory_world.specs.ListedWords.{count_up};
    ghost use Rattle.memory_world.specs.SinkWords.{fails_next};

    ghost written = { λ s. Some s.written };

    ghost faults = { λ s. s.faults };

    fn put(&mut self, bytes: &[u8]) -> Result<(), SinkFault>
        ensures ok { OnOk result (Puts (Some self.old.written) bytes.now (Some self.new.written)) }
        ensures failed { result ≡ Err SinkFault.Failed → PutsPart (Some self.old.written) bytes.now (Some self.new.written) }
        ensures memory { result ≡ Err SinkFault.NoMemory → Some self.new.written ≡ Some self.old.written }
        ensures count { self.old.faults ≤ self.new.faults }
        ensures cause { result ≡ Err SinkFault.Failed → Rose self.old.faults self.new.faults }

        // A put fails exactly where its number is listed, and each failure is counted once.
        ensures listed { (result ≡ Err SinkFault.Failed) ↔ (fails_next self.old ≡ true) }
        ensures counted { self.new ≡ record self.old { written = self.new.written; puts = count_up true self.old.puts; faults = count_up (fails_next self.old) self.old.faults } }
    {
        let number = self.puts;
        self.puts = number.saturating_add(1);
        if self.failing.contains(&number) {
            self.faults = self.faults.saturating_add(1);
            let _ = self.written.extend_from_slice(&bytes[..bytes.len() / 2]);
            return Err(SinkFault::Failed);
        }
        match self.written.extend_from_slice(bytes) {
            Ok(()) => Ok(()),
            Err(_) => Err(SinkFault::NoMemory),
        }
    }
}
