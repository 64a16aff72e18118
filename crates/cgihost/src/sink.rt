// The real sink.
ghost use Rattle.std.specs.Prelude.{◌≡◌};

use host_base::{Sink, SinkFault};

/// Standard output. It tells nothing of what is written.
#[derive(Drop)]
pub struct StdSink<R> {
    rt: R,
    faults: u64,
}

impl<R> StdSink<R> {
    pub fn new(rt: R) -> Self
        ensures { result.faults ≡ 0 }
    {
        StdSink { rt, faults: 0 }
    }
}

impl<R: Print> Sink for StdSink<R> {
    ghost use Rattle.std.specs.Prelude.{◌≡◌, ◌≤◌, None, OnOk, OnErr};
    ghost use Rattle.host_base.specs.Outsides.{Rose, Puts, PutsPart};

    ghost written = { λ _. None };

    ghost faults = { λ s. s.faults };

    fn put(&mut self, bytes: &[u8]) -> Result<(), SinkFault>
        ensures ok { OnOk result (Puts None bytes.now None) }
        ensures failed { result ≡ Err SinkFault.Failed → PutsPart None bytes.now None }
        ensures count { self.old.faults ≤ self.new.faults }
        ensures cause { result ≡ Err SinkFault.Failed → Rose self.old.faults self.new.faults }
        ensures calm { OnOk result (self.new.faults ≡ self.old.faults) }

        // It takes no memory.
        ensures memory { OnErr result (result ≡ Err SinkFault.Failed) }
    {
        match self.rt.write_all(bytes) {
            Ok(()) => Ok(()),
            Err(_) => {
                self.faults = self.faults.saturating_add(1);
                Err(SinkFault::Failed)
            }
        }
    }
}
