// The traits of what the host reads its site from and reports to.
ghost use Rattle.std.specs.Prelude.{◌≡◌, ◌≤◌, ℕ, List, Option, IfOk, OnOk};
ghost use Rattle.host_base.specs.Outsides.{Rose, Stored, Holds, Puts, PutsPart};

#[derive(Clone, Copy, Debug, PartialEq, Eq)]
pub enum StoreFault {
    /// The file is missing, can't be read, or is longer than 1,048,576 bytes.
    Failed,
    NoMemory,
}

/// Where site files are read from: a map from names to bytes.
pub trait SiteStore {
    /// What it holds, where it tells.
    ghost stored: { Self → Option (List Stored) };

    /// How often reading failed. It never falls.
    ghost faults: { Self → ℕ };

    /// The bytes of a file by its name.
    fn read(&mut self, name: &str) -> Result<Vec<u8>, StoreFault>
        ensures found { IfOk result (λ bytes. Holds (stored self.old) name.now bytes.items) }
        ensures same { stored self.new ≡ stored self.old }
        ensures count { faults self.old ≤ faults self.new }
        ensures cause { result ≡ Err StoreFault.Failed → Rose (faults self.old) (faults self.new) };
}

#[derive(Clone, Copy, Debug, PartialEq, Eq)]
pub enum SinkFault {
    /// Writing failed; a front of the piece may have been put.
    Failed,
    /// Nothing was put.
    NoMemory,
}

/// What reports are written to.
pub trait Sink {
    /// The bytes put so far, where it tells.
    ghost written: { Self → Option (List ℕ) };

    /// How often writing failed. It never falls.
    ghost faults: { Self → ℕ };

    /// Puts all bytes of a piece.
    fn put(&mut self, bytes: &[u8]) -> Result<(), SinkFault>
        ensures ok { OnOk result (Puts (written self.old) bytes.now (written self.new)) }
        ensures failed { result ≡ Err SinkFault.Failed → PutsPart (written self.old) bytes.now (written self.new) }
        ensures memory { result ≡ Err SinkFault.NoMemory → written self.new ≡ written self.old }
        ensures count { faults self.old ≤ faults self.new }
        ensures cause { result ≡ Err SinkFault.Failed → Rose (faults self.old) (faults self.new) };
}
