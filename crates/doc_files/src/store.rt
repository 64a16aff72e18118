// Where documents are read from.
ghost use Rattle.std.specs.Prelude.{◌≡◌, ◌≤◌, ◌+◌, ◌-◌, ◌^◌, min, ℕ, Option, IfOk, Err, true};
ghost use Rattle.host_base.specs.Outsides.{Rose};
ghost use Rattle.doc_files.specs.Held.{Held, Reads};

use document_output::DocRead;
use host_base::NoMemory;

#[derive(Clone, Copy, Debug, PartialEq, Eq)]
pub enum DocFault {
    /// The file can't be read, or is longer than 8,388,608 bytes.
    Failed,
    NoMemory,
}

impl From<NoMemory> for DocFault {
    ghost use Rattle.std.specs.Prelude.{◌≡◌};
    ghost use Rattle.doc_files.specs.declared.store.DocFault.{DocFault};
    ghost use Rattle.doc_files.specs.declared.store.DocFault.TheVariants as Fault;

    ghost from_gives = { λ _ fault. fault ≡ Fault.NoMemory };

    fn from(_: NoMemory) -> Self {
        DocFault::NoMemory
    }
}

/// Where documents are read from: a map from the root of a folder and a path below it to files of at most
/// 8,388,608 bytes.
pub trait DocStore: Sized {
    /// What it holds, where it tells. No call changes it.
    ghost held: { Self → Option Held };

    /// How often reading failed. It never falls.
    ghost faults: { Self → ℕ };

    /// One more store that holds the same.
    fn another(&mut self) -> Result<Self, NoMemory>
        ensures held { IfOk result (λ s. held s ≡ held self.old) }
        ensures fresh { IfOk result (λ s. faults s ≡ 0) }
        ensures same { held self.new ≡ held self.old }
        ensures faults { faults self.new ≡ faults self.old };

    /// Takes a store back, whose count is added to its own. It takes no memory.
    fn take_back(&mut self, other: Self)
        ensures same { held self.new ≡ held self.old }
        ensures faults { min (faults self.old + faults other) (2 ^ 64 - 1) ≤ faults self.new };

    /// Whether it holds what the other one does, as far as the two tell. A store is this to each that it made.
    fn holds_as(&self, other: &Self) -> bool
        ensures { result ≡ true → held self.now ≡ held other.now };

    /// The bytes of the regular file at a path below a root, or that there is none. The path begins with `/`.
    fn read(&mut self, root: &str, path: &str) -> Result<DocRead, DocFault>
        ensures reads { IfOk result (Reads (held self.old) root.now path.now) }
        ensures same { held self.new ≡ held self.old }
        ensures count { faults self.old ≤ faults self.new }
        ensures cause { result ≡ Err DocFault.Failed → Rose (faults self.old) (faults self.new) };
}
