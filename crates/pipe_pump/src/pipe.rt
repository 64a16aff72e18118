// The pipes that a pump moves bytes from and to.
ghost use Rattle.std.specs.Prelude.{◌≡◌, ◌≤◌, ◌<◌, ℕ, Bool, true, List, [], Option, length};
ghost use Rattle.host_base.specs.Outsides.{Rose};
ghost use Rattle.pipe_pump.specs.Pipes.{Reads, Writes};
ghost use Rattle.pipe_pump.specs.declared.pipe.PipeRead.TheVariants as ReadAs;
ghost use Rattle.pipe_pump.specs.declared.pipe.PipeWrite.TheVariants as WroteAs;

use pipe_wait::PipeWait;

/// What a read brought.
#[derive(Clone, Copy, Debug, PartialEq, Eq)]
pub enum PipeRead {
    /// So many bytes stand at the front of the slice.
    Bytes(usize),
    End,
    Failed,
    /// Nobody wants its bytes any more, and none was read.
    LetGo,
}

/// A pipe that bytes come from. A read waits until there is a byte, or until the pipe is let go.
pub trait PipeIn {
    /// The bytes that it has left, where it tells.
    ghost left: { Self → Option (List ℕ) };

    /// How often reading failed. It never falls.
    ghost faults: { Self → ℕ };

    /// `wait` is where the thread that calls it waits for pipes. Into an empty slice nothing is read and nothing is waited for: it says that bytes which were read
    /// before wait in a full ring, and a real pipe then wakes the loop.
    fn read(&mut self, into: &mut [u8], wait: &mut PipeWait) -> PipeRead
        ensures within { (n : ℕ) → result ≡ ReadAs.Bytes n → n ≤ length into.old }
        ensures some { (n : ℕ) → result ≡ ReadAs.Bytes n → 0 < length into.old → 0 < n }
        ensures bytes { Reads (left self.old) (left self.new) into.new result }
        ensures count { faults self.old ≤ faults self.new }
        ensures cause { result ≡ ReadAs.Failed → Rose (faults self.old) (faults self.new) };
}

/// What a write did.
#[derive(Clone, Copy, Debug, PartialEq, Eq)]
pub enum PipeWrite {
    /// It took so many bytes from the front of the piece.
    Took(usize),
    Failed,
    /// Nobody wants it any more, and it took nothing.
    LetGo,
}

/// A pipe that bytes go to. A write waits until it takes a byte, or until the pipe is let go.
pub trait PipeOut {
    /// The bytes that it took, where it tells.
    ghost taken: { Self → Option (List ℕ) };

    /// How often writing failed. It never falls.
    ghost faults: { Self → ℕ };

    /// Nothing more can be written to it.
    ghost closed: { Self → Bool };

    /// `wait` is where the thread that calls it waits for pipes. Of an empty piece nothing is written and nothing is waited for: it says that the ring is empty now,
    /// and a real pipe then wakes the loop.
    fn write(&mut self, from: &[u8], wait: &mut PipeWait) -> PipeWrite
        ensures within { (n : ℕ) → result ≡ WroteAs.Took n → n ≤ length from.now }
        ensures some { (n : ℕ) → result ≡ WroteAs.Took n → 0 < length from.now → 0 < n }
        ensures bytes { Writes (taken self.old) (taken self.new) from.now result }
        ensures count { faults self.old ≤ faults self.new }
        ensures cause { result ≡ WroteAs.Failed → Rose (faults self.old) (faults self.new) };

    /// Closes it, after all that was fed.
    fn finish(&mut self, wait: &mut PipeWait)
        ensures bytes { Writes (taken self.old) (taken self.new) [] (WroteAs.Took 0) }
        ensures closed { closed self.new ≡ true }
        ensures count { faults self.old ≤ faults self.new };
}
