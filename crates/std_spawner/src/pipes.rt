// Our ends of a child's pipes, and standard input.
ghost use Rattle.std.specs.Prelude.{◌≡◌, ◌<◌, ◌≤◌, ℕ, true, is_none, length};
ghost use Rattle.pipe_pump.specs.declared.pipe.PipeRead.TheVariants as ReadAs;
ghost use Rattle.pipe_pump.specs.declared.pipe.PipeWrite.TheVariants as WroteAs;

use loop_bell::Bell;
use pipe_pump::{PipeIn, PipeOut, PipeRead, PipeWrite};
use pipe_wait::{PipeSide, PipeWait, Release};
use std::io::{ErrorKind, Read, Stdin, Write};
use std::process::{ChildStdin, ChildStdout};

/// What bytes are read from.
pub trait Source {
    /// Reads some bytes. It waits until there are any.
    fn take(&mut self, into: &mut [u8], wait: &mut PipeWait) -> PipeRead
        requires { 0 < length into.old }
        ensures within { (n : ℕ) → result ≡ ReadAs.Bytes n → (0 < n) × (n ≤ length into.old) };

    /// Closes it.
    fn close(self, wait: &PipeWait);
}

// The call is to be made again once the pipe is ready.
fn is_to_wait(kind: ErrorKind) -> bool {
    matches!(kind, ErrorKind::WouldBlock | ErrorKind::Interrupted)
}

/// The server's own standard input. A read of it blocks its thread, and is not let go.
impl Source for Stdin {
    fn take(&mut self, into: &mut [u8], _wait: &mut PipeWait) -> PipeRead {
        match self.read(into) {
            Ok(0) => PipeRead::End,
            Ok(count) => PipeRead::Bytes(count),
            Err(_) => PipeRead::Failed,
        }
    }

    fn close(self, _wait: &PipeWait) {}
}

/// Our end of a child's output, until it is let go.
#[derive(Drop)]
pub struct OutputSide {
    side: PipeSide<ChildStdout>,
    release: Release,
}

impl OutputSide {
    pub(crate) fn new(side: PipeSide<ChildStdout>, release: Release) -> Self
        ensures { (result.side ≡ side) × (result.release ≡ release) }
    {
        OutputSide { side, release }
    }
}

impl Source for OutputSide {
    fn take(&mut self, into: &mut [u8], wait: &mut PipeWait) -> PipeRead {
        for _ in 0..u64::MAX {
            if self.release.is_let_go() {
                return PipeRead::LetGo;
            }
            match self.side.get().read(into) {
                Ok(0) => return PipeRead::End,
                Ok(count) => return PipeRead::Bytes(count),
                Err(error) => {
                    if !is_to_wait(error.kind()) || !self.side.wait(wait) {
                        return PipeRead::Failed;
                    }
                }
            }
        }
        PipeRead::Failed
    }

    fn close(self, wait: &PipeWait) {
        let OutputSide { side, release: _ } = self;
        side.close(wait);
    }
}

/// A pipe that bytes come from. It rings before it waits for more, where it gave bytes that it has not rung for yet. It is
/// closed where it ends or is let go, by the thread that reads it.
#[derive(Drop)]
pub struct BelledPipe<P> {
    /// Until it has ended.
    pipe: Option<P>,
    bell: Bell,
    /// Bytes were given that it is still to ring for.
    gave: bool,
    faults: u64,
}

/// A child's output.
pub type ChildOutput = BelledPipe<OutputSide>;

/// Standard input.
pub type StandardInput = BelledPipe<Stdin>;

impl<P> BelledPipe<P> {
    /// One that is still to be opened.
    pub(crate) fn closed(bell: Bell) -> Self
        ensures faults { result.faults ≡ 0 }
    {
        BelledPipe {
            pipe: None,
            bell,
            gave: false,
            faults: 0,
        }
    }

    // Rings where bytes were given, or where they wait in a full ring. In the second case their rest comes into the
    // ring after this, so it is still to ring for that.
    fn ring(&mut self, waits: bool)
        ensures gave { self.new.gave ≡ waits }
        ensures faults { self.new.faults ≡ self.old.faults }
    {
        if self.gave || waits {
            self.bell.ring();
        }
        self.gave = waits;
    }
}

impl<P: Drop> BelledPipe<P> {
    /// The same, opened.
    pub(crate) fn opened(self, pipe: P) -> Self
        ensures faults { result.faults ≡ self.faults }
    {
        let mut opened = self;
        opened.pipe = Some(pipe);
        opened
    }
}

impl<P: Source + Drop> BelledPipe<P> {
    // What a read of the pipe itself brought. One that has ended is at its end.
    fn take(&mut self, into: &mut [u8], wait: &mut PipeWait) -> PipeRead
        requires { 0 < length into.old }
        ensures within { (n : ℕ) → result ≡ ReadAs.Bytes n → (0 < n) × (n ≤ length into.old) }
        ensures faults { self.new.faults ≡ self.old.faults }
    {
        match &mut self.pipe {
            Some(pipe) => pipe.take(into, wait),
            None => PipeRead::End,
        }
    }

    fn close(&mut self, wait: &PipeWait)
        ensures faults { self.new.faults ≡ self.old.faults }
    {
        if let Some(pipe) = self.pipe.take() {
            pipe.close(wait);
        }
    }
}

impl<P: Source + Drop> PipeIn for BelledPipe<P> {
    ghost use Rattle.std.specs.Prelude.{None};

    ghost left = { λ _. None };

    ghost faults = { λ pipe. pipe.faults };

    fn read(&mut self, into: &mut [u8], wait: &mut PipeWait) -> PipeRead {
        self.ring(into.is_empty());
        if into.is_empty() {
            return PipeRead::Bytes(0);
        }
        match self.take(into, wait) {
            PipeRead::Bytes(count) => {
                self.gave = true;
                PipeRead::Bytes(count)
            }
            PipeRead::End => {
                self.close(wait);
                PipeRead::End
            }
            PipeRead::LetGo => {
                self.close(wait);
                PipeRead::LetGo
            }
            PipeRead::Failed => {
                self.faults = self.faults.saturating_add(1);
                PipeRead::Failed
            }
        }
    }
}

/// A child's input, from its start until it is closed or let go. It rings where it is told that nothing is left for it.
#[derive(Drop)]
pub struct ChildInput {
    side: Option<PipeSide<ChildStdin>>,
    release: Release,
    bell: Bell,
    faults: u64,
}

impl ChildInput {
    /// One that is still to be opened.
    pub(crate) fn closed(release: Release, bell: Bell) -> Self
        ensures faults { result.faults ≡ 0 }
    {
        ChildInput {
            side: None,
            release,
            bell,
            faults: 0,
        }
    }

    pub(crate) fn open(&mut self, side: PipeSide<ChildStdin>)
        ensures faults { self.new.faults ≡ self.old.faults }
    {
        self.side = Some(side);
    }

    // Writes some bytes. It waits until some are taken.
    fn put(&mut self, from: &[u8], wait: &mut PipeWait) -> PipeWrite
        ensures within { (n : ℕ) → result ≡ WroteAs.Took n → (0 < n) × (n ≤ length from.now) }
        ensures faults { self.new.faults ≡ self.old.faults }
    {
        match &mut self.side {
            Some(side) => put(side, &self.release, from, wait),
            None => PipeWrite::Failed,
        }
    }

    fn close(&mut self, wait: &PipeWait)
        ensures faults { self.new.faults ≡ self.old.faults }
        ensures closed { is_none self.new.side ≡ true }
    {
        if let Some(side) = self.side.take() {
            side.close(wait);
        }
    }
}

fn put(
    side: &mut PipeSide<ChildStdin>,
    release: &Release,
    from: &[u8],
    wait: &mut PipeWait,
) -> PipeWrite
    ensures { (n : ℕ) → result ≡ WroteAs.Took n → (0 < n) × (n ≤ length from.now) }
{
    for _ in 0..u64::MAX {
        if release.is_let_go() {
            return PipeWrite::LetGo;
        }
        match side.get().write(from) {
            Ok(0) => return PipeWrite::Failed,
            Ok(count) => return PipeWrite::Took(count),
            Err(error) => {
                if !is_to_wait(error.kind()) || !side.wait(wait) {
                    return PipeWrite::Failed;
                }
            }
        }
    }
    PipeWrite::Failed
}

impl PipeOut for ChildInput {
    ghost use Rattle.std.specs.Prelude.{None, is_none};

    ghost taken = { λ _. None };

    ghost faults = { λ pipe. pipe.faults };

    ghost closed = { λ pipe. is_none pipe.side };

    fn write(&mut self, from: &[u8], wait: &mut PipeWait) -> PipeWrite {
        if from.is_empty() {
            self.bell.ring();
            return PipeWrite::Took(0);
        }
        match self.put(from, wait) {
            PipeWrite::Took(count) => PipeWrite::Took(count),
            PipeWrite::LetGo => {
                self.close(wait);
                PipeWrite::LetGo
            }
            PipeWrite::Failed => {
                self.faults = self.faults.saturating_add(1);
                PipeWrite::Failed
            }
        }
    }

    fn finish(&mut self, wait: &mut PipeWait) {
        self.close(wait);
    }
}
