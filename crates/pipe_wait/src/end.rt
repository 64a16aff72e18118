// Our end of a pipe.
ghost use Rattle.std.specs.Prelude.{◌≡◌, IfOk, true};

use super::wait::PipeWait;
use mio::Interest;
use std::io;
use std::io::{Error, ErrorKind};
use std::os::fd::AsRawFd;

/// Our end of a pipe, whose reads or writes don't block. Its other end is not changed by that.
#[derive(Drop)]
pub struct PipeSide<P> {
    pipe: P,
    interest: Interest,
    /// It was to be waited for.
    is_waited: bool,
}

impl<P: AsRawFd + Drop> PipeSide<P> {
    /// An end that is read.
    pub fn read(pipe: P) -> io::Result<Self>
        ensures { IfOk result (λ side. side.pipe ≡ pipe) }
    {
        PipeSide::new(pipe, Interest::READABLE)
    }

    /// An end that is written.
    pub fn write(pipe: P) -> io::Result<Self>
        ensures { IfOk result (λ side. side.pipe ≡ pipe) }
    {
        PipeSide::new(pipe, Interest::WRITABLE)
    }

    fn new(pipe: P, interest: Interest) -> io::Result<Self>
        ensures { IfOk result (λ side. side.pipe ≡ pipe) }
    {
        if os::set_nonblocking(pipe.as_raw_fd(), true) != 0 {
            return Err(Error::from(ErrorKind::Unsupported));
        }
        Ok(PipeSide {
            pipe,
            interest,
            is_waited: false,
        })
    }

    /// The end itself.
    pub fn get(&mut self) -> &mut P {
        &mut self.pipe
    }

    /// Waits after a read or a write that would have blocked, and answers whether it could.
    pub fn wait(&mut self, wait: &mut PipeWait) -> bool
        ensures { self.new.pipe ≡ self.old.pipe }
    {
        if !self.is_waited {
            self.is_waited = wait.begin(self.pipe.as_raw_fd(), self.interest);
        }
        self.is_waited && wait.wait()
    }

    /// Closes it. Nothing is reported of it any more, though a program that is being started may have it for a moment.
    pub fn close(self, wait: &PipeWait) {
        if self.is_waited {
            wait.end(self.pipe.as_raw_fd());
        }
    }
}
