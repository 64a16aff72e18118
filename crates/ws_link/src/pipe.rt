// The two directions in memory.
ghost use Rattle.std.specs.Prelude.{◌≡◌, ◌++◌, [], OnOk, OnErr, IsTrue, ◌↔◌};

use host_base::NoMemory;
use std::alloc::Global;
use std::io;
use std::io::{ErrorKind, Read, Write};
use std::marker::Model;

/// A stream whose bytes are fed and taken.
#[derive(Drop, Debug)]
pub struct Pipe {
    coming: Vec<u8>,
    // The bytes of `coming` from here on are not read yet.
    start: usize,
    going: Vec<u8>,
}

impl Model for Pipe {
    ghost use Rattle.std.specs.Prelude.{◌≤◌, length, drop};
    ghost use Rattle.ws_link.specs.Pipe.{Directions, directions_code};

    ghost Value = { Directions };

    ghost coded = { directions_code };

    ghost view = { λ p. record { coming = drop p.start p.coming.items; going = p.going.items } };

    ghost invariant = { λ p. p.start ≤ length p.coming.items };
}

impl Pipe {
    ghost use Rattle.ws_link.specs.State.{no_bytes};

    pub fn new(alloc: Global) -> Pipe
        ensures { result ≡ no_bytes }
    {
        Pipe {
            coming: Vec::new(alloc),
            start: 0,
            going: Vec::new(alloc),
        }
    }

    /// Whether all that was fed was read.
    pub fn is_drained(&self) -> bool
        ensures { IsTrue result ↔ (self.now.coming ≡ []) }
    {
        self.left().is_empty()
    }

    // What was fed, and is not read yet.
    fn left(&self) -> &[u8]
        ensures { result.now ≡ self.now.coming }
    {
        &self.coming[self.start..]
    }

    /// Adds bytes that have come.
    pub fn feed(&mut self, bytes: &[u8]) -> Result<(), NoMemory>
        ensures ok { OnOk result (self.new ≡ record self.old { coming = self.old.coming ++ bytes.now }) }
        ensures err { OnErr result (self.new ≡ self.old) }
    {
        if self.start > 0 {
            self.coming.drain(..self.start);
            self.start = 0;
        }
        self.coming.extend_from_slice(bytes)?;
        Ok(())
    }

    /// The bytes to be sent; none are left.
    pub fn take(&mut self, alloc: Global) -> Vec<u8>
        ensures bytes { result.items ≡ self.old.going }
        ensures left { self.new ≡ record self.old { going = [] } }
    {
        std::mem::replace(&mut self.going, Vec::new(alloc))
    }
}

impl Read for Pipe {
    ghost use Rattle.std.specs.Prelude.{◌≡◌, [], OnErr};
    ghost use Rattle.std.specs.Io.{ReadsAtMost};
    ghost use Rattle.std.specs.Io.KnownBytes.{ReadConsumes};
    ghost use Rattle.ws_link.specs.Pipe.{coming_of};

    ghost remaining = { coming_of };

    // It fails only where nothing is left.
    fn read(&mut self, buf: &mut [u8]) -> io::Result<usize>
        ensures bound { ReadsAtMost result buf.new }
        ensures bytes { ReadConsumes (coming_of self.old) (coming_of self.new) result buf.new }
        ensures empty { OnErr result (self.old.coming ≡ []) }
    {
        let left = self.left();
        if left.is_empty() {
            return Err(io::Error::from(ErrorKind::WouldBlock));
        }
        let count = left.len().min(buf.len());
        buf[..count].copy_from_slice(&left[..count]);
        self.start += count;
        Ok(count)
    }
}

impl Write for Pipe {
    ghost use Rattle.ws_link.specs.Pipe.{going_of};

    ghost contents = { going_of };

    fn write(&mut self, buf: &[u8]) -> io::Result<usize> {
        self.going.extend_from_slice(buf)?;
        Ok(buf.len())
    }

    fn flush(&mut self) -> io::Result<()> {
        Ok(())
    }
}
