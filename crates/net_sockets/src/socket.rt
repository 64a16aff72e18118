// A client's connection.
ghost use Rattle.std.specs.Prelude.{◌≡◌, ◌≤◌, ◌<◌, ◌⊎◌, ℕ, length};
ghost use Rattle.host_base.specs.Outsides.{Rose};
ghost use Rattle.socket_set.specs.Sockets.{ReceiveCause, SendCause};
ghost use Rattle.socket_set.specs.declared.socket.Received.TheVariants.{Bytes};
ghost use Rattle.socket_set.specs.declared.socket.Sent.TheVariants.{Took};
ghost use Rattle.net_sockets.specs.Nets.{IsSameSocket};

use mio::net::TcpStream;
use mio::{Interest, Registry, Token};
use socket_set::{Received, Sent, Socket};
use std::io;
use std::io::{ErrorKind, Read, Write};
use std::net::Shutdown;

/// A connection of TCP. It tells nothing of its bytes.
#[derive(Drop)]
pub struct TcpSocket {
    stream: TcpStream,
    watched: bool,
    // Its room for bytes is reported as well as what comes.
    room_watched: bool,
    // The last read found that nothing has come, and the last write took nothing.
    dry: bool,
    full: bool,
    // Once what has come was read, its end is taken to have come.
    deaf: bool,
    // Our end was sent.
    ended: bool,
    faults: u64,
}

impl TcpSocket {
    pub(crate) fn new(stream: TcpStream) -> Self {
        // A reply goes out at once; where that can't be had it goes out all the same.
        let _ = stream.set_nodelay(true);
        TcpSocket {
            stream,
            watched: false,
            room_watched: false,
            dry: false,
            full: false,
            deaf: false,
            ended: false,
            faults: 0,
        }
    }

    /// It is reported.
    pub(crate) fn is_watched(&self) -> bool
        ensures { result ≡ self.now.watched }
    {
        self.watched
    }

    // Registers it, with its room for bytes where `room`. It is registered anew only for more than before: that reports it
    // at once where bytes lie in it that nobody asks for, and would do so again each time that it is full.
    pub(crate) fn watch(&mut self, registry: &Registry, token: Token, room: bool) -> io::Result<()>
        ensures { IsSameSocket self.old self.new }
    {
        if !self.watched {
            registry.register(&mut self.stream, token, interest(room))?;
        } else if room && !self.room_watched {
            registry.reregister(&mut self.stream, token, interest(room))?;
        }
        self.watched = true;
        self.room_watched |= room;
        Ok(())
    }

    pub(crate) fn forget(&mut self, registry: &Registry)
        ensures { IsSameSocket self.old self.new }
    {
        let _ = registry.deregister(&mut self.stream);
        self.end();
    }

    // Sends our end, once. What still comes may then be read, so that it can be dropped: the system answers a byte that is
    // left by a reset, at which the client may lose what we sent.
    fn end(&mut self)
        ensures { IsSameSocket self.old self.new }
    {
        self.deaf = false;
        if !self.ended {
            self.ended = true;
            let _ = self.stream.shutdown(Shutdown::Write);
        }
    }

    fn count(&mut self)
        ensures rose { Rose self.old.faults self.new.faults }
        ensures rest { self.new ≡ record self.old { faults = self.new.faults } }
    {
        self.faults = self.faults.saturating_add(1);
    }

    fn read(&mut self, into: &mut [u8]) -> Received
        ensures within { (n : ℕ) → result ≡ Bytes n → n ≤ length into.old }
        ensures some { (n : ℕ) → result ≡ Bytes n → 0 < n }
        ensures cause { ReceiveCause self.old.faults self.new.faults result }
        ensures rest { self.new.full ≡ self.old.full }
    {
        match self.stream.read(into) {
            Ok(0) => Received::End,
            Ok(count) => Received::Bytes(count),
            Err(error) if is_passing(error.kind()) => self.nothing(),
            Err(_) => {
                self.count();
                Received::Failed
            }
        }
    }

    // Nothing has come, or nothing more is to be heard.
    fn nothing(&self) -> Received
        ensures { result ≡ Received.Nothing ⊎ result ≡ Received.End }
    {
        if self.deaf {
            Received::End
        } else {
            Received::Nothing
        }
    }

    fn write(&mut self, from: &[u8]) -> Sent
        ensures within { (n : ℕ) → result ≡ Took n → n ≤ length from.now }
        ensures some { (n : ℕ) → result ≡ Took n → 0 < n }
        ensures cause { SendCause self.old.faults self.new.faults result }
        ensures rest { self.new.dry ≡ self.old.dry }
    {
        match self.stream.write(from) {
            Ok(count) if count > 0 => Sent::Took(count),
            Ok(_) => Sent::Full,
            Err(error) if is_passing(error.kind()) => Sent::Full,
            Err(_) => {
                self.count();
                Sent::Failed
            }
        }
    }
}

impl Socket for TcpSocket {
    ghost use Rattle.std.specs.Prelude.{None};

    ghost tells = { λ s. record { left = None; taken = None; dry = s.dry; full = s.full; faults = s.faults } };

    fn receive(&mut self, into: &mut [u8]) -> Received {
        let received = self.read(into);
        self.dry = received == Received::Nothing;
        received
    }

    fn send(&mut self, from: &[u8]) -> Sent {
        let sent = self.write(from);
        self.full = match sent {
            Sent::Took(_) => false,
            Sent::Full | Sent::Failed => true,
        };
        sent
    }

    // The system's own call for this answers what comes later by a reset, so it isn't made.
    #[tactic(auto, using(socket_set::proofs::Ends::nothing_cut))]
    fn end_receiving(&mut self) {
        self.deaf = true;
    }

    fn end_sending(&mut self) {
        self.end();
    }
}

fn interest(room: bool) -> Interest {
    if room {
        Interest::READABLE | Interest::WRITABLE
    } else {
        Interest::READABLE
    }
}

// The call would have waited, or was cut short by a signal.
fn is_passing(kind: ErrorKind) -> bool {
    kind == ErrorKind::WouldBlock || kind == ErrorKind::Interrupted
}
