// The bytes that wait to be sent.
ghost use Rattle.std.specs.Prelude.{◌≡◌};

use super::{Sent, Socket};
use host_base::NoMemory;
use std::alloc::Global;
use std::marker::Model;

// Bytes that were sent are let go once they are as many as those that wait, and more than these.
const KEPT: usize = 65_536;

/// The bytes that wait to be sent. Contracts see them as a list.
#[derive(Drop)]
pub struct Outgoing {
    bytes: Vec<u8>,
    // How many of them were sent.
    sent: usize,
}

impl Model for Outgoing {
    ghost use Rattle.std.specs.Prelude.{List, ℕ, ◌≤◌, drop, vec_len};

    ghost Value = { List ℕ };

    ghost view = { λ o. drop o.sent o.bytes.items };

    ghost invariant = { λ o. o.sent ≤ vec_len o.bytes };
}

impl Outgoing {
    ghost use Rattle.std.specs.Prelude.{◌≡◌, ◌++◌, ◌==◌, ◌<◌, ◌≤◌, [], drop, length, OnOk, OnErr};
    ghost use Rattle.socket_set.specs.Sockets.{Sends, left_after};

    pub fn new(alloc: Global) -> Self
        ensures { result ≡ [] }
    {
        Outgoing {
            bytes: Vec::new(alloc),
            sent: 0,
        }
    }

    pub fn len(&self) -> usize
        ensures { result ≡ length self.now }
    {
        self.bytes.len() - self.sent
    }

    pub fn is_empty(&self) -> bool
        ensures { result ≡ (length self.now == 0) }
    {
        self.len() == 0
    }

    /// Adds bytes behind the others.
    pub fn push(&mut self, more: &[u8]) -> Result<(), NoMemory>
        ensures ok { OnOk result (self.new ≡ self.old ++ more.now) }
        ensures err { OnErr result (self.new ≡ self.old) }
    {
        self.bytes.extend_from_slice(more)?;
        Ok(())
    }

    /// Has the socket take what it takes now.
    pub fn send_to<S: Socket>(&mut self, socket: &mut S) -> Sent
        requires { 0 < length self.old }
        ensures sends { Sends (S.tells socket.old) (S.tells socket.new) self.old result }
        ensures left { self.new ≡ left_after self.old result }
    {
        let sent = socket.send(&self.bytes[self.sent..]);
        if let Sent::Took(count) = sent {
            self.skip(count);
        }
        sent
    }

    // So many more were sent.
    fn skip(&mut self, count: usize)
        requires { count ≤ length self.old }
        ensures { self.new ≡ drop count self.old }
    {
        self.sent += count;
        if self.sent == self.bytes.len() {
            self.forget_all();
        } else if self.sent >= KEPT && self.sent >= self.bytes.len() - self.sent {
            self.forget_sent();
        }
    }

    // All were sent. The room of a long piece is given back.
    fn forget_all(&mut self)
        ensures { self.new ≡ [] }
    {
        self.bytes.clear();
        self.sent = 0;
        if self.bytes.capacity() > KEPT {
            self.bytes.shrink_to(0);
        }
    }

    fn forget_sent(&mut self)
        ensures { self.new ≡ self.old }
    {
        drop(self.bytes.drain(..self.sent));
        self.sent = 0;
    }
}
