// A client's socket, as the set of sockets sees it.
ghost use Rattle.std.specs.Prelude.{◌≡◌, ◌≤◌, ◌<◌, ℕ, length};
ghost use Rattle.socket_set.specs.Sockets.{SocketTells, Receives, Sends, EndsReceiving};
ghost use Rattle.socket_set.specs.declared.socket.Received.TheVariants.{Bytes};
ghost use Rattle.socket_set.specs.declared.socket.Sent.TheVariants.{Took};

/// What a read brought.
#[derive(Clone, Copy, Debug, PartialEq, Eq)]
pub enum Received {
    /// So many bytes stand at the front of the slice.
    Bytes(usize),
    /// None has come yet.
    Nothing,
    /// The client ended its sending side.
    End,
    Failed,
}

/// What a write did.
#[derive(Clone, Copy, Debug, PartialEq, Eq)]
pub enum Sent {
    /// It took so many bytes from the front of the piece.
    Took(usize),
    /// It has no room for now.
    Full,
    Failed,
}

/// A client's socket. No call waits.
pub trait Socket {
    /// What it tells of its bytes, and how often it failed.
    ghost tells: { Self → SocketTells };

    fn receive(&mut self, into: &mut [u8]) -> Received
        ensures within { (n : ℕ) → result ≡ Bytes n → n ≤ length into.old }
        ensures some { (n : ℕ) → result ≡ Bytes n → 0 < length into.old → 0 < n }
        ensures bytes { Receives (tells self.old) (tells self.new) into.new result };

    fn send(&mut self, from: &[u8]) -> Sent
        ensures within { (n : ℕ) → result ≡ Took n → n ≤ length from.now }
        ensures some { (n : ℕ) → result ≡ Took n → 0 < length from.now → 0 < n }
        ensures bytes { Sends (tells self.old) (tells self.new) from.now result };

    /// Ends its receiving side: what has come may still be read, and behind it comes the end, where the socket can do that.
    fn end_receiving(&mut self)
        ensures { EndsReceiving (tells self.old) (tells self.new) };

    /// Ends its sending side, behind all that it took.
    fn end_sending(&mut self)
        ensures same { tells self.new ≡ tells self.old };
}
