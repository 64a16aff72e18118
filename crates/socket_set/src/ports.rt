// Where clients come from, what tells that a socket is ready, and the clock.
ghost use Rattle.std.specs.Prelude.{◌≡◌, ◌<◌, ◌≤◌};
ghost use Rattle.socket_set.specs.Devices.{PortsTell, FailsUnless, Waits, AsksClock, Accepts, Shows};

use super::Socket;
use host_base::Peer;

/// What became of asking for the next client.
#[derive(Drop)]
pub enum Arrival<S> {
    Client { socket: S, peer: Peer },
    /// None waits.
    Nothing,
    /// One can't be taken now, as where no descriptor is left.
    Failed,
}

/// What a wait reported.
#[derive(Clone, Copy, Debug, PartialEq, Eq)]
pub enum Ready {
    /// A client may wait.
    Listener,
    /// The socket of client `c` may have bytes or room for bytes. It may be one that is gone by now. `failed`
    /// says that the connection was reset, or closed in both directions.
    Client { c: u64, failed: bool },
}

/// What a loop has of the outside: a listening socket, a wait for many sockets, and a clock. No call but `wait`
/// waits.
pub trait Ports {
    type Socket: Socket + Drop;

    /// What it tells of its clock, its failures and the client that came last.
    ghost tells: { Self → PortsTell };

    /// The next client that waits.
    fn accept(&mut self) -> Arrival<Self::Socket>
        ensures { Accepts result (tells self.old) (tells self.new) };

    /// No further client comes: the listening socket is let go, and once all who share it have done so its address is free.
    fn end_listening(&mut self)
        ensures { tells self.new ≡ tells self.old };

    /// Has the wait report the socket of client `c` once it has bytes or fails, and where `room` once it has room
    /// for bytes. It answers whether that could be done.
    fn watch(&mut self, socket: &mut Self::Socket, c: u64, room: bool) -> bool
        ensures socket { Self.Socket.tells socket.new ≡ Self.Socket.tells socket.old }
        ensures fails { FailsUnless result (tells self.old) (tells self.new) };

    /// Has the wait report the socket no more.
    fn forget(&mut self, socket: &mut Self::Socket)
        ensures socket { Self.Socket.tells socket.new ≡ Self.Socket.tells socket.old }
        ensures same { tells self.new ≡ tells self.old };

    /// Waits until a socket is ready, the loop is woken, or so many milliseconds went by. It answers whether it
    /// could wait.
    fn wait(&mut self, millis: u64) -> bool
        ensures { Waits result (tells self.old) (tells self.new) };

    /// One report of the last wait, and only once.
    fn ready(&mut self) -> Option<Ready>
        ensures { tells self.new ≡ tells self.old };

    /// How often the clock has shown 100 ms more, since the ports were made.
    fn ticks(&mut self) -> u64
        ensures shown { result ≡ (tells self.new).shown }
        ensures asked { AsksClock (tells self.old) (tells self.new) };

    /// How many milliseconds are left until it shows 100 ms more: 1 to 100.
    fn millis_to_tick(&mut self) -> u64
        ensures range { (0 < result) × (result ≤ 100) }
        ensures same { tells self.new ≡ tells self.old };

    /// The Unix seconds that the clock shows, below those of the year 10,000.
    fn seconds(&mut self) -> u64
        ensures range { result < 253402300800 }
        ensures shows { Shows result (tells self.old) (tells self.new) };
}
