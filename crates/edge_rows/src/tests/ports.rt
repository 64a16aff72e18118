// Sockets, ports and a clock in memory for the tests.
use super::pipes::one_more;
use host_base::{Peer, Text};
use socket_set::{Arrival, Ports, Ready, Received, Sent, Socket};
use std::alloc::Global;
use std::snapshot::Snapshot;

/// What comes after the bytes of a client.
#[derive(Clone, Copy)]
pub enum Ending {
    Nothing,
    End,
    Failed,
}

/// What becomes of what is written to it.
#[derive(Clone, Copy)]
pub enum Room {
    All,
    None,
    Failed,
}

/// What a client does.
#[derive(Clone, Copy)]
pub struct Client {
    pub bytes: &'static [u8],
    pub ending: Ending,
    pub room: Room,
}

/// A client that gives one byte and takes all.
pub const ONE_BYTE: Client = Client {
    bytes: b"x",
    ending: Ending::Nothing,
    room: Room::All,
};

#[derive(Drop)]
pub struct FakeSocket {
    client: Client,
    dry: bool,
    full: bool,
    faults: u64,
}

impl Socket for FakeSocket {
    ghost use Rattle.std.specs.Prelude.{None};

    ghost tells = { λ s. record { left = None; taken = None; dry = s.dry; full = s.full; faults = s.faults } };

    fn receive(&mut self, into: &mut [u8]) -> Received {
        let bytes = self.client.bytes;
        let count = bytes.len().min(into.len());
        self.dry = false;
        if count > 0 {
            into[..count].copy_from_slice(&bytes[..count]);
            self.client.bytes = &bytes[count..];
            return Received::Bytes(count);
        }
        match self.client.ending {
            Ending::Nothing => {
                self.dry = true;
                Received::Nothing
            }
            Ending::End => Received::End,
            Ending::Failed => {
                self.faults = one_more(self.faults);
                Received::Failed
            }
        }
    }

    fn send(&mut self, from: &[u8]) -> Sent {
        self.full = true;
        match self.client.room {
            Room::All => {
                self.full = false;
                Sent::Took(from.len())
            }
            Room::None => Sent::Full,
            Room::Failed => {
                self.faults = one_more(self.faults);
                Sent::Failed
            }
        }
    }

    #[tactic(auto, using(socket_set::proofs::Ends::nothing_cut))]
    fn end_receiving(&mut self) {
        if let Ending::Nothing = self.client.ending {
            self.client.ending = Ending::End;
        }
    }

    fn end_sending(&mut self) {}
}

/// Clients come, whose listener is reported once, and the clock goes on by what is waited.
#[derive(Drop)]
pub struct FakePorts {
    alloc: Global,
    client: Client,
    /// So many of it come, one after the other.
    clients: u32,
    /// So many asks for it fail first, and so many waits.
    accepts_fail: u32,
    waits_fail: u32,
    reported: bool,
    millis: u64,
    shown: u64,
    looks: u64,
    waits: u64,
    failed: u64,
    peer: Snapshot<Option<Peer>>,
}

impl FakePorts {
    pub fn new(
        alloc: Global,
        client: Client,
        clients: u32,
        accepts_fail: u32,
        waits_fail: u32,
    ) -> Self {
        FakePorts {
            alloc,
            client,
            clients,
            accepts_fail,
            waits_fail,
            reported: false,
            millis: 0,
            shown: 0,
            looks: 0,
            waits: 0,
            failed: 0,
            peer: Snapshot::of(&None),
        }
    }
}

impl Ports for FakePorts {
    type Socket = FakeSocket;

    ghost tells = { λ p. record { shown = p.shown; looks = p.looks; waits = p.waits; failed = p.failed; peer = p.peer.value; secs = 0 } };

    fn accept(&mut self) -> Arrival<FakeSocket> {
        if self.accepts_fail > 0 {
            self.accepts_fail -= 1;
            self.failed = one_more(self.failed);
            return Arrival::Failed;
        }
        if self.clients == 0 {
            return Arrival::Nothing;
        }
        let Ok(name) = Text::copy_of(self.alloc, "") else {
            self.failed = one_more(self.failed);
            return Arrival::Failed;
        };
        self.clients -= 1;
        let given = Some(Peer(name));
        self.peer = Snapshot::of(&given);
        let Some(peer) = given else {
            return Arrival::Nothing;
        };
        Arrival::Client {
            socket: FakeSocket {
                client: self.client,
                dry: false,
                full: false,
                faults: 0,
            },
            peer,
        }
    }

    fn end_listening(&mut self) {}

    fn watch(&mut self, _socket: &mut FakeSocket, _c: u64, _room: bool) -> bool {
        true
    }

    fn forget(&mut self, _socket: &mut FakeSocket) {}

    fn wait(&mut self, millis: u64) -> bool {
        self.waits = one_more(self.waits);
        self.millis = self.millis.saturating_add(millis);
        if self.waits_fail > 0 {
            self.waits_fail -= 1;
            self.failed = one_more(self.failed);
            return false;
        }
        true
    }

    fn ready(&mut self) -> Option<Ready> {
        if self.reported {
            return None;
        }
        self.reported = true;
        Some(Ready::Listener)
    }

    fn ticks(&mut self) -> u64 {
        self.looks = one_more(self.looks);
        self.shown = self.millis / 100;
        self.shown
    }

    fn millis_to_tick(&mut self) -> u64 {
        100 - self.millis % 100
    }

    fn seconds(&mut self) -> u64 {
        0
    }
}
