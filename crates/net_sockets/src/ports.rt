// The ports of one loop: its listener, the wait for its sockets, and the clock.
ghost use Rattle.std.specs.Prelude.{◌≡◌, true, IfOk};
ghost use Rattle.host_base.specs.Outsides.{Rose};
ghost use Rattle.net_sockets.specs.Nets.{IsFresh};

use super::poll::CountedPoll;
use super::share::Share;
use super::{Listener, TcpSocket};
use host_base::{Peer, Text};
use loop_bell::Bell;
use mio::Token;
use mio::net::TcpStream;
use socket_set::{Arrival, Ports, Ready};
use std::alloc::{AllocError, Global};
use std::io;
use std::io::ErrorKind;
use std::net::{IpAddr, Net};
use std::snapshot::Snapshot;
use std::time::{Clock, Duration};

// The seconds of the year 10,000, which no clock shows.
const SECONDS_END: u64 = 253_402_300_800;

/// The ports of one loop. It tells nothing of what comes through them.
#[derive(Drop)]
pub struct NetPorts<R> {
    rt: R,
    alloc: Global,
    poll: CountedPoll,
    // Until no further client is to come.
    listener: Option<Listener>,
    share: Share,
    // What the clock showed when it was made.
    start: Duration,
    shown: u64,
    looks: u64,
    waits: u64,
    failed: u64,
    // Who sent the client that was given last.
    peer: Snapshot<Option<Peer>>,
    // What the clock showed when it was asked for its seconds last.
    secs: u64,
}

impl<R: Net + Clock + Drop> NetPorts<R> {
    // The ports of a loop that shares the listener, and what wakes it.
    pub(crate) fn new(rt: R, alloc: Global, listener: Listener) -> io::Result<(Self, Bell)>
        ensures { IfOk result (λ made. IsFresh made.0) }
    {
        let poll = CountedPoll::new(&rt, alloc)?;
        poll.listen(listener.descriptor())?;
        let bell = Bell::by(alloc, poll.waker()?)?;
        let share = listener.share()?;
        let start = rt.monotonic()?;
        Ok((
            NetPorts {
                rt,
                alloc,
                poll,
                listener: Some(listener),
                share,
                start,
                shown: 0,
                looks: 0,
                waits: 0,
                failed: 0,
                peer: Snapshot::of(&None),
                secs: 0,
            },
            bell,
        ))
    }
}

impl<R: Clock> NetPorts<R> {
    ghost use Rattle.std.specs.Prelude.{◌≡◌};
    ghost use Rattle.socket_set.specs.Devices.{Accepts};
    ghost use Rattle.net_sockets.specs.Nets.{ports_tell};

    // Milliseconds since it was made. A clock that can't be read stands still.
    fn millis(&self) -> u64 {
        match self.rt.monotonic() {
            Ok(now) => millis_between(self.start, now),
            Err(_) => self.shown.saturating_mul(100),
        }
    }

    // The client of a connection. For want of memory there is none.
    fn give(&mut self, stream: TcpStream, ip: IpAddr) -> Arrival<TcpSocket>
        ensures { Accepts result (ports_tell self.old) (ports_tell self.new) }
    {
        match peer_of(self.alloc, ip) {
            Ok(peer) => self.give_of(stream, peer),
            Err(_) => {
                self.count();
                Arrival::Failed
            }
        }
    }

    fn give_of(&mut self, stream: TcpStream, peer: Peer) -> Arrival<TcpSocket>
        ensures { Accepts result (ports_tell self.old) (ports_tell self.new) }
    {
        let given = Some(peer);
        self.peer = Snapshot::of(&given);
        match given {
            Some(peer) => Arrival::Client {
                socket: TcpSocket::new(stream),
                peer,
            },
            None => Arrival::Nothing,
        }
    }

    fn count(&mut self)
        ensures rose { Rose self.old.failed self.new.failed }
        ensures rest { self.new ≡ record self.old { failed = self.new.failed } }
    {
        self.failed = self.failed.saturating_add(1);
    }
}

fn millis_between(start: Duration, now: Duration) -> u64 {
    match now.checked_sub(start) {
        Some(passed) => passed
            .as_secs()
            .saturating_mul(1_000)
            .saturating_add(passed.subsec_millis() as u64),
        None => 0,
    }
}

fn peer_of(alloc: Global, ip: IpAddr) -> Result<Peer, AllocError> {
    Ok(Peer(Text::from_string(ip.to_string(alloc)?)))
}

impl<R: Clock> Ports for NetPorts<R> {
    ghost use Rattle.std.specs.Prelude.{◌≡◌};
    ghost use Rattle.net_sockets.specs.Nets.{ports_tell, GivesReport};

    type Socket = TcpSocket;

    ghost tells = { ports_tell };

    fn accept(&mut self) -> Arrival<TcpSocket> {
        if self.share.leaves(self.shown) {
            return Arrival::Nothing;
        }
        let accepted = match &self.listener {
            Some(listener) => listener.accept(),
            None => return Arrival::Nothing,
        };
        match accepted {
            Ok((stream, address)) => self.give(stream, address.ip()),
            Err(error) if error.kind() == ErrorKind::WouldBlock => {
                self.share.settle();
                Arrival::Nothing
            }
            Err(_) => {
                self.count();
                Arrival::Failed
            }
        }
    }

    fn end_listening(&mut self) {
        self.share.settle();
        if let Some(listener) = self.listener.take() {
            self.poll.unlisten(listener.descriptor());
        }
    }

    fn watch(&mut self, socket: &mut TcpSocket, c: u64, room: bool) -> bool {
        let is_new = !socket.is_watched();
        let watched = socket.watch(self.poll.registry(), Token(c as usize), room);
        if watched.is_err() {
            self.count();
            return false;
        }
        if is_new {
            self.share.gain();
        }
        true
    }

    fn forget(&mut self, socket: &mut TcpSocket) {
        if socket.is_watched() {
            self.share.lose();
        }
        socket.forget(self.poll.registry());
    }

    fn wait(&mut self, millis: u64) -> bool {
        self.waits = self.waits.saturating_add(1);
        let waited = self.poll.wait(millis, &mut self.failed);
        if self.share.has_left() {
            // Its edge is past.
            self.poll.remind();
        }
        waited
    }

    fn ready(&mut self) -> Option<Ready>
        ensures same { ports_tell self.new ≡ ports_tell self.old }
        ensures given { GivesReport result self.old self.new }
    {
        self.poll.report()
    }

    fn ticks(&mut self) -> u64 {
        self.looks = self.looks.saturating_add(1);
        self.shown = self.millis() / 100;
        self.shown
    }

    fn millis_to_tick(&mut self) -> u64 {
        100 - self.millis() % 100
    }

    fn seconds(&mut self) -> u64 {
        self.secs = match self.rt.since_1970() {
            Ok(now) => now.as_secs().min(SECONDS_END - 1),
            Err(_) => 0,
        };
        self.secs
    }
}
