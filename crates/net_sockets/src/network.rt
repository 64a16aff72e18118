// The network of the machine, and how often it failed.
ghost use Rattle.std.specs.Prelude.{◌≡◌, ◌≤◌, ◌<◌, IfOk};
ghost use Rattle.std.specs.Net.Grammar.{IsIpText};
ghost use Rattle.host_base.specs.Outsides.{Rose};
ghost use Rattle.net_sockets.specs.Nets.{IsFresh};

use super::{Listener, NetPorts};
use host_base::NoMemory;
use loop_bell::Bell;
use std::alloc::Global;
use std::io;
use std::io::ErrorKind;
use std::marker::Model;
use std::net::{IpAddr, Net};
use std::time::Clock;

/// Why the network gave nothing.
#[derive(Clone, Copy, Debug, PartialEq, Eq)]
pub enum NetFault {
    /// An address can't be taken, or a descriptor can't be had.
    Failed,
    NoMemory,
}

/// The network of the machine. Contracts see how often it failed.
#[derive(Drop)]
pub struct Network<R> {
    rt: R,
    alloc: Global,
    faults: u64,
}

impl<R> Model for Network<R> {
    ghost use Rattle.std.specs.Prelude.{ℕ};

    ghost Value = { ℕ };

    ghost view = { λ network. network.faults };
}

impl<R: Net + Clock + Copy + Drop> Network<R> {
    pub fn new(rt: R, alloc: Global) -> Self
        ensures { result ≡ 0 }
    {
        Network {
            rt,
            alloc,
            faults: 0,
        }
    }

    /// Listens at an IP address, also where connections of an earlier server are still closing there (SO_REUSEADDR).
    /// Port 0 is any free one.
    pub fn listen(&mut self, address: &str, port: u16) -> Result<Listener, NetFault>
        ensures address { IfOk result (λ listener. IsIpText address.now listener.address) }
        ensures port { IfOk result (λ listener. 0 < port → listener.port ≡ port) }
        ensures grown { self.old ≤ self.new }
        ensures failed { result ≡ Err NetFault.Failed → Rose self.old self.new }
    {
        let Ok(ip) = address.parse::<IpAddr>() else {
            return Err(self.fail());
        };
        match Listener::bind(&self.rt, self.alloc, ip, port) {
            Ok(listener) => Ok(listener),
            Err(error) => Err(self.fault_of(error.kind())),
        }
    }

    /// The ports of one loop at a listener, and what wakes the loop.
    pub fn ports(&mut self, listener: Listener) -> Result<(NetPorts<R>, Bell), NetFault>
        ensures fresh { IfOk result (λ made. IsFresh made.0) }
        ensures grown { self.old ≤ self.new }
        ensures failed { result ≡ Err NetFault.Failed → Rose self.old self.new }
    {
        match NetPorts::new(self.rt, self.alloc, listener) {
            Ok(made) => Ok(made),
            Err(error) => Err(self.fault_of(error.kind())),
        }
    }

    // What an error means. It is counted, unless it is want of memory.
    fn fault_of(&mut self, kind: ErrorKind) -> NetFault
        ensures grown { self.old ≤ self.new }
        ensures failed { result ≡ NetFault.Failed → Rose self.old self.new }
    {
        if kind == ErrorKind::OutOfMemory {
            NetFault::NoMemory
        } else {
            self.fail()
        }
    }

    fn fail(&mut self) -> NetFault
        ensures failed { result ≡ NetFault.Failed }
        ensures grown { self.old ≤ self.new }
        ensures rose { Rose self.old self.new }
    {
        self.faults = self.faults.saturating_add(1);
        NetFault::Failed
    }
}
