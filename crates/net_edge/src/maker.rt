// What real loops are made of.
ghost use Rattle.std.specs.Prelude.{◌≡◌, ◌≤◌, IfOk};
ghost use Rattle.host_base.specs.Outsides.{Rose};

use super::{Listening, NotHad, Refused, StdinOrders, Told};
use child_edge::SpawnFault;
use edge_loop::{Maker, Parts};
use host_base::{Site, Text};
use host_trace::EnterFault;
use loop_bell::Bell;
use net_sockets::{Listener, NetFault, NetPorts, Network};
use pipe_pump::rings;
use std::alloc::Global;
use std::io;
use std::io::{ErrorKind, Stdin};
use std::net::{IpAddr, Net, SocketAddr, TcpListener};
use std::process::{Processes, SystemProcess};
use std::sync::atomic::AtomicBool;
use std::sync::{Arc, Wait};
use std::time::Clock;
use std_spawner::{StartThread, StdSpawner};

// How many bytes of orders stand in their ring at most.
const RING: usize = 1_024;

// How many threads a loop keeps that have nothing to do. A child has two at most.
const IDLE: usize = 64;

/// Makes real loops: a listener that they share, and for each its sockets, and programs of the system whose pumps wake
/// it. A pump of the first of them reads the orders on standard input.
#[derive(Drop)]
pub struct NetMaker<R, T> {
    rt: R,
    alloc: Global,
    network: Network<R>,
    // What starts threads, one for each loop.
    starters: Vec<T>,
    input: Option<Stdin>,
    // Where the orders say that the log is to be opened anew.
    log: Option<Arc<AtomicBool>>,
    // Once the first loop was made.
    told: Option<Arc<Told>>,
    // Where it listens.
    address: Option<Text>,
    listener: Option<Listener>,
    faults: u64,
}

impl<R: Net + Clock + Copy + Drop, T: StartThread + Drop> NetMaker<R, T> {
    ghost use Rattle.std.specs.Prelude.{◌≡◌};

    /// It makes as many loops as there are starters of threads. Nothing is listened at yet.
    pub fn new(rt: R, alloc: Global, starters: Vec<T>, input: Stdin) -> Self
        ensures { result.faults ≡ 0 }
    {
        NetMaker {
            rt,
            alloc,
            network: Network::new(rt, alloc),
            starters,
            input: Some(input),
            log: None,
            told: None,
            address: None,
            listener: None,
            faults: 0,
        }
    }

    /// The same, where a line `log` on standard input makes this true.
    pub fn with_log(self, log: Option<Arc<AtomicBool>>) -> Self
        ensures { result.faults ≡ self.faults }
    {
        NetMaker { log, ..self }
    }
}

impl<R, T> NetMaker<R, T> {
    ghost use Rattle.std.specs.Prelude.{◌≡◌, ◌≤◌};
    ghost use Rattle.host_base.specs.Outsides.{Rose};

    fn fail(&mut self) -> EnterFault
        ensures failed { result ≡ EnterFault.Failed }
        ensures grown { self.old.faults ≤ self.new.faults }
        ensures rose { Rose self.old.faults self.new.faults }
    {
        self.faults = self.faults.saturating_add(1);
        EnterFault::Failed
    }

    fn net_fault(&mut self, fault: NetFault) -> EnterFault
        ensures grown { self.old.faults ≤ self.new.faults }
        ensures failed { result ≡ EnterFault.Failed → Rose self.old.faults self.new.faults }
    {
        match fault {
            NetFault::Failed => self.fail(),
            NetFault::NoMemory => EnterFault::NoMemory,
        }
    }
}

impl<R: Net + Clock + Copy + Drop, T: StartThread + Drop> NetMaker<R, T> {
    ghost use Rattle.std.specs.Prelude.{◌≡◌, ◌≤◌, IfOk};
    ghost use Rattle.host_base.specs.Outsides.{Rose};

    // Listens at the address of a site, and no more where it listened before.
    fn listen_at(&mut self, site: &Site) -> Result<(), EnterFault>
        ensures grown { self.old.faults ≤ self.new.faults }
        ensures failed { result ≡ Err EnterFault.Failed → Rose self.old.faults self.new.faults }
    {
        self.listener = None;
        let Ok(address) = Text::copy_of(self.alloc, site.listen.as_str()) else {
            return Err(EnterFault::NoMemory);
        };
        match self.network.listen(address.as_str(), site.port) {
            Ok(listener) => {
                self.listener = Some(listener);
                self.address = Some(address);
                Ok(())
            }
            Err(fault) => Err(self.net_fault(fault)),
        }
    }

    // The ports of one more loop, and what wakes it.
    fn ports(&mut self) -> Result<(NetPorts<R>, Bell), EnterFault>
        ensures grown { self.old.faults ≤ self.new.faults }
        ensures failed { result ≡ Err EnterFault.Failed → Rose self.old.faults self.new.faults }
    {
        let Some(listener) = &self.listener else {
            return Err(self.fail());
        };
        let Ok(listener) = listener.another() else {
            return Err(EnterFault::NoMemory);
        };
        match self.network.ports(listener) {
            Ok(made) => Ok(made),
            Err(fault) => Err(self.net_fault(fault)),
        }
    }

    // What starts the children of the loop that this bell wakes.
    fn spawner(&mut self, bell: Bell) -> Result<StdSpawner<R, T>, EnterFault>
        ensures grown { self.old.faults ≤ self.new.faults }
        ensures failed { result ≡ Err EnterFault.Failed → Rose self.old.faults self.new.faults }
    {
        let Some(starter) = self.starters.pop() else {
            return Err(self.fail());
        };
        match StdSpawner::new(self.rt, self.alloc, bell, starter, IDLE) {
            Ok(spawner) => Ok(spawner),
            Err(_) => Err(EnterFault::NoMemory),
        }
    }
}

impl<
    R: Net + Processes<Started = SystemProcess> + Wait + Clock + Copy + Drop,
    T: StartThread + Drop,
> NetMaker<R, T> {
    ghost use Rattle.std.specs.Prelude.{◌≡◌, ◌≤◌, IfOk};
    ghost use Rattle.host_base.specs.Outsides.{Rose};

    // The orders of one more loop. With the first they begin to be read.
    fn orders(&mut self, spawner: &mut StdSpawner<R, T>) -> Result<StdinOrders, EnterFault>
        ensures grown { self.old.faults ≤ self.new.faults }
        ensures failed { result ≡ Err EnterFault.Failed → Rose self.old.faults self.new.faults }
    {
        if let Some(input) = self.input.take() {
            self.told = Some(self.read(spawner, input)?);
        }
        let Some(told) = &self.told else {
            return Err(self.fail());
        };
        match Arc::try_clone(told) {
            Ok(told) => Ok(StdinOrders::of(told)),
            Err(_) => Err(EnterFault::NoMemory),
        }
    }

    // Begins to read standard input, by a pump whose end is of no use.
    fn read(
        &mut self,
        spawner: &mut StdSpawner<R, T>,
        input: Stdin,
    ) -> Result<Arc<Told>, EnterFault>
        ensures grown { self.old.faults ≤ self.new.faults }
        ensures failed { result ≡ Err EnterFault.Failed → Rose self.old.faults self.new.faults }
    {
        let Ok((ring, tap)) = rings(self.alloc, RING) else {
            return Err(EnterFault::NoMemory);
        };
        let Ok(told) = Arc::new(self.alloc, Told::new(tap, self.log.take())) else {
            return Err(EnterFault::NoMemory);
        };
        match spawner.read_input(input, ring) {
            Ok(_) => Ok(told),
            Err(SpawnFault::Failed) => Err(self.fail()),
            Err(SpawnFault::NoMemory) => Err(EnterFault::NoMemory),
        }
    }

    // What one more loop is made of.
    fn make_one(&mut self) -> Result<Parts<NetPorts<R>, StdSpawner<R, T>, StdinOrders>, EnterFault>
        ensures grown { self.old.faults ≤ self.new.faults }
        ensures failed { result ≡ Err EnterFault.Failed → Rose self.old.faults self.new.faults }
    {
        let (ports, bell) = self.ports()?;
        let mut spawner = self.spawner(bell)?;
        let orders = self.orders(&mut spawner)?;
        Ok(Parts {
            ports,
            spawner,
            orders,
        })
    }
}

impl<R: Eprint, T> NetMaker<R, T> {
    ghost use Rattle.std.specs.Prelude.{◌≡◌};

    // Says on standard error where it listens.
    fn say(&self) {
        if let (Some(address), Some(listener)) = (&self.address, &self.listener) {
            let line = Listening {
                address: address.as_str(),
                port: listener.port(),
            };
            let _ = self.rt.eprintln(line);
        }
    }
}

// Why a site can't be listened at, by trying once more.
fn reason_of<R: Net>(rt: &R, site: &Site) -> Option<io::Error> {
    let Ok(ip) = site.listen.as_str().parse::<IpAddr>() else {
        return None;
    };
    TcpListener::bind(rt, SocketAddr::new(ip, site.port)).err()
}

impl<R: Net + Eprint, T> NetMaker<R, T> {
    // Says on standard error that it can't listen there.
    fn say_refused(&self, site: &Site) {
        let address = site.listen.as_str();
        let port = site.port;
        match reason_of(&self.rt, site) {
            Some(reason) if reason.kind() != ErrorKind::AddrInUse => {
                let _ = self.rt.eprintln(NotHad {
                    address,
                    port,
                    reason: &reason,
                });
            }
            _ => {
                let _ = self.rt.eprintln(Refused { address, port });
            }
        }
    }
}

impl<
    R: Net + Processes<Started = SystemProcess> + Wait + Clock + Eprint + Copy + Drop,
    T: StartThread + Drop,
> Maker for NetMaker<R, T> {
    type Ports = NetPorts<R>;

    type Spawner = StdSpawner<R, T>;

    type Orders = StdinOrders;

    ghost faults = { λ m. m.faults };

    fn listen(&mut self, site: &Site, _loops: u32) -> Result<(), EnterFault> {
        let listened = self.listen_at(site);
        if let Err(EnterFault::Failed) = &listened {
            self.say_refused(site);
        }
        listened
    }

    fn make(&mut self) -> Result<Parts<NetPorts<R>, StdSpawner<R, T>, StdinOrders>, EnterFault> {
        self.make_one()
    }

    fn begin(&mut self) {
        self.say();
        // Each loop has its own hand on it: once all have let go of it the address is free.
        self.listener = None;
    }
}
