// The world of one connection.
ghost use Rattle.std.specs.Prelude.{◌≡◌, [], ◌∷◌, IfOk, false, codes};
ghost use Rattle.pipe_pump.specs.Rings.{IsRingOf, is_finished};
ghost use Rattle.pump_pool.specs.Pumps.{ring_of};
ghost use Rattle.once_edge.specs.Once.{IsFresh};

use super::{OnceOutside, StdioSocket};
use child_edge::{ChildSet, SpawnFault, Spawner};
use crossbeam_utils::sync::Parker;
use host_base::{Limits, NoMemory, Peer, Sink, Site, Text};
use host_trace::{Act, Acted, EnterFault, Event, Mode, Outside, World};
use loop_bell::Bell;
use pipe_pump::{PipeIn, Tap, rings};
use pump_pool::OutPump;
use std::alloc::Global;
use std::io::Stdin;
use std::process::{Processes, SystemProcess};
use std::sync::Wait;
use std::time::Clock;
use std_spawner::{StandardInput, StartThread, StdSpawner};

// How many bytes the ring of standard input has room for.
const RING: usize = 65_536;

// How many threads are kept that have nothing to do. The end of the program waits longer for one that sleeps than
// another takes to be made, and most connections have one request.
const IDLE: usize = 0;

/// One connection over standard input and a sink, whose children are programs of the system.
pub type RealOutside<R, T, K> = OnceOutside<R, StdSpawner<R, T>, StandardInput, K>;

/// What the one outside is made of.
#[derive(Drop)]
struct Parts<T, K> {
    starter: T,
    input: Stdin,
    output: K,
}

/// The world of one connection. It is entered once, and has no sockets.
#[derive(Drop)]
pub struct OnceWorld<R, T, K> {
    rt: R,
    alloc: Global,
    parts: Option<Parts<T, K>>,
    out: u64,
    faults: u64,
}

impl<
    R: Processes<Started = SystemProcess> + Wait + Clock + Copy + Drop + 'static,
    T: StartThread + Drop,
    K: Sink + Drop,
> Outside for RealOutside<R, T, K> {
    ghost use Rattle.std.specs.Prelude.{◌≡◌, ◌≤◌, true};
    ghost use Rattle.host_base.specs.Outsides.{Rose};
    ghost use Rattle.host_trace.specs.Told.{Hears, ActsOn, carries_nothing, is_failure, is_full_book};
    ghost use Rattle.once_edge.specs.Once.{untold, none_full, IsOwed, Counted, Acts};
    ghost use Rattle.std_spawner.specs.Kids.{kid_tells};

    ghost trace = { untold };

    ghost faults = { λ o. o.faults };

    ghost full_books = { none_full };

    ghost limit = { λ o. o.limit };

    fn next(&mut self) -> Event
        ensures told { Hears self.old.limit (untold self.old) result (untold self.new) }
        ensures limit { self.new.limit ≡ self.old.limit }
        ensures faults { self.old.faults ≤ self.new.faults }
        ensures full_books { none_full self.old ≤ none_full self.new }
        ensures failure { is_failure result ≡ true → Rose self.old.faults self.new.faults }
        ensures full { is_full_book result ≡ true → Rose (none_full self.old) (none_full self.new) }
        ensures owed { IsOwed kid_tells result self.old self.new }
        ensures counted { Counted result self.old self.new }
    {
        self.next_event()
    }

    fn act(&mut self, act: &Act) -> Acted
        ensures told { ActsOn (untold self.old) act.now result (untold self.new) }
        ensures room { carries_nothing act.now ≡ true → result ≡ Acted.Done }
        ensures limit { self.new.limit ≡ self.old.limit }
        ensures faults { self.old.faults ≤ self.new.faults }
        ensures full_books { none_full self.old ≤ none_full self.new }
        ensures does { Acts kid_tells act.now result self.old self.new }
    {
        self.do_act(act)
    }
}

impl<R, T, K> OnceWorld<R, T, K> {
    /// The client is at `input` and `output`, and `starter` starts the threads of the pumps.
    pub fn new(rt: R, alloc: Global, starter: T, input: Stdin, output: K) -> Self
        ensures faults { result.faults ≡ 0 }
        ensures out { result.out ≡ 0 }
    {
        OnceWorld {
            rt,
            alloc,
            parts: Some(Parts {
                starter,
                input,
                output,
            }),
            out: 0,
            faults: 0,
        }
    }
}

fn peer(alloc: Global) -> Result<Peer, NoMemory>
    ensures { IfOk result (λ peer. peer.0 ≡ codes "127.0.0.1") }
{
    Ok(Peer(Text::copy_of(alloc, "127.0.0.1")?))
}

// Why the world isn't entered where a pump isn't started.
fn fault_of(fault: SpawnFault) -> EnterFault {
    match fault {
        SpawnFault::Failed => EnterFault::Failed,
        SpawnFault::NoMemory => EnterFault::NoMemory,
    }
}

// The outside whose client is at this socket and whose children are of this spawner.
fn join<R: Wait + Clock + Copy + Drop, S: Spawner + Drop, P: PipeIn + Drop, K: Sink + Drop>(
    rt: R,
    alloc: Global,
    sleeper: Parker,
    spawner: S,
    socket: StdioSocket<P, K>,
    limits: &Limits,
) -> Result<OnceOutside<R, S, P, K>, NoMemory>
    ensures limit { IfOk result (λ o. o.limit ≡ limits.now.children) }
    ensures room { IfOk result (λ o. o.room ≡ limits.now.connections) }
    ensures fresh { IfOk result IsFresh }
{
    let children = ChildSet::new(alloc, spawner, limits.connections)?;
    OnceOutside::new(
        rt,
        alloc,
        sleeper,
        peer(alloc)?,
        socket,
        children,
        limits.children,
    )
}

fn joined<R: Wait + Clock + Copy + Drop, S: Spawner + Drop, P: PipeIn + Drop, K: Sink + Drop>(
    rt: R,
    alloc: Global,
    sleeper: Parker,
    spawner: S,
    socket: StdioSocket<P, K>,
    limits: &Limits,
) -> Result<OnceOutside<R, S, P, K>, EnterFault>
    ensures limit { IfOk result (λ o. o.limit ≡ limits.now.children) }
    ensures room { IfOk result (λ o. o.room ≡ limits.now.connections) }
    ensures fresh { IfOk result IsFresh }
{
    match join(rt, alloc, sleeper, spawner, socket, limits) {
        Ok(outside) => Ok(outside),
        Err(NoMemory) => Err(EnterFault::NoMemory),
    }
}

// What sleeps, and the spawner whose pumps wake it.
fn woken<
    R: Processes<Started = SystemProcess> + Wait + Clock + Copy + Drop + 'static,
    T: StartThread + Drop,
>(rt: R, alloc: Global, starter: T) -> Result<(Parker, StdSpawner<R, T>), NoMemory> {
    let sleeper = Parker::new(alloc)?;
    let spawner = spawner(rt, alloc, &sleeper, starter)?;
    Ok((sleeper, spawner))
}

fn spawner<
    R: Processes<Started = SystemProcess> + Wait + Clock + Copy + Drop + 'static,
    T: StartThread + Drop,
>(rt: R, alloc: Global, sleeper: &Parker, starter: T) -> Result<StdSpawner<R, T>, NoMemory> {
    StdSpawner::new(rt, alloc, Bell::at(sleeper)?, starter, IDLE)
}

// A pump of the client's bytes, and the end of its ring from which they are taken.
fn heard<
    R: Processes<Started = SystemProcess> + Wait + Clock + Copy + Drop + 'static,
    T: StartThread + Drop,
>(
    alloc: Global,
    spawner: &mut StdSpawner<R, T>,
    input: Stdin,
) -> Result<(Tap, OutPump<StandardInput>), SpawnFault>
    ensures pair { IfOk result (λ r. IsRingOf (ring_of r.1) r.0) }
    ensures open { IfOk result (λ r. is_finished r.0 ≡ false) }
{
    let Ok((ring, tap)) = rings(alloc, RING) else {
        return Err(SpawnFault::NoMemory);
    };
    let pump = spawner.read_input(input, ring)?;
    Ok((tap, pump))
}

// The outside of these parts.
fn outside<
    R: Processes<Started = SystemProcess> + Wait + Clock + Copy + Drop + 'static,
    T: StartThread + Drop,
    K: Sink + Drop,
>(
    rt: R,
    alloc: Global,
    parts: Parts<T, K>,
    limits: &Limits,
) -> Result<RealOutside<R, T, K>, EnterFault>
    ensures limit { IfOk result (λ o. o.limit ≡ limits.now.children) }
    ensures room { IfOk result (λ o. o.room ≡ limits.now.connections) }
    ensures fresh { IfOk result IsFresh }
{
    let Parts {
        starter,
        input,
        output,
    } = parts;
    let Ok((sleeper, mut spawner)) = woken(rt, alloc, starter) else {
        return Err(EnterFault::NoMemory);
    };
    match heard(alloc, &mut spawner, input) {
        Ok((tap, pump)) => {
            let socket = StdioSocket::new(tap, pump, output);
            joined(rt, alloc, sleeper, spawner, socket, limits)
        }
        Err(fault) => Err(fault_of(fault)),
    }
}

// A list of one item.
fn only<I: Drop>(alloc: Global, item: I) -> Result<Vec<I>, EnterFault>
    ensures { IfOk result (λ items. items.items ≡ item ∷ []) }
{
    let mut items = Vec::new(alloc);
    match items.push(item) {
        Ok(()) => Ok(items),
        Err(_) => Err(EnterFault::NoMemory),
    }
}

impl<
    R: Processes<Started = SystemProcess> + Wait + Clock + Copy + Drop + 'static,
    T: StartThread + Drop,
    K: Sink + Drop,
> OnceWorld<R, T, K> {
    ghost use Rattle.std.specs.Prelude.{◌≡◌, ◌≤◌, ◌+◌, IfOk, OnOk, OnErr, All, vec_len};
    ghost use Rattle.host_base.specs.Outsides.{Rose};
    ghost use Rattle.once_edge.specs.Once.{IsFresh};

    // Gives out the one outside.
    fn begin(&mut self, site: &Site) -> Result<Vec<RealOutside<R, T, K>>, EnterFault>
        ensures count { IfOk result (λ outs. vec_len outs ≡ 1) }
        ensures limit { IfOk result (λ outs. All (λ o. o.limit ≡ site.now.limits.children) outs.items) }
        ensures room { IfOk result (λ outs. All (λ o. o.room ≡ site.now.limits.connections) outs.items) }
        ensures fresh { IfOk result (λ outs. All IsFresh outs.items) }
        ensures same { (self.new.out ≡ self.old.out) × (self.new.faults ≡ self.old.faults) }
    {
        let Some(parts) = self.parts.take() else {
            return Err(EnterFault::Failed);
        };
        let outside = outside(self.rt, self.alloc, parts, &site.limits)?;
        only(self.alloc, outside)
    }

    /// Gives out the one outside, once.
    pub fn enter_once(&mut self, site: &Site) -> Result<Vec<RealOutside<R, T, K>>, EnterFault>
        ensures count { IfOk result (λ outs. vec_len outs ≡ 1) }
        ensures limit { IfOk result (λ outs. All (λ o. o.limit ≡ site.now.limits.children) outs.items) }
        ensures room { IfOk result (λ outs. All (λ o. o.room ≡ site.now.limits.connections) outs.items) }
        ensures fresh { IfOk result (λ outs. All IsFresh outs.items) }
        ensures out { OnOk result (self.new.out ≡ self.old.out + 1) }
        ensures err { OnErr result (self.new.out ≡ self.old.out) }
        ensures faults { self.old.faults ≤ self.new.faults }
        ensures failed { result ≡ Err EnterFault.Failed → Rose self.old.faults self.new.faults }
    {
        let Some(out) = self.out.checked_add(1) else {
            return Err(EnterFault::NoMemory);
        };
        match self.begin(site) {
            Ok(outs) => {
                self.out = out;
                Ok(outs)
            }
            Err(EnterFault::Failed) => Err(self.fail()),
            Err(EnterFault::NoMemory) => Err(EnterFault::NoMemory),
        }
    }
}

// Kills and reaps what is left of the children of each.
fn end_all<
    R: Processes<Started = SystemProcess> + Wait + Clock + Copy + Drop + 'static,
    T: StartThread + Drop,
    K: Sink + Drop,
>(outs: Vec<RealOutside<R, T, K>>) {
    for mut outside in outs {
        outside.end();
    }
}

impl<R, T, K> OnceWorld<R, T, K> {
    ghost use Rattle.std.specs.Prelude.{◌≡◌, ◌≤◌};
    ghost use Rattle.host_base.specs.Outsides.{Rose};

    fn fail(&mut self) -> EnterFault
        ensures failed { result ≡ EnterFault.Failed }
        ensures out { self.new.out ≡ self.old.out }
        ensures faults { self.old.faults ≤ self.new.faults }
        ensures rose { Rose self.old.faults self.new.faults }
    {
        self.faults = self.faults.saturating_add(1);
        EnterFault::Failed
    }
}

impl<
    R: Processes<Started = SystemProcess> + Wait + Clock + Copy + Drop + Send + 'static,
    T: StartThread + Drop + Send + 'static,
    K: Sink + Drop + Send + 'static,
> World for OnceWorld<R, T, K> {
    ghost use Rattle.std.specs.Prelude.{◌≡◌, ◌≤◌, ◌<◌, ◌+◌, IfOk, OnOk, OnErr, All, map, vec_len};
    ghost use Rattle.host_base.specs.Outsides.{Rose};
    ghost use Rattle.host_trace.specs.Told.{IsNew, Joins};
    ghost use Rattle.host_trace.specs.Entries.{Enters, entry_of};
    ghost use Rattle.once_edge.specs.Once.{untold, none_given, none_entered, IsFresh};

    type Out = RealOutside<R, T, K>;

    ghost given = { none_given };

    ghost entries = { none_entered };

    ghost out = { λ w. w.out };

    ghost faults = { λ w. w.faults };

    fn enter(
        &mut self,
        mode: Mode,
        site: &Site,
        loops: u32,
    ) -> Result<Vec<RealOutside<R, T, K>>, EnterFault>
        requires loops { 0 < loops }
        requires once { mode ≡ Mode.Once → loops ≡ 1 }
        ensures count { IfOk result (λ outs. vec_len outs ≡ loops) }
        ensures told { IfOk result (λ outs. All (λ o. IsNew (none_given self.old) (untold o)) outs.items) }
        ensures limit { IfOk result (λ outs. All (λ o. o.limit ≡ site.now.limits.children) outs.items) }
        ensures room { IfOk result (λ outs. All (λ o. o.room ≡ site.now.limits.connections) outs.items) }
        ensures fresh { IfOk result (λ outs. All IsFresh outs.items) }
        ensures out { OnOk result (self.new.out ≡ self.old.out + loops) }
        ensures entered { Enters (none_entered self.old) (entry_of mode site.now loops) (none_entered self.new) }
        ensures given { none_given self.new ≡ none_given self.old }
        ensures err { OnErr result (self.new.out ≡ self.old.out) }
        ensures faults { self.old.faults ≤ self.new.faults }
        ensures failed { result ≡ Err EnterFault.Failed → Rose self.old.faults self.new.faults }

        // It can't serve.
        ensures serve { mode ≡ Mode.Serve → result ≡ Err EnterFault.Failed }
    {
        match mode {
            Mode::Serve => Err(self.fail()),
            Mode::Once => self.enter_once(site),
        }
    }

    fn leave(&mut self, outs: Vec<RealOutside<R, T, K>>)
        requires { vec_len outs ≤ self.old.out }
        ensures given { Joins (none_given self.old) (map untold outs.items) (none_given self.new) }
        ensures entries { none_entered self.new ≡ none_entered self.old }
        ensures out { self.new.out + vec_len outs ≡ self.old.out }
        ensures faults { self.old.faults ≤ self.new.faults }
    {
        self.out -= outs.len() as u64;
        end_all(outs);
    }
}
