// The real world.
ghost use Rattle.std.specs.Prelude.{◌≡◌, ◌≤◌, ◌+◌, IfOk, OnOk, OnErr, All, vec_len};
ghost use Rattle.host_base.specs.Outsides.{Rose};

use super::leaving::halt_all;
use super::sides::{put_loops, put_once};
use super::{Either, RealOutside};
use child_book::Ledger;
use edge_loop::NetWorld;
use host_base::{Sink, Site};
use host_trace::{EnterFault, Mode, World};
use net_edge::NetMaker;
use once_edge::OnceWorld;
use std::alloc::Global;
use std::net::Net;
use std::process::{Processes, SystemProcess};
use std::sync::Wait;
use std::time::Clock;
use std_spawner::StartThread;

/// The real world: that of one connection, which is entered once, and that of loops over sockets.
#[derive(Drop)]
pub struct RealWorld<R, T, K, L: Ledger> {
    alloc: Global,
    once: OnceWorld<R, T, K>,
    net: NetWorld<NetMaker<R, T>, L, R>,
    out: u64,
    faults: u64,
}

impl<R, T, K, L: Ledger> RealWorld<R, T, K, L> {
    ghost use Rattle.std.specs.Prelude.{◌≡◌, ◌≤◌};
    ghost use Rattle.host_base.specs.Outsides.{Rose};

    /// A world of which no outside is out: `once` is entered for one connection, `net` for sockets.
    pub fn new(alloc: Global, once: OnceWorld<R, T, K>, net: NetWorld<NetMaker<R, T>, L, R>) -> Self
        ensures those { (result.once ≡ once) × (result.net ≡ net) }
        ensures none { (result.out ≡ 0) × (result.faults ≡ 0) }
    {
        RealWorld {
            alloc,
            once,
            net,
            out: 0,
            faults: 0,
        }
    }

    fn fail(&mut self) -> EnterFault
        ensures failed { result ≡ EnterFault.Failed }
        ensures out { self.new.out ≡ self.old.out }
        ensures grown { self.old.faults ≤ self.new.faults }
        ensures rose { Rose self.old.faults self.new.faults }
    {
        self.faults = self.faults.saturating_add(1);
        EnterFault::Failed
    }
}

impl<
    R: Net + Processes<Started = SystemProcess> + Wait + Clock + Eprint + Copy + Drop + 'static,
    T: StartThread + Drop,
    K: Sink + Drop,
    L: Ledger,
> RealWorld<R, T, K, L> {
    ghost use Rattle.std.specs.Prelude.{◌≡◌, ◌≤◌, ◌<◌, ◌+◌, IfOk, OnOk, OnErr, All, vec_len, vec_capacity};
    ghost use Rattle.host_base.specs.Outsides.{Rose};
    ghost use Rattle.real_world.specs.Reals.{limit_of, IsEntered, IsHalted, IsSent};

    // Gives out the one outside over standard input.
    fn enter_once(&mut self, site: &Site) -> Result<Vec<RealOutside<R, T, K, L>>, EnterFault>
        ensures count { IfOk result (λ outs. vec_len outs ≡ 1) }
        ensures limit { IfOk result (λ outs. All (λ o. limit_of o ≡ site.now.limits.children) outs.items) }
        ensures entered { IfOk result (λ outs. All (IsEntered Mode.Once) outs.items) }
        ensures same { (self.new.out ≡ self.old.out) × (self.new.faults ≡ self.old.faults) }
    {
        let Ok(outs) = Vec::with_capacity(self.alloc, 1) else {
            return Err(EnterFault::NoMemory);
        };
        match self.once.enter_once(site) {
            Ok(entered) => Ok(put_once(outs, entered)),
            Err(fault) => {
                outs.destroy_empty();
                Err(fault)
            }
        }
    }

    // Gives out the outsides of so many loops.
    fn enter_net(
        &mut self,
        site: &Site,
        loops: u32,
    ) -> Result<Vec<RealOutside<R, T, K, L>>, EnterFault>
        ensures count { IfOk result (λ outs. vec_len outs ≡ loops) }
        ensures limit { IfOk result (λ outs. All (λ o. limit_of o ≡ site.now.limits.children) outs.items) }
        ensures entered { IfOk result (λ outs. All (IsEntered Mode.Serve) outs.items) }
        ensures same { (self.new.out ≡ self.old.out) × (self.new.faults ≡ self.old.faults) }
    {
        let Ok(outs) = Vec::with_capacity(self.alloc, loops as usize) else {
            return Err(EnterFault::NoMemory);
        };
        match self.net.enter(site, loops) {
            Ok(entered) => Ok(put_loops(outs, entered)),
            Err(fault) => {
                outs.destroy_empty();
                Err(fault)
            }
        }
    }

    // Takes one outside back.
    fn take_back(&mut self, back: RealOutside<R, T, K, L>)
        ensures { (self.new.out ≡ self.old.out) × (self.new.faults ≡ self.old.faults) }
    {
        match back {
            Either::Once(mut outside) => outside.end(),
            Either::Serve(outside) => self.net.take_one(outside),
        }
    }

    // Ends the children of all, and then sends what is unsent of any beside the others.
    fn end_all(&self, outs: &mut [RealOutside<R, T, K, L>])
        ensures halted { All IsHalted outs.new }
        ensures sent { All IsSent outs.new }
    {
        halt_all(outs);
        self.net.send_all(outs);
    }

    fn enter_in(
        &mut self,
        mode: Mode,
        site: &Site,
        loops: u32,
    ) -> Result<Vec<RealOutside<R, T, K, L>>, EnterFault>
        requires once { mode ≡ Mode.Once → loops ≡ 1 }
        ensures count { IfOk result (λ outs. vec_len outs ≡ loops) }
        ensures limit { IfOk result (λ outs. All (λ o. limit_of o ≡ site.now.limits.children) outs.items) }
        ensures entered { IfOk result (λ outs. All (IsEntered mode) outs.items) }
        ensures same { (self.new.out ≡ self.old.out) × (self.new.faults ≡ self.old.faults) }
    {
        match mode {
            Mode::Once => self.enter_once(site),
            Mode::Serve => self.enter_net(site, loops),
        }
    }
}

impl<
    R: Net
        + Processes<Started = SystemProcess>
        + Wait
        + Clock
        + Eprint
        + Copy
        + Drop
        + Send
        + 'static,
    T: StartThread + Drop + Send + 'static,
    K: Sink + Drop + Send + 'static,
    L: Ledger + Send + Sync,
> World for RealWorld<R, T, K, L> {
    ghost use Rattle.std.specs.Prelude.{◌≡◌, ◌≤◌, ◌<◌, ◌+◌, IfOk, OnOk, OnErr, All, map, vec_len};
    ghost use Rattle.host_base.specs.Outsides.{Rose};
    ghost use Rattle.host_trace.specs.Told.{IsNew, Joins};
    ghost use Rattle.host_trace.specs.Entries.{Enters, entry_of};
    ghost use Rattle.real_world.specs.Reals.{untold, none_given, none_entered, limit_of, IsEntered};

    type Out = RealOutside<R, T, K, L>;

    ghost given = { none_given };

    ghost entries = { none_entered };

    ghost out = { λ w. w.out };

    ghost faults = { λ w. w.faults };

    fn enter(
        &mut self,
        mode: Mode,
        site: &Site,
        loops: u32,
    ) -> Result<Vec<RealOutside<R, T, K, L>>, EnterFault>
        requires loops { 0 < loops }
        requires once { mode ≡ Mode.Once → loops ≡ 1 }
        ensures count { IfOk result (λ outs. vec_len outs ≡ loops) }
        ensures told { IfOk result (λ outs. All (λ o. IsNew (none_given self.old) (untold o)) outs.items) }
        ensures limit { IfOk result (λ outs. All (λ o. limit_of o ≡ site.now.limits.children) outs.items) }
        ensures fresh { IfOk result (λ outs. All (IsEntered mode) outs.items) }
        ensures out { OnOk result (self.new.out ≡ self.old.out + loops) }
        ensures entered { Enters (none_entered self.old) (entry_of mode site.now loops) (none_entered self.new) }
        ensures given { none_given self.new ≡ none_given self.old }
        ensures err { OnErr result (self.new.out ≡ self.old.out) }
        ensures faults { self.old.faults ≤ self.new.faults }
        ensures failed { result ≡ Err EnterFault.Failed → Rose self.old.faults self.new.faults }
    {
        let Some(out) = self.out.checked_add(loops as u64) else {
            return Err(EnterFault::NoMemory);
        };
        match self.enter_in(mode, site, loops) {
            Ok(outs) => {
                self.out = out;
                Ok(outs)
            }
            Err(EnterFault::Failed) => Err(self.fail()),
            Err(EnterFault::NoMemory) => Err(EnterFault::NoMemory),
        }
    }

    fn leave(&mut self, outs: Vec<RealOutside<R, T, K, L>>)
        requires { vec_len outs ≤ self.old.out }
        ensures given { Joins (none_given self.old) (map untold outs.items) (none_given self.new) }
        ensures entries { none_entered self.new ≡ none_entered self.old }
        ensures out { self.new.out + vec_len outs ≡ self.old.out }
        ensures faults { self.old.faults ≤ self.new.faults }
    {
        self.out -= outs.len() as u64;
        let mut outs = outs;
        self.end_all(outs.as_mut_slice());
        let mut outs = outs.into_iter();
        while let Some(out) = outs.next() {
            self.take_back(out);
        }
        outs.destroy_empty();
    }
}
