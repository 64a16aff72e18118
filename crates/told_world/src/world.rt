// A world that tells, over any world.
ghost use Rattle.std.specs.Prelude.{◌≡◌, ◌≤◌, ◌+◌, ◌++◌, ◌∷◌, [], All, vec_len, vec_capacity};

use super::moves::{find_room, unwrap, wrap};
use host_base::Site;
use host_trace::{EnterFault, Mode, Outside, World};
use std::alloc::Global;
use std::mem;
use std::sync::Wait;
use told_outside::ToldOutside;
use trace_log::{EntryLog, GivenLog};

/// A world whose outsides tell. What was given back and what it was entered for are kept in the proofs alone.
pub struct ToldWorld<W, O, R> {
    rt: R,
    alloc: Global,
    inner: W,
    room: Vec<O>,
    given: GivenLog,
    entries: EntryLog,
    dropped: u64,
    ghost empty: { vec_len room ≡ 0 },
}

impl<W, O, R: Wait + Copy + Drop> ToldWorld<W, O, R> {
    ghost use Rattle.std.specs.Prelude.{◌≡◌, ◌≤◌, ◌++◌, ◌∷◌, [], vec_len, vec_capacity};
    ghost use Rattle.host_trace.specs.Entries.{entry_of};

    /// Over a world.
    pub fn new(rt: R, alloc: Global, inner: W) -> Self
        ensures given { result.given ≡ [] }
        ensures entries { result.entries ≡ [] }
        ensures inner { result.inner ≡ inner }
        ensures dropped { result.dropped ≡ 0 }
    {
        ToldWorld {
            rt,
            alloc,
            inner,
            room: Vec::new(alloc),
            given: GivenLog::new(),
            entries: EntryLog::new(),
            dropped: 0,
        }
    }

    /// The world below.
    pub fn into_world(self) -> W
        ensures { result ≡ self.inner }
    {
        let ToldWorld {
            rt: _,
            alloc: _,
            inner,
            room,
            given: _,
            entries: _,
            dropped: _,
        } = self;
        room.destroy_empty();
        inner
    }

    /// How many events the outsides that were given back have dropped, up to the last value of a u64.
    pub fn dropped(&self) -> u64
        ensures { result ≡ self.now.dropped }
    {
        self.dropped
    }

    // Notes what it is entered for. It takes no memory.
    fn note(&mut self, mode: Mode, site: &Site, loops: u32)
        ensures entries { self.new.entries ≡ self.old.entries ++ entry_of mode site.now loops ∷ [] }
        ensures same { (self.new.given ≡ self.old.given) × (self.new.inner ≡ self.old.inner) × (self.new.dropped ≡ self.old.dropped) }
    {
        self.entries = self.entries.with(mode, site, loops);
    }

    // The room that was made when it was entered, where that is enough.
    fn take_room(&mut self, count: usize) -> Vec<O>
        ensures empty { vec_len result ≡ 0 }
        ensures room { count ≤ vec_capacity result }
        ensures same { (self.new.given ≡ self.old.given) × (self.new.entries ≡ self.old.entries) × (self.new.inner ≡ self.old.inner) × (self.new.dropped ≡ self.old.dropped) }
    {
        let room = mem::replace(&mut self.room, Vec::new(self.alloc));
        if room.capacity() >= count {
            return room;
        }
        room.destroy_empty();
        let rt = self.rt;
        find_room(&rt, self.alloc, count)
    }
}

impl<O: Outside + Send, W: World<Out = O>, R: Wait + Copy + Drop + Send> World
    for ToldWorld<W, O, R> {
    ghost use Rattle.std.specs.Prelude.{◌≡◌, ◌≤◌, ◌<◌, ◌+◌, Some, IfOk, OnOk, OnErr, All, map, vec_len};
    ghost use Rattle.host_base.specs.Outsides.{Rose};
    ghost use Rattle.host_trace.specs.Told.{IsNew, Joins};
    ghost use Rattle.host_trace.specs.Entries.{Enters, entry_of};

    type Out = ToldOutside<O, R>;

    ghost given = { λ w. Some w.given };

    ghost entries = { λ w. Some w.entries };

    ghost out = { λ w. W.out w.inner };

    ghost faults = { λ w. W.faults w.inner };

    fn enter(
        &mut self,
        mode: Mode,
        site: &Site,
        loops: u32,
    ) -> Result<Vec<ToldOutside<O, R>>, EnterFault>
        requires loops { 0 < loops }
        requires once { mode ≡ Mode.Once → loops ≡ 1 }
        ensures count { IfOk result (λ outs. vec_len outs ≡ loops) }
        ensures told { IfOk result (λ outs. All (λ o. IsNew (Some self.old.given) (Some o.log)) outs.items) }
        ensures limit { IfOk result (λ outs. All (λ o. o.limit ≡ site.now.limits.children) outs.items) }
        ensures out { OnOk result (W.out self.new.inner ≡ W.out self.old.inner + loops) }
        ensures entered { Enters (Some self.old.entries) (entry_of mode site.now loops) (Some self.new.entries) }
        ensures given { Some self.new.given ≡ Some self.old.given }
        ensures err { OnErr result (W.out self.new.inner ≡ W.out self.old.inner) }
        ensures faults { W.faults self.old.inner ≤ W.faults self.new.inner }
        ensures failed { result ≡ Err EnterFault.Failed → Rose (W.faults self.old.inner) (W.faults self.new.inner) }
    {
        self.note(mode, site, loops);
        if self.room.reserve(loops as usize).is_err() {
            return Err(EnterFault::NoMemory);
        }
        let Ok(outs) = Vec::with_capacity(self.alloc, loops as usize) else {
            return Err(EnterFault::NoMemory);
        };
        match self.inner.enter(mode, site, loops) {
            Ok(entered) => Ok(wrap(self.rt, self.alloc, outs, entered, site.limits.children)),
            Err(fault) => {
                outs.destroy_empty();
                Err(fault)
            }
        }
    }

    fn leave(&mut self, outs: Vec<ToldOutside<O, R>>)
        requires { vec_len outs ≤ W.out self.old.inner }
        ensures given { Joins (Some self.old.given) (map (λ o. Some o.log) outs.items) (Some self.new.given) }
        ensures entries { Some self.new.entries ≡ Some self.old.entries }
        ensures out { W.out self.new.inner + vec_len outs ≡ W.out self.old.inner }
        ensures faults { W.faults self.old.inner ≤ W.faults self.new.inner }
    {
        let room = self.take_room(outs.len());
        let back = unwrap(&mut self.given, &mut self.dropped, room, outs);
        self.inner.leave(back);
    }
}
