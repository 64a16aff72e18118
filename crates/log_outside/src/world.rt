// A world whose outsides tell a log, over any world.
ghost use Rattle.std.specs.Prelude.{◌≡◌, [], vec_len};

use crate::moves::{find_room, unwrap, wrap};
use crate::{LineQueue, LogOutside};
use host_base::Site;
use host_trace::{EnterFault, Mode, Outside, World};
use std::alloc::Global;
use std::mem;
use std::sync::Wait;
use std::time::Clock;

/// A world whose outsides hand over a line for each reply, as far as there are queues for them.
pub struct LogWorld<W, O, R> {
    rt: R,
    alloc: Global,
    inner: W,
    room: Vec<O>,
    queues: Vec<LineQueue>,
    ghost empty: { (vec_len room ≡ 0) × (room.items ≡ []) },
}

impl<W, O, R: Wait + Clock + Copy + Drop> LogWorld<W, O, R> {
    ghost use Rattle.std.specs.Prelude.{◌≡◌, ◌≤◌, [], vec_len, vec_capacity};

    /// Over a world. Each outside takes the last of the queues that are left.
    pub fn new(rt: R, alloc: Global, inner: W, queues: Vec<LineQueue>) -> Self
        ensures { result.inner ≡ inner }
    {
        LogWorld {
            rt,
            alloc,
            inner,
            room: Vec::new(alloc),
            queues,
        }
    }

    /// The world below.
    pub fn into_world(self) -> W
        ensures { result ≡ self.inner }
    {
        let LogWorld {
            rt: _,
            alloc: _,
            inner,
            room,
            queues: _,
        } = self;
        room.destroy_empty();
        inner
    }

    // Room for the way back of so many.
    fn make_room(&mut self, count: usize)
        ensures same { self.new.inner ≡ self.old.inner }
    {
        if self.room.capacity() < count {
            let rt = self.rt;
            let room = find_room(&rt, self.alloc, count);
            let old = mem::replace(&mut self.room, room);
            old.destroy_empty();
        }
    }

    // The room that was made when it was entered, where that is enough.
    fn take_room(&mut self, count: usize) -> Vec<O>
        ensures empty { result.items ≡ [] }
        ensures none { vec_len result ≡ 0 }
        ensures room { count ≤ vec_capacity result }
        ensures same { self.new.inner ≡ self.old.inner }
    {
        let room = mem::replace(&mut self.room, Vec::new(self.alloc));
        if room.capacity() >= count {
            return room;
        }
        room.destroy_empty();
        let rt = self.rt;
        find_room(&rt, self.alloc, count)
    }
}

impl<O: Outside + Send, W: World<Out = O>, R: Wait + Clock + Copy + Drop + Send> World
    for LogWorld<W, O, R> {
    ghost use Rattle.std.specs.Prelude.{◌≡◌, ◌≤◌, ◌<◌, ◌+◌, IfOk, OnOk, OnErr, All, map, vec_len};
    ghost use Rattle.host_base.specs.Outsides.{Rose};
    ghost use Rattle.host_trace.specs.Told.{IsNew, Joins};
    ghost use Rattle.host_trace.specs.Entries.{Enters, entry_of};

    type Out = LogOutside<O, R>;

    ghost given = { λ w. W.given w.inner };

    ghost entries = { λ w. W.entries w.inner };

    ghost out = { λ w. W.out w.inner };

    ghost faults = { λ w. W.faults w.inner };

    fn enter(
        &mut self,
        mode: Mode,
        site: &Site,
        loops: u32,
    ) -> Result<Vec<LogOutside<O, R>>, EnterFault>
        requires loops { 0 < loops }
        requires once { mode ≡ Mode.Once → loops ≡ 1 }
        ensures count { IfOk result (λ outs. vec_len outs ≡ loops) }
        ensures told { IfOk result (λ outs. All (λ o. IsNew (W.given self.old.inner) (O.trace o.inner)) outs.items) }
        ensures limit { IfOk result (λ outs. All (λ o. O.limit o.inner ≡ site.now.limits.children) outs.items) }
        ensures out { OnOk result (W.out self.new.inner ≡ W.out self.old.inner + loops) }
        ensures entered { Enters (W.entries self.old.inner) (entry_of mode site.now loops) (W.entries self.new.inner) }
        ensures given { W.given self.new.inner ≡ W.given self.old.inner }
        ensures err { OnErr result (W.out self.new.inner ≡ W.out self.old.inner) }
        ensures faults { W.faults self.old.inner ≤ W.faults self.new.inner }
        ensures failed { result ≡ Err EnterFault.Failed → Rose (W.faults self.old.inner) (W.faults self.new.inner) }
    {
        let rt = self.rt;
        let outs = find_room(&rt, self.alloc, loops as usize);
        match self.inner.enter(mode, site, loops) {
            Ok(entered) => {
                self.make_room(loops as usize);
                Ok(wrap(rt, self.alloc, outs, entered, site.limits, &mut self.queues))
            }
            Err(fault) => {
                outs.destroy_empty();
                Err(fault)
            }
        }
    }

    fn leave(&mut self, outs: Vec<LogOutside<O, R>>)
        requires { vec_len outs ≤ W.out self.old.inner }
        ensures given { Joins (W.given self.old.inner) (map (λ o. O.trace o.inner) outs.items) (W.given self.new.inner) }
        ensures entries { W.entries self.new.inner ≡ W.entries self.old.inner }
        ensures out { W.out self.new.inner + vec_len outs ≡ W.out self.old.inner }
        ensures faults { W.faults self.old.inner ≤ W.faults self.new.inner }
    {
        let room = self.take_room(outs.len());
        let back = unwrap(room, outs);
        self.inner.leave(back);
    }
}
