// The state of the core, and a step.
ghost use Rattle.std.specs.Prelude.{◌≡◌, ◌∷◌, [], true};
ghost use Rattle.host_trace.specs.Told.{Adds, carries_nothing};
ghost use Rattle.host_core.specs.Stands.{common_event};

use crate::keep::{is_child, keep};
use crate::named::{Named, named_of};
use child_table::Table;
use host_base::{NoMemory, Peer, Site};
use host_trace::{Act, Event, Outside, Why};
use live_conns::Live;
use many_conns::{Connection, NewConnection};
use std::alloc::Global;

// Gives an act that carries nothing, which always finds room.
fn give_plain<O: Outside>(act: &Act, out: &mut O)
    requires { carries_nothing act.now ≡ true }
    ensures told { Adds (O.trace out.old) (act.now ∷ []) (O.trace out.new) }
    ensures limit { O.limit out.new ≡ O.limit out.old }
{
    out.act(act);
}

// The event of all connections: a Tick, or Stop.
fn common(secs: Option<u64>) -> Event
    ensures { result ≡ common_event secs }
{
    match secs {
        Some(secs) => Event::Tick { secs },
        None => Event::Stop,
    }
}

/// The core of a host: it hears events and gives acts, and waits for nobody.
#[derive(Drop)]
pub struct Core<'s, C: Connection> {
    site: &'s Site,
    alloc: Global,
    /// The connections that hold a slot.
    live: Live<C>,
    /// Their unsettled children.
    table: Table,
    /// How many connections were accepted.
    accepted: u64,
    /// The number of the next child.
    children: u64,
    stopped: bool,
    /// What the clock showed at the last Tick.
    clock: Option<u64>,
}

impl<'s, C: Connection> Core<'s, C> {
    ghost use Rattle.std.specs.Prelude.{◌≡◌, ◌<◌, ◌≤◌, ◌-◌, ◌+◌, ◌^◌, [], ℕ, List, None, Option, true, false, not, IfOk, MatchOption, filter, length, ◌++◌, ◌∷◌, nat_le, ◌||◌, slice_index_or};
    ghost use Rattle.host_trace.specs.declared.items.Item.{Item};
    ghost use Rattle.host_trace.specs.declared.items.Item.TheVariants.{In};
    ghost use Rattle.host_trace.specs.declared.items.Event.TheVariants.{Accepted, Stop, Tick};
    ghost use Rattle.host_trace.specs.declared.items.Act.TheVariants.{Shut};
    ghost use Rattle.host_trace.specs.declared.items.Why.TheVariants.{Full};
    ghost use Rattle.host_trace.specs.Account.{all_settled, slots_held};
    ghost use Rattle.host_base.specs.SiteRules.{IsServed};
    ghost use Rattle.reply_writer.specs.WholeRules.{IsStamp};
    ghost use Rattle.host_trace.specs.Projections.{stopped};
    ghost use Rattle.host_trace.specs.Told.{AddsActs, Adds};
    ghost use Rattle.own_traces.specs.Whose.{has, is_common};
    ghost use Rattle.host_core.specs.Owners.{AddsOne, Counts, HasNone, HasNoneBy, IsPlace, IsPlaceBy, IsRest, Sound, conns, most_of, served};
    ghost use Rattle.host_core.specs.Stands.{FreedAt, Ignores, Noted, Serves, Stands, Steps, common_event};
    ghost use Rattle.host_core.specs.declared.named.Named.TheVariants.{Child};

    /// Whether Stop was heard.
    pub fn stopped(&self) -> bool
        ensures { (T : List Item) → Stands self.now T → result ≡ stopped T }
    {
        self.stopped
    }

    /// Whether every child that was to be started is settled.
    pub fn all_settled(&self) -> bool
        requires { Sound self.now }
        ensures { (T : List Item) → Stands self.now T → result ≡ all_settled T }
    {
        self.table.len() == 0
    }

    // An event of one connection.
    fn one<O: Outside>(&mut self, ev: Event, out: &mut O)
        requires kind { is_common (In ev) ≡ false }
        requires sound { Sound self.old }
        ensures stands { Steps self.old ev (O.trace out.old) self.new (O.trace out.new) }
        ensures ignores { Ignores self.old ev (O.trace out.old) self.new (O.trace out.new) }
        ensures sound { Sound self.new }
        ensures told { AddsActs (O.trace out.old) (O.trace out.new) }
        ensures count { Counts self.old self.new }
        ensures site { served self.new ≡ served self.old }
        ensures limit { O.limit out.new ≡ O.limit out.old }
    {
        let Some(i) = self.place(&ev) else {
            return;
        };
        if self.live.get(i).fits(&ev) {
            let held = self.serve(i, ev, out);
            self.free_at(i, held);
        }
    }

    // The place of the connection that an event is for: that it names, or whose run has the child which it names.
    fn place(&self, ev: &Event) -> Option<usize>
        requires { Sound self.now }
        ensures { MatchOption result (HasNone self.now ev.now) (IsPlace self.now ev.now) }
    {
        match named_of(ev) {
            Named::Connection(c) => self.live.find(c),
            Named::Child(k) => match self.table.owner(k) {
                Some(c) => self.live.find(c),
                None => self.place_of_child(k),
            },
            Named::Nobody => None,
        }
    }

    // The place of the connection whose run has this child, which is settled: of one that is the table knows nothing.
    fn place_of_child(&self, k: u64) -> Option<usize>
        ensures { MatchOption result (HasNoneBy self.now (Child k)) (IsPlaceBy self.now (Child k)) }
    {
        let count = self.live.len();
        for i in 0..count {
            if is_child(self.live.get(i).last_child(), k) {
                return Some(i);
            }
        }
        None
    }

    /// Whether all slots are held.
    pub fn is_full(&self) -> bool
        requires { Sound self.now }
        ensures value { result ≡ nat_le (most_of self.now) (length (conns self.now)) }
        ensures slots { (T : List Item) → Stands self.now T → result ≡ nat_le (most_of self.now) (slots_held T) }
    {
        self.live.len() >= self.site.limits.connections as usize
    }

    // The connection at a place makes its step.
    fn serve<O: Outside>(&mut self, i: usize, ev: Event, out: &mut O) -> bool
        requires place { i < length (conns self.old) }
        requires sound { Sound self.old }
        ensures serves { Serves self.old i ev result self.new (O.trace out.old) (O.trace out.new) }
        ensures held { (d : C) → result ≡ C.kind.needs (slice_index_or (conns self.new) i d) }
        ensures sound { Sound self.new }
        ensures limit { O.limit out.new ≡ O.limit out.old }
    {
        let before = self.live.get(i).unsettled_child();
        let c = self.live.number(i);
        let held = self.live.step(i, ev, self.clock, &mut self.children, out);
        let after = self.live.get(i).unsettled_child();
        keep(&mut self.table, c, before, after);
        held
    }

    // The connection at a place gives its slot back, unless it needs it.
    fn free_at(&mut self, i: usize, held: bool)
        requires place { i < length (conns self.old) }
        requires held { (d : C) → held ≡ C.kind.needs (slice_index_or (conns self.old) i d) }
        requires sound { Sound self.old }
        ensures freed { FreedAt self.old i held self.new }
        ensures sound { Sound self.new }
    {
        if !held {
            self.live.remove(i);
        }
    }

    // Those that need no slot give theirs back.
    fn free(&mut self)
        requires { Sound self.old }
        ensures conns { conns self.new ≡ filter C.kind.needs (conns self.old) }
        ensures rest { IsRest self.old self.new }
        ensures sound { Sound self.new }
    {
        let count = self.live.len();
        for turn in 0..count {
            let i = count - 1 - turn;
            let held = self.live.get(i).needs_slot();
            self.free_at(i, held);
        }
    }

    // The clock was looked at.
    fn tick<O: Outside>(&mut self, secs: u64, out: &mut O)
        requires { Sound self.old }
        ensures stands { Steps self.old (Tick secs) (O.trace out.old) self.new (O.trace out.new) }
        ensures ignores { Ignores self.old (Tick secs) (O.trace out.old) self.new (O.trace out.new) }
        ensures sound { Sound self.new }
        ensures told { AddsActs (O.trace out.old) (O.trace out.new) }
        ensures count { Counts self.old self.new }
        ensures site { served self.new ≡ served self.old }
        ensures limit { O.limit out.new ≡ O.limit out.old }
    {
        if secs < 253_402_300_800 {
            self.all(Some(secs), out);
        }
    }

    // The server is to end.
    fn stop<O: Outside>(&mut self, out: &mut O)
        requires { Sound self.old }
        ensures stands { Steps self.old Stop (O.trace out.old) self.new (O.trace out.new) }
        ensures ignores { Ignores self.old Stop (O.trace out.old) self.new (O.trace out.new) }
        ensures sound { Sound self.new }
        ensures told { AddsActs (O.trace out.old) (O.trace out.new) }
        ensures count { Counts self.old self.new }
        ensures site { served self.new ≡ served self.old }
        ensures limit { O.limit out.new ≡ O.limit out.old }
    {
        if !self.stopped {
            self.all(None, out);
        }
    }

    // A Tick or Stop is noted.
    fn note(&mut self, secs: Option<u64>)
        requires stamp { IsStamp secs }
        requires sound { Sound self.old }
        ensures noted { Noted self.old self.new (common_event secs) }
        ensures sound { Sound self.new }
    {
        match secs {
            Some(secs) => self.clock = Some(secs),
            None => self.stopped = true,
        }
    }

    // A Tick or Stop is heard by all, by rising number.
    fn all<O: Outside>(&mut self, secs: Option<u64>, out: &mut O)
        requires stamp { IsStamp secs }
        requires sound { Sound self.old }
        ensures stands { Steps self.old (common_event secs) (O.trace out.old) self.new (O.trace out.new) }
        ensures sound { Sound self.new }
        ensures told { AddsActs (O.trace out.old) (O.trace out.new) }
        ensures count { Counts self.old self.new }
        ensures site { served self.new ≡ served self.old }
        ensures limit { O.limit out.new ≡ O.limit out.old }
    {
        self.note(secs);
        for i in 0..self.live.len() {
            let _held = self.serve(i, common(secs), out);
        }
        self.free();
    }
}

impl<'s, C: NewConnection<'s>> Core<'s, C> {
    ghost use Rattle.std.specs.Prelude.{◌≡◌, ◌<◌, ◌≤◌, ◌-◌, ◌+◌, ◌^◌, [], ℕ, List, None, Option, true, false, not, IfOk, MatchOption, filter, length, ◌++◌, ◌∷◌, nat_le, ◌||◌, slice_index_or};
    ghost use Rattle.host_trace.specs.declared.items.Item.{Item};
    ghost use Rattle.host_trace.specs.declared.items.Item.TheVariants.{In};
    ghost use Rattle.host_trace.specs.declared.items.Event.TheVariants.{Accepted, Stop, Tick};
    ghost use Rattle.host_trace.specs.declared.items.Act.TheVariants.{Shut};
    ghost use Rattle.host_trace.specs.declared.items.Why.TheVariants.{Full};
    ghost use Rattle.host_trace.specs.Account.{all_settled, slots_held};
    ghost use Rattle.host_base.specs.SiteRules.{IsServed};
    ghost use Rattle.host_trace.specs.Projections.{stopped};
    ghost use Rattle.host_trace.specs.Told.{AddsActs, Adds};
    ghost use Rattle.own_traces.specs.Whose.{has, is_common};
    ghost use Rattle.host_core.specs.Owners.{AddsOne, Counts, HasNone, IsPlace, IsRest, Sound, conns, most_of, served};
    ghost use Rattle.host_core.specs.Stands.{FreedAt, Ignores, Noted, Serves, Stands, Steps, common_event};

    /// A core that has heard nothing, with room for as many connections as may be held.
    pub fn new(alloc: Global, site: &'s Site) -> Result<Self, NoMemory>
        requires { IsServed site.now }
        ensures stands { IfOk result (λ core. Stands core []) }
        ensures sound { IfOk result Sound }
        ensures site { IfOk result (λ core. served core ≡ site.now) }
        ensures accepted { IfOk result (λ core. core.accepted ≡ 0) }
    {
        let most = site.limits.connections;
        Ok(Core {
            site,
            alloc,
            live: Live::new(alloc, most)?,
            table: Table::new(alloc, most)?,
            accepted: 0,
            children: 0,
            stopped: false,
            clock: None,
        })
    }

    /// One step: an event, and the acts that it makes due. An event that may not come next changes nothing.
    pub fn step<O: Outside>(&mut self, ev: Event, out: &mut O)
        requires accepted { self.old.accepted < 2 ^ 64 - 1 }
        requires sound { Sound self.old }
        ensures stands { Steps self.old ev (O.trace out.old) self.new (O.trace out.new) }
        ensures ignores { Ignores self.old ev (O.trace out.old) self.new (O.trace out.new) }
        ensures sound { Sound self.new }
        ensures told { AddsActs (O.trace out.old) (O.trace out.new) }
        ensures count { Counts self.old self.new }
        ensures site { served self.new ≡ served self.old }
        ensures limit { O.limit out.new ≡ O.limit out.old }
    {
        match ev {
            Event::Accepted { peer } => self.accept(peer, out),
            Event::Tick { secs } => self.tick(secs, out),
            Event::Stop => self.stop(out),
            other => self.one(other, out),
        }
    }

    // A client connected: it gets a slot, or is shut at once.
    fn accept<O: Outside>(&mut self, peer: Peer, out: &mut O)
        requires accepted { self.old.accepted < 2 ^ 64 - 1 }
        requires sound { Sound self.old }
        ensures stands { Steps self.old (Accepted peer) (O.trace out.old) self.new (O.trace out.new) }
        ensures ignores { Ignores self.old (Accepted peer) (O.trace out.old) self.new (O.trace out.new) }
        ensures sound { Sound self.new }
        ensures told { AddsActs (O.trace out.old) (O.trace out.new) }
        ensures count { Counts self.old self.new }
        ensures site { served self.new ≡ served self.old }
        ensures limit { O.limit out.new ≡ O.limit out.old }
    {
        if self.stopped {
            return;
        }
        if self.is_full() {
            let c = self.accepted;
            self.accepted += 1;
            give_plain(&Act::Shut { c, why: Why::Full }, out);
            return;
        }
        let last = self.add();
        let held = self.serve(last, Event::Accepted { peer }, out);
        self.free_at(last, held);
    }

    // One connection more, of which nothing was heard.
    fn add(&mut self) -> usize
        requires accepted { self.old.accepted < 2 ^ 64 - 1 }
        requires room { length (conns self.old) < most_of self.old }
        requires sound { Sound self.old }
        ensures adds { AddsOne self.old result self.new }
        ensures sound { Sound self.new }
    {
        let last = self.live.len();
        let number = self.accepted;
        let conn = C::new(self.alloc, self.site, number);
        self.live.push(number, conn);
        self.accepted += 1;
        last
    }
}
