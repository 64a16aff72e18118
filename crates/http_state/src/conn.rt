// The state of a connection.
ghost use Rattle.std.specs.Prelude.{◌≡◌};

use child_core::{Ending, Run};
use conn_flags::Flags;
use exchange_request::Incoming;
use exchange_stage::Stage;
use host_base::{Cause, Peer, Site};
use host_trace::Event;
use limit_clock::Deadline;
use std::alloc::Global;
use std::mem;

// Puts a value in the place of another, which is dropped. It is generic, so that the proof of a caller doesn't go into the
// parts of what is dropped.
pub fn put_in<T: Drop>(place: &mut T, value: T)
    ensures { place.new ≡ value }
{
    *place = value;
}

/// Whether a connection still holds its slot.
#[derive(Clone, Copy, Debug, PartialEq, Eq)]
pub enum Held {
    /// It is not shut, or its child is not settled.
    Yes,
    No,
}

/// One connection of a site, from before it is accepted on.
#[derive(Drop)]
pub struct HttpConn<'s> {
    pub site: &'s Site,
    pub alloc: Global,
    /// What was heard and done of it beside its exchanges.
    pub flags: Flags,
    /// The client, once it was accepted.
    pub peer: Option<Peer>,
    /// Memory ran out.
    pub lost: bool,
    /// No request began within the idle time.
    pub idled: bool,
    /// The answer of an earlier exchange closes the connection.
    pub closing: bool,
    /// The answer of the exchange stands whole, and closes the connection.
    pub closes: bool,
    /// A reply that had begun can't be finished, for this cause.
    pub cut: Option<Cause>,
    /// The number of the exchange.
    pub number: u128,
    /// Ticks until the client has sent nothing for the idle time.
    pub idle_left: Deadline,
    /// The request of the exchange.
    pub request: Incoming,
    /// 100 Continue was written.
    pub continued: bool,
    pub stage: Stage,
    /// The child of the exchange, that of its last hop.
    pub run: Option<Run>,
}

impl<'s> HttpConn<'s> {
    ghost use Rattle.std.specs.Prelude.{◌≡◌, ◌≤◌, ◌<◌, ◌^◌, ◌-◌};
    ghost use Rattle.std.specs.Prelude.{None, true, false};
    ghost use Rattle.conn_flags.specs.View.{fresh, has_room};
    ghost use Rattle.http_state.specs.Kept.{Kept, is_reading, flags_of, number_of, peer_of, site_of};
    ghost use Rattle.http_state.specs.New.{IsNew};
    ghost use Rattle.http_state.specs.Moves.{ended_run, losing};
    ghost use Rattle.http_state.specs.Fits.{fits_conn};
    ghost use Rattle.http_state.specs.Kid.{last_child_of};
    ghost use Rattle.http_state.specs.Slot.{unsettled_child_of, held_of, run_settled};
    /// Connection `c`, which is not accepted yet. It takes no memory.
    pub fn new(alloc: Global, site: &'s Site, c: u64) -> Self
        ensures site { site_of result ≡ site.now }
        ensures number { number_of result ≡ c }
        ensures flags { flags_of result ≡ fresh c }
        ensures peer { peer_of result ≡ None }
        ensures child { unsettled_child_of result ≡ None }
        ensures new { 2 ≤ site.now.limits.head → IsNew result }
    {
        HttpConn {
            site,
            alloc,
            flags: Flags::new(c),
            peer: None,
            lost: false,
            idled: false,
            closing: false,
            closes: false,
            cut: None,
            number: 0,
            idle_left: Deadline::after(site.limits.idle_ticks),
            request: Incoming::new(alloc, &site.limits),
            continued: false,
            stage: Stage::Reading,
            run: None,
        }
    }

    /// Its site.
    pub fn site(&self) -> &'s Site
        ensures { result.now ≡ site_of self.now }
    {
        self.site
    }

    /// Its number.
    pub fn c(&self) -> u64
        ensures { result ≡ number_of self.now }
    {
        self.flags.c()
    }

    /// Whether an event that names it or the child of its run may come next.
    pub fn fits(&self, ev: &Event) -> bool
        ensures { result ≡ fits_conn self.now ev.now }
    {
        self.flags.fits(ev)
            && match &self.run {
                None => true,
                Some(run) => run.fits(ev),
            }
    }

    /// The child of its run, settled or not.
    pub fn last_child(&self) -> Option<u64>
        ensures { result ≡ last_child_of self.now }
    {
        match &self.run {
            Some(run) => Some(run.number()),
            None => None,
        }
    }

    /// The child that is not settled.
    pub fn unsettled_child(&self) -> Option<u64>
        ensures { result ≡ unsettled_child_of self.now }
    {
        match &self.run {
            Some(run) if !run.settled() => Some(run.number()),
            _ => None,
        }
    }

    /// Whether it still holds its slot.
    pub fn held(&self) -> Held
        ensures { result ≡ held_of self.now }
    {
        if self.flags.is_shut() && self.is_settled() {
            Held::No
        } else {
            Held::Yes
        }
    }

    /// It is at this stage from now on.
    pub fn put(&mut self, stage: Stage)
        ensures value { self.new ≡ record self.old { stage = stage } }
        ensures kept { is_reading stage ≡ false → Kept self.old self.new }
    {
        put_in(&mut self.stage, stage);
    }

    /// The stage, which is to be put back or followed by another.
    pub fn take_stage(&mut self) -> Stage
        ensures stage { result ≡ self.old.stage }
        ensures rest { self.new ≡ record self.old { stage = Stage.Silent } }
        ensures kept { Kept self.old self.new }
    {
        mem::replace(&mut self.stage, Stage::Silent)
    }

    /// This is the child of its exchange.
    pub fn put_run(&mut self, run: Option<Run>)
        ensures { self.new ≡ record self.old { run = run } }
    {
        put_in(&mut self.run, run);
    }

    /// No child of the exchange is left.
    pub fn is_settled(&self) -> bool
        ensures { result ≡ run_settled self.now.run }
    {
        match &self.run {
            None => true,
            Some(run) => run.settled(),
        }
    }

    /// Not too much waits to be sent.
    pub fn has_room(&self) -> bool
        ensures { result ≡ has_room self.now.flags }
    {
        self.flags.has_room()
    }

    /// Memory ran out: the connection is over, and its child is given up.
    pub fn lose(&mut self)
        ensures value { self.new ≡ losing self.old }
        ensures kept { Kept self.old self.new }
    {
        self.lost = true;
        self.end_run(Ending::Dropped);
    }

    /// Its child, where it has one, is ended, unless it was before.
    pub fn end_run(&mut self, ending: Ending)
        ensures value { self.new ≡ record self.old { run = ended_run ending self.old.run } }
        ensures kept { Kept self.old self.new }
    {
        if let Some(run) = &mut self.run {
            run.end_by(ending);
        }
    }

    /// Whether the number of the exchange is its own: the last one is that of all behind it too.
    pub fn is_counted(&self) -> bool
        ensures below { result ≡ true → self.now.number < 2 ^ 128 - 1 }
        ensures last { result ≡ false → self.now.number ≡ 2 ^ 128 - 1 }
    {
        self.number < u128::MAX
    }
}
