// The state of a connection, and a step.
ghost use Rattle.std.specs.Prelude.{◌≡◌};

use crate::stage::{End, Stage};
use child_core::{Ending, Run};
use conn_flags::Flags;
use host_base::Site;
use host_trace::{Event, Outside};
use limit_clock::Deadline;
use scgi_reader::Reading;
use std::alloc::Global;
use std::mem;

// Puts a value in the place of another, which is dropped. It is generic, so that the proof of a caller doesn't go into the
// parts of what is dropped.
fn put_in<T: Drop>(place: &mut T, value: T)
    ensures { place.new ≡ value }
{
    *place = value;
}

/// One connection of a site, which speaks SCGI, from before it is accepted on.
#[derive(Drop)]
pub struct ScgiConn<'s> {
    pub(crate) site: &'s Site,
    pub(crate) alloc: Global,
    /// What was heard and done of it beside its request.
    pub(crate) flags: Flags,
    /// Ticks until its client has sent nothing for the idle time.
    pub(crate) idle: Deadline,
    pub(crate) stage: Stage,
    /// The run of its child.
    pub(crate) run: Option<Run>,
}

impl<'s> ScgiConn<'s> {
    ghost use Rattle.std.specs.Prelude.{◌≡◌};
    ghost use Rattle.host_base.specs.SiteRules.{IsServed};
    ghost use Rattle.std.specs.Prelude.{Some};
    ghost use Rattle.scgi_conn.specs.Parts.{given_up, lost_conn};
    ghost use Rattle.scgi_conn.specs.Slot.{fits_conn, is_held, last_child_of, unsettled_child_of};
    ghost use Rattle.scgi_conn.specs.Step.{Stepped};
    ghost use Rattle.scgi_conn.specs.View.{IsNew, site_of};
    /// Connection `c`, which is not accepted yet. It takes no memory.
    pub fn new(alloc: Global, site: &'s Site, c: u64) -> Self
        ensures { IsNew site.now c result }
    {
        ScgiConn {
            site,
            alloc,
            flags: Flags::new(c),
            idle: Deadline::after(site.limits.idle_ticks),
            stage: Stage::Hearing(Reading::new(alloc, &site.limits)),
            run: None,
        }
    }

    /// One step: an event of the connection or of its child, a Tick or Stop, and the acts that it makes due. `children` is
    /// the number of the next child, and rises by one where it is started.
    pub fn step<O: Outside>(&mut self, ev: &Event, children: &mut u64, out: &mut O)
        requires served { IsServed (site_of self.old) }
        ensures stepped { Stepped self.old ev.now children.old (O.trace out.old) self.new children.new (O.trace out.new) }
        ensures limit { O.limit out.new ≡ O.limit out.old }
    {
        let _room = self.hear_run(ev);
        let _heard = self.hear(ev);
        let _settled = self.settle();
        let _written = self.write(out);
        let _acted = self.act(out);
        let _begun = self.begin(children, out);
        self.close(out);
        self.want(out);
    }

    /// Whether an event that names it or its child may come next.
    pub fn fits(&self, ev: &Event) -> bool
        ensures { result ≡ fits_conn self.now ev.now }
    {
        self.flags.fits(ev)
            && match &self.run {
                None => true,
                Some(run) => run.fits(ev),
            }
    }

    /// Its child, settled or not.
    pub fn last_child(&self) -> Option<u64>
        ensures { result ≡ last_child_of self.now }
    {
        match &self.run {
            Some(run) => Some(run.number()),
            None => None,
        }
    }

    /// The child that is not settled.
    pub fn unsettled_child(&self) -> Option<u64>
        ensures { result ≡ unsettled_child_of self.now }
    {
        match &self.run {
            Some(run) if !run.settled() => Some(run.number()),
            _ => None,
        }
    }

    /// Whether it still needs its slot: it is not shut, or its child is not settled.
    pub fn is_held(&self) -> bool
        ensures { result ≡ is_held self.now }
    {
        !self.flags.is_shut() || self.unsettled_child().is_some()
    }

    // It is at this stage from now on.
    pub(crate) fn put(&mut self, stage: Stage)
        ensures { self.new ≡ record self.old { stage = stage } }
    {
        put_in(&mut self.stage, stage);
    }

    // The stage, which is to be put back or followed by another.
    pub(crate) fn take_stage(&mut self) -> Stage
        ensures stage { result ≡ self.old.stage }
        ensures rest { self.new ≡ record self.old { stage = Stage.Running } }
    {
        mem::replace(&mut self.stage, Stage::Running)
    }

    // This is the run of its child.
    pub(crate) fn put_run(&mut self, run: Run)
        ensures { self.new ≡ record self.old { run = Some run } }
    {
        put_in(&mut self.run, Some(run));
    }

    // Memory ran out: the connection is over, and its child is given up.
    pub(crate) fn lose(&mut self)
        ensures { self.new ≡ lost_conn self.old }
    {
        self.put(Stage::Over(End::NoMemory));
        self.give_up();
    }

    // Its child, where it has one, is given up.
    fn give_up(&mut self)
        ensures { self.new ≡ record self.old { run = given_up self.old.run } }
    {
        if let Some(run) = &mut self.run {
            run.end_by(Ending::Dropped);
        }
    }
}
