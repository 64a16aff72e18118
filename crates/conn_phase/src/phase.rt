// A connection that speaks HTTP or WebSocket, and a step of it.
ghost use Rattle.std.specs.Prelude.{◌≡◌};

use host_base::Site;
use host_trace::{Event, Outside};
use http_conn::{Held, HttpConn, Onward, step};
use std::alloc::Global;
use talk_conn::TalkConn;

// Puts a value in the place of another, which is dropped.
fn put<T: Drop>(place: &mut T, value: T)
    ensures { place.new ≡ value }
{
    *place = value;
}

/// One connection of a site.
#[derive(Drop)]
pub enum Phase<'s> {
    /// It speaks HTTP, or is over.
    Http(HttpConn<'s>),
    /// It speaks WebSocket.
    Talk(TalkConn<'s>),
    /// It was shut before its talk began, and has no child.
    Shut { site: &'s Site, c: u64 },
}

impl<'s> Phase<'s> {
    ghost use Rattle.std.specs.Prelude.{◌≡◌};
    ghost use Rattle.host_base.specs.SiteRules.{IsServed};
    ghost use Rattle.reply_writer.specs.WholeRules.{IsStamp};
    ghost use Rattle.conn_phase.specs.Phase.{GoesOn, IsNew, Steps, unsettled_child_of, fits_phase, is_held, last_child_of, may_step, site_of};
    /// Connection `c`, which is not accepted yet. It takes no memory.
    pub fn new(alloc: Global, site: &'s Site, c: u64) -> Self
        ensures new { IsNew site.now c result }
        ensures site { site_of result ≡ site.now }
        ensures talks { may_step result }
    {
        Phase::Http(HttpConn::new(alloc, site, c))
    }

    /// One step: an event of the connection or of its child, a Tick or Stop, and the acts that it makes due. `now` is
    /// what the clock showed at the last Tick, this event included. `children` is the number of the next child, and
    /// rises by one where it is started.
    pub fn step<O: Outside>(&mut self, ev: Event, now: Option<u64>, children: &mut u64, out: &mut O)
        requires stamp { IsStamp now }
        requires served { IsServed (site_of self.old) }
        requires talks { may_step self.old }
        ensures steps { Steps self.old ev now children.old (O.trace out.old) self.new children.new (O.trace out.new) }
        ensures site { site_of self.new ≡ site_of self.old }
        ensures talks { may_step self.new }
        ensures limit { O.limit out.new ≡ O.limit out.old }
    {
        match self {
            Phase::Http(conn) => {
                let onward = step(conn, ev, now, children, out);
                let site = conn.site();
                let c = conn.c();
                self.go_on(onward, site, c);
            }
            Phase::Talk(talk) => talk.step(&ev, out),
            Phase::Shut { .. } => {}
        }
    }

    // It is from now on what a step of a connection that speaks HTTP came to.
    fn go_on(&mut self, onward: Onward<'s>, site: &'s Site, c: u64)
        ensures { GoesOn onward.entry site.now c self.old self.new }
    {
        match onward {
            Onward::Http => {}
            Onward::Talk(talk) => put(self, Phase::Talk(talk)),
            Onward::Shut => put(self, Phase::Shut { site, c }),
        }
    }

    /// Whether an event that names it or the child of its run may come next.
    pub fn fits(&self, ev: &Event) -> bool
        ensures { result ≡ fits_phase self.now ev.now }
    {
        match self {
            Phase::Http(conn) => conn.fits(ev),
            Phase::Talk(talk) => talk.fits(ev),
            Phase::Shut { .. } => false,
        }
    }

    /// The child of its run, settled or not.
    pub fn last_child(&self) -> Option<u64>
        ensures { result ≡ last_child_of self.now }
    {
        match self {
            Phase::Http(conn) => conn.last_child(),
            Phase::Talk(talk) => Some(talk.last_child()),
            Phase::Shut { .. } => None,
        }
    }

    /// The child that is not settled.
    pub fn unsettled_child(&self) -> Option<u64>
        ensures { result ≡ unsettled_child_of self.now }
    {
        match self {
            Phase::Http(conn) => conn.unsettled_child(),
            Phase::Talk(talk) => talk.unsettled_child(),
            Phase::Shut { .. } => None,
        }
    }

    /// Whether it still holds its slot.
    pub fn is_held(&self) -> bool
        ensures { result ≡ is_held self.now }
    {
        match self {
            Phase::Http(conn) => conn.held() == Held::Yes,
            Phase::Talk(talk) => talk.is_held(),
            Phase::Shut { .. } => false,
        }
    }
}
