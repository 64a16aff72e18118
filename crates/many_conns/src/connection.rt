// What the core of all connections asks of one.
ghost use Rattle.std.specs.Prelude.{◌≡◌, ℕ, List, None, false};
ghost use Rattle.host_base.specs.SiteRules.{IsServed};
ghost use Rattle.host_trace.specs.declared.items.Item.{Item};
ghost use Rattle.reply_writer.specs.WholeRules.{IsStamp};
ghost use Rattle.many_conns.specs.Kind.{AreTicks, Gives, Kind, Laws};

use host_base::Site;
use host_trace::{Event, Outside};
use std::alloc::Global;

/// One connection of a site, from before it is accepted on.
pub trait Connection: Drop + Sized {
    /// What is known of its values, and for which lists they stand.
    ghost kind: { Kind Self };

    /// One step: an event of the connection or of its child, Accepted, a Tick or Stop, and the acts that it makes due.
    /// `now` is what the clock showed at the last Tick, this event included. `children` is the number of the next child,
    /// and rises by one for each that is to be started. Whether it needs its slot still.
    fn step<O: Outside>(
        &mut self,
        ev: Event,
        now: Option<u64>,
        children: &mut u64,
        out: &mut O,
    ) -> bool
        requires stamp { IsStamp now }
        requires served { IsServed (kind.site_of self.old) }
        ensures gives { Gives kind self.old children.old ev now self.new children.new (O.trace out.old) (O.trace out.new) }
        ensures needs { result ≡ kind.needs self.new }
        ensures limit { O.limit out.new ≡ O.limit out.old };

    /// Whether an event that names it or the child of its run may come next.
    fn fits(&self, ev: &Event) -> bool
        ensures { result ≡ kind.fits_conn self.now ev.now };

    /// The child of its run, settled or not.
    fn last_child(&self) -> Option<u64>
        ensures { result ≡ kind.last_child_of self.now };

    /// Its child that is not settled.
    fn unsettled_child(&self) -> Option<u64>
        ensures { result ≡ kind.unsettled_child_of self.now };

    /// Whether it needs its slot.
    fn needs_slot(&self) -> bool
        ensures { result ≡ kind.needs self.now };

    /// What holds of all its values.
    ghost laws: { Laws kind };
}

/// One that begins.
pub trait NewConnection<'s>: Connection {
    /// Connection `c`, of which nothing was heard. It takes no memory.
    fn new(alloc: Global, site: &'s Site, c: u64) -> Self
        requires { IsServed site.now }
        ensures site { Self.kind.site_of result ≡ site.now }
        ensures number { Self.kind.number_of result ≡ c }
        ensures last_child { Self.kind.last_child_of result ≡ None }
        ensures unshut { Self.kind.was_shut result ≡ false }
        ensures stands { (L : List Item) → AreTicks L → Self.kind.stands site.now result L };
}
