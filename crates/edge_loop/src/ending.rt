// How far the end of a loop has come.
ghost use Rattle.std.specs.Prelude.{◌≡◌, true};
ghost use Rattle.edge_loop.specs.Orders.{no_end, ordered_by, ticked, stopped_by, is_stop_due};

use super::Order;

// So many ticks after the order a quiet end is given up.
const DRAIN_TICKS: u32 = 300;

/// How far the end of a loop has come.
#[derive(Clone, Copy, Debug)]
pub struct Ending {
    /// An end was ordered.
    pub ordered: bool,
    /// A quiet end was ordered, and so many ticks ago.
    pub draining: bool,
    pub ticks: u32,
    /// Stop was given.
    pub stopped: bool,
}

impl Ending {
    /// Nothing was ordered.
    pub fn none() -> Self
        ensures { result ≡ no_end }
    {
        Ending {
            ordered: false,
            draining: false,
            ticks: 0,
            stopped: false,
        }
    }

    /// Hears an order.
    pub fn order(&mut self, order: Order)
        ensures { self.new ≡ ordered_by order self.old }
    {
        match order {
            Order::Stop => self.ordered = true,
            Order::Drain => self.draining = true,
        }
    }

    /// Hears a tick.
    pub fn tick(&mut self)
        ensures { self.new ≡ ticked self.old }
    {
        if self.draining {
            self.ticks = self.ticks.saturating_add(1);
        }
    }

    /// Stop is to be given, where `quiet` says that nothing is under way.
    pub fn is_due(&self, quiet: bool) -> bool
        ensures { result ≡ is_stop_due quiet self.now }
    {
        !self.stopped && (self.ordered || self.draining && (quiet || self.ticks >= DRAIN_TICKS))
    }

    /// Stop is given.
    pub fn stop(&mut self)
        ensures { self.new ≡ stopped_by self.old }
    {
        self.stopped = true;
    }
}
