// A number of ticks that is counted down.
ghost use Rattle.std.specs.Prelude.{◌≡◌, ◌==◌};
ghost use Rattle.limit_clock.specs.Deadlines.{is_last, after_tick};

use std::marker::Model;

/// How many ticks of 100 ms are left until a limit is met. No call takes memory.
#[derive(Drop)]
pub struct Deadline {
    left: u32,
}

impl Model for Deadline {
    ghost use Rattle.std.specs.Prelude.{ℕ};

    ghost Value = { ℕ };

    ghost view = { λ d. d.left };
}

impl Deadline {
    /// A limit that the tick with this number meets, counted from 1. With the number 0 no tick meets it, and
    /// it is over from the first.
    pub fn after(ticks: u32) -> Deadline
        ensures { result ≡ ticks }
    {
        Deadline { left: ticks }
    }

    /// Hears a tick; true exactly for the one that meets the limit.
    pub fn tick(&mut self) -> bool
        ensures met { result ≡ is_last self.old }
        ensures left { self.new ≡ after_tick self.old }
    {
        let met = self.left == 1;
        self.left = self.left.saturating_sub(1);
        met
    }

    /// Whether the limit was met.
    pub fn is_over(&self) -> bool
        ensures { result ≡ (self.now == 0) }
    {
        self.left == 0
    }
}
