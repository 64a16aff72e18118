// When a child is asked for its exit.
ghost use Rattle.std.specs.Prelude.{◌≡◌, ◌-◌, ◌<◌, ◌⊎◌, true, false, not, nat_lt};
ghost use Rattle.std.specs.Duration.{as_nanos, max_nanos};
ghost use Rattle.std_spawner.specs.Paces.{at_work, leaving_now, asked_at, IsAskedByClock};

use std::marker::Model;
use std::time::{Clock, Duration};

// How often a child that is to leave is asked with no distance. A small program closes its output 50 to 120
// microseconds before it can be reaped.
const SOON: u64 = 64;

// The shortest and the longest distance between two asks, in microseconds.
const LEAST: u64 = 50;

const MOST: u64 = 100_000;

/// While a child is at work it is asked once in the longest distance. Once it is to leave, as at the end of its output, and
/// once more where it is killed, it is asked at each of the next looks, and then at distances that grow from the shortest
/// to the longest.
#[derive(Drop)]
pub struct Pace {
    /// How often it is still asked with no distance.
    soon: u64,
    /// Microseconds.
    distance: u64,
    /// What the clock is to show before the next ask.
    next: Duration,
}

impl Model for Pace {
    ghost use Rattle.std.specs.Prelude.{◌≤◌};
    ghost use Rattle.std.specs.Duration.{as_nanos};
    ghost use Rattle.std_spawner.specs.Paces.{PaceState};

    ghost Value = { PaceState };

    ghost view = { λ p. record { soon = p.soon; distance = p.distance; next = as_nanos p.next } };

    ghost invariant = { λ p. p.distance ≤ 100000 };
}

impl Pace {
    /// That of a child at work.
    pub fn new() -> Self
        ensures { result ≡ at_work }
    {
        Pace {
            soon: 0,
            distance: MOST,
            next: Duration::from_millis(0),
        }
    }

    /// The child is to leave, or is killed.
    pub fn leave(&mut self)
        ensures { self.new ≡ leaving_now }
    {
        self.soon = SOON;
        self.distance = LEAST;
        self.next = Duration::from_millis(0);
    }

    /// Whether it is to be asked now. Where the clock doesn't tell, it is.
    pub fn is_due<R: Clock>(&mut self, rt: &R) -> bool
        ensures soon { 0 < self.old.soon → (result ≡ true) × (self.new ≡ record self.old { soon = self.old.soon - 1 }) }
        ensures early { result ≡ false → self.new ≡ self.old }

        // With no time told the pace stays.
        ensures asked { self.old.soon ≡ 0 → result ≡ true → (self.new ≡ self.old) ⊎ IsAskedByClock max_nanos self.old self.new }
    {
        if self.soon > 0 {
            self.soon -= 1;
            return true;
        }
        match rt.monotonic() {
            Ok(now) => self.is_due_at(now),
            Err(_) => true,
        }
    }

    // Whether it is to be asked at this time.
    fn is_due_at(&mut self, now: Duration) -> bool
        ensures due { result ≡ not (nat_lt (as_nanos now) self.old.next) }
        ensures pace { self.new ≡ asked_at max_nanos (as_nanos now) self.old }
    {
        if now.checked_sub(self.next).is_none() {
            return false;
        }
        self.next = now.saturating_add(Duration::from_micros(self.distance));
        self.distance = (self.distance * 2).min(MOST);
        true
    }
}
