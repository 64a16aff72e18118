// That as many children run as may, and how often that was seen.
ghost use Rattle.std.specs.Prelude.{◌≡◌, ◌+◌, ◌-◌, ◌^◌, ◌≤◌, min};
ghost use Rattle.host_base.specs.Outsides.{Rose};

use std::marker::Model;

/// As many children ran as may. `Book::admit` alone makes it, `FullCount::note` spends it, and it can be
/// neither copied nor dropped. Contracts see the number of children that ran.
#[derive(Debug)]
pub struct FullSeen {
    seen: u32,
    cap: u32,
}

impl Model for FullSeen {
    ghost use Rattle.std.specs.Prelude.{◌≡◌, ℕ};

    ghost Value = { ℕ };

    ghost view = { λ full. full.seen };

    ghost invariant = { λ full. full.seen ≡ full.cap };
}

impl FullSeen {
    pub(super) fn at(cap: u32) -> Self
        ensures { result ≡ cap }
    {
        FullSeen { seen: cap, cap }
    }

    /// How many children ran, which is how many may.
    pub fn seen(&self) -> u32
        ensures { result ≡ self.now }
    {
        self.seen
    }
}

/// How often a book was found full. It stands still at the last value of a `u64`. Contracts see the number.
#[derive(Drop, Debug)]
pub struct FullCount {
    count: u64,
}

impl Model for FullCount {
    ghost use Rattle.std.specs.Prelude.{ℕ};

    ghost Value = { ℕ };

    ghost view = { λ full. full.count };
}

impl FullCount {
    /// None yet.
    pub fn new() -> Self
        ensures { result ≡ 0 }
    {
        FullCount { count: 0 }
    }

    pub fn count(&self) -> u64
        ensures { result ≡ self.now }
    {
        self.count
    }

    /// Counts one, and spends what was seen.
    pub fn note(&mut self, full: FullSeen)
        ensures exact { self.new ≡ min (self.old + 1) (2 ^ 64 - 1) }
        ensures rose { Rose self.old self.new }
        ensures grown { self.old ≤ self.new }
    {
        let FullSeen { seen: _, cap: _ } = full;
        self.count = self.count.saturating_add(1);
    }
}
