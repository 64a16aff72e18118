// What a test shows to the programs of a spawner, and sees of them.
use std::sync::atomic::{AtomicU64, Ordering};

/// A clock that a test sets, and counts of programs.
#[derive(Drop)]
pub struct Watch {
    hour: AtomicU64,
    /// Their starts were handed over.
    begun: AtomicU64,
    /// They were taken back, and never ran or were reaped.
    over: AtomicU64,
    /// .. or were not.
    lost: AtomicU64,
}

impl Watch {
    /// It shows 0, and no program was seen.
    pub fn new() -> Self {
        Watch {
            hour: AtomicU64::new(0),
            begun: AtomicU64::new(0),
            over: AtomicU64::new(0),
            lost: AtomicU64::new(0),
        }
    }

    /// It shows this from now on.
    pub fn set(&self, hour: u64) {
        self.hour.store(hour, Ordering::SeqCst);
    }

    /// Whether it shows this, or more.
    pub fn shows(&self, hour: u64) -> bool {
        self.hour.load(Ordering::SeqCst) >= hour
    }

    pub fn note_begun(&self) {
        self.begun.fetch_add(1, Ordering::SeqCst);
    }

    pub fn note_back(&self, is_over: bool) {
        let count = if is_over { &self.over } else { &self.lost };
        count.fetch_add(1, Ordering::SeqCst);
    }

    /// Whether so many programs were begun, and each was taken back and is over.
    pub fn saw(&self, programs: u64) -> bool {
        self.begun.load(Ordering::SeqCst) == programs
            && self.over.load(Ordering::SeqCst) == programs
            && self.lost.load(Ordering::SeqCst) == 0
    }
}
