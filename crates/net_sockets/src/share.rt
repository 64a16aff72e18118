// How clients are spread over the loops that share a listener.
ghost use Rattle.std.specs.Prelude.{◌≡◌, ◌<◌, ◌+◌, ◌-◌, ◌^◌, ℕ, Some, None, true, false, is_some, IsSome, IfOk};
ghost use Rattle.std.specs.Arc.{arc_value};

use std::alloc::{AllocError, Global};
use std::sync::Arc;
use std::sync::atomic::{AtomicU64, Ordering};

/// What the loops at one listener count together.
#[derive(Drop)]
struct Counts {
    loops: AtomicU64,
    clients: AtomicU64,
}

/// The counts of a listener.
#[derive(Drop)]
pub(crate) struct Shares {
    counts: Arc<Counts>,
}

impl Shares {
    /// Of a listener without loops.
    pub fn new(alloc: Global) -> Result<Self, AllocError> {
        let counts = Counts {
            loops: AtomicU64::new(0),
            clients: AtomicU64::new(0),
        };
        Ok(Shares {
            counts: Arc::new(alloc, counts)?,
        })
    }

    /// The same, for another loop.
    pub fn another(&self) -> Result<Self, AllocError>
        ensures { IfOk result (λ other. arc_value other.counts ≡ arc_value self.now.counts) }
    {
        Ok(Shares {
            counts: Arc::try_clone(&self.counts)?,
        })
    }

    /// What one more loop has of the clients: none yet.
    pub fn join(self) -> Share
        ensures counts { result.counts ≡ self.counts }
        ensures none { (result.clients ≡ 0) × (result.left_in ≡ None) }
    {
        let Shares { counts } = self;
        counts.loops.fetch_add(1, Ordering::SeqCst);
        Share {
            counts,
            clients: 0,
            left_in: None,
        }
    }
}

/// What one loop has of the clients.
#[derive(Drop)]
pub(crate) struct Share {
    counts: Arc<Counts>,
    clients: u64,
    // The tick in which it first left a client to the others, until it found that none waits.
    left_in: Option<u64>,
}

impl Share {
    // Whether it has more clients than the loops have on the average.
    fn is_above(&self) -> bool {
        let loops = self.counts.loops.load(Ordering::SeqCst);
        self.clients.saturating_mul(loops) > self.counts.clients.load(Ordering::SeqCst)
    }

    /// Whether the loop leaves who waits now to the others, since it has more clients than they. Whom it left in one tick,
    /// and nobody else took, it leaves no more in a later one.
    pub fn leaves(&mut self, tick: u64) -> bool
        ensures later { (first : ℕ) → self.old.left_in ≡ Some first → first < tick → result ≡ false }
        ensures left { result ≡ true → IsSome self.new.left_in }
    {
        if !self.is_above() {
            self.left_in = None;
            return false;
        }
        let first = self.left_in.unwrap_or(tick);
        self.left_in = Some(first);
        tick <= first
    }

    /// Nobody waits.
    pub fn settle(&mut self)
        ensures { self.new ≡ record self.old { left_in = None } }
    {
        self.left_in = None;
    }

    /// It left somebody to the others, and didn't find since that nobody waits.
    pub fn has_left(&self) -> bool
        ensures { result ≡ is_some self.now.left_in }
    {
        self.left_in.is_some()
    }

    /// It has one client more.
    pub fn gain(&mut self)
        ensures same { self.new ≡ record self.old { clients = self.new.clients } }
        ensures more { self.old.clients < 2 ^ 64 - 1 → self.new.clients ≡ self.old.clients + 1 }
    {
        self.clients = self.clients.saturating_add(1);
        self.counts.clients.fetch_add(1, Ordering::SeqCst);
    }

    /// .. and one less.
    pub fn lose(&mut self)
        ensures same { self.new ≡ record self.old { clients = self.new.clients } }
        ensures less { 0 < self.old.clients → self.new.clients + 1 ≡ self.old.clients }
    {
        self.clients = self.clients.saturating_sub(1);
        self.counts.clients.fetch_sub(1, Ordering::SeqCst);
    }
}
