// What wakes a loop.
use crossbeam_utils::sync::{Parker, Unparker};
use host_base::NoMemory;
use mio::Waker;
use std::alloc::{AllocError, Global};
use std::sync::Arc;

/// Where a loop sleeps.
#[derive(Drop)]
enum Bed {
    /// At its parker.
    Parker(Unparker),
    /// In the wait for its sockets.
    Poll(Arc<Waker>),
}

/// It wakes the loop that sleeps, or keeps it from falling asleep once.
#[derive(Drop)]
pub struct Bell {
    bed: Bed,
}

impl Bell {
    ghost use Rattle.std.specs.Prelude.{IfOk};
    ghost use Rattle.loop_bell.specs.Bells.{WakesAt, WakesBy, WakesTheSame};

    /// One for the loop that sleeps at this parker.
    pub fn at(sleeper: &Parker) -> Result<Self, NoMemory>
        ensures { IfOk result (λ bell. WakesAt bell sleeper.now) }
    {
        Ok(Bell {
            bed: Bed::Parker(sleeper.unparker().clone()?),
        })
    }

    /// One for the loop that waits for its sockets where this waker belongs.
    pub fn by(alloc: Global, waker: Waker) -> Result<Self, AllocError>
        ensures { IfOk result (λ bell. WakesBy bell waker) }
    {
        Ok(Bell {
            bed: Bed::Poll(Arc::new(alloc, waker)?),
        })
    }

    /// Another for the same loop.
    pub fn another(&self) -> Result<Self, NoMemory>
        ensures { IfOk result (λ bell. WakesTheSame self.now bell) }
    {
        let bed = match &self.bed {
            Bed::Parker(sleeper) => Bed::Parker(sleeper.clone()?),
            Bed::Poll(waker) => Bed::Poll(Arc::try_clone(waker)?),
        };
        Ok(Bell { bed })
    }

    /// Ends the sleep that is under way, or else the next.
    pub fn ring(&self) {
        match &self.bed {
            Bed::Parker(sleeper) => sleeper.unpark(),
            Bed::Poll(waker) => {
                let _ = waker.wake();
            }
        }
    }
}
