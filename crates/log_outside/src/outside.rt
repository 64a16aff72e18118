// An outside that tells a log of its replies, over any outside.
use crate::follower::{Follower, is_done_of, is_heard_of};
use crate::{LineQueue, Stamp};
use host_base::Limits;
use host_trace::{Act, Acted, Event, Outside};
use std::alloc::Global;
use std::time::Clock;

// What follows the replies, and where their lines go.
#[derive(Drop)]
struct Log {
    follower: Follower,
    queue: LineQueue,
}

/// An outside that passes on what the one below it hands up and is asked for. Where there is a queue, it hands over a line
/// for each reply.
pub struct LogOutside<O, R> {
    rt: R,
    inner: O,
    log: Option<Log>,
}

impl Log {
    fn hear(&mut self, event: &Event, now: Stamp) {
        if let Some(entry) = self.follower.hear(event, now) {
            self.queue.tell(entry);
        }
    }

    fn follow(&mut self, act: &Act, now: Stamp) {
        if let Some(entry) = self.follower.follow(act, now) {
            self.queue.tell(entry);
        }
    }
}

// What the clocks show. One that can't be read shows 0.
fn stamp<R: Clock>(rt: &R) -> Stamp {
    let secs = match rt.since_1970() {
        Ok(now) => now.as_secs(),
        Err(_) => 0,
    };
    let millis = match rt.monotonic() {
        Ok(now) => now
            .as_secs()
            .saturating_mul(1_000)
            .saturating_add(u64::from(now.subsec_millis())),
        Err(_) => 0,
    };
    Stamp { secs, millis }
}

impl<O, R> LogOutside<O, R> {
    ghost use Rattle.std.specs.Prelude.{◌≡◌};

    /// Over an outside of a site with these limits; without a queue nothing is told.
    pub fn new(rt: R, alloc: Global, inner: O, limits: Limits, queue: Option<LineQueue>) -> Self
        ensures { result.inner ≡ inner }
    {
        let log = match queue {
            Some(queue) => Some(Log {
                follower: Follower::new(alloc, limits),
                queue,
            }),
            None => None,
        };
        LogOutside { rt, inner, log }
    }

    /// The outside below.
    pub fn into_inner(self) -> O
    where
        R: Drop,
        ensures { result ≡ self.inner }
    {
        let LogOutside {
            rt: _,
            inner,
            log: _,
        } = self;
        inner
    }
}

impl<O, R: Clock> LogOutside<O, R> {
    ghost use Rattle.std.specs.Prelude.{◌≡◌};

    // Tells of what ends by an event.
    fn hear(&mut self, event: &Event)
        ensures { self.new.inner ≡ self.old.inner }
    {
        if let Some(log) = &mut self.log {
            if is_heard_of(event) {
                log.hear(event, stamp(&self.rt));
            }
        }
    }

    // .. and by an act.
    fn follow(&mut self, act: &Act)
        ensures { self.new.inner ≡ self.old.inner }
    {
        if let Some(log) = &mut self.log {
            if is_done_of(act) {
                log.follow(act, stamp(&self.rt));
            }
        }
    }
}

impl<O: Outside, R: Clock> Outside for LogOutside<O, R> {
    ghost use Rattle.std.specs.Prelude.{◌≡◌, ◌≤◌, true};
    ghost use Rattle.host_base.specs.Outsides.{Rose};
    ghost use Rattle.host_trace.specs.Told.{Hears, ActsOn, carries_nothing, is_failure, is_full_book};

    ghost trace = { λ o. O.trace o.inner };

    ghost faults = { λ o. O.faults o.inner };

    ghost full_books = { λ o. O.full_books o.inner };

    ghost limit = { λ o. O.limit o.inner };

    fn next(&mut self) -> Event {
        let event = self.inner.next();
        self.hear(&event);
        event
    }

    fn act(&mut self, act: &Act) -> Acted {
        let acted = self.inner.act(act);
        if acted == Acted::Done {
            self.follow(act);
        }
        acted
    }
}
