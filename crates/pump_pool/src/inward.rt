// Pumps to pipes.
ghost use Rattle.std.specs.Prelude.{◌≡◌, ◌<◌, [], IfOk};
ghost use Rattle.rtrb.specs.Ring.{sent, received, known_free, IsPair};
ghost use Rattle.pipe_pump.specs.Rings.{IsFreshFeed};
ghost use Rattle.pump_pool.specs.Hands.{IsMarked, HasMark};

use super::hand::{Hand, Mark};
use super::worker::Job;
use host_base::NoMemory;
use pipe_pump::{FeedRing, PipeOut, PumpDone, pump_in};
use pipe_wait::PipeWait;
use rtrb::{Consumer, Producer, Protocol, RingBuffer};
use std::alloc::Global;
use std::snapshot::Snapshot;
use std::sync::Wait;

/// Only the end of a pump on the marked ring and pipe is handed over, and only once.
#[derive(Clone, Copy)]
pub struct InRing;

impl<P: PipeOut> Protocol<Hand<FeedRing, P>> for InRing {
    ghost use Rattle.pump_pool.specs.Hands.{HandAllows};
    ghost use Rattle.pump_pool.specs.Pumped.{PumpedIn};

    ghost allows = { HandAllows (PumpedIn P.taken P.faults P.closed) };
}

/// Room for the end of a pump that is not there yet, so that nothing more can be wanting once it is.
#[derive(Drop)]
pub struct InHands<P: PipeOut> {
    giver: Producer<Hand<FeedRing, P>, Global, InRing>,
    taker: Consumer<Hand<FeedRing, P>, Global, InRing>,
    ghost pair: { IsPair giver taker },
    ghost none_given: { sent giver ≡ [] },
    ghost none_taken: { received taker ≡ [] },
    ghost room: { 1 < known_free giver },
}

/// A pump that is to be run.
#[derive(Drop)]
pub struct InJob<P: PipeOut> {
    pipe: P,
    ring: FeedRing,
    hand: Producer<Hand<FeedRing, P>, Global, InRing>,
    ghost fresh: { IsFreshFeed ring },
    ghost marked: { IsMarked ring pipe (sent hand) },
    ghost room: { 0 < known_free hand },
}

/// What learns of the end of a pump.
#[derive(Drop)]
pub struct InPump<P: PipeOut> {
    ring: Snapshot<FeedRing>,
    pipe: Snapshot<P>,
    hand: Consumer<Hand<FeedRing, P>, Global, InRing>,
    ghost marked: { HasMark ring.value pipe.value (received hand) },
}

impl<P: PipeOut + Drop> InHands<P> {
    ghost use Rattle.std.specs.Prelude.{◌≡◌, IfOk};
    ghost use Rattle.pump_pool.specs.Pumps.{feed_of, input_of, IsUnusedIn, IsInWay};
    ghost use Rattle.pipe_pump.specs.Rings.{IsFreshFeed};

    /// Room for one end.
    pub fn new(alloc: Global) -> Result<Self, NoMemory>
        ensures { IfOk result IsUnusedIn }
    {
        let (giver, taker) = RingBuffer::with_protocol::<Global, InRing>(alloc, 2)?;
        Ok(InHands { giver, taker })
    }

    /// A pump from this ring to this pipe, which is to be run, and what learns of its end.
    pub fn pump(self, pipe: P, ring: FeedRing) -> (InJob<P>, InPump<P>)
        requires { IsFreshFeed ring }
        ensures job { (result.0.pipe ≡ pipe) × (result.0.ring ≡ ring) }
        ensures pump { (input_of result.1 ≡ pipe) × (feed_of result.1 ≡ ring) }
        ensures way { IsInWay result.0 result.1 }
    {
        let InHands { giver, taker } = self;
        let mut giver = giver;
        let mut taker = taker;
        giver.push_reserved(Hand::Marked(Mark::of(&ring, &pipe)));
        taker.slots_beside(&mut giver);
        let _mark = taker.pop_known();
        let pump = InPump {
            ring: Snapshot::of(&ring),
            pipe: Snapshot::of(&pipe),
            hand: taker,
        };
        let job = InJob {
            pipe,
            ring,
            hand: giver,
        };
        (job, pump)
    }
}

impl<R: Wait, P: PipeOut + Drop> Job<R> for InJob<P> {
    fn run(self, rt: &R, wait: &mut PipeWait) {
        let InJob { pipe, ring, hand } = self;
        let mut hand = hand;
        let done = pump_in(rt, ring, pipe, wait);
        hand.push_reserved(Hand::Done(done));
    }
}

impl<P: PipeOut + Drop> InPump<P> {
    ghost use Rattle.std.specs.Prelude.{◌≡◌, ◌<◌, IfSome, OnSome, IsSome, None, length, nat_lt};
    ghost use Rattle.pump_pool.specs.Pumps.{feed_of, input_of, handed_in, waiting_in};
    ghost use Rattle.pump_pool.specs.Pumped.{PumpedIn};

    /// Whether the pump has ended and `done` has not given yet what it left. It doesn't wait, and moves nothing.
    pub fn has_ended(&mut self) -> bool
        ensures waiting { result ≡ nat_lt 0 (length (waiting_in self.new)) }
        ensures ring { feed_of self.new ≡ feed_of self.old }
        ensures pipe { input_of self.new ≡ input_of self.old }
        ensures same { handed_in self.new ≡ handed_in self.old }
    {
        !self.hand.is_empty()
    }

    /// What the pump left, once it has ended, and only once. It doesn't wait.
    #[tactic(auto, using(crate::proofs::Taken::mark_stays))]
    pub fn done(&mut self) -> Option<PumpDone<P>>
        ensures pumped { IfSome result (PumpedIn P.taken P.faults P.closed (feed_of self.old) (input_of self.old)) }
        ensures ring { feed_of self.new ≡ feed_of self.old }
        ensures pipe { input_of self.new ≡ input_of self.old }
        ensures given { OnSome result (1 < length (handed_in self.new)) }
        ensures none { result ≡ None → handed_in self.new ≡ handed_in self.old }
        ensures waiting { 0 < length (waiting_in self.old) → IsSome result }
        ensures once { 1 < length (handed_in self.old) → result ≡ None }
    {
        match self.hand.pop() {
            Ok(Hand::Done(done)) => Some(done),
            Ok(Hand::Marked(_)) => unreachable!(),
            Err(_) => None,
        }
    }
}
