// Pumps from pipes.
ghost use Rattle.std.specs.Prelude.{◌≡◌, ◌<◌, [], IfOk};
ghost use Rattle.rtrb.specs.Ring.{sent, received, known_free, IsPair};
ghost use Rattle.pipe_pump.specs.Rings.{IsFreshRing};
ghost use Rattle.pump_pool.specs.Hands.{IsMarked, HasMark};
ghost use Rattle.pump_pool.specs.Backs.{back_ring, back_pipe};

use super::back::OutBack;
use super::hand::{Hand, Mark};
use super::worker::Job;
use host_base::NoMemory;
use pipe_pump::{PipeIn, PumpDone, PumpRing, pump_out};
use pipe_wait::PipeWait;
use rtrb::{Consumer, Producer, Protocol, RingBuffer};
use std::alloc::Global;
use std::snapshot::Snapshot;
use std::sync::Wait;

/// Only the end of a pump on the marked ring and pipe is handed over, and only once.
#[derive(Clone, Copy)]
pub struct OutRing;

impl<P: PipeIn> Protocol<Hand<PumpRing, P>> for OutRing {
    ghost use Rattle.pump_pool.specs.Hands.{HandAllows};
    ghost use Rattle.pump_pool.specs.Pumped.{PumpedOut};

    ghost allows = { HandAllows (PumpedOut P.left P.faults) };
}

/// Room for the end of a pump that is not there yet, so that nothing more can be wanting once it is.
#[derive(Drop)]
pub struct OutHands<P: PipeIn> {
    giver: Producer<Hand<PumpRing, P>, Global, OutRing>,
    taker: Consumer<Hand<PumpRing, P>, Global, OutRing>,
    ghost pair: { IsPair giver taker },
    ghost none_given: { sent giver ≡ [] },
    ghost none_taken: { received taker ≡ [] },
    ghost room: { 1 < known_free giver },
}

/// A pump that is to be run.
#[derive(Drop)]
pub struct OutJob<P: PipeIn> {
    pipe: P,
    ring: PumpRing,
    back: OutBack<P>,
    ghost fresh: { IsFreshRing ring },
    ghost of_pipe: { back_pipe back ≡ pipe },
    ghost of_ring: { back_ring back ≡ ring },
}

/// What learns of the end of a pump.
#[derive(Drop)]
pub struct OutPump<P: PipeIn> {
    ring: Snapshot<PumpRing>,
    pipe: Snapshot<P>,
    hand: Consumer<Hand<PumpRing, P>, Global, OutRing>,
    ghost marked: { HasMark ring.value pipe.value (received hand) },
}

impl<P: PipeIn + Drop> OutHands<P> {
    ghost use Rattle.std.specs.Prelude.{◌≡◌, IfOk};
    ghost use Rattle.pump_pool.specs.Pumps.{ring_of, output_of, IsUnusedOut, IsOutWay, IsOutReturn};
    ghost use Rattle.pump_pool.specs.Backs.{back_ring, back_pipe};
    ghost use Rattle.pipe_pump.specs.Rings.{IsFreshRing};

    /// Room for one end.
    pub fn new(alloc: Global) -> Result<Self, NoMemory>
        ensures { IfOk result IsUnusedOut }
    {
        let (giver, taker) = RingBuffer::with_protocol::<Global, OutRing>(alloc, 2)?;
        Ok(OutHands { giver, taker })
    }

    /// A pump from this pipe to this ring, which is to be run, and what learns of its end.
    pub fn pump(self, pipe: P, ring: PumpRing) -> (OutJob<P>, OutPump<P>)
        requires { IsFreshRing ring }
        ensures job { (result.0.pipe ≡ pipe) × (result.0.ring ≡ ring) }
        ensures pump { (output_of result.1 ≡ pipe) × (ring_of result.1 ≡ ring) }
        ensures way { IsOutWay result.0 result.1 }
    {
        let (back, pump) = self.back(&pipe, &ring);
        (OutJob { pipe, ring, back }, pump)
    }

    /// For a pump that is to be run elsewhere on this ring, from this pipe or one that is like it: where its end is handed
    /// over, and what learns of it.
    pub fn back(self, pipe: &P, ring: &PumpRing) -> (OutBack<P>, OutPump<P>)
        ensures back { (back_pipe result.0 ≡ pipe.now) × (back_ring result.0 ≡ ring.now) }
        ensures pump { (output_of result.1 ≡ pipe.now) × (ring_of result.1 ≡ ring.now) }
        ensures way { IsOutReturn result.0 result.1 }
    {
        let OutHands { giver, taker } = self;
        let mut giver = giver;
        let mut taker = taker;
        giver.push_reserved(Hand::Marked(Mark::of(ring, pipe)));
        taker.slots_beside(&mut giver);
        let _mark = taker.pop_known();
        let pump = OutPump {
            ring: Snapshot::of(ring),
            pipe: Snapshot::of(pipe),
            hand: taker,
        };
        (OutBack::new(ring, pipe, giver), pump)
    }
}

impl<R: Wait, P: PipeIn + Drop> Job<R> for OutJob<P> {
    fn run(self, rt: &R, wait: &mut PipeWait) {
        let OutJob { pipe, ring, back } = self;
        let done = pump_out(rt, pipe, ring, wait);
        back.give(done);
    }
}

impl<P: PipeIn + Drop> OutPump<P> {
    ghost use Rattle.std.specs.Prelude.{◌≡◌, ◌<◌, IfSome, OnSome, IsSome, None, length, nat_lt};
    ghost use Rattle.pump_pool.specs.Pumps.{ring_of, output_of, handed_out, waiting_out};
    ghost use Rattle.pump_pool.specs.Pumped.{PumpedOut};

    /// Whether the pump has ended and `done` has not given yet what it left. It doesn't wait, and moves nothing.
    pub fn has_ended(&mut self) -> bool
        ensures waiting { result ≡ nat_lt 0 (length (waiting_out self.new)) }
        ensures ring { ring_of self.new ≡ ring_of self.old }
        ensures pipe { output_of self.new ≡ output_of self.old }
        ensures same { handed_out self.new ≡ handed_out self.old }
    {
        !self.hand.is_empty()
    }

    /// What the pump left, once it has ended, and only once. It doesn't wait.
    #[tactic(auto, using(crate::proofs::Taken::mark_stays))]
    pub fn done(&mut self) -> Option<PumpDone<P>>
        ensures pumped { IfSome result (PumpedOut P.left P.faults (ring_of self.old) (output_of self.old)) }
        ensures ring { ring_of self.new ≡ ring_of self.old }
        ensures pipe { output_of self.new ≡ output_of self.old }
        ensures given { OnSome result (1 < length (handed_out self.new)) }
        ensures none { result ≡ None → handed_out self.new ≡ handed_out self.old }
        ensures waiting { 0 < length (waiting_out self.old) → IsSome result }
        ensures once { 1 < length (handed_out self.old) → result ≡ None }
    {
        match self.hand.pop() {
            Ok(Hand::Done(done)) => Some(done),
            Ok(Hand::Marked(_)) => unreachable!(),
            Err(_) => None,
        }
    }
}
