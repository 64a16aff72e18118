// Where the end of a pump from a pipe is handed over.
ghost use Rattle.std.specs.Prelude.{◌<◌};
ghost use Rattle.rtrb.specs.Ring.{sent, known_free};
ghost use Rattle.pump_pool.specs.Hands.{IsMarked};

use super::hand::Hand;
use super::outward::OutRing;
use pipe_pump::{PipeIn, PumpDone, PumpRing};
use rtrb::Producer;
use std::alloc::Global;
use std::snapshot::Snapshot;

/// Where the end of a pump on the marked ring and pipe is handed over, or one from another pipe that is like it.
#[derive(Drop)]
pub struct OutBack<P: PipeIn> {
    ring: Snapshot<PumpRing>,
    pipe: Snapshot<P>,
    hand: Producer<Hand<PumpRing, P>, Global, OutRing>,
    ghost marked: { IsMarked ring.value pipe.value (sent hand) },
    ghost room: { 0 < known_free hand },
}

impl<P: PipeIn + Drop> OutBack<P> {
    ghost use Rattle.std.specs.Prelude.{◌≡◌, ◌<◌};
    ghost use Rattle.rtrb.specs.Ring.{sent, known_free};
    ghost use Rattle.pump_pool.specs.Backs.{back_ring, back_pipe};
    ghost use Rattle.pump_pool.specs.Hands.{IsMarked};
    ghost use Rattle.pump_pool.specs.Pumped.{PumpedOut};

    // The mark of these was put there, and there is room for the end.
    pub(crate) fn new(
        ring: &PumpRing,
        pipe: &P,
        hand: Producer<Hand<PumpRing, P>, Global, OutRing>,
    ) -> Self
        requires marked { IsMarked ring.now pipe.now (sent hand) }
        requires room { 0 < known_free hand }
        ensures of { (back_ring result ≡ ring.now) × (back_pipe result ≡ pipe.now) }
        ensures hand { result.hand ≡ hand }
    {
        OutBack {
            ring: Snapshot::of(ring),
            pipe: Snapshot::of(pipe),
            hand,
        }
    }

    /// Hands the end of the pump over.
    pub fn give(self, done: PumpDone<P>)
        requires { PumpedOut P.left P.faults (back_ring self) (back_pipe self) done }
    {
        let OutBack {
            ring: _,
            pipe: _,
            hand,
        } = self;
        let mut hand = hand;
        hand.push_reserved(Hand::Done(done));
    }
}
