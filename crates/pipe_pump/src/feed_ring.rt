// A ring that a pump empties.
ghost use Rattle.std.specs.Prelude.{◌≡◌, ◌<◌, [], true, IfOk};
ghost use Rattle.rtrb.specs.Ring.{sent, received, known_free, IsPair};
ghost use Rattle.pipe_pump.specs.Hands.{IsMarked};
ghost use Rattle.pipe_pump.specs.Rings.{IsFreshFeed, IsFeedOf, fed, is_open, places, known_places};

use super::buffer::Buffer;
use super::feeder::Feeder;
use super::hand::{Hand, OneRing};
use crossbeam_utils::sync::Parker;
use host_base::NoMemory;
use rtrb::{Consumer, Producer, RingBuffer};
use std::alloc::{AllocError, Global};
use std::snapshot::Snapshot;

/// What a pump to a pipe holds of its ring.
#[derive(Drop)]
pub struct FeedRing {
    source: Source,
    hand: Consumer<Hand, Global, OneRing>,
    buffer: Buffer,
}

/// The ring's end, and where its pump sleeps.
#[derive(Drop)]
pub struct Source {
    consumer: Consumer<u8>,
    parker: Parker,
}

/// What there is for a pump to do, as far as its end of the ring knows after a look.
#[derive(Clone, Copy, Debug, PartialEq, Eq)]
pub enum FeedLook {
    /// No byte stands in the ring, and the feed may go on.
    Nothing,
    Bytes,
    /// The feed was ended, and no byte stands in the ring.
    Ended,
}

/// A ring with room for `size` bytes: the end of the loop, and the end of a pump to a pipe.
pub fn feed_rings(alloc: Global, size: usize) -> Result<(Feeder, FeedRing), NoMemory>
    requires { 0 < size }
    ensures fresh { IfOk result (λ r. IsFreshFeed r.1) }
    ensures pair { IfOk result (λ r. IsFeedOf r.1 r.0) }
    ensures empty { IfOk result (λ r. fed r.0 ≡ []) }
    ensures open { IfOk result (λ r. is_open r.0 ≡ true) }
    ensures places { IfOk result (λ r. (places r.0 ≡ size) × (known_places r.0 ≡ size)) }
{
    let (producer, consumer) = RingBuffer::new(alloc, size)?;
    let (giver, taker) = hand_ring(alloc, &producer)?;
    let parker = Parker::new(alloc)?;
    let pump = parker.unparker().clone()?;
    let buffer = Buffer::new(alloc)?;
    Ok((
        Feeder::new(producer, giver, pump),
        FeedRing {
            source: Source { consumer, parker },
            hand: taker,
            buffer,
        },
    ))
}

// A ring by which this producer may be handed over: its mark has gone through already.
fn hand_ring(
    alloc: Global,
    producer: &Producer<u8>,
) -> Result<
    (
        Producer<Hand, Global, OneRing>,
        Consumer<Hand, Global, OneRing>,
    ),
    AllocError,
>
    ensures giver { IfOk result (λ r. IsMarked producer.now (sent r.0)) }
    ensures taker { IfOk result (λ r. IsMarked producer.now (received r.1)) }
    ensures room { IfOk result (λ r. 0 < known_free r.0) }
    ensures pair { IfOk result (λ r. IsPair r.0 r.1) }
{
    let (giver, taker) = RingBuffer::with_protocol::<Global, OneRing>(alloc, 2)?;
    let mut giver = giver;
    let mut taker = taker;
    giver.push_reserved(Hand::Mark(Snapshot::of(producer)));
    taker.slots_beside(&mut giver);
    let _mark = taker.pop_known();
    Ok((giver, taker))
}

impl FeedRing {
    ghost use Rattle.std.specs.Prelude.{◌≡◌, ◌<◌, ◌↔◌, ◌≢◌, [], length};
    ghost use Rattle.rtrb.specs.Ring.{known_items};
    ghost use Rattle.pipe_pump.specs.Rings.{IsFreshFeed, SameFeedRing};

    /// Looks whether there is anything for a pump to do. Once a feed was ended all of its bytes are seen.
    pub fn look(&mut self) -> FeedLook
        ensures fresh { IsFreshFeed self.old → IsFreshFeed self.new }
        ensures ring { SameFeedRing self.old self.new }
        ensures bytes { (result ≡ FeedLook.Bytes) ↔ (0 < length (known_items self.new.source.consumer)) }
        ensures ended { result ≡ FeedLook.Ended → 0 < length (known_items self.new.hand) }
        ensures open { result ≡ FeedLook.Nothing → known_items self.new.hand ≡ [] }
    {
        let is_ended = self.hand.slots() > 0;
        if self.source.consumer.slots() > 0 {
            FeedLook::Bytes
        } else if is_ended {
            FeedLook::Ended
        } else {
            FeedLook::Nothing
        }
    }

    pub(crate) fn parts(
        self,
    ) -> (
        Consumer<u8>,
        Consumer<Hand, Global, OneRing>,
        Parker,
        Buffer,
    )
        ensures consumer { result.0 ≡ self.source.consumer }
        ensures hand { result.1 ≡ self.hand }
    {
        let FeedRing {
            source,
            hand,
            buffer,
        } = self;
        let Source { consumer, parker } = source;
        (consumer, hand, parker, buffer)
    }
}
