// The loop's end of a ring that a pump empties.
ghost use Rattle.std.specs.Prelude.{◌≡◌, ◌<◌};
ghost use Rattle.rtrb.specs.Ring.{sent, known_free};
ghost use Rattle.pipe_pump.specs.Hands.{IsOfMark};
ghost use Rattle.pipe_pump.specs.declared.feed_state.FeedState.TheVariants.{Open};

use super::feed_state::FeedState;
use super::hand::{Hand, OneRing};
use crossbeam_utils::sync::Unparker;
use rtrb::Producer;
use std::alloc::Global;
use std::mem;
use std::snapshot::Snapshot;

/// The loop's end of a ring that a pump empties. Where it is dropped before the feed was ended, the pump
/// ends once the ring is empty.
pub struct Feeder {
    state: FeedState,
    hand: Producer<Hand, Global, OneRing>,
    pump: Unparker,
    ghost marked: { (p : _) → state ≡ Open p → IsOfMark (sent hand) p },
    ghost room: { (p : _) → state ≡ Open p → 0 < known_free hand },
}

impl Drop for Feeder {
    fn drop(self) {
        let Feeder { state, hand, pump } = self;
        drop(state);
        drop(hand);
        pump.unpark();
    }
}

impl Feeder {
    ghost use Rattle.std.specs.Prelude.{◌≡◌, ◌+◌, ◌≤◌, ◌<◌, ◌++◌, true, false, length, take as list_take};
    ghost use Rattle.rtrb.specs.Ring.{sent, known_free, producer_capacity};
    ghost use Rattle.pipe_pump.specs.Hands.{IsOfMark};
    ghost use Rattle.pipe_pump.specs.Rings.{fed, is_open, known_places, places, producer_of, SameFeeder};

    pub(crate) fn new(
        producer: Producer<u8>,
        hand: Producer<Hand, Global, OneRing>,
        pump: Unparker,
    ) -> Feeder
        requires marked { IsOfMark (sent hand) producer }
        requires room { 0 < known_free hand }
        ensures producer { (producer_of result.state ≡ producer) × (result.hand ≡ hand) }
        ensures places { (places result ≡ producer_capacity producer) × (known_places result ≡ known_free producer) }
        ensures fed { fed result ≡ sent producer }
        ensures open { is_open result ≡ true }
    {
        Feeder {
            state: FeedState::Open(producer),
            hand,
            pump,
        }
    }

    /// The feed was not ended.
    pub fn is_open(&self) -> bool
        ensures { result ≡ is_open self.now }
    {
        match &self.state {
            FeedState::Open(_) => true,
            FeedState::Ended(_) => false,
        }
    }

    /// Puts bytes from the front of the slice into the ring, as many as find room, and tells how many.
    pub fn feed(&mut self, from: &[u8]) -> usize
        requires { is_open self.old ≡ true }
        ensures within { result ≤ length from.now }
        ensures fed { fed self.new ≡ fed self.old ++ list_take result from.now }
        ensures open { is_open self.new ≡ true }
        ensures ring { SameFeeder self.old self.new }
        ensures places { places self.new ≡ places self.old }
        ensures room { known_places self.old ≤ known_places self.new + result }
        ensures short { result < length from.now → known_places self.new ≡ 0 }
    {
        match &mut self.state {
            FeedState::Open(producer) => {
                let (put, _) = producer.push_partial_slice(from);
                if !put.is_empty() {
                    self.pump.unpark();
                }
                put.len()
            }
            FeedState::Ended(_) => unreachable!(),
        }
    }

    /// How many of the bytes put so far still stand in the ring, as far as this end knows after a look.
    pub fn left(&mut self) -> usize
        requires { is_open self.old ≡ true }
        ensures fed { fed self.new ≡ fed self.old }
        ensures open { is_open self.new ≡ true }
        ensures ring { SameFeeder self.old self.new }
        ensures places { places self.new ≡ places self.old }
        ensures room { known_places self.old ≤ known_places self.new }
        ensures left { result + known_places self.new ≡ places self.new }
    {
        match &mut self.state {
            FeedState::Open(producer) => {
                let free = producer.slots();
                producer.capacity() - free
            }
            FeedState::Ended(_) => unreachable!(),
        }
    }

    /// Ends the feed: the pump gets this end of the ring.
    pub fn finish(&mut self)
        requires { is_open self.old ≡ true }
        ensures fed { fed self.new ≡ fed self.old }
        ensures ended { is_open self.new ≡ false }
        ensures ring { SameFeeder self.old self.new }
    {
        let mark = match &self.state {
            FeedState::Open(producer) => Snapshot::of(producer),
            FeedState::Ended(_) => unreachable!(),
        };
        if let FeedState::Open(producer) = mem::replace(&mut self.state, FeedState::Ended(mark)) {
            self.hand.push_reserved(Hand::Given(producer));
            self.pump.unpark();
        }
    }
}
