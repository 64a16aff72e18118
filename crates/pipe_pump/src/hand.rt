// How a ring's producer is handed over to the other end: what is known of it there is the protocol's.
use rtrb::{Producer, Protocol};
use std::snapshot::Snapshot;

/// First a mark of the ring, and then its producer.
#[derive(Drop)]
pub enum Hand {
    Mark(Snapshot<Producer<u8>>),
    Given(Producer<u8>),
}

/// Only a producer of the marked ring is handed over.
#[derive(Clone, Copy)]
pub struct OneRing;

impl Protocol<Hand> for OneRing {
    ghost use Rattle.pipe_pump.specs.Hands.{HandAllows};

    ghost allows = { HandAllows };
}
