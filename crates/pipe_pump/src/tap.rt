// The loop's end of a ring that a pump fills.
ghost use Rattle.std.specs.Prelude.{◌≡◌, ◌++◌, Some};
ghost use Rattle.rtrb.specs.Ring.{sent, received, known_items, IsPair};

use super::RingEnd;
use super::pop::pop;
use crossbeam_utils::sync::Unparker;
use rtrb::{Consumer, Producer};

/// The loop's end of a ring that a pump fills. Where it is dropped, the pump ends once the ring is full.
pub struct Tap {
    consumer: Consumer<u8>,
    pump: Unparker,
    /// The pump's end, once the pump gave it back.
    producer: Option<Producer<u8>>,
    ghost pair: { (p : _) → producer ≡ Some p → IsPair p consumer },
    ghost whole: { (p : _) → producer ≡ Some p → received consumer ++ known_items consumer ≡ sent p },
}

impl Drop for Tap {
    fn drop(self) {
        let Tap {
            consumer,
            pump,
            producer: _,
        } = self;
        drop(consumer);
        pump.unpark();
    }
}

impl Tap {
    ghost use Rattle.std.specs.Prelude.{◌≡◌, ◌≤◌, ◌<◌, ◌++◌, [], true, false, length, take as list_take, drop as list_drop};
    ghost use Rattle.pipe_pump.specs.Rings.{IsOtherEnd, put_in, handed_up, standing, SameTap, is_finished};

    pub(crate) fn new(consumer: Consumer<u8>, pump: Unparker) -> Tap
        ensures consumer { result.consumer ≡ consumer }
        ensures open { is_finished result ≡ false }
    {
        Tap {
            consumer,
            pump,
            producer: None,
        }
    }

    /// Takes the oldest bytes into the front of the slice, and tells how many. It takes fewer than the slice
    /// has room for only where it knows of no more; after `finish` it knows of all.
    pub fn take(&mut self, into: &mut [u8]) -> usize
        ensures within { result ≤ length into.old }
        ensures bytes { handed_up self.new ≡ handed_up self.old ++ list_take result into.new }
        ensures rest { list_drop result into.new ≡ list_drop result into.old }
        ensures ring { SameTap self.old self.new }
        ensures finished { is_finished self.new ≡ is_finished self.old }
        ensures none { result ≡ 0 → 0 < length into.old → standing self.old ≡ [] }
        ensures short { result < length into.old → standing self.new ≡ [] }
        ensures left { is_finished self.old ≡ true → standing self.old ≡ list_take result into.new ++ standing self.new }
    {
        let taken = pop(&mut self.consumer, into);
        if taken > 0 {
            self.pump.unpark();
        }
        if let Some(producer) = &mut self.producer {
            self.consumer.slots_beside(producer);
        }
        taken
    }

    /// Takes the pump's end of the ring, and tells how many bytes still stand in it.
    pub fn finish(&mut self, ring: RingEnd) -> usize
        requires { IsOtherEnd ring self.old }
        ensures finished { is_finished self.new ≡ true }
        ensures taken { handed_up self.new ≡ handed_up self.old }
        ensures all { handed_up self.new ++ standing self.new ≡ put_in ring }
        ensures ring { SameTap self.old self.new }
        ensures left { result ≡ length (standing self.new) }
    {
        match ring {
            RingEnd::Output(mut producer) => {
                let left = self.consumer.slots_beside(&mut producer);
                self.producer = Some(producer);
                left
            }
            RingEnd::Input { .. } => unreachable!(),
        }
    }

    /// Looks into the ring, and tells how many bytes are known to stand in it.
    pub fn look(&mut self) -> usize
        ensures taken { handed_up self.new ≡ handed_up self.old }
        ensures ring { SameTap self.old self.new }
        ensures finished { is_finished self.new ≡ is_finished self.old }
        ensures left { result ≡ length (standing self.new) }
        ensures stays { is_finished self.old ≡ true → standing self.new ≡ standing self.old }
    {
        match &mut self.producer {
            Some(producer) => self.consumer.slots_beside(producer),
            None => self.consumer.slots(),
        }
    }
}
