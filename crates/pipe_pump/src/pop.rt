// Bytes out of a ring, many at once.
ghost use Rattle.std.specs.Prelude.{◌≡◌, ◌≤◌, ◌<◌, ◌++◌, length, take as list_take, drop as list_drop};
ghost use mathlib.Core.List.{IsPrefix};
ghost use Rattle.rtrb.specs.Ring.{received, known_items, SameConsumer};

use core::mem::replace_with;
use rtrb::Consumer;

/// Takes the oldest bytes into the front of the slice, and tells how many. The ring's end goes by value to where they
/// are copied: behind a reference its pointer is read anew for each byte, which is six times as slow.
pub(crate) fn pop(consumer: &mut Consumer<u8>, into: &mut [u8]) -> usize
    ensures ring { SameConsumer consumer.old consumer.new }
    ensures within { result ≤ length into.old }
    ensures received { received consumer.new ≡ received consumer.old ++ list_take result into.new }
    ensures rest { list_drop result into.new ≡ list_drop result into.old }
    ensures known { IsPrefix (known_items consumer.old) (list_take result into.new ++ known_items consumer.new) }
    ensures most { result < length into.old → length (known_items consumer.new) ≡ 0 }
{
    let (_, count) = replace_with(consumer, into, pop_owned);
    count
}

fn pop_owned(consumer: Consumer<u8>, into: &mut [u8]) -> (Consumer<u8>, (&mut [u8], usize))
    ensures same_slice { result.1.0.ghost_name ≡ into.entry.ghost_name }
    ensures ring { SameConsumer consumer result.0 }
    ensures within { result.1.1 ≤ length into.old }
    ensures received { received result.0 ≡ received consumer ++ list_take result.1.1 result.1.0.now }
    ensures rest { list_drop result.1.1 result.1.0.now ≡ list_drop result.1.1 into.old }
    ensures known { IsPrefix (known_items consumer) (list_take result.1.1 result.1.0.now ++ known_items result.0) }
    ensures most { result.1.1 < length into.old → length (known_items result.0) ≡ 0 }
{
    let mut consumer = consumer;
    let count = consumer.pop_partial_slice(into);
    (consumer, (into, count))
}
