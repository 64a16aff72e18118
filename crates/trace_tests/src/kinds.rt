// What one item is.
ghost use Rattle.std.specs.Prelude.{◌≡◌, ◌||◌, if◌then◌else◌};
ghost use Rattle.host_trace.specs.Account.{is_refusal};
ghost use Rattle.host_trace.specs.Decider.{ends_connection, is_long_text};
ghost use Rattle.host_trace.specs.Kinds.{count_took, input_fed, is_child_answer, is_child_broken, is_child_bytes, is_child_eof, is_client_eof, is_end_input, is_exited, is_input_end, is_kill, is_output_end, is_release, is_shut, is_shut_for_memory, is_start, is_start_answer, is_start_failed, is_start_full, is_started, is_stop, is_tick, is_want_child, is_ws_closed, output_heard};
ghost use Rattle.trace_child.specs.Bodies.{ends_reading};
ghost use Rattle.trace_child.specs.ChildDemands.{ends_waiting};

use host_base::Limits;
use host_trace::{Act, Event, Item, Why};

pub fn is_tick(item: &Item) -> bool
    ensures { result ≡ is_tick item.now }
{
    matches!(item, Item::In(Event::Tick { .. }))
}

pub fn is_stop(item: &Item) -> bool
    ensures { result ≡ is_stop item.now }
{
    matches!(item, Item::In(Event::Stop))
}

pub fn is_client_eof(item: &Item, c: u64) -> bool
    ensures { result ≡ is_client_eof c item.now }
{
    matches!(item, Item::In(Event::ClientEof { c: d }) if c == *d)
}

pub fn is_ws_closed(item: &Item, c: u64) -> bool
    ensures { result ≡ is_ws_closed c item.now }
{
    matches!(item, Item::In(Event::WsClosed { c: d }) if c == *d)
}

pub fn is_shut(item: &Item, c: u64) -> bool
    ensures { result ≡ is_shut c item.now }
{
    matches!(item, Item::Out(Act::Shut { c: d, .. }) if c == *d)
}

pub fn is_shut_for_memory(item: &Item, c: u64) -> bool
    ensures { result ≡ is_shut_for_memory c item.now }
{
    matches!(item, Item::Out(Act::Shut { c: d, why: Why::NoMemory }) if c == *d)
}

pub fn is_start(item: &Item, k: u64) -> bool
    ensures { result ≡ is_start k item.now }
{
    matches!(item, Item::Out(Act::Start { k: d, .. }) if k == *d)
}

pub fn is_started(item: &Item, k: u64) -> bool
    ensures { result ≡ is_started k item.now }
{
    matches!(item, Item::In(Event::Started { k: d }) if k == *d)
}

pub fn is_start_answer(item: &Item, k: u64) -> bool
    ensures { result ≡ is_start_answer k item.now }
{
    match item {
        Item::In(
            Event::Started { k: d } | Event::StartFailed { k: d } | Event::StartFull { k: d, .. },
        ) => k == *d,
        _ => false,
    }
}

pub fn is_exited(item: &Item, k: u64) -> bool
    ensures { result ≡ is_exited k item.now }
{
    matches!(item, Item::In(Event::Exited { k: d }) if k == *d)
}

pub fn is_child_eof(item: &Item, k: u64) -> bool
    ensures { result ≡ is_child_eof k item.now }
{
    matches!(item, Item::In(Event::ChildEof { k: d }) if k == *d)
}

pub fn is_child_bytes(item: &Item, k: u64) -> bool
    ensures { result ≡ is_child_bytes k item.now }
{
    matches!(item, Item::In(Event::ChildBytes { k: d, .. }) if k == *d)
}

pub fn is_child_answer(item: &Item, k: u64) -> bool
    ensures { result ≡ is_child_answer k item.now }
{
    match item {
        Item::In(
            Event::ChildBytes { k: d, .. } | Event::ChildEof { k: d } | Event::ChildBroken { k: d },
        ) => k == *d,
        _ => false,
    }
}

/// A start that failed, or a full book.
pub fn is_refusal(item: &Item, k: u64) -> bool
    ensures { result ≡ is_refusal k item.now }
{
    match item {
        Item::In(Event::StartFailed { k: d } | Event::StartFull { k: d, .. }) => k == *d,
        _ => false,
    }
}

// A start that failed, a full book, or output that broke.
pub fn is_child_failure(item: &Item, k: u64) -> bool
    ensures { result ≡ (is_start_failed k item.now || is_start_full k item.now || is_child_broken k item.now) }
{
    match item {
        Item::In(
            Event::StartFailed { k: d }
            | Event::StartFull { k: d, .. }
            | Event::ChildBroken { k: d },
        ) => k == *d,
        _ => false,
    }
}

pub fn ends_connection(item: &Item, c: u64) -> bool
    ensures { result ≡ ends_connection c item.now }
{
    match item {
        Item::In(
            Event::ClientGone { c: d }
            | Event::WsBad { c: d }
            | Event::WsBinary { c: d }
            | Event::NoRoom { c: d },
        ) => c == *d,
        Item::Out(
            Act::Shut {
                c: d,
                why: Why::NoMemory,
            },
        ) => c == *d,
        Item::In(Event::Stop) => true,
        _ => false,
    }
}

pub fn ends_waiting(item: &Item, c: u64) -> bool
    ensures { result ≡ ends_waiting c item.now }
{
    match item {
        Item::In(Event::ClientGone { c: d } | Event::WsBad { c: d } | Event::NoRoom { c: d }) => c
            == *d,
        Item::Out(
            Act::Shut {
                c: d,
                why: Why::NoMemory,
            },
        ) => c == *d,
        Item::In(Event::Stop) => true,
        _ => false,
    }
}

pub fn ends_reading(item: &Item, k: u64) -> bool
    ensures { result ≡ ends_reading k item.now }
{
    match item {
        Item::In(Event::InputGone { k: d } | Event::Exited { k: d })
        | Item::Out(Act::Kill { k: d }) => k == *d,
        _ => false,
    }
}

// A text of the client that is too long.
pub fn is_long_text(item: &Item, limits: &Limits, c: u64) -> bool
    ensures { result ≡ is_long_text limits.now c item.now }
{
    match item {
        Item::In(Event::WsText { c: d, bytes }) if c == *d => bytes.len() as u64 > limits.ws_text,
        _ => false,
    }
}

pub fn is_end_input(item: &Item, k: u64) -> bool
    ensures { result ≡ is_end_input k item.now }
{
    matches!(item, Item::Out(Act::EndInput { k: d }) if k == *d)
}

pub fn is_input_end(item: &Item, k: u64) -> bool
    ensures { result ≡ is_input_end k item.now }
{
    match item {
        Item::Out(Act::EndInput { k: d }) | Item::In(Event::InputGone { k: d }) => k == *d,
        _ => false,
    }
}

pub fn is_output_end(item: &Item, k: u64) -> bool
    ensures { result ≡ is_output_end k item.now }
{
    match item {
        Item::In(Event::ChildEof { k: d } | Event::ChildBroken { k: d })
        | Item::Out(Act::Release { k: d }) => k == *d,
        _ => false,
    }
}

pub fn is_kill(item: &Item, k: u64) -> bool
    ensures { result ≡ is_kill k item.now }
{
    matches!(item, Item::Out(Act::Kill { k: d }) if k == *d)
}

pub fn is_release(item: &Item, k: u64) -> bool
    ensures { result ≡ is_release k item.now }
{
    matches!(item, Item::Out(Act::Release { k: d }) if k == *d)
}

pub fn is_want_child(item: &Item, k: u64) -> bool
    ensures { result ≡ is_want_child k item.now }
{
    matches!(item, Item::Out(Act::WantChild { k: d }) if k == *d)
}

/// What an item says of the child's output.
pub fn output_heard(item: &Item, k: u64) -> &[u8]
    ensures { result.now ≡ output_heard k item.now }
{
    match item {
        Item::In(Event::ChildBytes { k: d, bytes }) if k == *d => bytes.as_slice(),
        _ => &[],
    }
}

/// .. and of its input.
pub fn input_fed(item: &Item, k: u64) -> &[u8]
    ensures { result.now ≡ input_fed k item.now }
{
    match item {
        Item::Out(Act::Feed { k: d, bytes }) if k == *d => bytes.as_slice(),
        _ => &[],
    }
}

pub fn count_took(item: &Item, k: u64) -> u64
    ensures { result ≡ count_took k item.now }
{
    match item {
        Item::In(Event::Took { k: d, n }) if k == *d => *n,
        _ => 0,
    }
}

/// One at a Tick.
pub fn tick_len(item: &Item) -> u128
    ensures { result ≡ (if is_tick item.now then 1 else 0) }
{
    if is_tick(item) { 1 } else { 0 }
}
