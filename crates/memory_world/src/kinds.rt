// What one item of a trace is.
ghost use Rattle.std.specs.Prelude.{◌≡◌};
ghost use Rattle.host_trace.specs.Kinds.{is_accepted, is_stop, is_client_answer, is_want_client, is_shut, is_upgrade, is_start, is_started, is_start_answer, is_child_answer, is_want_child, is_output_end, is_input_end, is_exited};

use host_trace::{Act, Event, Item};

/// Whether a client connected.
pub fn is_accepted(item: &Item) -> bool
    ensures { result ≡ is_accepted item.now }
{
    matches!(item, Item::In(Event::Accepted { .. }))
}

/// Whether the server is to end.
pub fn is_stop(item: &Item) -> bool
    ensures { result ≡ is_stop item.now }
{
    matches!(item, Item::In(Event::Stop))
}

/// Whether it asks for one event of the client.
pub fn is_want_client(item: &Item, c: u64) -> bool
    ensures { result ≡ is_want_client c item.now }
{
    matches!(item, Item::Out(Act::WantClient { c: d }) if c == *d)
}

/// Whether it answers that.
pub fn is_client_answer(item: &Item, c: u64) -> bool
    ensures { result ≡ is_client_answer c item.now }
{
    match item {
        Item::In(Event::ClientBytes { c: d, .. }) => c == *d,
        Item::In(Event::ClientEof { c: d }) => c == *d,
        Item::In(Event::WsText { c: d, .. }) => c == *d,
        Item::In(Event::WsBinary { c: d }) => c == *d,
        Item::In(Event::WsClosed { c: d }) => c == *d,
        Item::In(Event::WsBad { c: d }) => c == *d,
        _ => false,
    }
}

/// Whether it ends the connection.
pub fn is_shut(item: &Item, c: u64) -> bool
    ensures { result ≡ is_shut c item.now }
{
    matches!(item, Item::Out(Act::Shut { c: d, .. }) if c == *d)
}

/// Whether the connection speaks WebSocket from it on.
pub fn is_upgrade(item: &Item, c: u64) -> bool
    ensures { result ≡ is_upgrade c item.now }
{
    matches!(item, Item::Out(Act::Upgrade { c: d, .. }) if c == *d)
}

/// Whether it asks for one event of the child's output.
pub fn is_want_child(item: &Item, k: u64) -> bool
    ensures { result ≡ is_want_child k item.now }
{
    matches!(item, Item::Out(Act::WantChild { k: d }) if k == *d)
}

/// Whether it answers that.
pub fn is_child_answer(item: &Item, k: u64) -> bool
    ensures { result ≡ is_child_answer k item.now }
{
    match item {
        Item::In(Event::ChildBytes { k: d, .. }) => k == *d,
        Item::In(Event::ChildEof { k: d }) => k == *d,
        Item::In(Event::ChildBroken { k: d }) => k == *d,
        _ => false,
    }
}

/// Whether it asks for the start of the child.
pub fn is_start(item: &Item, k: u64) -> bool
    ensures { result ≡ is_start k item.now }
{
    matches!(item, Item::Out(Act::Start { k: d, .. }) if k == *d)
}

/// Whether it answers that.
pub fn is_start_answer(item: &Item, k: u64) -> bool
    ensures { result ≡ is_start_answer k item.now }
{
    match item {
        Item::In(Event::Started { k: d }) => k == *d,
        Item::In(Event::StartFailed { k: d }) => k == *d,
        Item::In(Event::StartFull { k: d, .. }) => k == *d,
        _ => false,
    }
}

/// Whether the child runs from it on.
pub fn is_started(item: &Item, k: u64) -> bool
    ensures { result ≡ is_started k item.now }
{
    matches!(item, Item::In(Event::Started { k: d }) if k == *d)
}

/// Whether the child was reaped.
pub fn is_exited(item: &Item, k: u64) -> bool
    ensures { result ≡ is_exited k item.now }
{
    matches!(item, Item::In(Event::Exited { k: d }) if k == *d)
}

/// Whether it ends the child's input.
pub fn is_input_end(item: &Item, k: u64) -> bool
    ensures { result ≡ is_input_end k item.now }
{
    match item {
        Item::Out(Act::EndInput { k: d }) => k == *d,
        Item::In(Event::InputGone { k: d }) => k == *d,
        _ => false,
    }
}

/// Whether it ends the child's output.
pub fn is_output_end(item: &Item, k: u64) -> bool
    ensures { result ≡ is_output_end k item.now }
{
    match item {
        Item::In(Event::ChildEof { k: d }) => k == *d,
        Item::In(Event::ChildBroken { k: d }) => k == *d,
        Item::Out(Act::Release { k: d }) => k == *d,
        _ => false,
    }
}
