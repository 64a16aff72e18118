// What one event or one act is.
ghost use Rattle.std.specs.Prelude.{◌≡◌, ℕ, ◌==◌, ◌≤◌, ◌-◌, ◌*◌, ◌^◌, true, false, MatchOption, length, sum_by, if◌then◌else◌};
ghost use Rattle.host_trace.specs.declared.items.Item.{Item};
ghost use Rattle.host_trace.specs.Kinds.{names, names_child, is_client_answer, is_want_client, is_shut, is_upgrade, is_start, is_started, is_start_answer, is_child_answer, is_want_child, is_output_end, is_input_end, is_exited, count_wrote, count_took, bytes_written, input_fed, texts_said};

use host_base::Text;
use host_trace::{Act, Event};

/// One where it is true.
pub fn one_if(test: bool) -> u64
    ensures { result ≡ (if test then 1 else 0) }
{
    if test { 1 } else { 0 }
}

/// The connection that an event names.
pub fn client_heard(event: &Event) -> Option<u64>
    ensures { MatchOption result ((c : ℕ) → names c (Item.In event.now) ≡ false) (λ d. (c : ℕ) → names c (Item.In event.now) ≡ (c == d)) }
{
    match event {
        Event::ClientBytes { c, .. } => Some(*c),
        Event::ClientEof { c } => Some(*c),
        Event::ClientGone { c } => Some(*c),
        Event::Wrote { c, .. } => Some(*c),
        Event::WsText { c, .. } => Some(*c),
        Event::WsBinary { c } => Some(*c),
        Event::WsClosed { c } => Some(*c),
        Event::WsBad { c } => Some(*c),
        Event::NoRoom { c } => Some(*c),
        _ => None,
    }
}

/// The connection that an act names.
pub fn client_asked(act: &Act) -> Option<u64>
    ensures { MatchOption result ((c : ℕ) → names c (Item.Out act.now) ≡ false) (λ d. (c : ℕ) → names c (Item.Out act.now) ≡ (c == d)) }
{
    match act {
        Act::WantClient { c } => Some(*c),
        Act::Write { c, .. } => Some(*c),
        Act::Shut { c, .. } => Some(*c),
        Act::Start { c, .. } => Some(*c),
        Act::Upgrade { c, .. } => Some(*c),
        Act::Says { c, .. } => Some(*c),
        Act::CloseWs { c, .. } => Some(*c),
        _ => None,
    }
}

/// The child that an event names.
pub fn child_heard(event: &Event) -> Option<u64>
    ensures { MatchOption result ((k : ℕ) → names_child k (Item.In event.now) ≡ false) (λ d. (k : ℕ) → names_child k (Item.In event.now) ≡ (k == d)) }
{
    match event {
        Event::Started { k } => Some(*k),
        Event::StartFailed { k } => Some(*k),
        Event::StartFull { k, .. } => Some(*k),
        Event::ChildBytes { k, .. } => Some(*k),
        Event::ChildEof { k } => Some(*k),
        Event::ChildBroken { k } => Some(*k),
        Event::Took { k, .. } => Some(*k),
        Event::InputGone { k } => Some(*k),
        Event::Exited { k } => Some(*k),
        _ => None,
    }
}

/// The child that an act names.
pub fn child_asked(act: &Act) -> Option<u64>
    ensures { MatchOption result ((k : ℕ) → names_child k (Item.Out act.now) ≡ false) (λ d. (k : ℕ) → names_child k (Item.Out act.now) ≡ (k == d)) }
{
    match act {
        Act::Start { k, .. } => Some(*k),
        Act::Feed { k, .. } => Some(*k),
        Act::EndInput { k } => Some(*k),
        Act::WantChild { k } => Some(*k),
        Act::Kill { k } => Some(*k),
        Act::Release { k } => Some(*k),
        _ => None,
    }
}

pub fn is_client_answer(event: &Event, c: u64) -> bool
    ensures { result ≡ is_client_answer c (Item.In event.now) }
{
    match event {
        Event::ClientBytes { c: d, .. } => c == *d,
        Event::ClientEof { c: d } => c == *d,
        Event::WsText { c: d, .. } => c == *d,
        Event::WsBinary { c: d } => c == *d,
        Event::WsClosed { c: d } => c == *d,
        Event::WsBad { c: d } => c == *d,
        _ => false,
    }
}

pub fn wrote_by(event: &Event, c: u64) -> u64
    ensures { result ≡ count_wrote c (Item.In event.now) }
{
    match event {
        Event::Wrote { c: d, n } if c == *d => *n,
        _ => 0,
    }
}

pub fn is_want_client(act: &Act, c: u64) -> bool
    ensures { result ≡ is_want_client c (Item.Out act.now) }
{
    matches!(act, Act::WantClient { c: d } if c == *d)
}

pub fn is_shut(act: &Act, c: u64) -> bool
    ensures { result ≡ is_shut c (Item.Out act.now) }
{
    matches!(act, Act::Shut { c: d, .. } if c == *d)
}

pub fn is_upgrade(act: &Act, c: u64) -> bool
    ensures { result ≡ is_upgrade c (Item.Out act.now) }
{
    matches!(act, Act::Upgrade { c: d, .. } if c == *d)
}

pub fn written_by(act: &Act, c: u64) -> usize
    ensures { result ≡ length (bytes_written c (Item.Out act.now)) }
{
    match act {
        Act::Write { c: d, bytes } if c == *d => bytes.len(),
        _ => 0,
    }
}

/// The texts said to the client.
pub fn texts_by(act: &Act, c: u64) -> &[Text]
    ensures { result.now ≡ texts_said c (Item.Out act.now) }
{
    match act {
        Act::Says { c: d, texts } if c == *d => texts.as_slice(),
        _ => &[],
    }
}

/// How many bytes the texts have.
pub fn text_len(texts: &[Text]) -> u128
    ensures { result ≡ sum_by length texts.now }
{
    let mut sum = 0u128;
    for text in texts {
        sum += text.len() as u128;
    }
    sum
}

pub fn is_child_answer(event: &Event, k: u64) -> bool
    ensures { result ≡ is_child_answer k (Item.In event.now) }
{
    match event {
        Event::ChildBytes { k: d, .. } => k == *d,
        Event::ChildEof { k: d } => k == *d,
        Event::ChildBroken { k: d } => k == *d,
        _ => false,
    }
}

pub fn is_start_answer(event: &Event, k: u64) -> bool
    ensures { result ≡ is_start_answer k (Item.In event.now) }
{
    match event {
        Event::Started { k: d } => k == *d,
        Event::StartFailed { k: d } => k == *d,
        Event::StartFull { k: d, .. } => k == *d,
        _ => false,
    }
}

pub fn is_started(event: &Event, k: u64) -> bool
    ensures { result ≡ is_started k (Item.In event.now) }
{
    matches!(event, Event::Started { k: d } if k == *d)
}

pub fn is_exited(event: &Event, k: u64) -> bool
    ensures { result ≡ is_exited k (Item.In event.now) }
{
    matches!(event, Event::Exited { k: d } if k == *d)
}

pub fn is_input_gone(event: &Event, k: u64) -> bool
    ensures { result ≡ is_input_end k (Item.In event.now) }
{
    matches!(event, Event::InputGone { k: d } if k == *d)
}

pub fn is_output_over(event: &Event, k: u64) -> bool
    ensures { result ≡ is_output_end k (Item.In event.now) }
{
    match event {
        Event::ChildEof { k: d } => k == *d,
        Event::ChildBroken { k: d } => k == *d,
        _ => false,
    }
}

pub fn took_by(event: &Event, k: u64) -> u64
    ensures { result ≡ count_took k (Item.In event.now) }
{
    match event {
        Event::Took { k: d, n } if k == *d => *n,
        _ => 0,
    }
}

pub fn is_want_child(act: &Act, k: u64) -> bool
    ensures { result ≡ is_want_child k (Item.Out act.now) }
{
    matches!(act, Act::WantChild { k: d } if k == *d)
}

pub fn is_start(act: &Act, k: u64) -> bool
    ensures { result ≡ is_start k (Item.Out act.now) }
{
    matches!(act, Act::Start { k: d, .. } if k == *d)
}

pub fn is_end_input(act: &Act, k: u64) -> bool
    ensures { result ≡ is_input_end k (Item.Out act.now) }
{
    matches!(act, Act::EndInput { k: d } if k == *d)
}

pub fn is_release(act: &Act, k: u64) -> bool
    ensures { result ≡ is_output_end k (Item.Out act.now) }
{
    matches!(act, Act::Release { k: d } if k == *d)
}

pub fn fed_by(act: &Act, k: u64) -> usize
    ensures { result ≡ length (input_fed k (Item.Out act.now)) }
{
    match act {
        Act::Feed { k: d, bytes } if k == *d => bytes.len(),
        _ => 0,
    }
}
