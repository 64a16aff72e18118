// Events by letters and numbers for the tests.
use host_trace::Event;

/// What an event is, by a letter of its own.
pub fn letter(event: &Event) -> u8 {
    match event {
        Event::Accepted { .. } => b'a',
        Event::ClientBytes { .. } => b'c',
        Event::ClientEof { .. } => b'f',
        Event::ClientGone { .. } => b'g',
        Event::Wrote { .. } => b'w',
        Event::WsText { .. } => b'm',
        Event::Started { .. } => b's',
        Event::StartFailed { .. } => b'q',
        Event::StartFull { .. } => b'u',
        Event::ChildBytes { .. } => b'b',
        Event::ChildEof { .. } => b'e',
        Event::ChildBroken { .. } => b'x',
        Event::Took { .. } => b't',
        Event::InputGone { .. } => b'i',
        Event::Exited { .. } => b'd',
        Event::Tick { .. } => b'.',
        Event::Stop => b'z',
        _ => b'?',
    }
}

/// The number of the child or the connection that an event is of, or 0.
pub fn number(event: &Event) -> u64 {
    match event {
        Event::ClientBytes { c: n, .. }
        | Event::Wrote { c: n, .. }
        | Event::Started { k: n }
        | Event::StartFailed { k: n }
        | Event::StartFull { k: n, .. }
        | Event::ChildBytes { k: n, .. }
        | Event::ChildEof { k: n }
        | Event::ChildBroken { k: n }
        | Event::Took { k: n, .. }
        | Event::InputGone { k: n }
        | Event::Exited { k: n } => *n,
        _ => 0,
    }
}

/// What an event of a child is, by a letter.
pub fn letter_of_child(event: &Event) -> u8 {
    match letter(event) {
        b'i' => b'g',
        letter @ (b's' | b'q' | b'b' | b'e' | b'x' | b't' | b'd') => letter,
        _ => b'?',
    }
}
