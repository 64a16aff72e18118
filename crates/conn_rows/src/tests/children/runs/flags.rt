// What happens to child 0, and an outside that writes down its acts.
use child_core::{Ending, Run};
use host_base::{Bytes, NoMemory, ScriptKind};
use host_trace::{Act, Acted, Event, Outside};
use std::alloc::Global;

/// An item of a list: what is heard or given to the run, or an act of it.
#[derive(Clone, Copy, PartialEq, Eq)]
pub enum Mark {
    Started,
    StartFailed,
    StartFull,
    /// So many bytes of output.
    Output(u64),
    OutputEnd,
    Broken,
    Took(u64),
    InputGone,
    Exited,
    Tick,
    Stop,
    Gone,
    Dropped,
    Refused,
    /// The client ended its input.
    ClientEnd,
    /// The client closed its WebSocket.
    Closed,
    /// So many bytes for the input, the last ones or not.
    Offered(u64, bool),
    Fed(u64),
    EndInput,
    Kill,
    Release,
    Ask,
}

// The byte at a place of what is offered.
fn byte_at(place: u64) -> u8 {
    (place % 251) as u8
}

/// So many bytes from a place on.
pub fn bytes_from(alloc: Global, from: u64, count: u64) -> Result<Bytes, NoMemory> {
    let mut bytes = Vec::new(alloc);
    for place in 0..count {
        bytes.push(byte_at(from.saturating_add(place)))?;
    }
    Ok(Bytes::from_vec(bytes))
}

fn are_from(bytes: &[u8], from: u64) -> bool {
    let mut place = from;
    for byte in bytes {
        if *byte != byte_at(place) {
            return false;
        }
        place = place.saturating_add(1);
    }
    true
}

/// The acts of one step, and how much was fed in all. `full`: no Feed finds room.
#[derive(Clone, Copy)]
pub struct Recording {
    acts: [Mark; 8],
    count: usize,
    fed: u64,
    /// What was fed is what was offered, and each act names child 0.
    pub right: bool,
    pub full: bool,
}

impl Recording {
    pub fn new() -> Self {
        Recording {
            acts: [Mark::Stop; 8],
            count: 0,
            fed: 0,
            right: true,
            full: false,
        }
    }

    /// Begins a step.
    pub fn clear(&mut self) {
        self.count = 0;
    }

    /// Whether these are the acts of the step.
    pub fn has(&self, acts: &[Mark]) -> bool {
        self.acts.as_slice().get(..self.count).unwrap_or(&[]) == acts
    }

    fn note(&mut self, mark: Mark) {
        match self.acts.get_mut(self.count) {
            Some(place) => {
                *place = mark;
                self.count = self.count.saturating_add(1);
            }
            None => self.right = false,
        }
    }

    fn feed(&mut self, bytes: &[u8]) -> Acted {
        if self.full {
            return Acted::NoRoom;
        }
        self.right &= are_from(bytes, self.fed);
        let len = bytes.len() as u64;
        self.fed = self.fed.saturating_add(len);
        self.note(Mark::Fed(len));
        Acted::Done
    }
}

impl Outside for Recording {
    ghost use Rattle.std.specs.Prelude.{None};

    ghost trace = { λ r. None };

    ghost faults = { λ r. 0 };

    ghost full_books = { λ r. 0 };

    ghost limit = { λ r. 0 };

    fn next(&mut self) -> Event {
        Event::Stop
    }

    fn act(&mut self, act: &Act) -> Acted {
        match act {
            Act::Feed { k: 0, bytes } => return self.feed(bytes.as_slice()),
            Act::EndInput { k: 0 } => self.note(Mark::EndInput),
            Act::Kill { k: 0 } => self.note(Mark::Kill),
            Act::Release { k: 0 } => self.note(Mark::Release),
            Act::WantChild { k: 0 } => self.note(Mark::Ask),
            _ => self.right = false,
        }
        Acted::Done
    }
}

/// The event that the mark names, where it names one.
pub fn event_of(alloc: Global, mark: Mark) -> Result<Option<Event>, NoMemory> {
    Ok(match mark {
        Mark::Started => Some(Event::Started { k: 0 }),
        Mark::StartFailed => Some(Event::StartFailed { k: 0 }),
        Mark::StartFull => Some(Event::StartFull { k: 0, seen: 64 }),
        Mark::Output(count) => Some(Event::ChildBytes {
            k: 0,
            bytes: bytes_from(alloc, 0, count)?,
        }),
        Mark::OutputEnd => Some(Event::ChildEof { k: 0 }),
        Mark::Broken => Some(Event::ChildBroken { k: 0 }),
        Mark::Took(n) => Some(Event::Took { k: 0, n }),
        Mark::InputGone => Some(Event::InputGone { k: 0 }),
        Mark::Exited => Some(Event::Exited { k: 0 }),
        Mark::Tick => Some(Event::Tick { secs: 0 }),
        Mark::Stop => Some(Event::Stop),
        _ => None,
    })
}

/// Gives the run what its connection gives it. `offered`: so much was offered before.
pub fn give(alloc: Global, run: &mut Run, mark: Mark, offered: u64) -> Result<(), NoMemory> {
    match mark {
        Mark::Gone => run.end_by(Ending::Gone),
        Mark::Dropped => run.end_by(Ending::Dropped),
        Mark::Refused => run.end_by(Ending::Refused),
        Mark::ClientEnd => {
            if !run.is_websocket() && !run.is_offered_whole() {
                run.end_by(Ending::Incomplete);
            }
        }
        Mark::Closed => {
            if run.is_websocket() {
                run.close_input();
            }
        }
        Mark::Offered(count, last) => {
            if !run.is_offered_whole() {
                let bytes = bytes_from(alloc, offered, count)?;
                return run.offer(bytes.as_slice(), last);
            }
        }
        _ => {}
    }
    Ok(())
}
