// An outside that writes down what it is asked for, and tells no trace.
ghost use Rattle.std.specs.Prelude.{None};

use host_base::{Bytes, Launch};
use host_trace::{Act, Acted, Event, Outside, Why};
use std::alloc::Global;

#[derive(Drop)]
pub struct Recorder {
    // What was done, a line an act.
    pub log: Bytes,
    // What was written.
    pub written: Bytes,
    // What was fed.
    pub fed: Bytes,
    // The environment of the child, a line a variable.
    pub env: Bytes,
    // Acts that carry something, so far.
    carried: u32,
    // The one of them that finds no room.
    refused: Option<u32>,
}

fn why_text(why: Why) -> &'static str {
    match why {
        Why::Done => "Done",
        Why::Gone => "Gone",
        Why::Cut(cause) => cause.text(),
        Why::Idle => "Idle",
        Why::Full => "Full",
        Why::Stopped => "Stopped",
        Why::NoMemory => "NoMemory",
    }
}

fn push(text: &mut Bytes, more: &str) {
    let _found = text.extend_from_slice(more.as_bytes());
}

impl Recorder {
    pub fn new(alloc: Global, refused: Option<u32>) -> Self {
        Recorder {
            log: Bytes::new(alloc),
            written: Bytes::new(alloc),
            fed: Bytes::new(alloc),
            env: Bytes::new(alloc),
            carried: 0,
            refused,
        }
    }

    fn refuses(&mut self) -> bool {
        let at = self.carried;
        self.carried = at.saturating_add(1);
        self.refused == Some(at)
    }

    fn start(&mut self, launch: &Launch) {
        for pair in launch.env.as_slice() {
            push(&mut self.env, pair.name.as_str());
            push(&mut self.env, "=");
            push(&mut self.env, pair.value.as_str());
            push(&mut self.env, "\n");
        }
        push(&mut self.log, "Start ");
        push(&mut self.log, launch.program.as_str());
    }

    fn note(&mut self, act: &Act) {
        match act {
            Act::WantClient { .. } => push(&mut self.log, "WantClient"),
            Act::Write { bytes, .. } => {
                push(&mut self.log, "Write");
                let _found = self.written.extend_from_slice(bytes.as_slice());
            }
            Act::Shut { why, .. } => {
                push(&mut self.log, "Shut ");
                push(&mut self.log, why_text(*why));
            }
            Act::Start { launch, .. } => self.start(launch),
            Act::Feed { bytes, .. } => {
                push(&mut self.log, "Feed");
                let _found = self.fed.extend_from_slice(bytes.as_slice());
            }
            Act::EndInput { .. } => push(&mut self.log, "EndInput"),
            Act::WantChild { .. } => push(&mut self.log, "WantChild"),
            Act::Kill { .. } => push(&mut self.log, "Kill"),
            Act::Release { .. } => push(&mut self.log, "Release"),
            _ => push(&mut self.log, "an act of nobody"),
        }
        push(&mut self.log, "\n");
    }
}

impl Outside for Recorder {
    ghost trace = { λ o. None };

    ghost faults = { λ o. 0 };

    ghost full_books = { λ o. 0 };

    ghost limit = { λ o. 64 };

    fn next(&mut self) -> Event {
        Event::Stop
    }

    fn act(&mut self, act: &Act) -> Acted {
        let carries = matches!(
            act,
            Act::Write { .. }
                | Act::Start { .. }
                | Act::Feed { .. }
                | Act::Upgrade { .. }
                | Act::Says { .. }
        );
        if carries && self.refuses() {
            push(&mut self.log, "no room\n");
            return Acted::NoRoom;
        }
        self.note(act);
        Acted::Done
    }
}
