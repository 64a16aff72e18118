// An outside that writes down what it is asked for, and tells no trace.
ghost use Rattle.std.specs.Prelude.{None};

use super::parts::Parts;
use super::told::Told;
use host_base::{Launch, Texts};
use host_trace::{Act, Acted, Event, Outside, Why};
use std::alloc::Global;

#[derive(Drop)]
pub struct Recorder {
    pub told: Told,
    // Acts that carry something, so far.
    pub carried: u32,
    // The one of them that finds no room.
    refused: Option<u32>,
    // An act names another connection.
    pub failed: bool,
}

fn why_text(why: Why) -> &'static str {
    match why {
        Why::Done => "Done",
        Why::Gone => "Gone",
        Why::Cut(cause) => cause.text(),
        Why::Idle => "Idle",
        Why::Full => "Full",
        Why::Stopped => "Stopped",
        Why::NoMemory => "NoMemory",
    }
}

// The program, its folder, its arguments and its environment, one a line.
fn push_launch(text: &mut Parts, launch: &Launch) {
    text.push_line(launch.program.as_str());
    text.push_line(launch.dir.as_str());
    for arg in launch.args.as_slice() {
        text.push_line(arg.as_str());
    }
    for pair in launch.env.as_slice() {
        text.push(pair.name.as_str());
        text.push("=");
        text.push_line(pair.value.as_str());
    }
}

// A message: in what is done between angle brackets behind a blank, and in what is said on a line.
fn push_message(told: &mut Told, message: &str) {
    told.log.push(" <");
    told.log.push(message);
    told.log.push(">");
    told.said.push_line(message);
}

impl Recorder {
    pub fn new(alloc: Global, refused: Option<u32>) -> Self {
        Recorder {
            told: Told::new(alloc),
            carried: 0,
            refused,
            failed: false,
        }
    }

    fn refuses(&mut self) -> bool {
        let at = self.carried;
        self.carried = at.saturating_add(1);
        self.refused == Some(at)
    }

    fn start(&mut self, k: u64, j: u128, hop: u32, launch: &Launch) {
        push_launch(&mut self.told.launched, launch);
        let j = u64::try_from(j).unwrap_or(u64::MAX);
        self.told
            .start(k, j, u64::from(hop), launch.program.as_str());
    }

    fn says(&mut self, texts: &Texts) {
        self.told.log.push("Says");
        for text in texts.as_slice() {
            push_message(&mut self.told, text.as_str());
        }
        self.told.log.push("\n");
    }

    fn note(&mut self, act: &Act) {
        match act {
            Act::WantClient { c: 0 } => self.told.ask_client(),
            Act::Write { c: 0, bytes } => self.told.write(bytes.as_slice()),
            Act::Upgrade { c: 0, rest } => self.told.upgrade(rest.as_slice()),
            Act::Says { c: 0, texts } => self.says(texts),
            Act::CloseWs { c: 0, code } => self.told.act("CloseWs", u64::from(*code)),
            Act::Shut { c: 0, why } => self.told.shut(why_text(*why)),
            Act::Start {
                k,
                c: 0,
                j,
                hop,
                launch,
            } => self.start(*k, *j, *hop, launch),
            _ => self.note_child(act),
        }
    }

    // An act on a child.
    fn note_child(&mut self, act: &Act) {
        match act {
            Act::Feed { k, bytes } => self.told.feed(*k, bytes.as_slice()),
            Act::EndInput { k } => self.told.act("EndInput", *k),
            Act::WantChild { k } => self.told.ask_child(*k),
            Act::Kill { k } => self.told.act("Kill", *k),
            Act::Release { k } => self.told.act("Release", *k),
            _ => self.failed = true,
        }
    }
}

impl Outside for Recorder {
    ghost trace = { λ o. None };

    ghost faults = { λ o. 0 };

    ghost full_books = { λ o. 0 };

    ghost limit = { λ o. 64 };

    fn next(&mut self) -> Event {
        Event::Stop
    }

    fn act(&mut self, act: &Act) -> Acted {
        let carries = matches!(
            act,
            Act::Write { .. }
                | Act::Start { .. }
                | Act::Feed { .. }
                | Act::Upgrade { .. }
                | Act::Says { .. }
        );
        if carries && self.refuses() {
            self.told.log.push("no room\n");
            return Acted::NoRoom;
        }
        self.note(act);
        Acted::Done
    }
}
