// The model's answer: what is due in each step, by the rules and by all that was heard so far.
use super::super::kid::{By, Kid};
use super::super::parts::Parts;
use super::super::told::Told;
use super::asks::{Answer, Ask, LIMIT, REPLY};
use super::beats::Story;
use super::messages::Messages;
use host_trace::Event;
use std::alloc::Global;

const HIGH: usize = 262_144;

const NO_BYTES: &[u8] = &[];

// The code of the close frame with which an event ends a talk (RFC 6455 7.4.1), unless it ends without one.
fn code_of(event: &Event) -> Option<u64> {
    match event {
        Event::ChildEof { .. } => Some(1000),
        Event::WsBinary { .. } => Some(1003),
        Event::WsText { .. } => Some(1009),
        Event::ChildBytes { .. }
        | Event::ChildBroken { .. }
        | Event::StartFailed { .. }
        | Event::StartFull { .. } => Some(1011),
        _ => None,
    }
}

#[derive(Drop)]
pub struct Plain {
    alloc: Global,
    pub told: Told,
    // The client was asked, and how much it sent.
    pub asked: bool,
    pub got: usize,
    // The request that is read, and how many bytes the earlier ones used.
    number: usize,
    base: usize,
    pub upgraded: bool,
    pub shut: bool,
    dropped: bool,
    pub stopped: bool,
    gone: bool,
    // Bytes that wait to be sent.
    pub waits: usize,
    kids: u64,
    pub kid: Option<Kid>,
    // What the talk heard of the output.
    messages: Messages,
}

impl Plain {
    pub fn new(alloc: Global) -> Self {
        Plain {
            alloc,
            told: Told::new(alloc),
            asked: false,
            got: 0,
            number: 0,
            base: 0,
            upgraded: false,
            shut: false,
            dropped: false,
            stopped: false,
            gone: false,
            waits: 0,
            kids: 0,
            kid: None,
            messages: Messages::new(alloc),
        }
    }

    // ---- what is the case

    pub fn has_room(&self) -> bool {
        self.shut || self.waits <= HIGH
    }

    pub fn is_talking(&self) -> bool {
        match &self.kid {
            Some(kid) => kid.talks && !kid.is_over(),
            None => false,
        }
    }

    fn is_ended(&self) -> bool {
        self.dropped || self.stopped || self.gone
    }

    // The request that is read, where it has come whole.
    fn whole_ask(&self, story: &Story) -> Option<Ask> {
        let ask = *story.asks.as_slice().get(self.number)?;
        if self.got < self.base.saturating_add(ask.bytes.len()) {
            return None;
        }
        Some(ask)
    }

    // ---- what is heard

    fn hear(&mut self, event: &Event) {
        match event {
            Event::ClientBytes { bytes, .. } => {
                self.asked = false;
                self.got = self.got.saturating_add(bytes.len());
            }
            Event::WsText { .. } | Event::WsBinary { .. } | Event::WsClosed { .. } => {
                self.asked = false;
            }
            Event::WsBad { .. } | Event::ClientGone { .. } => self.gone = true,
            Event::NoRoom { .. } => self.dropped = true,
            Event::Stop => self.stopped = true,
            Event::Wrote { n, .. } => {
                let count = usize::try_from(*n).unwrap_or(0);
                self.waits = self.waits.saturating_sub(count);
            }
            _ => {}
        }
        if let Some(kid) = &mut self.kid {
            kid.hear_talk(event);
        }
    }

    // ---- a talk

    // Says the messages that the event brings, ends the talk where it does, and feeds the line of a text.
    fn talk(&mut self, event: &Event) {
        let long = match event {
            Event::ChildBytes { bytes, .. } => self.hear_output(bytes.as_slice()),
            Event::ChildEof { .. } => self.end_output(),
            Event::WsText { bytes, .. } => bytes.len() > LIMIT,
            _ => false,
        };
        self.end_talk(event, long);
        match event {
            Event::WsText { bytes, .. } if !long => self.feed(bytes.as_slice()),
            _ => {}
        }
    }

    // Whether a line is too long.
    fn hear_output(&mut self, bytes: &[u8]) -> bool {
        self.messages.hear_all(bytes);
        self.say()
    }

    // The output ends.
    fn end_output(&mut self) -> bool {
        self.messages.end();
        self.say()
    }

    // Says what was not said; whether a line is too long.
    fn say(&mut self) -> bool {
        if self.messages.is_lost() {
            self.told.lose();
        }
        let more = self.messages.say(&mut self.told);
        self.waits = self.waits.saturating_add(more);
        self.messages.long
    }

    fn end_talk(&mut self, event: &Event, long: bool) {
        if let Some(kid) = &mut self.kid {
            if long {
                kid.decide(By::Nobody);
            }
        }
        if self.is_talking() {
            return;
        }
        if let Some(code) = code_of(event) {
            self.told.act("CloseWs", code);
        }
    }

    // A text is fed as a line.
    fn feed(&mut self, text: &[u8]) {
        match &mut self.kid {
            Some(kid) if kid.may_feed() => {
                kid.fed = kid.fed.saturating_add(text.len()).saturating_add(1);
                let number = kid.number;
                self.note_line(number, text);
            }
            _ => {}
        }
    }

    fn note_line(&mut self, number: u64, text: &[u8]) {
        let mut line = Parts::new(self.alloc);
        line.add(text);
        line.push("\n");
        if line.is_lost() {
            self.told.lose();
        }
        self.told.feed(number, line.as_slice());
    }

    // ---- requests

    fn write(&mut self, bytes: &[u8]) {
        self.waits = self.waits.saturating_add(bytes.len());
        self.told.write(bytes)
    }

    // The script of the request that was read last.
    fn start(&mut self, program: &str, talks: bool) {
        let k = self.kids;
        self.kids = k.saturating_add(1);
        self.kid = Some(Kid::new(k, 0, talks));
        let place = self.number.saturating_sub(1) as u64;
        self.told.start(k, place, 0, program)
    }

    // The next request is read.
    fn go_on(&mut self, ask: Ask) {
        self.number = self.number.saturating_add(1);
        self.base = self.base.saturating_add(ask.bytes.len());
    }

    fn open(&mut self, story: &Story, accept: &[u8], program: &str) {
        self.write(accept);
        self.upgraded = true;
        self.waits = 0;
        let rest = story
            .stream
            .as_slice()
            .get(self.base..self.got)
            .unwrap_or(NO_BYTES);
        self.told.upgrade(rest);
        self.start(program, true)
    }

    fn answer_ask(&mut self, story: &Story, ask: Ask) {
        self.go_on(ask);
        match ask.answer {
            Answer::Refused(reply) => self.write(reply),
            Answer::Runs(program) => self.start(program, false),
            Answer::Opens(accept, program) => self.open(story, accept, program),
        }
    }

    // Answers a request that has come whole; false where there is none.
    fn answer(&mut self, story: &Story) -> bool {
        if self.kid.is_some() || self.is_ended() {
            return false;
        }
        match self.whole_ask(story) {
            Some(ask) => {
                self.answer_ask(story, ask);
                true
            }
            None => false,
        }
    }

    fn answers(&mut self, story: &Story) {
        for _ in 0..=story.asks.len() {
            if !self.answer(story) {
                return;
            }
        }
    }

    // The script's reply, at the end of its output; and where it is settled the next request is read.
    fn run(&mut self, event: &Event) {
        match event {
            Event::ChildEof { .. } => self.write(REPLY),
            _ => {}
        }
    }

    fn settle(&mut self) {
        if let Some(kid) = &self.kid {
            if !kid.talks && kid.is_settled() {
                self.kid = None;
            }
        }
    }

    // ---- a step

    // What is due for the child.
    fn serve(&mut self) {
        let room = self.has_room();
        let Some(kid) = &mut self.kid else {
            return;
        };
        let k = kid.number;
        if kid.must_end_talk() {
            kid.input_over = true;
            self.told.act("EndInput", k);
        }
        if kid.must_kill() {
            kid.killed = true;
            self.told.act("Kill", k);
        }
        if kid.must_release() {
            kid.output_over = true;
            self.told.act("Release", k);
        }
        if kid.must_ask(room || kid.closed) {
            kid.asked = true;
            self.told.ask_child(k);
        }
    }

    fn close(&mut self) {
        let over = self.upgraded && !self.is_talking();
        if self.shut || !over && !self.is_ended() {
            return;
        }
        self.shut = true;
        let why = if self.dropped {
            "NoMemory"
        } else if self.stopped {
            "Stopped"
        } else if self.gone {
            "Gone"
        } else {
            "Done"
        };
        self.told.shut(why)
    }

    // Asks the client for more of a request, or for a text once all before was taken.
    fn want(&mut self, story: &Story) {
        let due = match &self.kid {
            Some(kid) => kid.talks && kid.started && kid.has_taken_all(),
            None => self.whole_ask(story).is_none(),
        };
        if !due || self.asked || self.shut || !self.has_room() {
            return;
        }
        self.asked = true;
        self.told.ask_client()
    }

    // One step: the event, and the acts that are due.
    pub fn step(&mut self, story: &Story, event: &Event) {
        let talking = self.is_talking();
        self.hear(event);
        if talking {
            self.talk(event);
        } else if !self.upgraded {
            self.run(event);
        }
        self.serve();
        self.settle();
        self.answers(story);
        self.close();
        self.want(story);
        self.told.mark()
    }
}
