// The events of a story in one cut, and what the plain program does at them.
use super::super::events::{accepted, child_bytes, client_bytes, message};
use super::super::judge::Cut;
use super::super::kid::Kid;
use super::super::numbers::Numbers;
use super::super::parts::Parts;
use super::asks::OUTPUT;
use super::beats::{Beat, Story};
use super::plain::Plain;
use host_base::NoMemory;
use host_trace::Event;
use std::alloc::Global;

#[derive(Drop)]
pub struct Course<'s> {
    alloc: Global,
    story: &'s Story,
    cut: Cut,
    numbers: Numbers,
    pub events: Vec<Option<Event>>,
    pub plain: Plain,
    // The client may send its requests up to here.
    to: usize,
}

const MOST: usize = 4000;

// An event of the client, or of all, that brings nothing.
fn client_event(beat: Beat) -> Event {
    match beat {
        Beat::Binary => Event::WsBinary { c: 0 },
        Beat::Closed => Event::WsClosed { c: 0 },
        Beat::Bad => Event::WsBad { c: 0 },
        Beat::Gone => Event::ClientGone { c: 0 },
        Beat::NoRoom => Event::NoRoom { c: 0 },
        Beat::Tick => Event::Tick { secs: 784_111_777 },
        _ => Event::Stop,
    }
}

fn child_event(beat: Beat, k: u64) -> Event {
    match beat {
        Beat::Started => Event::Started { k },
        Beat::StartFailed => Event::StartFailed { k },
        Beat::StartFull => Event::StartFull { k, seen: 64 },
        Beat::OutEnd => Event::ChildEof { k },
        Beat::OutBroken => Event::ChildBroken { k },
        Beat::InGone => Event::InputGone { k },
        Beat::Exited => Event::Exited { k },
        _ => client_event(beat),
    }
}

fn event_of(alloc: Global, beat: Beat, k: u64) -> Result<Event, NoMemory> {
    match beat {
        Beat::Text(bytes) => message(alloc, 0, bytes),
        _ => Ok(child_event(beat, k)),
    }
}

// So many lines as long as may be.
fn lines_of(alloc: Global, count: usize) -> Parts {
    let mut lines = Parts::new(alloc);
    for _ in 0..count {
        lines.push("aaaaaaaa\n");
    }
    lines
}

const NO_BYTES: &[u8] = &[];

// Whether such an event may come of the child.
fn fits_kid(kid: &Kid, beat: Beat) -> bool {
    match beat {
        Beat::Started | Beat::StartFailed | Beat::StartFull => !kid.started && !kid.refused,
        Beat::OutEnd | Beat::OutBroken => kid.may_write(),
        Beat::InGone => kid.started && !kid.input_over,
        Beat::Exited => kid.started && !kid.exited,
        _ => false,
    }
}

// .. or of the client.
fn fits(plain: &Plain, beat: Beat) -> bool {
    match beat {
        Beat::Text(_) | Beat::Binary | Beat::Closed | Beat::Bad => {
            plain.upgraded && plain.asked && !plain.shut
        }
        Beat::Gone | Beat::NoRoom => !plain.shut,
        Beat::Stop => !plain.stopped,
        Beat::Tick => plain.upgraded,
        _ => match &plain.kid {
            Some(kid) => fits_kid(kid, beat),
            None => false,
        },
    }
}

impl<'s> Course<'s> {
    fn new(alloc: Global, story: &'s Story, cut: Cut, seed: u64) -> Self {
        Course {
            alloc,
            story,
            cut,
            numbers: Numbers::new(seed),
            events: Vec::new(alloc),
            plain: Plain::new(alloc),
            to: 0,
        }
    }

    fn push(&mut self, event: Option<Event>) {
        if self.events.push(event).is_err() {
            self.plain.told.lose();
        }
    }

    fn tell(&mut self, event: Event) {
        self.plain.step(self.story, &event);
        self.push(Some(event));
        self.push(None);
    }

    fn tell_made(&mut self, event: Result<Event, NoMemory>) {
        match event {
            Ok(event) => self.tell(event),
            Err(_) => self.plain.told.lose(),
        }
    }

    // The length of the next piece, where so much is left. A long string ends in single bytes.
    fn piece(&mut self, left: usize) -> usize {
        let most = match self.cut {
            Cut::Whole => left,
            Cut::Single if left > 700 => left.saturating_sub(20),
            Cut::Single => 1,
            Cut::Seeded => self
                .numbers
                .some(left.min(if left < 2000 { 9 } else { 40_000 })),
        };
        most.min(65_536)
    }

    fn kid_number(&self) -> u64 {
        match &self.plain.kid {
            Some(kid) => kid.number,
            None => 0,
        }
    }

    // ---- the client's requests

    // So many bytes of them.
    fn part(&self, count: usize) -> &'s [u8] {
        let from = self.plain.got;
        let stream = self.story.stream.as_slice();
        stream
            .get(from..from.saturating_add(count))
            .unwrap_or(NO_BYTES)
    }

    // A piece of them, where the client is asked for it; false where it isn't.
    fn send_piece(&mut self) -> bool {
        let open = self.plain.asked && !self.plain.upgraded && !self.plain.shut;
        let left = self.to.saturating_sub(self.plain.got);
        if !open || left == 0 {
            return false;
        }
        let count = self.piece(left);
        self.tell_made(client_bytes(self.alloc, 0, self.part(count)));
        true
    }

    fn has_script(&self) -> bool {
        match &self.plain.kid {
            Some(kid) => !kid.talks && !kid.started && !self.plain.shut,
            None => false,
        }
    }

    // The script of a request runs, where it waits to be started; false where none does.
    fn run_script(&mut self) -> bool {
        if !self.has_script() {
            return false;
        }
        self.give(Beat::Started);
        self.pour(OUTPUT);
        self.give(Beat::OutEnd);
        self.give(Beat::Exited);
        true
    }

    // All that may be sent of them.
    fn send(&mut self) {
        for _ in 0..MOST {
            if !self.run_script() && !self.send_piece() {
                return;
            }
        }
    }

    // ---- what waits

    fn leave_piece(&mut self) -> bool {
        let left = self.plain.waits;
        if left == 0 || self.plain.shut {
            return false;
        }
        let n = self.piece(left) as u64;
        self.tell(Event::Wrote { c: 0, n });
        true
    }

    // All that waits to be sent leaves.
    fn leave(&mut self) {
        for _ in 0..MOST {
            if !self.leave_piece() {
                return;
            }
        }
    }

    // .. where it keeps the client and the child from being asked.
    fn unblock(&mut self) {
        if !self.plain.has_room() {
            self.leave();
        }
    }

    fn untaken(&self) -> usize {
        match &self.plain.kid {
            Some(kid) => kid.fed.saturating_sub(kid.taken),
            None => 0,
        }
    }

    fn take_piece(&mut self) -> bool {
        let left = self.untaken();
        if left == 0 {
            return false;
        }
        let n = self.piece(left) as u64;
        let k = self.kid_number();
        self.tell(Event::Took { k, n });
        true
    }

    // The child takes all that it was fed.
    fn take(&mut self) {
        for _ in 0..MOST {
            if !self.take_piece() {
                return;
            }
        }
    }

    // ---- the child's output

    fn may_write(&self) -> bool {
        match &self.plain.kid {
            Some(kid) => kid.may_write(),
            None => false,
        }
    }

    // A piece of an output, of which it gives the rest.
    fn pour_piece<'b>(&mut self, bytes: &'b [u8]) -> &'b [u8] {
        let count = self.piece(bytes.len()).min(bytes.len());
        let (front, rest) = bytes.split_at(count);
        self.tell_made(child_bytes(self.alloc, self.kid_number(), front));
        rest
    }

    fn pour(&mut self, bytes: &[u8]) {
        let mut rest = bytes;
        for _ in 0..MOST {
            if rest.is_empty() {
                return;
            }
            self.unblock();
            if !self.may_write() {
                return;
            }
            rest = self.pour_piece(rest);
        }
    }

    // A flood comes in pieces as long as may be, however the story is cut.
    fn fill(&mut self, count: usize) {
        let lines = lines_of(self.alloc, count);
        let cut = self.cut;
        self.cut = Cut::Whole;
        self.pour(lines.as_slice());
        self.cut = cut;
        if lines.is_lost() {
            self.plain.told.lose();
        }
    }

    // ---- beats

    fn give(&mut self, beat: Beat) {
        if fits(&self.plain, beat) {
            self.tell_made(event_of(self.alloc, beat, self.kid_number()));
        }
    }

    fn beat(&mut self, beat: Beat) {
        match beat {
            Beat::Send(to) => self.to = to,
            Beat::Out(bytes) => self.pour(bytes),
            Beat::Fill(count) => self.fill(count),
            Beat::Wrote => self.leave(),
            Beat::Took => self.take(),
            _ => {
                self.unblock();
                self.give(beat);
            }
        }
    }

    // Tells the whole story.
    fn run(&mut self) {
        self.tell_made(accepted(self.alloc));
        for beat in self.story.beats.as_slice() {
            self.beat(*beat);
            self.send();
        }
    }
}

pub fn course_of<'s>(alloc: Global, story: &'s Story, cut: Cut, seed: u64) -> Course<'s> {
    let mut course = Course::new(alloc, story, cut, seed);
    course.run();
    course
}
