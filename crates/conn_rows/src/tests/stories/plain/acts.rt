// What the plain program does: what it writes, and what it does with a child.
use super::super::super::kid::{By, Kid};
use super::super::super::parts::Parts;
use super::super::asks::Ask;
use super::super::reply::{Front, Shape, push_fault, push_front, push_part};
use super::super::roles::{Manner, Role, Says, meaning};
use super::super::story::Story;
use super::{Begun, Plain, Reading};
use host_base::Cause;
use std::alloc::Global;

const NO_BYTES: &[u8] = &[];

const CONTINUE: &str = "HTTP/1.1 100 Continue\r\n\r\n";

// How a reply begins.
fn opening(ask: &Ask, role: &Role, shape: Shape, close: bool) -> Begun {
    let Says::Reply { manner, .. } = role.says else {
        return Begun {
            shape: Shape::ToClose,
            close,
            bodied: true,
            sent: 0,
        };
    };
    let bare = ask.is_head() || manner == Manner::Bare;
    Begun {
        shape: if bare { Shape::Bare } else { shape },
        close,
        bodied: !bare && manner == Manner::Body,
        sent: role.head,
    }
}

// The reply to such an output is streamed.
fn is_streamed(says: Says) -> bool {
    match says {
        Says::Reply { manner, .. } => manner != Manner::Dropped,
        Says::Raw => true,
        Says::Hop(_) | Says::Fault(_) => false,
    }
}

// How long the body of a whole reply is.
fn body_len(manner: Manner, role: &Role, heard: usize) -> usize {
    match manner {
        Manner::Body | Manner::Bare => heard.saturating_sub(role.head),
        Manner::Empty | Manner::Dropped => 0,
    }
}

fn whole_shape(says: Says, role: &Role, heard: usize) -> Shape {
    match says {
        Says::Reply { manner, .. } => Shape::Length(body_len(manner, role, heard)),
        _ => Shape::ToClose,
    }
}

impl Plain {
    // ---- what is written

    fn write(&mut self, bytes: &[u8]) {
        if !bytes.is_empty() {
            self.told.write(bytes);
        }
    }

    fn write_parts(&mut self, parts: &Parts) {
        if parts.is_lost() {
            self.told.lose();
        }
        self.write(parts.as_slice());
    }

    pub fn fault(&mut self, alloc: Global, cause: Cause, bare: bool, close: bool) {
        self.stand(close);
        let mut bytes = Parts::new(alloc);
        push_fault(&mut bytes, cause, bare, close, self.secs);
        self.write_parts(&bytes);
        self.told.said.add_parts(&bytes);
    }

    fn stand(&mut self, close: bool) {
        self.done = true;
        self.closing |= close;
    }

    fn let_continue(&mut self, ask: &Ask, reading: Reading) {
        let due = ask.expects && reading.headed && reading.bad.is_none();
        if !due || self.continued {
            return;
        }
        self.continued = true;
        self.told.said.push(CONTINUE);
        self.write(CONTINUE.as_bytes())
    }

    // Why the request is refused, and whether the reply has no body.
    fn refusal(&self, ask: &Ask, reading: Reading) -> Option<(Cause, bool)> {
        match (reading.bad, self.broken) {
            (Some(bad), _) => Some((bad.cause, bad.bare)),
            (None, Some(cause)) => Some((cause, reading.headed && ask.is_head())),
            (None, None) => None,
        }
    }

    fn answer_ask(&mut self, alloc: Global, story: &Story, ask: &Ask) {
        let reading = self.reading(story);
        self.let_continue(ask, reading);
        if self.done {
            return;
        }
        match self.refusal(ask, reading) {
            Some((cause, bare)) => self.fault(alloc, cause, bare, true),
            None => self.answer_run(alloc, story, ask),
        }
    }

    // What is due of the answer.
    pub fn answer(&mut self, alloc: Global, story: &Story) {
        match story.ask(self.number) {
            Some(ask) if self.is_open(story) => self.answer_ask(alloc, story, ask),
            _ => {}
        }
    }

    fn answer_run(&mut self, alloc: Global, story: &Story, ask: &Ask) {
        let (Some(kid), Some(role)) = (self.kid, self.role(story)) else {
            return;
        };
        match kid.by {
            None => self.stream(alloc, story, ask, role, kid),
            Some(By::End) => self.conclude(alloc, story, ask, role, kid),
            Some(By::Failed(cause)) => self.fail(alloc, story, ask, cause),
            Some(By::Nobody) => {}
        }
    }

    // A reply that has begun can't be finished.
    fn fail(&mut self, alloc: Global, story: &Story, ask: &Ask, cause: Cause) {
        if self.begun.is_some() {
            self.cut = Some(cause);
            return;
        }
        let close = cause == Cause::Incomplete || self.closes_now(story, ask);
        self.fault(alloc, cause, ask.is_head(), close)
    }

    // The output has ended.
    fn conclude(&mut self, alloc: Global, story: &Story, ask: &Ask, role: &Role, kid: Kid) {
        match self.begun {
            Some(begun) => self.end_reply(begun),
            None => self.reply(alloc, story, ask, role, kid.heard),
        }
    }

    // No reply has begun.
    fn reply(&mut self, alloc: Global, story: &Story, ask: &Ask, role: &Role, heard: usize) {
        let close = self.closes_now(story, ask);
        match meaning(role, heard) {
            Says::Hop(_) => {}
            Says::Fault(cause) => self.fault(alloc, cause, ask.is_head(), close),
            says => {
                self.stand(close);
                let shape = whole_shape(says, role, heard);
                self.begin(alloc, role, opening(ask, role, shape, close), heard)
            }
        }
    }

    fn end_reply(&mut self, begun: Begun) {
        self.stand(begun.close);
        if begun.shape == Shape::Chunked {
            return self.write(b"0\r\n\r\n");
        }
    }

    // The reply goes on, or begins where that is due: more than 8,192 bytes of output, or a Tick after its header.
    fn stream(&mut self, alloc: Global, story: &Story, ask: &Ask, role: &Role, kid: Kid) {
        if let Some(begun) = self.begun {
            return self.go_on(alloc, role, begun, kid.heard);
        }
        let headed = kid.heard > 0 && kid.heard >= role.head;
        if !headed || !is_streamed(role.says) || kid.heard <= 8192 && !kid.ticked {
            return;
        }
        let close = self.closes_now(story, ask);
        let shape = if ask.old {
            Shape::ToClose
        } else {
            Shape::Chunked
        };
        self.begin(alloc, role, opening(ask, role, shape, close), kid.heard)
    }

    // Writes a reply from its head on, with what was heard of its body.
    fn begin(&mut self, alloc: Global, role: &Role, begun: Begun, heard: usize) {
        let mut bytes = Parts::new(alloc);
        self.push_head(&mut bytes, role, begun);
        self.push_heard(&mut bytes, role, begun, heard);
        self.write_parts(&bytes)
    }

    fn go_on(&mut self, alloc: Global, role: &Role, begun: Begun, heard: usize) {
        let mut bytes = Parts::new(alloc);
        self.push_heard(&mut bytes, role, begun, heard);
        self.write_parts(&bytes)
    }

    // Says the head of a reply, and adds it.
    fn push_head(&mut self, bytes: &mut Parts, role: &Role, begun: Begun) {
        if let Says::Reply {
            line,
            fields,
            dated,
            ..
        } = role.says
        {
            let front = Front {
                line,
                fields,
                date: if dated { None } else { self.secs },
                shape: begun.shape,
                close: begun.close,
            };
            push_front(bytes, &front);
        }
        self.told.said.add_parts(bytes)
    }

    // Says what was heard of the body since, and adds it.
    fn push_heard(&mut self, bytes: &mut Parts, role: &Role, begun: Begun, heard: usize) {
        self.begun = Some(Begun {
            sent: heard,
            ..begun
        });
        if !begun.bodied {
            return;
        }
        let part = role
            .output
            .as_slice()
            .get(begun.sent..heard)
            .unwrap_or(NO_BYTES);
        self.told.said.add(part);
        push_part(bytes, begun.shape, part)
    }

    // ---- what is done with the child

    fn serve_kid(&mut self, story: &Story, kid: &mut Kid) {
        let reading = self.reading(story);
        let room = self.has_room();
        let (came, whole) = match kid.hop {
            0 => (reading.body, reading.whole),
            _ => (0, true),
        };
        self.feed(story, kid, came);
        self.end_input(kid, came, whole);
        self.end_run(kid);
        self.ask_on(kid, room)
    }

    pub fn serve(&mut self, story: &Story) {
        let Some(mut kid) = self.kid else {
            return;
        };
        self.serve_kid(story, &mut kid);
        self.kid = Some(kid);
    }

    fn feed(&mut self, story: &Story, kid: &mut Kid, came: usize) {
        let count = kid.feed_due(came);
        if count == 0 {
            return;
        }
        let from = kid.fed;
        kid.fed = from.saturating_add(count);
        let part = body_part(story, self.number, from, kid.fed);
        self.told.feed(kid.number, part)
    }

    fn end_input(&mut self, kid: &mut Kid, came: usize, whole: bool) {
        if !kid.must_end_input(came, whole) {
            return;
        }
        kid.input_over = true;
        self.told.act("EndInput", kid.number)
    }

    fn end_run(&mut self, kid: &mut Kid) {
        if kid.must_kill() {
            kid.killed = true;
            self.told.act("Kill", kid.number);
        }
        if kid.must_release() {
            kid.output_over = true;
            self.told.act("Release", kid.number);
        }
    }

    fn ask_on(&mut self, kid: &mut Kid, room: bool) {
        if !kid.must_ask(room) {
            return;
        }
        kid.asked = true;
        self.told.ask_child(kid.number)
    }
}

fn body_part<'a>(story: &'a Story, place: usize, from: usize, to: usize) -> &'a [u8] {
    match story.ask(place) {
        Some(ask) => ask.body.as_slice().get(from..to).unwrap_or(NO_BYTES),
        None => NO_BYTES,
    }
}
