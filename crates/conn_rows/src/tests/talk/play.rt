// How many bytes a text and a line may have, and what is heard by a talk with its child.
use super::recorder::{CHILD, CONN, Recorder};
use child_core::{Ending, Run};
use host_base::{Limits, ScriptKind};
use host_trace::{Act, Event, Outside, Why};
use std::alloc::Global;
use talk_core::Talk;

/// One talk with its child. The rest of its connection is played here: it asks for the client, and is shut.
#[derive(Drop)]
pub struct Played {
    talk: Talk,
    run: Run,
    asked: bool,
    shut: bool,
    pub out: Recorder,
}

// An event of the WebSocket answers what was asked.
fn answers(event: &Event) -> bool {
    match event {
        Event::WsText { c, .. }
        | Event::WsBinary { c }
        | Event::WsClosed { c }
        | Event::WsBad { c } => *c == CONN,
        _ => false,
    }
}

fn why_of(event: &Event) -> Why {
    match event {
        Event::ClientGone { .. } | Event::WsBad { .. } => Why::Gone,
        Event::NoRoom { .. } => Why::NoMemory,
        Event::Stop => Why::Stopped,
        _ => Why::Done,
    }
}

impl Played {
    pub fn new(alloc: Global, limit: u64, refused: Option<u32>) -> Self {
        let limits = Limits {
            ws_text: limit,
            ..Limits::default()
        };
        Played {
            talk: Talk::new(alloc, CONN, CHILD, &limits),
            run: Run::new(alloc, CHILD, ScriptKind::WebSocket, &limits),
            asked: false,
            shut: false,
            out: Recorder::new(alloc, refused),
        }
    }

    // Memory ran out.
    fn give_up(&mut self) -> Why {
        self.run.end_by(Ending::Dropped);
        self.talk.shut();
        Why::NoMemory
    }

    // What the talk and its run do at an event, and why the connection is to be shut where it is.
    fn turn(&mut self, event: &Event) -> Why {
        let mut why = why_of(event);
        if self.run.is_websocket() {
            let heard = self.talk.hear(event, &mut self.run).is_ok();
            let counted = self.talk.texts_len().is_some();
            if !heard || !counted || self.talk.act(&mut self.out).is_err() {
                why = self.give_up();
            }
        }
        if self.run.act(true, &mut self.out).is_err() {
            why = self.give_up();
            let _ = self.run.act(true, &mut self.out);
        }
        why
    }

    pub fn step(&mut self, event: &Event) {
        let answers = answers(event);
        if !self.run.fits(event) || answers && (self.shut || !self.asked) {
            return;
        }
        self.asked = self.asked && !answers;
        let why = self.turn(event);
        if self.shut {
            return;
        }
        if self.talk.is_over() {
            self.shut = true;
            let _ = self.out.act(&Act::Shut { c: CONN, why });
        } else if self.run.wants_text() && !self.asked {
            self.asked = true;
            let _ = self.out.act(&Act::WantClient { c: CONN });
        }
    }

    /// Hears the events of a row.
    pub fn hear(&mut self, events: &[Option<Event>]) {
        for event in events {
            match event {
                None => self.out.log.push("--\n"),
                Some(event) => self.step(event),
            }
        }
    }
}
