// How the plain program goes on: exchange after exchange, and step by step.
use super::super::super::kid::Kid;
use super::super::asks::Ask;
use super::super::launch::push_launch;
use super::super::site::{Place, REDIRECTS, Target};
use super::super::story::Story;
use super::Plain;
use host_base::Cause;
use host_trace::Event;
use std::alloc::Global;

impl Plain {
    // Where the answer stands whole and the child is settled the next exchange begins.
    fn settle(&mut self, story: &Story) -> bool {
        if !self.done || !self.is_settled() {
            return false;
        }
        if let Some(ask) = story.ask(self.number) {
            self.base = self.base.saturating_add(ask.bytes.len());
        }
        self.number = self.number.saturating_add(1);
        self.idle = 0;
        self.continued = false;
        self.broken = None;
        self.begun = None;
        self.done = false;
        self.kid = None;
        true
    }

    // Begins what waits for its turn.
    fn begin_hop(&mut self, alloc: Global, story: &Story) {
        let may = self.is_open(story) && !self.done && self.is_settled() && self.has_room();
        match story.ask(self.number) {
            Some(ask) if may => self.begin_due(alloc, story, ask),
            _ => {}
        }
    }

    fn begin_due(&mut self, alloc: Global, story: &Story, ask: &Ask) {
        let close = ask.old || ask.close || !self.reading(story).whole;
        match self.due(story, ask) {
            Some((target, hop)) => self.begin_at(alloc, ask, target, hop, close),
            None => {}
        }
    }

    fn begin_at(&mut self, alloc: Global, ask: &Ask, target: &Target, hop: usize, close: bool) {
        match target.place {
            _ if hop > REDIRECTS => self.fault(alloc, Cause::RedirectLoop, ask.is_head(), close),
            Place::Refused(cause) => self.fault(alloc, cause, ask.is_head(), close),
            Place::Runs { program, .. } => self.start(ask, target, hop, program),
        }
    }

    fn start(&mut self, ask: &Ask, target: &Target, hop: usize, program: &str) {
        push_launch(&mut self.told.launched, ask, target, hop);
        self.told
            .start(self.kids, self.number as u64, hop as u64, program);
        self.kid = Some(Kid::new(self.kids, hop, false));
        self.kids = self.kids.saturating_add(1);
    }

    // Answers, handles the child, and goes on with the next exchange where one ended; false where none did.
    fn turn(&mut self, alloc: Global, story: &Story) -> bool {
        self.answer(alloc, story);
        if self.settle(story) {
            return true;
        }
        self.serve(story);
        if self.settle(story) {
            return true;
        }
        self.begin_hop(alloc, story);
        self.settle(story)
    }

    fn close(&mut self, story: &Story) {
        if !self.accepted || self.shut {
            return;
        }
        if let Some(why) = self.why(story) {
            self.shut = true;
            self.told.shut(why);
        }
    }

    fn want(&mut self, story: &Story) {
        if self.is_open(story) && self.has_room() && !self.asked && self.must_hear(story) {
            self.asked = true;
            self.told.ask_client();
        }
    }

    fn turns(&mut self, alloc: Global, story: &Story) {
        for _ in 0..=story.asks.len() {
            if !self.turn(alloc, story) {
                return;
            }
        }
    }

    // One step: the event, and the acts that are due.
    pub fn step(&mut self, alloc: Global, story: &Story, event: &Event) {
        self.hear(story, event);
        // an event may settle the child of an answer that stands
        let _next = self.settle(story);
        self.turns(alloc, story);
        self.close(story);
        self.want(story);
        self.told.mark()
    }
}
