// The model's answer, computed step by step by the plain rules: slow and simple. Here stands what it knows and hears.
mod acts;
mod turns;

use super::super::kid::{By, Kid};
use super::super::told::Told;
use super::asks::{Ask, Bad, Sized};
use super::reply::Shape;
use super::roles::{Role, Says, meaning};
use super::site::{IDLE_TICKS, Target};
use super::story::Story;
use host_base::Cause;
use host_trace::Event;
use std::alloc::Global;

const HIGH: usize = 262_144;

// What was heard of a request.
#[derive(Clone, Copy)]
struct Reading {
    begun: bool,
    headed: bool,
    whole: bool,
    bad: Option<Bad>,
    // So much of its body.
    body: usize,
}

const NOTHING: Reading = Reading {
    begun: false,
    headed: false,
    whole: false,
    bad: None,
    body: 0,
};

// A reply that has begun.
#[derive(Clone, Copy)]
struct Begun {
    shape: Shape,
    close: bool,
    // Its body is written.
    bodied: bool,
    // So much of the output was written.
    sent: usize,
}

#[derive(Drop)]
pub struct Plain {
    pub told: Told,
    pub accepted: bool,
    // The client was asked, and how much it sent.
    pub asked: bool,
    pub got: usize,
    pub ended: bool,
    pub gone: bool,
    pub lost: bool,
    pub stopped: bool,
    pub shut: bool,
    pub left: usize,
    secs: Option<u64>,
    idle: u32,
    idled: bool,
    cut: Option<Cause>,
    closing: bool,
    // The exchange that goes on, and how many bytes the earlier ones used.
    pub number: usize,
    base: usize,
    continued: bool,
    broken: Option<Cause>,
    begun: Option<Begun>,
    // Its answer stands whole.
    done: bool,
    kids: u64,
    pub kid: Option<Kid>,
}

fn body_heard(ask: &Ask, rest: usize, whole: bool) -> usize {
    if ask.sized == Sized::Length {
        rest.saturating_sub(ask.head).min(ask.body.len())
    } else if whole {
        ask.body.len()
    } else {
        0
    }
}

fn bad_heard(ask: &Ask, rest: usize) -> Option<Bad> {
    match ask.bad {
        Some(bad) if rest >= bad.at => Some(bad),
        _ => None,
    }
}

// What so many bytes are of a request.
fn read(ask: &Ask, rest: usize) -> Reading {
    let refused = ask.bad.is_some();
    let whole = !refused && rest >= ask.bytes.len();
    Reading {
        begun: rest > ask.lead,
        headed: !refused && rest >= ask.head,
        whole,
        bad: bad_heard(ask, rest),
        body: body_heard(ask, rest, whole),
    }
}

fn runs_nph(role: Option<&Role>) -> bool {
    match role {
        Some(role) => role.nph,
        None => false,
    }
}

fn header_of(role: Option<&Role>) -> usize {
    match role {
        Some(role) => role.head,
        None => 0,
    }
}

impl Plain {
    pub fn new(alloc: Global) -> Self {
        Plain {
            told: Told::new(alloc),
            accepted: false,
            asked: false,
            got: 0,
            ended: false,
            gone: false,
            lost: false,
            stopped: false,
            shut: false,
            left: 0,
            secs: None,
            idle: 0,
            idled: false,
            cut: None,
            closing: false,
            number: 0,
            base: 0,
            continued: false,
            broken: None,
            begun: None,
            done: false,
            kids: 0,
            kid: None,
        }
    }

    // ---- what is the case

    // How many bytes no earlier request used.
    pub fn rest(&self) -> usize {
        self.got.saturating_sub(self.base)
    }

    fn reading(&self, story: &Story) -> Reading {
        match story.ask(self.number) {
            Some(ask) => read(ask, self.rest()),
            None => NOTHING,
        }
    }

    pub fn role<'a>(&self, story: &'a Story) -> Option<&'a Role> {
        match &self.kid {
            Some(kid) => story.role(self.number, kid.hop),
            None => None,
        }
    }

    pub fn kid_number(&self) -> u64 {
        match &self.kid {
            Some(kid) => kid.number,
            None => 0,
        }
    }

    // How much its child wrote.
    pub fn heard(&self) -> usize {
        match &self.kid {
            Some(kid) => kid.heard,
            None => 0,
        }
    }

    pub fn waits(&self) -> usize {
        self.told.wrote.len().saturating_sub(self.left)
    }

    fn has_room(&self) -> bool {
        self.shut || self.waits() <= HIGH
    }

    pub fn is_settled(&self) -> bool {
        match &self.kid {
            Some(kid) => kid.is_settled(),
            None => true,
        }
    }

    // Nothing was done for the request.
    fn is_untouched(&self) -> bool {
        self.kid.is_none() && !self.done
    }

    // The client ended its input between requests.
    fn is_client_done(&self, story: &Story) -> bool {
        self.ended && self.is_untouched() && !self.reading(story).begun
    }

    fn is_ended(&self) -> bool {
        self.stopped || self.gone || self.lost || self.idled || self.closing || self.cut.is_some()
    }

    fn is_open(&self, story: &Story) -> bool {
        self.accepted && !self.shut && !self.is_ended() && !self.is_client_done(story)
    }

    // Whether an answer that begins now closes the connection (RFC 9112 9.3 and 9.6).
    fn closes_now(&self, story: &Story, ask: &Ask) -> bool {
        ask.old || ask.close || runs_nph(self.role(story)) || !self.reading(story).whole
    }

    // A request may be started: it stands whole, or its body comes by its length.
    fn is_due(&self, ask: &Ask, reading: Reading) -> bool {
        let known = ask.sized == Sized::Length || reading.whole;
        reading.headed && known && self.broken.is_none()
    }

    // Where its output leads next, once it has ended.
    fn hop(&self, story: &Story, kid: &Kid) -> Option<&'static Target> {
        let role = self.role(story)?;
        match meaning(role, kid.heard) {
            Says::Hop(to) if kid.by == Some(By::End) => Some(to),
            _ => None,
        }
    }

    // Where the request, or a local redirect, leads next, and as which hop.
    fn due(&self, story: &Story, ask: &Ask) -> Option<(&'static Target, usize)> {
        match &self.kid {
            Some(kid) => Some((self.hop(story, kid)?, kid.hop.saturating_add(1))),
            None if self.is_due(ask, self.reading(story)) => Some((ask.target, 0)),
            None => None,
        }
    }

    fn why(&self, story: &Story) -> Option<&'static str> {
        if self.lost {
            Some("NoMemory")
        } else if self.stopped {
            Some("Stopped")
        } else if self.gone {
            Some("Gone")
        } else if let Some(cause) = self.cut {
            Some(cause.text())
        } else if self.idled {
            Some("Idle")
        } else if self.closing || self.is_client_done(story) {
            Some("Done")
        } else {
            None
        }
    }

    // Whether the client is to be heard: within a request that nothing was done for, or within a body that is fed.
    fn must_hear(&self, story: &Story) -> bool {
        let reading = self.reading(story);
        match &self.kid {
            None => !self.done && !reading.whole && !self.ended,
            Some(kid) => {
                kid.hop == 0 && kid.by.is_none() && !reading.whole && kid.taken == kid.fed
            }
        }
    }

    // ---- what is heard

    fn hear_kid(&mut self, event: &Event) {
        if let Some(kid) = &mut self.kid {
            kid.hear(event);
        }
    }

    fn hear_client(&mut self, story: &Story, event: &Event) {
        match event {
            Event::Accepted { .. } => {
                self.accepted = true;
                self.idle = 0;
            }
            Event::ClientBytes { bytes, .. } => {
                self.asked = false;
                self.idle = 0;
                self.got = self.got.saturating_add(bytes.len());
            }
            Event::ClientEof { .. } => self.hear_end(story),
            Event::Wrote { n, .. } => {
                let count = usize::try_from(*n).unwrap_or(0);
                self.left = self.left.saturating_add(count);
            }
            Event::Tick { secs } => self.hear_tick(story, *secs),
            _ => {}
        }
    }

    // The end of the client's input breaks a request that has begun and is not whole (RFC 9112 8).
    fn hear_end(&mut self, story: &Story) {
        self.asked = false;
        self.ended = true;
        let reading = self.reading(story);
        if reading.whole {
            return;
        }
        match &mut self.kid {
            Some(kid) if kid.hop == 0 => kid.decide(By::Failed(Cause::Incomplete)),
            Some(_) => {}
            None => self.break_off(reading, Cause::Incomplete),
        }
    }

    fn break_off(&mut self, reading: Reading, cause: Cause) {
        if reading.begun && self.is_untouched() && self.broken.is_none() {
            self.broken = Some(cause);
        }
    }

    fn hear_tick(&mut self, story: &Story, secs: u64) {
        self.secs = Some(secs);
        let counts = self.accepted && !self.shut && self.is_settled();
        let head = header_of(self.role(story));
        if let Some(kid) = &mut self.kid {
            kid.tick(head);
        }
        if counts {
            self.idle = self.idle.saturating_add(1);
            self.idle_out(story);
        }
    }

    fn idle_out(&mut self, story: &Story) {
        if self.idle != IDLE_TICKS {
            return;
        }
        let reading = self.reading(story);
        if reading.begun {
            self.break_off(reading, Cause::IdleTime);
        } else {
            self.idled = true;
        }
    }

    fn leave(&mut self) {
        if let Some(kid) = &mut self.kid {
            kid.leave();
        }
    }

    fn hear(&mut self, story: &Story, event: &Event) {
        match event {
            Event::ClientGone { .. } => {
                self.gone = true;
                self.leave();
            }
            Event::NoRoom { .. } => {
                self.lost = true;
                self.leave();
            }
            Event::Stop => {
                self.stopped = true;
                self.leave();
            }
            _ => {
                self.hear_kid(event);
                self.hear_client(story, event);
            }
        }
    }
}
