// An outside that writes down what it is asked for, and tells no trace.
ghost use Rattle.std.specs.Prelude.{None};

use super::super::parts::Parts;
use host_base::Text;
use host_trace::{Act, Acted, Event, Outside, Why};
use std::alloc::Global;

/// The connection and its child. Acts on others are written down as such.
pub const CONN: u64 = 3;

pub const CHILD: u64 = 5;

// Longer ones are written down by their number of bytes.
const SHOWN: usize = 40;

#[derive(Drop)]
pub struct Recorder {
    pub log: Parts,
    // All messages and the codes of close frames, whatever acts they came by.
    pub said: Parts,
    // Acts that carry something, so far.
    pub carried: u32,
    // The one of them that finds no room.
    refused: Option<u32>,
}

fn why_text(why: Why) -> &'static str {
    match why {
        Why::Done => "Shut Done",
        Why::Gone => "Shut Gone",
        Why::Stopped => "Shut Stopped",
        Why::NoMemory => "Shut NoMemory",
        Why::Cut(_) | Why::Idle | Why::Full => "Shut ?",
    }
}

// A text in brackets.
fn push_text(log: &mut Parts, text: &[u8]) {
    log.push("<");
    if text.len() > SHOWN {
        log.push_number(text.len() as u64);
        log.push(" bytes");
    } else {
        log.add(text);
    }
    log.push(">");
}

fn push_texts(log: &mut Parts, texts: &[Text]) {
    for text in texts {
        push_text(log, text.as_str().as_bytes());
    }
}

fn push_code(log: &mut Parts, code: u16) {
    log.push("CloseWs ");
    log.push_number(u64::from(code));
}

// What the act is of.
fn is_of(act: &Act) -> bool {
    match act {
        Act::WantClient { c }
        | Act::Write { c, .. }
        | Act::Shut { c, .. }
        | Act::Start { c, .. }
        | Act::Upgrade { c, .. }
        | Act::Says { c, .. }
        | Act::CloseWs { c, .. } => *c == CONN,
        Act::Feed { k, .. }
        | Act::EndInput { k }
        | Act::WantChild { k }
        | Act::Kill { k }
        | Act::Release { k } => *k == CHILD,
    }
}

// An act that carries nothing.
fn act_text(act: &Act) -> &'static str {
    match act {
        Act::Shut { why, .. } => why_text(*why),
        Act::WantClient { .. } => "WantClient",
        Act::EndInput { .. } => "EndInput",
        Act::WantChild { .. } => "WantChild",
        Act::Kill { .. } => "Kill",
        Act::Release { .. } => "Release",
        _ => "?",
    }
}

impl Recorder {
    pub fn new(alloc: Global, refused: Option<u32>) -> Self {
        Recorder {
            log: Parts::new(alloc),
            said: Parts::new(alloc),
            carried: 0,
            refused,
        }
    }

    pub fn is_lost(&self) -> bool {
        self.log.is_lost() || self.said.is_lost()
    }

    fn refuses(&mut self) -> bool {
        let at = self.carried;
        self.carried = at.saturating_add(1);
        self.refused == Some(at)
    }

    fn note(&mut self, act: &Act) {
        match act {
            Act::Says { texts, .. } => {
                self.log.push("Says ");
                push_texts(&mut self.log, texts.as_slice());
                push_texts(&mut self.said, texts.as_slice());
            }
            Act::CloseWs { code, .. } => {
                push_code(&mut self.log, *code);
                push_code(&mut self.said, *code);
            }
            Act::Feed { bytes, .. } => {
                self.log.push("Feed ");
                push_text(&mut self.log, bytes.as_slice());
            }
            _ => self.log.push(act_text(act)),
        }
        self.log.push("\n");
    }
}

impl Outside for Recorder {
    ghost trace = { λ o. None };

    ghost faults = { λ o. 0 };

    ghost full_books = { λ o. 0 };

    ghost limit = { λ o. 64 };

    fn next(&mut self) -> Event {
        Event::Stop
    }

    fn act(&mut self, act: &Act) -> Acted {
        let carries = matches!(act, Act::Feed { .. } | Act::Says { .. });
        if carries && self.refuses() {
            return Acted::NoRoom;
        }
        if !is_of(act) {
            self.log.push("of another: ");
        }
        self.note(act);
        Acted::Done
    }
}
