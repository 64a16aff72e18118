// The connections of a loop and their children, as far as the log follows them.
ghost use Rattle.std.specs.Prelude.{◌≡◌};
ghost use Rattle.log_outside.specs.Follows.{remark_at, is_heard_of, is_done_of};

use crate::{Client, Stamp};
use host_base::{Launch, Limits, Peer, Text, Texts};
use host_trace::{Act, Event, Why};
use log_line::{Entry, Remark};
use std::alloc::Global;
use std::collections::HashMap;

/// The connections by their numbers, and the connection of each child whose output has not ended.
#[derive(Drop)]
pub struct Follower {
    alloc: Global,
    limits: Limits,
    clients: HashMap<u64, Client>,
    children: HashMap<u64, u64>,
    accepted: u64,
}

/// Whether the log follows the event.
pub fn is_heard_of(event: &Event) -> bool
    ensures { result ≡ is_heard_of event.now }
{
    matches!(
        event,
        Event::Accepted { .. }
            | Event::ClientBytes { .. }
            | Event::StartFailed { .. }
            | Event::StartFull { .. }
            | Event::ChildEof { .. }
            | Event::ChildBroken { .. }
    )
}

/// Whether it follows the act.
pub fn is_done_of(act: &Act) -> bool
    ensures { result ≡ is_done_of act.now }
{
    matches!(
        act,
        Act::Write { .. } | Act::Start { .. } | Act::Says { .. } | Act::Shut { .. }
    )
}

// What is remarked of a reply that goes on where its connection is shut, if not its own.
fn remark_at(why: Why) -> Option<Remark>
    ensures { result ≡ remark_at why }
{
    match why {
        Why::Done | Why::Idle | Why::Full => None,
        Why::Gone => Some(Remark::Gone),
        Why::Cut(cause) => Some(Remark::Cut(cause)),
        Why::Stopped => Some(Remark::Stopped),
        Why::NoMemory => Some(Remark::NoMemory),
    }
}

fn copied(alloc: Global, text: &Text) -> Text {
    match text.clone() {
        Ok(text) => text,
        Err(_) => Text::from_string(String::new(alloc)),
    }
}

fn total(texts: &Texts) -> u64 {
    let mut total = 0_u64;
    for text in texts.as_slice() {
        total = total.saturating_add(text.len() as u64);
    }
    total
}

impl Follower {
    /// Of a loop that heard nothing.
    pub fn new(alloc: Global, limits: Limits) -> Self {
        Follower {
            alloc,
            limits,
            clients: HashMap::new(alloc),
            children: HashMap::new(alloc),
            accepted: 0,
        }
    }

    // For want of memory nothing is told of that connection.
    fn accept(&mut self, peer: &Peer) {
        let c = self.accepted;
        self.accepted = c.saturating_add(1);
        let client = Client::new(self.alloc, copied(self.alloc, &peer.0));
        let _ = self.clients.insert(c, client);
    }

    fn settle(&mut self, k: u64, now: Stamp) -> Option<Entry> {
        let alloc = self.alloc;
        let c = self.children.remove(&k)?;
        self.clients.get_mut(&c)?.settle(alloc, now)
    }

    fn start(&mut self, k: u64, c: u64, launch: &Launch, now: Stamp) {
        let script = copied(self.alloc, &launch.program);
        let _ = self.children.insert(k, c);
        if let Some(client) = self.clients.get_mut(&c) {
            client.open(self.alloc, &self.limits, now);
            client.start(script);
        }
    }

    fn write(&mut self, c: u64, bytes: &[u8], now: Stamp) -> Option<Entry> {
        let client = self.clients.get_mut(&c)?;
        if client.is_interim(bytes) {
            return None;
        }
        client.open(self.alloc, &self.limits, now);
        client.write(self.alloc, bytes, now)
    }

    fn shut(&mut self, c: u64, why: Why, now: Stamp) -> Option<Entry> {
        let mut client = self.clients.remove(&c)?;
        client.close(self.alloc, remark_at(why), now)
    }

    /// Hears an event, and tells of the reply that ends by it.
    pub fn hear(&mut self, event: &Event, now: Stamp) -> Option<Entry> {
        match event {
            Event::Accepted { peer } => self.accept(peer),
            Event::ClientBytes { c, bytes } => {
                if let Some(client) = self.clients.get_mut(c) {
                    client.hear(bytes.as_slice(), now);
                }
            }
            Event::StartFailed { k }
            | Event::StartFull { k, .. }
            | Event::ChildEof { k }
            | Event::ChildBroken { k } => return self.settle(*k, now),
            _ => {}
        }
        None
    }

    /// Follows an act that was done, and tells of the reply that ends by it.
    pub fn follow(&mut self, act: &Act, now: Stamp) -> Option<Entry> {
        match act {
            Act::Start { k, c, launch, .. } => {
                self.start(*k, *c, launch, now);
                None
            }
            Act::Write { c, bytes } => self.write(*c, bytes.as_slice(), now),
            Act::Says { c, texts } => {
                let count = total(texts);
                if let Some(client) = self.clients.get_mut(c) {
                    client.say(count);
                }
                None
            }
            Act::Shut { c, why } => self.shut(*c, *why, now),
            _ => None,
        }
    }
}
