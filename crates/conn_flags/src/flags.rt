// The flags of one connection.
ghost use Rattle.std.specs.Prelude.{◌≡◌};

use host_trace::Event;
use std::marker::Model;

/// What a connection was told and what was done with it, from before it is accepted on. No call takes memory.
#[derive(Drop, Debug)]
pub struct Flags {
    c: u64,
    accepted: bool,
    stopped: bool,
    gone: bool,
    shut: bool,
    no_room: bool,
    asked: bool,
    ended: bool,
    upgraded: bool,
    pending: u64,
}

impl Model for Flags {
    ghost use Rattle.conn_flags.specs.View.{View};

    ghost Value = { View };

    ghost view = { λ m. record { c = m.c; accepted = m.accepted; stopped = m.stopped; gone = m.gone; shut = m.shut; no_room = m.no_room; asked = m.asked; ended = m.ended; upgraded = m.upgraded; pending = m.pending } };
}

impl Flags {
    ghost use Rattle.std.specs.Prelude.{◌≡◌, ◌<◌, ◌+◌, ◌^◌, ℕ, List, length, sum_by, nat_lt};
    ghost use Rattle.host_trace.specs.declared.items.Item.TheVariants.{In, Out};
    ghost use Rattle.host_trace.specs.declared.items.Act.TheVariants.{WantClient, Write, Shut, Upgrade, Says};
    ghost use Rattle.host_trace.specs.declared.items.Why.{Why};
    ghost use Rattle.conn_flags.specs.View.{fresh, noted, is_live, may_write, has_place, has_room};
    ghost use Rattle.conn_flags.specs.Fits.{fits_flags};

    /// Those of connection `c`, of which nothing is known yet.
    pub fn new(c: u64) -> Self
        ensures { result ≡ fresh c }
    {
        Flags {
            c,
            accepted: false,
            stopped: false,
            gone: false,
            shut: false,
            no_room: false,
            asked: false,
            ended: false,
            upgraded: false,
            pending: 0,
        }
    }

    /// Takes an event of the connection, Accepted or Stop into account; every other event changes nothing.
    pub fn hear(&mut self, ev: &Event)
        ensures { self.new ≡ noted self.old (In ev.now) }
    {
        match ev {
            Event::Accepted { .. } => self.accepted = true,
            Event::Stop => self.stopped = true,
            Event::ClientBytes { c, .. }
            | Event::WsText { c, .. }
            | Event::WsBinary { c }
            | Event::WsClosed { c } => self.asked = self.asked && self.c != *c,
            Event::ClientEof { c } => {
                self.asked = self.asked && self.c != *c;
                self.ended = self.ended || self.c == *c;
            }
            Event::WsBad { c } => {
                self.asked = self.asked && self.c != *c;
                self.gone = self.gone || self.c == *c;
            }
            Event::ClientGone { c } => self.gone = self.gone || self.c == *c,
            Event::NoRoom { c } => self.no_room = self.no_room || self.c == *c,
            Event::Wrote { c, n } => {
                if self.c == *c {
                    self.pending = self.pending.saturating_sub(*n);
                }
            }
            _ => {}
        }
    }

    /// Whether an event of the connection, its Accepted or Stop may come next; true for every other event.
    pub fn fits(&self, ev: &Event) -> bool
        ensures { result ≡ fits_flags self.now ev.now }
    {
        let asked = !self.shut && !self.upgraded && self.asked;
        let asked_upgraded = !self.shut && self.upgraded && self.asked;
        match ev {
            Event::Accepted { .. } => !self.stopped && !self.accepted,
            Event::Stop => !self.stopped,
            Event::ClientBytes { c, bytes } => {
                let len = bytes.len();
                self.c != *c || asked && 0 < len && len <= 65_536
            }
            Event::ClientEof { c } => self.c != *c || asked,
            Event::WsText { c, .. }
            | Event::WsBinary { c }
            | Event::WsClosed { c }
            | Event::WsBad { c } => self.c != *c || asked_upgraded,
            Event::ClientGone { c } | Event::NoRoom { c } => {
                self.c != *c || self.accepted && !self.shut
            }
            Event::Wrote { c, n } => { self.c != *c || !self.shut && 1 <= *n && *n <= self.pending }
            _ => true,
        }
    }

    /// Its client is asked.
    pub fn ask(&mut self)
        ensures { self.new ≡ noted self.old (Out (WantClient self.old.c)) }
    {
        self.asked = true;
    }

    /// So many bytes are written for it. After an upgrade they count nothing.
    pub fn write(&mut self, len: u64)
        requires { self.old.pending + len < 2 ^ 64 }
        ensures { (bytes : List ℕ) → length bytes ≡ len → self.new ≡ noted self.old (Out (Write self.old.c bytes)) }
    {
        if !self.upgraded {
            self.pending += len;
        }
    }

    /// It is shut.
    pub fn shut(&mut self)
        ensures { (why : Why) → self.new ≡ noted self.old (Out (Shut self.old.c why)) }
    {
        self.shut = true;
    }

    /// It speaks WebSocket from now on. What was written before counts nothing then.
    pub fn upgrade(&mut self)
        ensures { (rest : List ℕ) → self.new ≡ noted self.old (Out (Upgrade self.old.c rest)) }
    {
        if !self.upgraded {
            self.pending = 0;
        }
        self.upgraded = true;
    }

    /// Texts of so many bytes together are said over its WebSocket. Before an upgrade they count nothing.
    pub fn say(&mut self, len: u64)
        requires { self.old.pending + len < 2 ^ 64 }
        ensures { (texts : List (List ℕ)) → sum_by length texts ≡ len → self.new ≡ noted self.old (Out (Says self.old.c texts)) }
    {
        if self.upgraded {
            self.pending += len;
        }
    }

    /// Its number.
    pub fn c(&self) -> u64
        ensures { result ≡ self.now.c }
    {
        self.c
    }

    /// Stop was heard.
    pub fn is_stopped(&self) -> bool
        ensures { result ≡ self.now.stopped }
    {
        self.stopped
    }

    /// It failed, or a frame of its WebSocket was refused.
    pub fn is_gone(&self) -> bool
        ensures { result ≡ self.now.gone }
    {
        self.gone
    }

    /// It was shut.
    pub fn is_shut(&self) -> bool
        ensures { result ≡ self.now.shut }
    {
        self.shut
    }

    /// No memory was found to hear it.
    pub fn has_no_room(&self) -> bool
        ensures { result ≡ self.now.no_room }
    {
        self.no_room
    }

    /// Its client was asked and has not answered.
    pub fn is_asked(&self) -> bool
        ensures { result ≡ self.now.asked }
    {
        self.asked
    }

    /// Its client ended its input.
    pub fn has_ended(&self) -> bool
        ensures { result ≡ self.now.ended }
    {
        self.ended
    }

    /// It was accepted and is not shut.
    pub fn is_live(&self) -> bool
        ensures { result ≡ is_live self.now }
    {
        self.accepted && !self.shut
    }

    /// It was accepted, is not shut, and speaks HTTP.
    pub fn may_write(&self) -> bool
        ensures { result ≡ may_write self.now }
    {
        self.accepted && !self.shut && !self.upgraded
    }

    /// Not too much waits to be sent: 262,144 bytes at most, or it is shut.
    pub fn has_room(&self) -> bool
        ensures { result ≡ has_room self.now }
    {
        self.shut || self.pending <= 262_144
    }

    /// Whether so many bytes more may be written: 344,064 bytes wait to be sent at most, which are the 262,144 that may wait
    /// when output is asked for, a piece of it, and 16,384 for the head of a reply and what frames its body.
    pub fn has_place(&self, len: u64) -> bool
        ensures { result ≡ has_place self.now len }
    {
        len <= 344_064 && self.pending <= 344_064 - len
    }

    /// Whether so many bytes more can be counted with those that wait to be sent.
    pub fn can_count(&self, len: u64) -> bool
        ensures { result ≡ nat_lt (self.now.pending + len) (2 ^ 64) }
    {
        self.pending.checked_add(len).is_some()
    }
}
