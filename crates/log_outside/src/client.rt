// One connection, as far as the log follows it.
ghost use Rattle.std.specs.Prelude.{◌≡◌};
ghost use Rattle.log_outside.specs.Clients.{entry_of};

use crate::{Exchange, Heard};
use host_base::{Bytes, Limits, Text};
use log_line::{Entry, Remark, request_line};
use std::alloc::Global;

const CONTINUE: &[u8] = b"HTTP/1.1 100 Continue\r\n\r\n";

/// What the clocks show: Unix seconds, and milliseconds since some start, which never go back.
#[derive(Clone, Copy, Debug, PartialEq, Eq)]
pub struct Stamp {
    pub secs: u64,
    pub millis: u64,
}

/// A connection: what was heard of it, when its next request began, and the exchange that goes on.
#[derive(Drop, Debug)]
pub struct Client {
    pub peer: Text,
    pub heard: Heard,
    pub began: Option<Stamp>,
    pub exchange: Option<Exchange>,
}

impl Client {
    ghost use Rattle.std.specs.Prelude.{◌≡◌, None, Some, IfSome, is_some, true};
    ghost use Rattle.log_outside.specs.Clients.{Closes, Opens, begun_at};

    pub fn new(alloc: Global, peer: Text) -> Self
        ensures { (result.peer ≡ peer) × (result.began ≡ None) × (result.exchange ≡ None) }
    {
        Client {
            peer,
            heard: Heard::new(alloc),
            began: None,
            exchange: None,
        }
    }

    /// Bytes of the client came.
    pub fn hear(&mut self, bytes: &[u8], now: Stamp)
        ensures began { self.new.began ≡ Some (begun_at self.old.began now) }
        ensures same { (self.new.peer ≡ self.old.peer) × (self.new.exchange ≡ self.old.exchange) }
    {
        self.heard.hear(bytes);
        if self.began.is_none() {
            self.began = Some(now);
        }
    }

    // An exchange with the request that stands at the front of what was heard.
    fn next_exchange(&mut self, alloc: Global, limits: &Limits, now: Stamp) -> Exchange
        ensures opens { Opens self.old.heard.bytes (begun_at self.old.began now) result }
        ensures same { (self.new.peer ≡ self.old.peer) × (self.new.began ≡ self.old.began) × (self.new.exchange ≡ self.old.exchange) }
    {
        let request = match Bytes::from_slice(alloc, request_line(self.heard.bytes.as_slice())) {
            Ok(line) => line,
            Err(_) => Bytes::new(alloc),
        };
        self.heard.take_request(alloc, limits);
        Exchange::new(alloc, self.began.unwrap_or(now), request)
    }

    /// Something is done for the request that goes on, or for the next one.
    pub fn open(&mut self, alloc: Global, limits: &Limits, now: Stamp)
        ensures there { is_some self.new.exchange ≡ true }
        ensures kept { is_some self.old.exchange ≡ true → self.new ≡ self.old }
        ensures opened { self.old.exchange ≡ None → IfSome self.new.exchange (Opens self.old.heard.bytes (begun_at self.old.began now)) }
        ensures peer { self.new.peer ≡ self.old.peer }
    {
        if self.exchange.is_some() {
            return;
        }
        let exchange = self.next_exchange(alloc, limits, now);
        self.exchange = Some(exchange);
    }

    /// The exchange that goes on is over, with this remark, or its own where there is none.
    pub fn close(&mut self, alloc: Global, remark: Option<Remark>, now: Stamp) -> Option<Entry>
        ensures entry { Closes remark now self.old result }
        ensures none { self.new.exchange ≡ None }
        ensures peer { self.new.peer ≡ self.old.peer }
    {
        let exchange = self.exchange.take()?;
        self.began = if self.heard.bytes.is_empty() {
            None
        } else {
            Some(now)
        };
        let peer = match self.peer.clone() {
            Ok(peer) => peer,
            Err(_) => Text::from_string(String::new(alloc)),
        };
        Some(entry_of(peer, exchange, remark, now))
    }
}

impl Client {
    ghost use Rattle.std.specs.Prelude.{◌≡◌};
    ghost use Rattle.log_outside.specs.Clients.{is_interim};

    /// A script was started for its exchange.
    pub fn start(&mut self, script: Text)
        ensures peer { self.new.peer ≡ self.old.peer }
    {
        if let Some(exchange) = &mut self.exchange {
            exchange.start(script);
        }
    }

    /// The output of its script has ended.
    pub fn settle(&mut self, alloc: Global, now: Stamp) -> Option<Entry>
        ensures peer { self.new.peer ≡ self.old.peer }
    {
        let exchange = self.exchange.as_mut()?;
        exchange.settle();
        if exchange.is_over_at_end() {
            self.close(alloc, None, now)
        } else {
            None
        }
    }

    /// Bytes were written for its exchange.
    pub fn write(&mut self, alloc: Global, bytes: &[u8], now: Stamp) -> Option<Entry>
        ensures peer { self.new.peer ≡ self.old.peer }
    {
        let exchange = self.exchange.as_mut()?;
        exchange.write(bytes);
        if exchange.is_over() {
            self.close(alloc, None, now)
        } else {
            None
        }
    }

    /// So many bytes were said on its WebSocket.
    pub fn say(&mut self, count: u64)
        ensures peer { self.new.peer ≡ self.old.peer }
    {
        if let Some(exchange) = &mut self.exchange {
            exchange.add(count);
        }
    }

    /// Whether these bytes are an answer to come, 100 Continue (RFC 9110 15.2.1), and none of a reply.
    pub fn is_interim(&self, bytes: &[u8]) -> bool
        ensures { result ≡ is_interim self.now.exchange bytes.now }
    {
        let has_reply = match &self.exchange {
            Some(exchange) => exchange.has_reply,
            None => false,
        };
        !has_reply && bytes == CONTINUE
    }
}

// What is told of an exchange that ends now.
fn entry_of(peer: Text, exchange: Exchange, remark: Option<Remark>, now: Stamp) -> Entry
    ensures { result ≡ entry_of peer exchange remark now }
{
    Entry {
        peer,
        began: exchange.began.secs,
        request: exchange.request,
        status: exchange.status,
        bytes: exchange.bytes,
        script: exchange.script,
        millis: now.millis.saturating_sub(exchange.began.millis),
        remark: remark.unwrap_or(exchange.remark),
        dropped: 0,
    }
}
