// One client: its socket, and what waits to be sent to it and to be told of it.
ghost use Rattle.std.specs.Prelude.{◌≡◌, IfSome, IsNone};
ghost use Rattle.socket_set.specs.Clients.{SaysMessage, event_of, has_failed};

use super::{Outgoing, Ports, Received, Sent, Socket};
use host_base::{Bytes, NoMemory, Text};
use host_trace::Event;
use std::alloc::Global;
use std::collections::VecDeque;
use std::marker::Model;
use ws_link::{Link, Linked, Said};

// After Shut, so many ticks without a byte that leaves are the end.
const STILL_TICKS: u32 = 150;

// .. and so many after its own end was sent, for what its client still sends.
const DRAIN_TICKS: u32 = 20;

// Where more bytes wait to be sent, no more is read of a WebSocket, whose pings are answered unasked.
const HIGH: usize = 524_288;

// Frames of a WebSocket that would make more bytes wait find no room. Texts with any bytes never do, since what may wait
// for a client is counted in these; a text of an empty line counts for nothing, and has a frame of two bytes.
const MOST: usize = 2_097_152;

/// What is still to be told of a client: the next events say so.
#[derive(Clone, Copy, Debug, PartialEq, Eq)]
pub enum Trouble {
    Gone,
    NoRoom,
}

/// A client that was accepted.
#[derive(Drop)]
pub struct Client<S: Socket> {
    socket: S,
    outgoing: Outgoing,
    // Bytes that were written, or said since it was upgraded, and not told to have left.
    untold: u64,
    wanted: bool,
    upgraded: bool,
    // Until it fails.
    link: Option<Link>,
    // What the link was fed may hold another message.
    unread: bool,
    // The socket may have bytes, or room for bytes. It was not asked since that was reported.
    may_receive: bool,
    may_send: bool,
    trouble: Option<Trouble>,
    shut: bool,
    // Its own end was sent.
    ended: bool,
    // So many ticks went by without a byte that left.
    still: u32,
    // It stands in the queue of those that are to be asked.
    queued: bool,
}

/// Who is to be asked.
#[derive(Clone, Copy, Debug, PartialEq, Eq)]
pub(crate) enum Due {
    Listener,
    Client(u64),
}

impl<S: Socket> Model for Client<S> {
    ghost use Rattle.std.specs.Prelude.{◌≡◌, IsSome, is_some, true, false};
    ghost use Rattle.socket_set.specs.Clients.{ClientState, state_of};

    ghost Value = { ClientState };

    ghost view = { λ r. state_of (S.tells r.socket) r.outgoing r.untold r.wanted r.upgraded (is_some r.trouble) r.shut };

    ghost invariant = { λ r.
        (IsSome r.link → r.upgraded ≡ true)
        × (r.may_receive ≡ false → (S.tells r.socket).dry ≡ true)
        × (r.may_send ≡ false → (S.tells r.socket).full ≡ true) };
}

impl<S: Socket> Client<S> {
    ghost use Rattle.std.specs.Prelude.{◌≡◌, ◌++◌, ◌+◌, ◌-◌, ◌^◌, ◌≤◌, ◌<◌, ◌==◌, [], true, false, None, min, length, sum_by, IfSome, IsNone, OnOk, OnErr};
    ghost use Rattle.socket_set.specs.Devices.{FailsUnless};
    ghost use Rattle.socket_set.specs.Clients.{Rests, Says, CountsFaults, UnlessShut, IsNewClient, Writes, Upgrades, Frames, Shuts, EndsHearing, is_plain, WantsMore, SameButUntold, IsUnwanted, Notes, Fails, SaysMessage, event_of, IsStill, IsStillOrShut, HasMuch, is_behind};

    /// A client of which nothing was heard.
    pub fn new(alloc: Global, socket: S) -> Self
        ensures { IsNewClient (S.tells socket) result }
    {
        Client {
            socket,
            outgoing: Outgoing::new(alloc),
            untold: 0,
            wanted: false,
            upgraded: false,
            link: None,
            unread: false,
            may_receive: true,
            may_send: true,
            trouble: None,
            shut: false,
            ended: false,
            still: 0,
            queued: false,
        }
    }

    /// One event of it is asked for.
    pub fn want(&mut self)
        ensures { UnlessShut WantsMore self.old self.new }
    {
        if !self.shut {
            self.wanted = true;
        }
    }

    /// Keeps bytes to be sent.
    pub fn write(&mut self, bytes: &[u8]) -> Result<(), NoMemory>
        ensures ok { OnOk result (UnlessShut (Writes bytes.now) self.old self.new) }
        ensures err { OnErr result (self.new ≡ self.old) }
    {
        if self.shut {
            return Ok(());
        }
        self.outgoing.push(bytes)?;
        self.untold = self.untold.saturating_add(bytes.len() as u64);
        Ok(())
    }

    /// It speaks WebSocket from `rest` on.
    pub fn upgrade(&mut self, alloc: Global, rest: &[u8]) -> Result<(), NoMemory>
        ensures ok { OnOk result (UnlessShut Upgrades self.old self.new) }
        ensures err { OnErr result (self.new ≡ self.old) }
    {
        if self.shut {
            return Ok(());
        }
        self.link = Some(Link::new(alloc, rest)?);
        self.upgraded = true;
        self.unread = true;
        self.untold = 0;
        Ok(())
    }

    /// Has the link send texts, each in a frame.
    pub fn say(&mut self, texts: &[Text])
        ensures { UnlessShut (Frames (sum_by length texts.now)) self.old self.new }
    {
        if !self.shut {
            self.say_all(texts);
        }
    }

    fn say_all(&mut self, texts: &[Text])
        ensures { Frames (sum_by length texts.now) self.old self.new }
    {
        for text in texts {
            self.say_one(text);
        }
        self.hand_on();
    }

    fn say_one(&mut self, text: &Text)
        ensures { Frames (length text.now) self.old self.new }
    {
        let Some(link) = &mut self.link else {
            return;
        };
        match link.say(text.as_str()) {
            Said::Done => self.untold = self.untold.saturating_add(text.len() as u64),
            Said::Refused => self.fail(Trouble::Gone),
            Said::NoMemory => self.fail(Trouble::NoRoom),
        }
    }

    /// Has the link send a close.
    pub fn close(&mut self, code: u16)
        ensures { UnlessShut (Frames 0) self.old self.new }
    {
        if !self.shut {
            self.send_close(code);
        }
    }

    fn send_close(&mut self, code: u16)
        ensures { Frames 0 self.old self.new }
    {
        if let Some(link) = &mut self.link {
            let _ = link.close(code);
        }
        self.hand_on();
    }

    // The link is of no use any more, and this is told next.
    fn fail(&mut self, trouble: Trouble)
        ensures { Fails self.old self.new }
    {
        self.link = None;
        self.trouble = Some(trouble);
    }

    // What the link has to be sent waits with the rest.
    fn hand_on(&mut self)
        ensures { Frames 0 self.old self.new }
    {
        let Some(link) = &mut self.link else {
            return;
        };
        let frames = link.take_out();
        if !self.has_room_for(frames.len()) || self.outgoing.push(frames.as_slice()).is_err() {
            self.fail(Trouble::NoRoom);
        }
    }

    fn has_room_for(&self, count: usize) -> bool {
        self.outgoing.len().saturating_add(count) <= MOST
    }

    /// It is over. What waits is still sent; where nothing does its end is sent at once.
    pub fn shut(&mut self)
        ensures { Shuts self.old self.new }
    {
        self.shut = true;
        self.still = 0;
        self.end_where_sent();
    }

    /// What its client sends from now on is not heard, but an end of it, unless it speaks WebSocket.
    pub fn end_hearing(&mut self)
        ensures { EndsHearing self.old self.new }
    {
        if self.is_plain() {
            self.socket.end_receiving();
            self.may_receive = true;
        }
    }

    fn is_plain(&self) -> bool
        ensures { result ≡ is_plain self.now }
    {
        !self.shut && !self.upgraded
    }

    // Sends its own end, once nothing waits.
    fn end_where_sent(&mut self)
        ensures { self.new ≡ self.old }
    {
        if self.outgoing.is_empty() && !self.ended {
            self.socket.end_sending();
            self.ended = true;
        }
    }

    /// It was reported that its socket may have bytes or room for them, or that it failed.
    pub fn note(&mut self, failed: bool)
        ensures { Notes failed self.old self.new }
    {
        self.may_receive = true;
        self.may_send = true;
        if failed && !self.shut {
            self.trouble = Some(Trouble::Gone);
        }
    }

    /// Has it stand in the queue of those that are to be asked, if it has anything to say or to do.
    pub(crate) fn enqueue(&mut self, due: &mut VecDeque<Due>, c: u64)
        ensures { self.new ≡ self.old }
    {
        if !self.queued && self.is_due() {
            self.queued = due.push_back(Due::Client(c)).is_ok();
        }
    }

    /// Asks it in its turn, counts what failed, and has its socket reported again where it has no room.
    pub(crate) fn turn<P: Ports<Socket = S>>(
        &mut self,
        ports: &mut P,
        faults: &mut u64,
        alloc: Global,
        c: u64,
        buffer: &mut [u8],
    ) -> Option<Event>
        requires shut { self.old.shut ≡ false }
        requires buffer { (0 < length buffer.old) × (length buffer.old ≤ 65536) }
        ensures buffer { length buffer.new ≡ length buffer.old }
        ensures some { IfSome result (Says c self.old self.new) }
        ensures none { IsNone result → Rests self.old self.new }
        ensures faults { CountsFaults result (P.tells ports.old) (P.tells ports.new) faults.old faults.new }
    {
        self.queued = false;
        let event = self.ask(alloc, c, buffer);
        if is_failed(&event) {
            *faults = faults.saturating_add(1);
        }
        self.watch_where_full(ports, faults, c);
        event
    }

    fn watch_where_full<P: Ports<Socket = S>>(&mut self, ports: &mut P, faults: &mut u64, c: u64)
        ensures client { self.new ≡ self.old }
        ensures faults { CountsFaults None (P.tells ports.old) (P.tells ports.new) faults.old faults.new }
    {
        if self.is_full() && !self.watch(ports, c) {
            *faults = faults.saturating_add(1);
        }
    }

    /// One step towards its end, in its turn, and whether it is over then.
    pub(crate) fn turn_away<P: Ports<Socket = S>>(
        &mut self,
        ports: &mut P,
        faults: &mut u64,
        c: u64,
        buffer: &mut [u8],
    ) -> bool
        requires { self.old.shut ≡ true }
        ensures buffer { length buffer.new ≡ length buffer.old }
        ensures rests { Rests self.old self.new }
        ensures faults { CountsFaults None (P.tells ports.old) (P.tells ports.new) faults.old faults.new }
    {
        self.queued = false;
        let over = self.leave(buffer);
        self.watch_where_full(ports, faults, c);
        over
    }

    // Whether it is to be asked once more.
    fn is_due(&self) -> bool
        ensures { result ≡ false → IsStillOrShut self.now }
    {
        if self.may_send && !self.outgoing.is_empty() {
            return true;
        }
        if self.shut {
            return self.outgoing.is_empty() && self.may_receive;
        }
        self.trouble.is_some() || self.wanted && (self.may_receive && self.is_read() || self.unread)
    }

    /// Whether something is to be told of it, as far as it was not asked.
    pub(crate) fn is_busy(&self) -> bool
        ensures { result ≡ false → IsStillOrShut self.now }
    {
        !self.shut && self.is_due()
    }

    // Its socket is read, if that is asked for.
    fn is_read(&self) -> bool
        ensures { result ≡ false → HasMuch self.now }
    {
        !self.upgraded || !self.is_behind()
    }

    /// More than 524,288 bytes wait to be sent, so it is asked before anything adds to them.
    pub fn is_behind(&self) -> bool
        ensures { result ≡ is_behind self.now }
    {
        self.outgoing.len() > HIGH
    }

    // Whether its socket has no room for what waits.
    fn is_full(&self) -> bool {
        !self.may_send && !self.outgoing.is_empty()
    }

    /// One step of one that was shut, with which nothing is told; whether it is over then. What its client still
    /// sends is dropped.
    pub fn leave(&mut self, buffer: &mut [u8]) -> bool
        requires { self.old.shut ≡ true }
        ensures buffer { length buffer.new ≡ length buffer.old }
        ensures rests { Rests self.old self.new }
    {
        if !self.outgoing.is_empty() {
            return self.may_send && self.send_rest();
        }
        if !self.may_receive {
            return false;
        }
        match self.socket.receive(buffer) {
            Received::Bytes(_) => false,
            Received::Nothing => {
                self.may_receive = false;
                false
            }
            Received::End | Received::Failed => true,
        }
    }

    // Has the socket take what it takes of what waits, and answers whether it failed.
    fn send_rest(&mut self) -> bool
        requires shut { self.old.shut ≡ true }
        requires some { 0 < length self.old.outgoing }
        ensures rests { Rests self.old self.new }
    {
        match self.outgoing.send_to(&mut self.socket) {
            Sent::Took(_) => {
                self.may_send = true;
                self.still = 0;
                self.end_where_sent();
                false
            }
            Sent::Full => {
                self.may_send = false;
                false
            }
            Sent::Failed => true,
        }
    }

    /// Something waits to be sent.
    pub(crate) fn has_unsent(&self) -> bool
        ensures { result ≡ false → self.now.outgoing ≡ [] }
    {
        !self.outgoing.is_empty()
    }

    /// Nothing waits to be sent.
    pub fn is_sent(&self) -> bool
        ensures { result ≡ (length self.now.outgoing == 0) }
    {
        self.outgoing.is_empty()
    }

    // Hears a tick, and answers whether one that was shut is given up.
    pub(crate) fn tick(&mut self) -> bool
        ensures same { self.new ≡ self.old }
        ensures shut { result ≡ true → self.old.shut ≡ true }
    {
        self.still = self.still.saturating_add(1);
        let most = if self.ended { DRAIN_TICKS } else { STILL_TICKS };
        self.shut && self.still >= most
    }

    /// Nothing more is told of it.
    pub fn is_shut(&self) -> bool
        ensures { result ≡ self.now.shut }
    {
        self.shut
    }

    /// Has its socket reported, and where it has no room for what waits, reported again once it has.
    pub(crate) fn watch<P: Ports<Socket = S>>(&mut self, ports: &mut P, c: u64) -> bool
        ensures client { self.new ≡ self.old }
        ensures ports { FailsUnless result (P.tells ports.old) (P.tells ports.new) }
    {
        let room = self.is_full();
        ports.watch(&mut self.socket, c, room)
    }

    /// Has its socket reported no more.
    pub(crate) fn forget<P: Ports<Socket = S>>(&mut self, ports: &mut P)
        ensures client { self.new ≡ self.old }
        ensures ports { P.tells ports.new ≡ P.tells ports.old }
    {
        ports.forget(&mut self.socket);
    }

    /// What is next to be told of it, if anything is.
    pub fn ask(&mut self, alloc: Global, c: u64, buffer: &mut [u8]) -> Option<Event>
        requires shut { self.old.shut ≡ false }
        requires buffer { (0 < length buffer.old) × (length buffer.old ≤ 65536) }
        ensures buffer { length buffer.new ≡ length buffer.old }
        ensures some { IfSome result (Says c self.old self.new) }
        ensures none { IsNone result → Rests self.old self.new }
        ensures untroubled { IsNone result → self.old.troubled ≡ false }
    {
        if let Some(trouble) = self.trouble {
            return Some(self.say_trouble(c, trouble));
        }
        if self.may_send && !self.outgoing.is_empty() {
            return self.send(c);
        }
        if !self.wanted {
            return None;
        }
        if self.upgraded {
            self.hear_message(alloc, c, buffer)
        } else {
            self.hear_bytes(alloc, c, buffer)
        }
    }

    fn say_trouble(&mut self, c: u64, trouble: Trouble) -> Event
        requires { self.old.shut ≡ false }
        ensures { Says c self.old self.new result }
    {
        self.trouble = None;
        self.wanted = false;
        match trouble {
            Trouble::Gone => Event::ClientGone { c },
            Trouble::NoRoom => Event::NoRoom { c },
        }
    }

    // Has the socket take what it takes of what waits.
    fn send(&mut self, c: u64) -> Option<Event>
        requires shut { self.old.shut ≡ false }
        requires untroubled { self.old.troubled ≡ false }
        requires some { 0 < length self.old.outgoing }
        ensures some { IfSome result (Says c self.old self.new) }
        ensures none { IsNone result → Rests self.old self.new }
    {
        match self.outgoing.send_to(&mut self.socket) {
            Sent::Took(_) => {
                self.may_send = true;
                self.still = 0;
                match self.take_untold() {
                    0 => None,
                    n => Some(Event::Wrote { c, n }),
                }
            }
            Sent::Full => {
                self.may_send = false;
                None
            }
            Sent::Failed => {
                self.may_send = false;
                self.wanted = false;
                Some(Event::ClientGone { c })
            }
        }
    }

    // How many bytes left of those that were not told, which are told now.
    fn take_untold(&mut self) -> u64
        ensures sum { self.new.untold + result ≡ self.old.untold }
        ensures least { self.new.untold ≡ min self.old.untold (length self.old.outgoing) }
        ensures same { SameButUntold self.old self.new }
    {
        let waits = self.outgoing.len() as u64;
        let left = self.untold.min(waits);
        let n = self.untold - left;
        self.untold = left;
        n
    }

    // Reads what its client sent.
    fn hear_bytes(&mut self, alloc: Global, c: u64, buffer: &mut [u8]) -> Option<Event>
        requires shut { self.old.shut ≡ false }
        requires untroubled { self.old.troubled ≡ false }
        requires wanted { self.old.wanted ≡ true }
        requires plain { self.old.upgraded ≡ false }
        requires buffer { (0 < length buffer.old) × (length buffer.old ≤ 65536) }
        ensures buffer { length buffer.new ≡ length buffer.old }
        ensures some { IfSome result (Says c self.old self.new) }
        ensures none { IsNone result → Rests self.old self.new }
    {
        if !self.may_receive {
            return None;
        }
        match self.socket.receive(buffer) {
            Received::Bytes(count) => {
                self.wanted = false;
                let Ok(bytes) = Bytes::from_slice(alloc, &buffer[..count]) else {
                    return Some(Event::NoRoom { c });
                };
                Some(Event::ClientBytes { c, bytes })
            }
            Received::Nothing => {
                self.may_receive = false;
                None
            }
            Received::End => {
                self.wanted = false;
                Some(Event::ClientEof { c })
            }
            Received::Failed => {
                self.wanted = false;
                Some(Event::ClientGone { c })
            }
        }
    }

    // The next message, or else what its client sent is read.
    fn hear_message(&mut self, alloc: Global, c: u64, buffer: &mut [u8]) -> Option<Event>
        requires shut { self.old.shut ≡ false }
        requires untroubled { self.old.troubled ≡ false }
        requires wanted { self.old.wanted ≡ true }
        requires upgraded { self.old.upgraded ≡ true }
        requires buffer { (0 < length buffer.old) × (length buffer.old ≤ 65536) }
        ensures buffer { length buffer.new ≡ length buffer.old }
        ensures some { IfSome result (Says c self.old self.new) }
        ensures none { IsNone result → Rests self.old self.new }
    {
        if self.unread {
            return self.next_message(c);
        }
        if !self.may_receive || !self.is_read() {
            return None;
        }
        match self.socket.receive(buffer) {
            Received::Bytes(count) => self.hear_fed(c, &buffer[..count]),
            Received::Nothing => {
                self.may_receive = false;
                None
            }
            Received::End | Received::Failed => {
                self.wanted = false;
                self.link = None;
                Some(Event::ClientGone { c })
            }
        }
    }

    // The next message, where bytes that were read make one.
    fn hear_fed(&mut self, c: u64, bytes: &[u8]) -> Option<Event>
        requires shut { self.old.shut ≡ false }
        requires untroubled { self.old.troubled ≡ false }
        requires wanted { self.old.wanted ≡ true }
        requires upgraded { self.old.upgraded ≡ true }
        ensures some { IfSome result (Says c self.old self.new) }
        ensures none { IsNone result → Rests self.old self.new }
    {
        match self.feed(c, bytes) {
            Some(event) => Some(event),
            None => self.next_message(c),
        }
    }

    // Gives the link bytes that were read.
    fn feed(&mut self, c: u64, bytes: &[u8]) -> Option<Event>
        ensures some { IfSome result (λ event. (event ≡ Event.NoRoom c) × IsUnwanted self.old self.new) }
        ensures none { IsNone result → self.new ≡ self.old }
    {
        let Some(link) = &mut self.link else {
            return None;
        };
        if link.feed(bytes).is_err() {
            self.link = None;
            self.wanted = false;
            return Some(Event::NoRoom { c });
        }
        self.unread = true;
        None
    }

    // The next message of the link. What it answers to pings and to a close waits to be sent.
    fn next_message(&mut self, c: u64) -> Option<Event>
        requires shut { self.old.shut ≡ false }
        requires untroubled { self.old.troubled ≡ false }
        requires wanted { self.old.wanted ≡ true }
        requires upgraded { self.old.upgraded ≡ true }
        ensures some { IfSome result (Says c self.old self.new) }
        ensures none { IsNone result → Rests self.old self.new }
    {
        let Some(link) = &mut self.link else {
            self.unread = false;
            return None;
        };
        let linked = link.next();
        self.hand_on();
        self.say_message(c, linked)
    }

    fn say_message(&mut self, c: u64, linked: Linked) -> Option<Event>
        requires wanted { self.old.wanted ≡ true }
        ensures event { result ≡ event_of c linked }
        ensures some { IfSome result (λ event. SaysMessage c event × IsUnwanted self.old self.new) }
        ensures none { IsNone result → self.new ≡ self.old }
    {
        if let Linked::NotYet = linked {
            self.unread = false;
            return None;
        }
        self.wanted = false;
        if let Linked::Bad | Linked::NoMemory = linked {
            self.link = None;
        }
        message_event(c, linked)
    }
}

// What a link's answer is told as.
fn message_event(c: u64, linked: Linked) -> Option<Event>
    ensures event { result ≡ event_of c linked }
    ensures some { IfSome result (SaysMessage c) }
    ensures none { IsNone result → linked ≡ Linked.NotYet }
{
    match linked {
        Linked::Text(bytes) => Some(Event::WsText { c, bytes }),
        Linked::Binary => Some(Event::WsBinary { c }),
        Linked::Closed => Some(Event::WsClosed { c }),
        Linked::Bad => Some(Event::WsBad { c }),
        Linked::NotYet => None,
        Linked::NoMemory => Some(Event::NoRoom { c }),
    }
}

fn is_failed(event: &Option<Event>) -> bool
    ensures { result ≡ has_failed event.now }
{
    match event {
        Some(Event::ClientGone { .. } | Event::WsBad { .. }) => true,
        Some(Event::StartFailed { .. } | Event::ChildBroken { .. } | Event::InputGone { .. }) =>
            true,
        _ => false,
    }
}
