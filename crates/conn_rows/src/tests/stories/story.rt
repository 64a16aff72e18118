// A story: what a client sends, what its scripts do, and what goes wrong.
use super::super::kid::OUTPUT_LIMIT;
use super::super::numbers::Numbers;
use super::super::parts::Parts;
use super::asks::{Ask, Kind, Sized, ask_of};
use super::roles::{Role, Says};
use super::site::{CLOCKS, Place, Target};
use std::alloc::Global;

// How soon what was written leaves for the client.
#[derive(Clone, Copy, PartialEq, Eq)]
pub enum Leaves {
    AtOnce,
    InParts,
    // Once nothing else goes on, or two Ticks later.
    Late,
    Slow,
    Never,
}

// What comes when the client has sent all, and what goes wrong.
#[derive(Clone, Copy, PartialEq, Eq)]
pub enum Turn {
    End,
    Gone,
    NoRoom,
    Stop,
    // So many Ticks.
    Idle(u32),
}

#[derive(Clone, Copy)]
pub enum When {
    // The client has sent so many bytes.
    Sent(usize),
    // So many deeds of the child with this number were done.
    Done(u64, usize),
}

#[derive(Drop)]
pub struct Story {
    pub asks: Vec<Ask>,
    // All that the client sends, and the places at which it waits until nothing else goes on.
    pub stream: Parts,
    pub holds: Vec<usize>,
    // Ticks before it is accepted.
    pub early: u32,
    // The client sends before its child goes on, where both may.
    pub client_first: bool,
    pub leaves: Leaves,
    pub last: Turn,
    pub trouble: Option<(When, Turn)>,
    // What the clock shows at odd and even Ticks.
    pub clocks: (u64, u64),
    // Memory ran out for a request or a place.
    lost: bool,
}

fn clock_at(place: usize) -> u64 {
    match CLOCKS.get(place) {
        Some(clock) => clock.0,
        None => 0,
    }
}

fn leaves_of(numbers: &mut Numbers) -> Leaves {
    match numbers.below(8) {
        0 => Leaves::Never,
        1 => Leaves::Late,
        2 => Leaves::Slow,
        3 => Leaves::InParts,
        _ => Leaves::AtOnce,
    }
}

fn turn_of(numbers: &mut Numbers) -> Turn {
    match numbers.below(10) {
        0 | 1 => Turn::Gone,
        2 => Turn::NoRoom,
        3 | 4 => Turn::Stop,
        5 => Turn::Idle(3),
        6 => Turn::Idle(4),
        _ => Turn::End,
    }
}

fn last_of(numbers: &mut Numbers) -> Turn {
    match numbers.below(8) {
        0 => Turn::Idle(4),
        1 => Turn::Stop,
        2 => Turn::Gone,
        _ => Turn::End,
    }
}

impl Story {
    pub fn is_lost(&self) -> bool {
        self.lost || self.stream.is_lost()
    }

    pub fn ask(&self, place: usize) -> Option<&Ask> {
        self.asks.as_slice().get(place)
    }

    pub fn role(&self, place: usize, hop: usize) -> Option<&Role> {
        match self.ask(place) {
            Some(ask) => ask.roles.as_slice().get(hop),
            None => None,
        }
    }

    // Where its request stands in what the client sends.
    fn start_of(&self, place: usize) -> usize {
        let asks = self.asks.as_slice();
        let mut sum = 0usize;
        for ask in asks.get(..place).unwrap_or(asks) {
            sum = sum.saturating_add(ask.bytes.len());
        }
        sum
    }

    fn add_ask(&mut self, alloc: Global, numbers: &mut Numbers, kind: Kind) {
        self.push_ask(ask_of(alloc, numbers, kind));
    }

    fn push_ask(&mut self, ask: Ask) {
        self.lost |= ask.is_lost();
        self.lost |= self.asks.push(ask).is_err();
    }

    fn hold(&mut self, at: usize) {
        self.lost |= self.holds.push(at).is_err();
    }

    // Two replies that together are more than may wait to be sent.
    fn flood(&mut self, alloc: Global, numbers: &mut Numbers) {
        self.leaves = match numbers.below(5) {
            0 => Leaves::Late,
            1 => Leaves::Never,
            2 => Leaves::InParts,
            _ => Leaves::Slow,
        };
        self.add_ask(alloc, numbers, Kind::Flood(255_000));
        self.add_ask(alloc, numbers, Kind::Flood(8000))
    }

    fn add_asks(&mut self, alloc: Global, numbers: &mut Numbers) {
        for _ in 0..numbers.some(4) {
            let kind = kind_of(numbers);
            self.add_ask(alloc, numbers, kind);
        }
    }

    // The client sends all that it asks, and may wait in front of a request and behind its head.
    fn add_stream(&mut self, numbers: &mut Numbers) {
        for place in 0..self.asks.len() {
            let at = self.stream.len();
            let (head, waits) = self.send(place);
            if numbers.once_in(4) {
                self.hold(at);
            }
            if waits {
                self.hold(at.saturating_add(head));
            }
        }
    }

    // Sends a request, of which it says where its head ends, and whether the client waits there.
    fn send(&mut self, place: usize) -> (usize, bool) {
        match self.asks.as_slice().get(place) {
            Some(ask) => {
                self.stream.add_parts(&ask.bytes);
                (ask.head, ask.waits)
            }
            None => (0, false),
        }
    }

    // Something goes wrong at a byte of a request, which comes in a piece of its own.
    fn add_trouble(&mut self, numbers: &mut Numbers) {
        let turn = turn_of(numbers);
        if numbers.once_in(2) {
            self.trouble = Some((deed_of(numbers), turn));
            return;
        }
        let place = numbers.place(self.asks.len());
        let start = self.start_of(place);
        let within = place_within(numbers, self.ask(place));
        self.trouble = Some((When::Sent(start.saturating_add(within)), turn));
        self.hold(start);
    }
}

fn deed_of(numbers: &mut Numbers) -> When {
    let child = numbers.below(4);
    When::Done(child, numbers.place(6))
}

fn place_within(numbers: &mut Numbers, ask: Option<&Ask>) -> usize {
    let (head, len) = match ask {
        Some(ask) => (ask.head, ask.bytes.len()),
        None => (0, 0),
    };
    let from = if numbers.once_in(2) { head } else { 0 };
    let count = len.saturating_sub(from).saturating_add(1);
    from.saturating_add(numbers.place(count))
}

fn kind_of(numbers: &mut Numbers) -> Kind {
    if numbers.once_in(9) {
        Kind::Bad
    } else {
        Kind::Good
    }
}

fn fill(alloc: Global, numbers: &mut Numbers, story: &mut Story) {
    if numbers.once_in(25) {
        story.flood(alloc, numbers);
    }
    story.add_asks(alloc, numbers);
    story.add_stream(numbers);
    if numbers.once_in(3) {
        story.add_trouble(numbers);
    }
}

// A story of nothing.
fn bare_story(alloc: Global, numbers: &mut Numbers) -> Story {
    Story {
        asks: Vec::new(alloc),
        stream: Parts::new(alloc),
        holds: Vec::new(alloc),
        early: if numbers.once_in(5) { 5 } else { 0 },
        client_first: !numbers.once_in(4),
        leaves: leaves_of(numbers),
        last: last_of(numbers),
        trouble: None,
        clocks: (clock_at(numbers.place(4)), clock_at(numbers.place(4))),
        lost: false,
    }
}

pub fn story_of(alloc: Global, seed: u64) -> Story {
    let mut numbers = Numbers::new(seed);
    let mut story = bare_story(alloc, &mut numbers);
    fill(alloc, &mut numbers, &mut story);
    story
}

// ---- whether the story goes the same way however it is cut

// Its script takes none of a body that comes behind a pause.
fn starves(ask: &Ask) -> bool {
    match ask.roles.as_slice().first() {
        Some(role) => ask.waits && !role.takes,
        None => false,
    }
}

fn is_refused(target: &Target) -> bool {
    match target.place {
        Place::Refused(_) => true,
        Place::Runs { .. } => false,
    }
}

// A request that is refused or served before its body has come.
fn depends(ask: &Ask, client_first: bool) -> bool {
    if ask.is_long() {
        let open = !ask.waits && !ask.close && !ask.old;
        !client_first || starves(ask) || open && is_refused(ask.target)
    } else {
        ask.sized == Sized::Chunked && ask.expects && ask.bad.is_some() && !ask.waits
    }
}

// A reply that has begun is cut by an output that is too long.
fn overflows(role: &Role) -> bool {
    let streams = match role.says {
        Says::Reply { .. } | Says::Raw => true,
        Says::Hop(_) | Says::Fault(_) => false,
    };
    streams && role.output.len() > OUTPUT_LIMIT
}

fn any_overflows(ask: &Ask) -> bool {
    for role in ask.roles.as_slice() {
        if overflows(role) {
            return true;
        }
    }
    false
}

// An output that is longer than may wait to be sent.
fn is_huge(ask: &Ask) -> bool {
    for role in ask.roles.as_slice() {
        if role.output.len() > 200_000 {
            return true;
        }
    }
    false
}

impl Story {
    fn any_long(&self) -> bool {
        for ask in self.asks.as_slice() {
            if ask.is_long() {
                return true;
            }
        }
        false
    }

    // What goes wrong comes beside a body, sooner or later within it.
    fn meets_body(&self) -> bool {
        match self.trouble {
            Some((When::Done(_, _), Turn::End | Turn::Idle(_))) => self.any_long(),
            _ => false,
        }
    }

    pub fn is_steady(&self) -> bool {
        for ask in self.asks.as_slice() {
            if depends(ask, self.client_first) || any_overflows(ask) {
                return false;
            }
            if self.leaves == Leaves::Never && is_huge(ask) {
                return false;
            }
        }
        !self.meets_body()
    }
}
