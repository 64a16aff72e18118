// A story: the requests of a client, and what comes to pass once its WebSocket is open.
use super::super::numbers::Numbers;
use super::super::parts::Parts;
use super::asks::{Ask, OPENERS, OTHERS};
use std::alloc::Global;

#[derive(Clone, Copy)]
pub enum Beat {
    // The client may send its requests up to so many bytes.
    Send(usize),
    Started,
    StartFailed,
    StartFull,
    Out(&'static [u8]),
    // So many lines as long as may be.
    Fill(usize),
    OutEnd,
    OutBroken,
    // All that was fed is taken.
    Took,
    InGone,
    Exited,
    Text(&'static [u8]),
    Binary,
    Closed,
    Bad,
    // All that waits to be sent leaves.
    Wrote,
    Gone,
    NoRoom,
    Stop,
    Tick,
}

use Beat::{
    Bad, Binary, Closed, Exited, Fill, Gone, InGone, NoRoom, Out, OutBroken, OutEnd, Send,
    StartFailed, StartFull, Started, Stop, Text, Tick, Took, Wrote,
};

// A talk goes on with these.
const CALM: [Beat; 26] = [
    Out(b"x\n"),
    Out(b"ab"),
    Out(b"\r"),
    Out(b"\n"),
    Out(b"12345678\n"),
    Out(b"a\r\nb\r\n\nc"),
    Out(b"\xc3\xa9\n"),
    Out(b"\xe2\x82"),
    Out(b"\xff\n"),
    Out(b"\r\r\n1\n"),
    Out(b"\n1234567\r\n12345678\n"),
    Out(b"\n\n12345678"),
    Text(b""),
    Text(b"a"),
    Text(b"b\nc"),
    Text(b"12345678"),
    Text(b"\r"),
    Text(b"\xc3\xa9"),
    Took,
    Took,
    Took,
    Took,
    Took,
    Wrote,
    Tick,
    Tick,
];

// What ends it, or a part of it.
const TURNS: [Beat; 20] = [
    OutEnd,
    OutEnd,
    OutBroken,
    Out(b"123456789"),
    Out(b"y\n12345678\r\nz\n"),
    Out(b"y\n123456789\nz\n"),
    Text(b"123456789"),
    Text(b"\n\n\n\n\n\n\n\n\n\n"),
    Binary,
    Closed,
    Closed,
    Closed,
    Bad,
    Gone,
    NoRoom,
    Stop,
    InGone,
    InGone,
    Exited,
    Exited,
];

// How it may come to its end.
const ENDS: [&[Beat]; 7] = [
    &[OutEnd, Exited],
    &[OutEnd, Tick, Tick, Tick, Exited],
    &[Exited, OutEnd],
    &[Closed, Tick, Tick, Exited],
    &[Closed, Exited, Tick, Tick],
    &[Took, Closed, Tick, OutEnd, Tick, Tick],
    &[Took, Binary],
];

// A flood of lines, and what leaves or does not.
const FLOODS: [&[Beat]; 3] = [
    &[Fill(32_769), Text(b"a"), Took, Out(b"x\n"), Wrote],
    &[Fill(32_768), Text(b"a"), Took, Text(b"b"), Out(b"x\ny")],
    &[Fill(40_000), Closed, Out(b"z\n"), OutEnd],
];

// All that a client sends before its WebSocket is open, and then what comes to pass.
#[derive(Drop)]
pub struct Story {
    pub asks: Vec<Ask>,
    pub stream: Parts,
    pub beats: Vec<Beat>,
    // Memory ran out for a request or a beat.
    lost: bool,
}

impl Story {
    pub fn is_lost(&self) -> bool {
        self.lost || self.stream.is_lost()
    }

    fn push(&mut self, beat: Beat) {
        self.lost |= self.beats.push(beat).is_err();
    }

    fn push_all(&mut self, beats: &[Beat]) {
        for beat in beats {
            self.push(*beat);
        }
    }

    fn push_at(&mut self, table: &[Beat], place: usize) {
        if let Some(beat) = table.get(place) {
            self.push(*beat);
        }
    }

    fn push_list(&mut self, table: &[&[Beat]], place: usize) {
        if let Some(beats) = table.get(place) {
            self.push_all(*beats);
        }
    }

    fn push_ask(&mut self, ask: Ask) {
        self.stream.add(ask.bytes);
        self.lost |= self.asks.push(ask).is_err();
    }

    fn push_ask_at(&mut self, table: &[Ask], place: usize) {
        if let Some(ask) = table.get(place) {
            self.push_ask(*ask);
        }
    }

    // The client's requests, of which the last opens a WebSocket but in one of a few stories, and bytes behind them.
    fn add_asks(&mut self, numbers: &mut Numbers) {
        for _ in 0..numbers.place(3) {
            self.push_ask_at(&OTHERS, numbers.place(OTHERS.len()));
        }
        if numbers.once_in(12) {
            return;
        }
        self.push_ask_at(&OPENERS, numbers.place(OPENERS.len()));
        if numbers.once_in(3) {
            self.stream.add(b"\x81\x85rest".as_slice());
        }
    }

    fn add_turn(&mut self, numbers: &mut Numbers) {
        self.push_at(&TURNS, numbers.place(TURNS.len()));
    }

    // They are sent, in one story of eight with a turn between.
    fn add_sends(&mut self, numbers: &mut Numbers) {
        let len = self.stream.len();
        if numbers.once_in(8) {
            self.push(Send(numbers.place(len.saturating_add(1))));
            self.add_turn(numbers);
        }
        self.push(Send(len));
    }

    fn add_start(&mut self, numbers: &mut Numbers) {
        if numbers.once_in(12) {
            self.add_turn(numbers);
        }
        self.push(match numbers.below(16) {
            0 => StartFailed,
            1 => StartFull,
            _ => Started,
        });
    }

    fn add_beat(&mut self, numbers: &mut Numbers) {
        if numbers.once_in(10) {
            self.add_turn(numbers);
        } else {
            self.push_at(&CALM, numbers.place(CALM.len()));
        }
    }

    fn add_talk(&mut self, numbers: &mut Numbers) {
        if numbers.once_in(50) {
            self.push_list(&FLOODS, numbers.place(FLOODS.len()));
        }
        for _ in 0..numbers.place(16) {
            self.add_beat(numbers);
        }
        self.push_list(&ENDS, numbers.place(ENDS.len()));
        self.push_all(&[Tick, Stop, Tick, Exited, Tick]);
    }
}

fn made_of(alloc: Global, numbers: &mut Numbers) -> Story {
    let mut story = Story {
        asks: Vec::new(alloc),
        stream: Parts::new(alloc),
        beats: Vec::new(alloc),
        lost: false,
    };
    story.add_asks(numbers);
    story.add_sends(numbers);
    story.add_start(numbers);
    story.add_talk(numbers);
    story
}

pub fn story_of(alloc: Global, seed: u64) -> Story {
    let mut numbers = Numbers::new(seed);
    made_of(alloc, &mut numbers)
}
