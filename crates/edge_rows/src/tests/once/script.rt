// What is asked for after each event in the tests, and how an event is written down.
use super::super::acts::act_of;
use super::super::events;
use super::super::events::number;
use child_edge::Spawner;
use host_base::Sink;
use host_trace::{Act, Acted, Event};
use once_edge::OnceOutside;
use pipe_pump::PipeIn;
use std::alloc::Global;
use std::sync::Wait;
use std::sync::atomic::{AtomicBool, Ordering};
use std::test::Fail;
use std::time::Clock;

// What an event is, by a letter; of the second child by a capital.
fn letter(event: &Event) -> u8 {
    let letter = events::letter(event);
    match letter {
        b's' | b'b' | b'e' | b'd' if number(event) == 1 => letter - 32,
        b'u' | b'm' | b'.' => b'?',
        _ => letter,
    }
}

/// What is asked for in a run.
#[derive(Clone, Copy)]
pub enum Script {
    /// One child, whose input is ended or not.
    One { ends_input: bool },
    /// Two children, and a gate that is opened at the end of the second one's output.
    Two,
}

impl Script {
    // The acts that answer an event.
    fn answer(self, letter: u8) -> &'static [u8] {
        match self {
            Script::One { ends_input } => answer_of_one(letter, ends_input),
            Script::Two => answer_of_two(letter),
        }
    }
}

fn answer_of_one(letter: u8, ends_input: bool) -> &'static [u8] {
    match letter {
        b'a' => b"w",
        b'c' => b"Sw",
        b's' if ends_input => b"fE",
        b's' => b"f",
        b'f' | b'w' => b"c",
        b'b' => b"h",
        b'e' | b'x' => b"hs",
        b'q' => b"s",
        b'g' => b"KRs",
        _ => b"",
    }
}

fn answer_of_two(letter: u8) -> &'static [u8] {
    match letter {
        b'a' => b"ST",
        b's' | b'S' => b"Ec",
        b'b' | b'B' => b"c",
        b'e' | b'x' => b"s",
        _ => b"",
    }
}

// Does an act, and answers whether it found room.
fn does<R: Wait + Clock + Copy + Drop, S: Spawner + Drop, P: PipeIn + Drop, K: Sink + Drop>(
    outside: &mut OnceOutside<R, S, P, K>,
    act: &Act,
) -> bool {
    matches!(outside.do_act(act), Acted::Done)
}

// Does the acts on child k that these letters stand for. Each finds room.
fn do_all<R: Wait + Clock + Copy + Drop, S: Spawner + Drop, P: PipeIn + Drop, K: Sink + Drop>(
    alloc: Global,
    outside: &mut OnceOutside<R, S, P, K>,
    letters: &[u8],
    k: u64,
) -> Result<(), Fail> {
    for letter in letters {
        let act = act_of(alloc, *letter, k, 0)?;
        if !does(outside, &act) {
            return Err(Fail::from("no room"));
        }
    }
    Ok(())
}

// The next event, by its letter, after which is done what answers it.
fn step<R: Wait + Clock + Copy + Drop, S: Spawner + Drop, P: PipeIn + Drop, K: Sink + Drop>(
    alloc: Global,
    outside: &mut OnceOutside<R, S, P, K>,
    script: Script,
    gate: &AtomicBool,
) -> Result<u8, Fail> {
    let event = outside.next_event();
    let letter = letter(&event);
    if letter == b'E' {
        gate.store(true, Ordering::SeqCst);
    }
    do_all(alloc, outside, script.answer(letter), number(&event))?;
    Ok(letter)
}

// The letters of what is told up to Stop.
fn letters<R: Wait + Clock + Copy + Drop, S: Spawner + Drop, P: PipeIn + Drop, K: Sink + Drop>(
    alloc: Global,
    outside: &mut OnceOutside<R, S, P, K>,
    script: Script,
    gate: &AtomicBool,
) -> Result<Vec<u8>, Fail> {
    let mut letters = Vec::new(alloc);
    for _ in 0..64 {
        let letter = step(alloc, outside, script, gate)?;
        letters.push(letter)?;
        if letter == b'z' {
            return Ok(letters);
        }
    }
    Err(Fail::from("no end"))
}

/// What was told up to Stop, by letters, and how often anything failed by then and once all was ended.
#[derive(Drop)]
pub struct Ran {
    pub letters: Vec<u8>,
    pub faults: u64,
    pub faults_at_end: u64,
}

fn run_in<R: Wait + Clock + Copy + Drop, S: Spawner + Drop, P: PipeIn + Drop, K: Sink + Drop>(
    alloc: Global,
    outside: &mut OnceOutside<R, S, P, K>,
    script: Script,
    gate: &AtomicBool,
) -> Result<Ran, Fail> {
    let letters = letters(alloc, outside, script, gate)?;
    let faults = outside.faults();
    outside.end();
    let faults_at_end = outside.faults();
    Ok(Ran {
        letters,
        faults,
        faults_at_end,
    })
}

pub fn run<R: Wait + Clock + Copy + Drop, S: Spawner + Drop, P: PipeIn + Drop, K: Sink + Drop>(
    alloc: Global,
    outside: OnceOutside<R, S, P, K>,
    script: Script,
    gate: &AtomicBool,
) -> Result<Ran, Fail> {
    let mut outside = outside;
    run_in(alloc, &mut outside, script, gate)
}
