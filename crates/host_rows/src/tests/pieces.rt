// Exchanges whose request or output comes in pieces: whatever the pieces are, the same is to come of them.
ghost use Rattle.std.specs.Prelude.{◌<◌, length};

use super::drive::{Heard, is_done, runs, world_of};
use super::lines::{given, shown};
use super::script::{bytes_of, cut, halves, same, single_bytes};
use super::texts::{OUTPUT, REQUEST};
use host_base::NoMemory;
use host_trace::{Act, Item, Why};
use memory_world::MemoryWorld;
use std::alloc::Global;
use std::thread::Threads;

/// The part of an exchange that comes in pieces.
#[derive(Clone, Copy)]
pub enum Part {
    Request,
    Output,
}

/// What is to come of an exchange.
#[derive(Clone, Copy)]
pub enum Wanted<'t> {
    /// Nothing is written or started before Stop.
    Nothing,
    /// This is the reply, it closes, and nothing is started.
    Refused(&'t [u8]),
    /// One script is started, and this is the reply, which closes.
    Served(&'t [u8]),
    /// The same, and the connection stays open until Stop.
    Open(&'t [u8]),
}

/// What is to come of an exchange, by the text of a table.
#[derive(Drop)]
pub struct Due {
    text: Vec<u8>,
}

impl Due {
    pub fn wanted(&self) -> Wanted<'_> {
        let text = shown(self.text.as_slice());
        let (word, reply) = cut(text, " ");
        let reply = reply.as_bytes();
        match word {
            "Nothing" => Wanted::Nothing,
            "Refused" => Wanted::Refused(reply),
            "Served" => Wanted::Served(reply),
            "Open" => Wanted::Open(reply),
            // This comes of none.
            _ => Wanted::Refused(b"no such word"),
        }
    }
}

/// What is to come, as a text of a table says: `Nothing`, or one of the other words and the reply.
pub fn due_of(alloc: Global, table: &str, text: &str) -> Result<Due, NoMemory> {
    Ok(Due {
        text: bytes_of(alloc, table, text)?,
    })
}

// What was written to the client, how many children were to be started, and why the connection was shut.
#[derive(Drop)]
struct Outcome {
    written: Vec<u8>,
    starts: usize,
    shuts: Vec<Why>,
}

fn outcome_of(alloc: Global, items: &[Item]) -> Result<Outcome, NoMemory> {
    let mut outcome = Outcome {
        written: Vec::new(alloc),
        starts: 0,
        shuts: Vec::new(alloc),
    };
    for item in items {
        match item {
            Item::Out(Act::Write { bytes, .. }) => {
                outcome.written.extend_from_slice(bytes.as_slice())?;
            }
            Item::Out(Act::Start { .. }) => outcome.starts = outcome.starts.saturating_add(1),
            Item::Out(Act::Shut { why, .. }) => outcome.shuts.push(*why)?,
            _ => {}
        }
    }
    Ok(outcome)
}

fn is(outcome: &Outcome, reply: &[u8], starts: usize, why: Why) -> bool {
    same(outcome.written.as_slice(), reply)
        && outcome.starts == starts
        && outcome.shuts.as_slice() == [why].as_slice()
}

fn is_wanted(outcome: &Outcome, wanted: Wanted) -> bool {
    match wanted {
        Wanted::Nothing => is(outcome, b"", 0, Why::Stopped),
        Wanted::Refused(reply) => is(outcome, reply, 0, Why::Done),
        Wanted::Served(reply) => is(outcome, reply, 1, Why::Done),
        Wanted::Open(reply) => is(outcome, reply, 1, Why::Stopped),
    }
}

// What is heard before a part and behind it.
fn around(part: Part) -> (&'static [Heard<'static>], &'static [Heard<'static>]) {
    match part {
        Part::Request => (
            &[Heard::Accepted],
            &[
                Heard::Started(0),
                Heard::Output(0, OUTPUT),
                Heard::OutputEof(0),
                Heard::Exited(0),
            ],
        ),
        Part::Output => (
            &[
                Heard::Accepted,
                Heard::Client(0, REQUEST),
                Heard::Started(0),
            ],
            &[Heard::OutputEof(0), Heard::Exited(0)],
        ),
    }
}

// Whether it comes of these items.
fn come_to(alloc: Global, items: &[Item], wanted: Wanted) -> Result<bool, NoMemory> {
    let outcome = outcome_of(alloc, items)?;
    Ok(is_wanted(&outcome, wanted))
}

// The first exchange with these pieces in place of a part.
fn exchange<'t>(
    alloc: Global,
    part: Part,
    pieces: &[&'t [u8]],
) -> Result<Vec<Heard<'t>>, NoMemory> {
    let (before, behind) = around(part);
    let mut heard: Vec<Heard<'t>> = Vec::from_slice(alloc, before)?;
    for piece in pieces {
        heard.push(match part {
            Part::Request => Heard::Client(0, *piece),
            Part::Output => Heard::Output(0, *piece),
        })?;
    }
    heard.extend_from_slice(behind)?;
    Ok(heard)
}

// A world of that exchange.
fn world_in(alloc: Global, part: Part, pieces: &[&[u8]]) -> Result<MemoryWorld, NoMemory> {
    let heard = exchange(alloc, part, pieces)?;
    world_of(alloc, heard.as_slice())
}

// More turns than an exchange has events.
const WORDS: [&str; 4] = ["serve", "/cgi-bin/hello=/srv/cgi/hello", "--turns", "1000"];

// Whether it comes of an exchange in these pieces, which ends as it should and tells its one trace.
fn is_right<R: Threads + Sync>(
    rt: &R,
    alloc: Global,
    part: Part,
    pieces: &[&[u8]],
    wanted: Wanted,
) -> Result<bool, NoMemory> {
    let mut world = world_in(alloc, part, pieces)?;
    let status = runs(rt, alloc, &WORDS, &mut world)?;
    Ok(is_done(&status) && come_to(alloc, given(&world), wanted)?)
}

/// Whether it comes of a part that comes whole.
pub fn is_right_whole<R: Threads + Sync>(
    rt: &R,
    alloc: Global,
    part: Part,
    text: &[u8],
    wanted: Wanted,
) -> Result<bool, NoMemory> {
    is_right(rt, alloc, part, &[text], wanted)
}

/// Whether it comes of a part whose bytes come one by one.
pub fn is_right_singly<R: Threads + Sync>(
    rt: &R,
    alloc: Global,
    part: Part,
    text: &[u8],
    wanted: Wanted,
) -> Result<bool, NoMemory> {
    let pieces = single_bytes(alloc, text)?;
    is_right(rt, alloc, part, pieces.as_slice(), wanted)
}

// Whether a text is cut there: beside its line ends, near its own, and a long one at some places between.
fn is_cut(text: &[u8], at: usize) -> bool
    requires { at < length text.now }
{
    let left = text.len() - at;
    at < 3 || left < 3 || at % 4000 == 0 || text[at] == b'\n' || text[at - 1] == b'\n'
}

/// Whether it comes of a part that is cut in two at any of these places.
pub fn is_right_in_two<R: Threads + Sync>(
    rt: &R,
    alloc: Global,
    part: Part,
    text: &[u8],
    wanted: Wanted,
) -> Result<bool, NoMemory> {
    for at in 1..text.len() {
        let (front, back) = halves(text, at);
        if is_cut(text, at) && !is_right(rt, alloc, part, &[front, back], wanted)? {
            return Ok(false);
        }
    }
    Ok(true)
}

/// Whether it comes of a part that comes whole, in two or in single bytes.
pub fn is_right_in_any<R: Threads + Sync>(
    rt: &R,
    alloc: Global,
    part: Part,
    text: &[u8],
    wanted: Wanted,
) -> Result<bool, NoMemory> {
    Ok(
        is_right_whole(rt, alloc, part, text, wanted)?
            && is_right_in_two(rt, alloc, part, text, wanted)?
            && is_right_singly(rt, alloc, part, text, wanted)?,
    )
}

/// A text with a part that is repeated.
pub fn repeated(
    alloc: Global,
    before: &[u8],
    part: &[u8],
    times: usize,
    after: &[u8],
) -> Result<Vec<u8>, NoMemory> {
    let mut text = Vec::from_slice(alloc, before)?;
    for _ in 0..times {
        text.extend_from_slice(part)?;
    }
    text.extend_from_slice(after)?;
    Ok(text)
}
