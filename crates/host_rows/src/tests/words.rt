// Acts in short, so that tables may have many of them: of bytes only the number stands. And what an outside in memory does.
use super::drive::{Heard, event_of, filled};
use super::lines::event_line;
use super::script::{behind, counted_in, is, numbers_in};
use host_base::{Launch, NoMemory, Pairs, Text, Texts};
use host_trace::{Act, Acted, Event, Item, Outside, Why};
use memory_world::MemoryOutside;
use std::alloc::Global;

/// An act. A Start is for connection 0, and a Says has one text.
#[derive(Clone, Copy)]
pub enum Asked {
    WantClient(u64),
    Write(u64, usize),
    Shut(u64),
    Start(u64),
    Feed(u64, usize),
    EndInput(u64),
    WantChild(u64),
    Kill(u64),
    Release(u64),
    Upgrade(u64),
    Says(u64, usize),
    CloseWs(u64),
}

/// An item of a trace.
#[derive(Clone, Copy)]
pub enum Word {
    In(Heard<'static>),
    Out(Asked),
}

fn asked_in(text: &str) -> Option<Asked> {
    let (name, at, count) = numbers_in(text);
    let n = count as usize;
    Some(match name {
        "WantClient" => Asked::WantClient(at),
        "Write" => Asked::Write(at, n),
        "Shut" => Asked::Shut(at),
        "Start" => Asked::Start(at),
        "Feed" => Asked::Feed(at, n),
        "EndInput" => Asked::EndInput(at),
        "WantChild" => Asked::WantChild(at),
        "Kill" => Asked::Kill(at),
        "Release" => Asked::Release(at),
        "Upgrade" => Asked::Upgrade(at),
        "Says" => Asked::Says(at, n),
        "CloseWs" => Asked::CloseWs(at),
        _ => return None,
    })
}

/// The item of a text, an act behind `> `.
pub fn word_in(text: &str) -> Option<Word> {
    match behind(text, "> ") {
        Some(act) => Some(Word::Out(asked_in(act)?)),
        None => Some(Word::In(counted_in(text)?)),
    }
}

fn texts_of(alloc: Global, count: usize) -> Result<Texts, NoMemory> {
    let text = "x".repeat(alloc, count)?;
    let mut texts = Texts::new(alloc);
    texts.push(Text::from_string(text))?;
    Ok(texts)
}

fn launch(alloc: Global) -> Result<Launch, NoMemory> {
    Ok(Launch {
        program: Text::copy_of(alloc, "/srv/cgi/hello")?,
        dir: Text::copy_of(alloc, "/srv/cgi")?,
        args: Texts::new(alloc),
        env: Pairs::new(alloc),
    })
}

/// The act.
fn act_of(alloc: Global, asked: Asked) -> Result<Act, NoMemory> {
    Ok(match asked {
        Asked::WantClient(c) => Act::WantClient { c },
        Asked::Write(c, n) => Act::Write {
            c,
            bytes: filled(alloc, n)?,
        },
        Asked::Shut(c) => Act::Shut { c, why: Why::Done },
        Asked::Start(k) => Act::Start {
            k,
            c: 0,
            j: 0,
            hop: 0,
            launch: launch(alloc)?,
        },
        Asked::Feed(k, n) => Act::Feed {
            k,
            bytes: filled(alloc, n)?,
        },
        Asked::EndInput(k) => Act::EndInput { k },
        Asked::WantChild(k) => Act::WantChild { k },
        Asked::Kill(k) => Act::Kill { k },
        Asked::Release(k) => Act::Release { k },
        Asked::Upgrade(c) => Act::Upgrade {
            c,
            rest: filled(alloc, 0)?,
        },
        Asked::Says(c, n) => Act::Says {
            c,
            texts: texts_of(alloc, n)?,
        },
        Asked::CloseWs(c) => Act::CloseWs { c, code: 1000 },
    })
}

/// The item.
pub fn item_of(alloc: Global, word: Word) -> Result<Item, NoMemory> {
    match word {
        Word::In(heard) => Ok(Item::In(event_of(alloc, heard)?)),
        Word::Out(asked) => Ok(Item::Out(act_of(alloc, asked)?)),
    }
}

/// Adds the items.
pub fn push_items(alloc: Global, items: &mut Vec<Item>, trace: &[Word]) -> Result<(), NoMemory> {
    for word in trace {
        items.push(item_of(alloc, *word)?)?;
    }
    Ok(())
}

// Whether the event has the line of what is heard.
fn is_same(alloc: Global, event: &Event, heard: Heard) -> Result<bool, NoMemory> {
    let event = event_line(alloc, event)?;
    let wanted = event_of(alloc, heard)?;
    let wanted = event_line(alloc, &wanted)?;
    Ok(is(event.as_str(), wanted.as_str()))
}

/// Whether the outside hands up this event.
pub fn hears(alloc: Global, out: &mut MemoryOutside, heard: Heard) -> bool {
    match is_same(alloc, &out.next(), heard) {
        Ok(same) => same,
        Err(_) => false,
    }
}

/// Whether the outside hands up exactly these events.
pub fn hears_all(alloc: Global, out: &mut MemoryOutside, list: &[Heard]) -> bool {
    for heard in list {
        if !hears(alloc, out, *heard) {
            return false;
        }
    }
    true
}

/// Whether the outside answers the act so.
pub fn answers(alloc: Global, out: &mut MemoryOutside, asked: Asked, acted: Acted) -> bool {
    match act_of(alloc, asked) {
        Ok(act) => out.act(&act) == acted,
        Err(_) => false,
    }
}

/// Whether the outside answers each of these acts so.
pub fn answers_all(alloc: Global, out: &mut MemoryOutside, list: &[Asked], acted: Acted) -> bool {
    for asked in list {
        if !answers(alloc, out, *asked, acted) {
            return false;
        }
    }
    true
}
