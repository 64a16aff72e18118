// Lists and reports as tables.
use super::drive::Heard::{Accepted, Exited, Stop};
use super::lines::{event_line, marked, push_event, shown};
use super::script::is;
use super::words::Asked::Start;
use super::words::Word::{In, Out};
use super::words::{Word, item_of, push_items};
use host_base::{Bytes, NoMemory};
use host_trace::{Act, Event, Item};
use sample_parts::{sample, sample_text};
use std::alloc::Global;
use std::process::Abort;
use std::test::Fail;

// The events of seed 1 for six connections, of the kinds 3, 1, 5, 1, 3, 3, a line each.
const SIX: &str = "Accepted 192.0.2.1
Accepted 192.0.2.1
Accepted 192.0.2.1
Accepted 192.0.2.1
Accepted 192.0.2.1
Accepted 192.0.2.1
ClientBytes 0 GET /s HTTP/1.1|Host: a|Connection: close||
ClientBytes 1 GET /none HTTP/1.1|Host: a|Connection: close||
ClientBytes 2 GET /s HTTP/1.1|Host: a|Connection: close||
ClientBytes 3 GET /none HTTP/1.1|Host: a|Connection: close||
ClientBytes 4 GET /s HTTP/1.1|Host: a|Connection: close||
ClientBytes 5 GET /s HTTP/1.1|Host: a|Connection: close||
Started 0
Started 1
Started 2
Started 3
ChildBytes 0 Content-Type: text/plain
ChildBytes 1 Content-Type: text/plain;;hi
ChildBytes 2 Content-Type: text/plain
ChildBytes 3 Content-Type: text/plain
ChildEof 0
ClientGone 2
ChildEof 2
ChildEof 3
Exited 0
Exited 1
Exited 2
Exited 3
Stop
";

// Those of seed 0 for nine, of the kinds 4, 3, 2, 2, 4, 1, 4, 2 and, in a group of its own, 0.
const NINE: &str = "Accepted 192.0.2.1
Accepted 192.0.2.1
Accepted 192.0.2.1
Accepted 192.0.2.1
Accepted 192.0.2.1
Accepted 192.0.2.1
Accepted 192.0.2.1
Accepted 192.0.2.1
ClientBytes 0 GET /s HTTP/1.1|Host: a|Connection: close||
ClientBytes 1 GET /s HTTP/1.1|Host: a|Connection: close||
ClientBytes 2 HEAD /s HTTP/1.1|Host: a|Connection: close||
ClientBytes 3 HEAD /s HTTP/1.1|Host: a|Connection: close||
ClientBytes 4 GET /s HTTP/1.1|Host: a|Connection: close||
ClientBytes 5 GET /none HTTP/1.1|Host: a|Connection: close||
ClientBytes 6 GET /s HTTP/1.1|Host: a|Connection: close||
ClientBytes 7 HEAD /s HTTP/1.1|Host: a|Connection: close||
StartFailed 0
Started 1
Started 2
Started 3
StartFailed 4
StartFailed 5
Started 6
ChildBytes 1 Content-Type: text/plain
ChildBytes 2 Content-Type: text/plain;;hi
ChildBytes 3 Content-Type: text/plain;;hi
ChildBytes 6 Content-Type: text/plain;;hi
ChildEof 1
ChildEof 2
ChildEof 3
ChildEof 6
Exited 1
Exited 2
Exited 3
Exited 6
Accepted 192.0.2.1
ClientBytes 8 GET /s HTTP/1.1|Host: a|Connection: close||
Started 7
ChildBytes 7 Content-Type: text/plain;;hi
ChildEof 7
Exited 7
Stop
";

// Bytes in one line: `|` for a CRLF, `;` for a line feed within.
fn in_one_line(alloc: Global, bytes: &[u8]) -> Result<String, NoMemory> {
    let text = shown(bytes).replace(alloc, "\r\n", "|")?;
    let text = text.as_str().strip_suffix('\n').unwrap_or(text.as_str());
    Ok(text.replace(alloc, "\n", ";")?)
}

fn with_bytes(alloc: Global, name: &str, number: u64, bytes: &[u8]) -> Result<String, NoMemory> {
    let text = in_one_line(alloc, bytes)?;
    marked(alloc, name, number, " ", text.as_str())
}

fn line_of(alloc: Global, event: &Event) -> Result<String, NoMemory> {
    match event {
        Event::ClientBytes { c, bytes } => with_bytes(alloc, "ClientBytes", *c, bytes.as_slice()),
        Event::ChildBytes { k, bytes } => with_bytes(alloc, "ChildBytes", *k, bytes.as_slice()),
        other => event_line(alloc, other),
    }
}

fn push_lines(lines: &mut String, alloc: Global, events: &[Event]) -> Result<(), NoMemory> {
    for event in events {
        push_event(lines, line_of(alloc, event)?.as_str())?;
    }
    Ok(())
}

fn lines_of(alloc: Global, seed: u64, count: u32) -> Result<String, NoMemory> {
    let events = sample(alloc, seed, count)?;
    let mut lines = String::new(alloc);
    push_lines(&mut lines, alloc, events.as_slice())?;
    Ok(lines)
}

fn lists(rt: &impl Abort, alloc: Global, seed: u64, count: u32, wanted: &str) -> Result<(), Fail> {
    let lines = lines_of(alloc, seed, count)?;
    assert_eq!(rt; lines.as_str(), wanted, "seed {seed}");
    Ok(())
}

#[test]
fn the_list_of_a_seed(rt: HostRuntime) -> Result<(), Fail> {
    lists(&rt, rt.alloc(), 1, 6, SIX)?;
    lists(&rt, rt.alloc(), 0, 9, NINE)?;
    lists(&rt, rt.alloc(), 65537, 9, NINE)?;
    lists(&rt, rt.alloc(), 7, 0, "Stop\n")
}

// ---- reports

fn write(c: u64, alloc: Global, text: &str) -> Result<Item, NoMemory> {
    let bytes = Bytes::from_slice(alloc, text.as_bytes())?;
    Ok(Item::Out(Act::Write { c, bytes }))
}

// A reply of this code is written to connection c in two pieces.
fn reply(alloc: Global, c: u64, code: &str, items: &mut Vec<Item>) -> Result<(), NoMemory> {
    items.push(write(c, alloc, "HTTP/1.1 ")?)?;
    items.push(write(c, alloc, code)?)?;
    Ok(())
}

// Seven connections, and replies to five of them and to one that is none.
fn push_replies(alloc: Global, items: &mut Vec<Item>) -> Result<(), NoMemory> {
    for c in 0..7 {
        items.push(item_of(alloc, In(Accepted))?)?;
    }
    for (c, code) in [
        (5, "502 Bad"),
        (0, "200 OK"),
        (2, "404 Not"),
        (3, "200"),
        (4, "20"),
        (7, "200 OK"),
    ] {
        reply(alloc, c, code, items)?;
    }
    Ok(())
}

// Two children, of which one has exited, and the end.
const CHILDREN: [Word; 4] = [Out(Start(0)), Out(Start(1)), In(Exited(1)), In(Stop)];

fn a_trace(alloc: Global) -> Result<Vec<Item>, NoMemory> {
    let mut items = Vec::new(alloc);
    push_replies(alloc, &mut items)?;
    push_items(alloc, &mut items, &CHILDREN)?;
    Ok(items)
}

// Whether this is the report of a trace.
fn is_report(alloc: Global, items: &[Item], wanted: &str) -> Result<bool, NoMemory> {
    let text = sample_text(alloc, items)?;
    Ok(is(text.as_str(), wanted))
}

const REPORT: &str =
    "connections 7\nnone 2\nstatus 200 2\nstatus 404 1\nstatus 502 1\nstarts 2\nreaps 1\n";

fn is_reported(alloc: Global) -> Result<bool, NoMemory> {
    let items = a_trace(alloc)?;
    is_report(alloc, items.as_slice(), REPORT)
}

#[test]
fn the_report_of_a_trace(rt: HostRuntime) -> Result<(), Fail> {
    assert!(rt; is_reported(rt.alloc())?);
    let none = "connections 0\nnone 0\nstarts 0\nreaps 0\n";
    assert!(rt; is_report(rt.alloc(), &[], none)?);
    Ok(())
}
