// Runs of the top call over memory: what is heard, the site files that are stored, and the words.
use super::script::is;
use super::texts::{OUTPUT, REQUEST};
use host_base::{Bytes, NoMemory, Peer, Text};
use host_run::{Status, run};
use host_trace::{Event, Events};
use memory_world::{MemoryOutside, MemorySink, MemoryStore, MemoryWorld, StoredFile};
use std::alloc::Global;
use std::thread::Threads;

pub const WORDS: [&str; 2] = ["once", "/cgi-bin/hello=/srv/cgi/hello"];

/// The exchange of the first reply.
pub const FIRST: [Heard<'static>; 6] = [
    Heard::Accepted,
    Heard::Client(0, REQUEST),
    Heard::Started(0),
    Heard::Output(0, OUTPUT),
    Heard::OutputEof(0),
    Heard::Exited(0),
];

/// What is heard, of a connection or a child by its number.
#[derive(Clone, Copy)]
pub enum Heard<'t> {
    Accepted,
    Client(u64, &'t [u8]),
    /// So many bytes `x` of the client.
    ClientFill(u64, usize),
    ClientEof(u64),
    Gone(u64),
    NoRoom(u64),
    Wrote(u64, u64),
    Started(u64),
    StartFailed(u64),
    StartFull(u64, u32),
    Output(u64, &'t [u8]),
    /// So many bytes `x` of output.
    OutputFill(u64, usize),
    /// The header of a plain text and so many bytes `x`, in one piece of output.
    OutputLong(u64, usize),
    OutputEof(u64),
    Broken(u64),
    Took(u64, u64),
    InputGone(u64),
    Exited(u64),
    WsText(u64, &'t [u8]),
    /// A text of so many bytes `x`.
    WsFill(u64, usize),
    WsBinary(u64),
    WsClosed(u64),
    WsBad(u64),
    /// A Tick at 0 Unix seconds.
    Tick,
    /// A Tick at these Unix seconds.
    TickAt(u64),
    /// So many Ticks on 6 November 1994 at 8:49:37.
    Ticks(u32),
    Stop,
}

/// How often it is heard.
pub fn count_of(heard: Heard) -> u32 {
    match heard {
        Heard::Ticks(count) => count,
        _ => 1,
    }
}

/// So many bytes `x`.
pub fn filled(alloc: Global, count: usize) -> Result<Bytes, NoMemory> {
    Ok(Bytes::from_vec(vec![in alloc; b'x'; count]?))
}

fn filled_behind(alloc: Global, front: &[u8], count: usize) -> Result<Bytes, NoMemory> {
    let mut bytes = Bytes::from_slice(alloc, front)?;
    let more = filled(alloc, count)?;
    bytes.extend_from_slice(more.as_slice())?;
    Ok(bytes)
}

pub fn peer(alloc: Global) -> Result<Peer, NoMemory> {
    Ok(Peer(Text::copy_of(alloc, "192.0.2.1")?))
}

/// The event.
pub fn event_of(alloc: Global, heard: Heard) -> Result<Event, NoMemory> {
    Ok(match heard {
        Heard::Accepted => Event::Accepted { peer: peer(alloc)? },
        Heard::Client(c, bytes) => Event::ClientBytes {
            c,
            bytes: Bytes::from_slice(alloc, bytes)?,
        },
        Heard::ClientFill(c, count) => Event::ClientBytes {
            c,
            bytes: filled(alloc, count)?,
        },
        Heard::ClientEof(c) => Event::ClientEof { c },
        Heard::Gone(c) => Event::ClientGone { c },
        Heard::NoRoom(c) => Event::NoRoom { c },
        Heard::Wrote(c, n) => Event::Wrote { c, n },
        Heard::Started(k) => Event::Started { k },
        Heard::StartFailed(k) => Event::StartFailed { k },
        Heard::StartFull(k, seen) => Event::StartFull { k, seen },
        Heard::Output(k, bytes) => Event::ChildBytes {
            k,
            bytes: Bytes::from_slice(alloc, bytes)?,
        },
        Heard::OutputFill(k, count) => Event::ChildBytes {
            k,
            bytes: filled(alloc, count)?,
        },
        Heard::OutputLong(k, count) => Event::ChildBytes {
            k,
            bytes: filled_behind(alloc, b"Content-Type: text/plain\n\n", count)?,
        },
        Heard::OutputEof(k) => Event::ChildEof { k },
        Heard::Broken(k) => Event::ChildBroken { k },
        Heard::Took(k, n) => Event::Took { k, n },
        Heard::InputGone(k) => Event::InputGone { k },
        Heard::Exited(k) => Event::Exited { k },
        Heard::WsText(c, bytes) => Event::WsText {
            c,
            bytes: Bytes::from_slice(alloc, bytes)?,
        },
        Heard::WsFill(c, count) => Event::WsText {
            c,
            bytes: filled(alloc, count)?,
        },
        Heard::WsBinary(c) => Event::WsBinary { c },
        Heard::WsClosed(c) => Event::WsClosed { c },
        Heard::WsBad(c) => Event::WsBad { c },
        Heard::Tick => Event::Tick { secs: 0 },
        Heard::TickAt(secs) => Event::Tick { secs },
        Heard::Ticks(_) => Event::Tick { secs: 784_111_777 },
        Heard::Stop => Event::Stop,
    })
}

/// The events, each of which is heard once.
pub fn events_of(alloc: Global, list: &[Heard]) -> Result<Events, NoMemory> {
    let mut events = Events::new(alloc);
    for heard in list {
        events.push(event_of(alloc, *heard)?)?;
    }
    Ok(events)
}

// ---- sites

// Two scripts, one whose output is the reply as it is, and two that speak WebSocket.
pub const SITE: &str = "version = 1

[[script]]
path = \"/cgi-bin/hello\"
program = \"/srv/cgi/hello\"

[[script]]
path = \"/cgi-bin/form\"
program = \"/srv/cgi/form\"

[[script]]
path = \"/nph\"
program = \"/srv/cgi/nph\"
kind = \"nph\"

[[script]]
path = \"/ws\"
program = \"/srv/cgi/lines\"
kind = \"websocket\"

[[script]]
path = \"/shop\"
program = \"/srv/cgi/shop\"
kind = \"websocket\"
origins = [\"http://example.com\"]
";

// One child at a time.
const ONE: &str = "version = 1

[limits]
children = 1

[[script]]
path = \"/cgi-bin/hello\"
program = \"/srv/cgi/hello\"
";

// One connection at a time.
const NARROW: &str = "version = 1

[limits]
connections = 1

[[script]]
path = \"/cgi-bin/hello\"
program = \"/srv/cgi/hello\"
";

// As little output as a site may allow.
const SMALL: &str = "version = 1

[limits]
output = 8192

[[script]]
path = \"/cgi-bin/hello\"
program = \"/srv/cgi/hello\"
";

// Short lines and texts, and as little output as a site may allow.
const SHORT: &str = "version = 1

[limits]
output = 8192
ws_text = 4

[[script]]
path = \"/ws\"
program = \"/srv/cgi/lines\"
kind = \"websocket\"
";

// A script at a path below that of another.
const NESTED: &str = "version = 1

[[script]]
path = \"/cgi-bin\"
program = \"/srv/cgi/all\"

[[script]]
path = \"/cgi-bin/hello\"
program = \"/srv/cgi/hello\"
";

// Two hosts with a script at the same path, of which the second has one more, and none for every other name.
const HOSTS: &str = "version = 2

[[host]]
name = \"a.example\"
aliases = [\"www.a.example\"]

[[host.script]]
path = \"/s\"
program = \"/srv/a/s\"

[[host]]
name = \"b.example\"
root = \"/srv/b\"

[[host.script]]
path = \"/s\"
program = \"/srv/b/s\"

[[host.script]]
path = \"/t\"
program = \"/srv/b/t\"
";

/// A stored file.
pub fn file(alloc: Global, name: &str, bytes: &[u8]) -> Result<StoredFile, NoMemory> {
    Ok(StoredFile {
        name: Text::copy_of(alloc, name)?,
        bytes: Bytes::from_slice(alloc, bytes)?,
    })
}

fn store(alloc: Global) -> Result<MemoryStore, NoMemory> {
    let mut files = Vec::new(alloc);
    for (name, text) in [
        ("site", SITE),
        ("one", ONE),
        ("narrow", NARROW),
        ("small", SMALL),
        ("short", SHORT),
        ("nested", NESTED),
        ("hosts", HOSTS),
    ] {
        files.push(file(alloc, name, text.as_bytes())?)?;
    }
    Ok(MemoryStore::new(files, Vec::new(alloc)))
}

/// How many children of the site may run.
pub fn limit_of(site: &str) -> u32 {
    if is(site, "one") { 1 } else { 64 }
}

// ---- runs

/// An outside with these events, which refuses the acts of these numbers where it may, has room to tell so many items,
/// and lets so many children run.
pub fn outside_with(
    alloc: Global,
    events: Events,
    refused: Vec<u64>,
    room: usize,
    limit: u32,
) -> Result<MemoryOutside, NoMemory> {
    MemoryOutside::new(alloc, events, refused, room, limit)
}

/// An outside that hears this, has room to tell so many items, and lets so many children run.
pub fn outside_of(
    alloc: Global,
    heard: &[Heard],
    room: usize,
    limit: u32,
) -> Result<MemoryOutside, NoMemory> {
    outside_with(
        alloc,
        events_of(alloc, heard)?,
        Vec::new(alloc),
        room,
        limit,
    )
}

/// A world of these outsides.
pub fn world_with(alloc: Global, outs: Vec<MemoryOutside>) -> MemoryWorld {
    MemoryWorld::new(alloc, outs)
}

/// A world of one outside.
pub fn world_in(alloc: Global, out: MemoryOutside) -> Result<MemoryWorld, NoMemory> {
    let mut outs = Vec::new(alloc);
    outs.push(out)?;
    Ok(world_with(alloc, outs))
}

/// A world of two outsides.
pub fn world_of_two(
    alloc: Global,
    first: MemoryOutside,
    second: MemoryOutside,
) -> Result<MemoryWorld, NoMemory> {
    let mut outs = Vec::new(alloc);
    outs.push(first)?;
    outs.push(second)?;
    Ok(world_with(alloc, outs))
}

/// A world that can't be entered.
pub fn no_world(alloc: Global) -> MemoryWorld {
    world_with(alloc, Vec::new(alloc))
}

/// A world of one outside that refuses nothing.
pub fn world_of(alloc: Global, heard: &[Heard]) -> Result<MemoryWorld, NoMemory> {
    // Each event is followed by few acts, and most by one.
    let room = heard.len().saturating_mul(2).saturating_add(64);
    world_in(alloc, outside_of(alloc, heard, room, 64)?)
}

/// Where the puts of these numbers fail.
pub fn report_with(alloc: Global, failing: &[u64]) -> Result<MemorySink, NoMemory> {
    Ok(MemorySink::new(alloc, Vec::from_slice(alloc, failing)?))
}

fn words_of(alloc: Global, words: &[&str]) -> Result<Vec<String>, NoMemory> {
    let mut all = Vec::new(alloc);
    for word in words {
        all.push(word.to_string(alloc)?)?;
    }
    Ok(all)
}

/// Runs these words over a store, a report and a world.
pub fn runs_over<R: Threads + Sync>(
    rt: &R,
    alloc: Global,
    words: &[&str],
    store: &mut MemoryStore,
    report: &mut MemorySink,
    world: &mut MemoryWorld,
) -> Result<Status, NoMemory> {
    let words = words_of(alloc, words)?;
    Ok(run(rt, alloc, words.as_slice(), store, report, world))
}

/// Runs these words over a world.
pub fn runs<R: Threads + Sync>(
    rt: &R,
    alloc: Global,
    words: &[&str],
    world: &mut MemoryWorld,
) -> Result<Status, NoMemory> {
    let mut store = store(alloc)?;
    let mut report = report_with(alloc, &[])?;
    runs_over(rt, alloc, words, &mut store, &mut report, world)
}

pub fn is_done(status: &Status) -> bool {
    matches!(status, Status::Done)
}

pub fn is_spent(status: &Status) -> bool {
    matches!(status, Status::Spent)
}
