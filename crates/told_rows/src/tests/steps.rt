// What is done and heard, in short.
use host_base::{Bytes, Launch, NoMemory, Pairs, Peer, Text, Texts};
use host_trace::{Act, Event, Why};
use std::alloc::Global;

/// An act that is asked for, or an event that is handed up, with whether it fits there.
#[derive(Clone, Copy)]
pub enum Step {
    Does(Ask),
    Fits(Seen),
    Misfits(Seen),
}

/// An act; its bytes are so many `x`.
#[derive(Clone, Copy)]
pub enum Ask {
    Client(u64),
    Write(u64, usize),
    Shut(u64),
    Start(u64, u64),
    Feed(u64, usize),
    EndInput(u64),
    Child(u64),
    Release(u64),
    Upgrade(u64),
    Says(u64, usize),
}

/// An event; its bytes are so many `x`.
#[derive(Clone, Copy)]
pub enum Seen {
    Accepted,
    Bytes(u64, usize),
    Eof(u64),
    Gone(u64),
    Wrote(u64, u64),
    Started(u64),
    StartFailed(u64),
    StartFull(u64, u32),
    Output(u64, usize),
    OutputEof(u64),
    Broken(u64),
    Took(u64, u64),
    InputGone(u64),
    Exited(u64),
    Text(u64),
    Binary(u64),
    Closed(u64),
    Bad(u64),
    NoRoom(u64),
    Tick(u64),
    Stop,
}

fn filled(alloc: Global, count: usize) -> Result<Bytes, NoMemory> {
    let mut bytes = Bytes::new(alloc);
    for _ in 0..count {
        bytes.push(b'x')?;
    }
    Ok(bytes)
}

fn launch(alloc: Global) -> Result<Launch, NoMemory> {
    Ok(Launch {
        program: Text::copy_of(alloc, "/srv/s")?,
        dir: Text::copy_of(alloc, "/srv")?,
        args: Texts::new(alloc),
        env: Pairs::new(alloc),
    })
}

fn texts(alloc: Global, count: usize) -> Result<Texts, NoMemory> {
    let mut text = String::new(alloc);
    for _ in 0..count {
        text.push('x')?;
    }
    let mut texts = Texts::new(alloc);
    texts.push(Text::from_string(text))?;
    Ok(texts)
}

/// The act.
pub fn act_of(alloc: Global, ask: Ask) -> Result<Act, NoMemory> {
    Ok(match ask {
        Ask::Client(c) => Act::WantClient { c },
        Ask::Write(c, count) => Act::Write {
            c,
            bytes: filled(alloc, count)?,
        },
        Ask::Shut(c) => Act::Shut { c, why: Why::Done },
        Ask::Start(k, c) => Act::Start {
            k,
            c,
            j: 0,
            hop: 0,
            launch: launch(alloc)?,
        },
        Ask::Feed(k, count) => Act::Feed {
            k,
            bytes: filled(alloc, count)?,
        },
        Ask::EndInput(k) => Act::EndInput { k },
        Ask::Child(k) => Act::WantChild { k },
        Ask::Release(k) => Act::Release { k },
        Ask::Upgrade(c) => Act::Upgrade {
            c,
            rest: Bytes::new(alloc),
        },
        Ask::Says(c, count) => Act::Says {
            c,
            texts: texts(alloc, count)?,
        },
    })
}

/// The event.
pub fn event_of(alloc: Global, seen: Seen) -> Result<Event, NoMemory> {
    Ok(match seen {
        Seen::Accepted => Event::Accepted {
            peer: Peer(Text::copy_of(alloc, "127.0.0.1")?),
        },
        Seen::Bytes(c, count) => Event::ClientBytes {
            c,
            bytes: filled(alloc, count)?,
        },
        Seen::Eof(c) => Event::ClientEof { c },
        Seen::Gone(c) => Event::ClientGone { c },
        Seen::Wrote(c, n) => Event::Wrote { c, n },
        Seen::Started(k) => Event::Started { k },
        Seen::StartFailed(k) => Event::StartFailed { k },
        Seen::StartFull(k, seen) => Event::StartFull { k, seen },
        Seen::Output(k, count) => Event::ChildBytes {
            k,
            bytes: filled(alloc, count)?,
        },
        Seen::OutputEof(k) => Event::ChildEof { k },
        Seen::Broken(k) => Event::ChildBroken { k },
        Seen::Took(k, n) => Event::Took { k, n },
        Seen::InputGone(k) => Event::InputGone { k },
        Seen::Exited(k) => Event::Exited { k },
        Seen::Text(c) => Event::WsText {
            c,
            bytes: filled(alloc, 1)?,
        },
        Seen::Binary(c) => Event::WsBinary { c },
        Seen::Closed(c) => Event::WsClosed { c },
        Seen::Bad(c) => Event::WsBad { c },
        Seen::NoRoom(c) => Event::NoRoom { c },
        Seen::Tick(secs) => Event::Tick { secs },
        Seen::Stop => Event::Stop,
    })
}
