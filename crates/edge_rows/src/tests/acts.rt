// Acts by letters, and what they are made of, for the tests.
use host_base::{Bytes, Docs, Hosts, Launch, Limits, NoMemory, Pairs, Site, Text, Texts};
use host_trace::{Act, Why};
use std::alloc::Global;

/// A site at which nothing is served, where so many children may run.
pub fn site(alloc: Global, children: u32) -> Result<Site, NoMemory> {
    let limits = Limits {
        children,
        ..Limits::default()
    };
    Ok(Site {
        listen: Text::copy_of(alloc, "127.0.0.1")?,
        port: 8_080,
        limits,
        hosts: Hosts::new(alloc),
        docs: Docs::new(alloc),
    })
}

/// A launch, at which no fake looks.
pub fn launch(alloc: Global) -> Result<Launch, NoMemory> {
    Ok(Launch {
        program: Text::copy_of(alloc, "a")?,
        dir: Text::copy_of(alloc, "b")?,
        args: Texts::new(alloc),
        env: Pairs::new(alloc),
    })
}

fn start(alloc: Global, k: u64, c: u64) -> Result<Act, NoMemory> {
    let launch = launch(alloc)?;
    Ok(Act::Start {
        k,
        c,
        j: 0,
        hop: 0,
        launch,
    })
}

fn feed(alloc: Global, k: u64, bytes: &[u8]) -> Result<Act, NoMemory> {
    let bytes = Bytes::from_slice(alloc, bytes)?;
    Ok(Act::Feed { k, bytes })
}

fn write(alloc: Global, c: u64, bytes: &[u8]) -> Result<Act, NoMemory> {
    let bytes = Bytes::from_slice(alloc, bytes)?;
    Ok(Act::Write { c, bytes })
}

fn upgrade(alloc: Global, c: u64) -> Result<Act, NoMemory> {
    let rest = Bytes::new(alloc);
    Ok(Act::Upgrade { c, rest })
}

/// The act on child k or on connection c that a letter stands for.
pub fn act_of(alloc: Global, letter: u8, k: u64, c: u64) -> Result<Act, NoMemory> {
    match letter {
        b'S' => start(alloc, k, c),
        // The child after it.
        b'T' => start(alloc, k.saturating_add(1), c),
        b'F' => feed(alloc, k, b"abc"),
        b'f' => feed(alloc, k, b"ab"),
        b'E' => Ok(Act::EndInput { k }),
        b'c' => Ok(Act::WantChild { k }),
        b'K' => Ok(Act::Kill { k }),
        b'R' => Ok(Act::Release { k }),
        b'W' => write(alloc, c, b"ab"),
        b'h' => write(alloc, c, b"hi"),
        b'U' => upgrade(alloc, c),
        b's' => Ok(Act::Shut { c, why: Why::Done }),
        _ => Ok(Act::WantClient { c }),
    }
}
