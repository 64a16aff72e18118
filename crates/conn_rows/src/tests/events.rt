// Events that bring something.
use host_base::{Bytes, NoMemory, Peer, Text};
use host_trace::Event;
use std::alloc::Global;

pub fn accepted(alloc: Global) -> Result<Event, NoMemory> {
    let text = Text::copy_of(alloc, "192.0.2.1")?;
    Ok(Event::Accepted { peer: Peer(text) })
}

pub fn client_bytes(alloc: Global, c: u64, bytes: &[u8]) -> Result<Event, NoMemory> {
    let bytes = Bytes::from_slice(alloc, bytes)?;
    Ok(Event::ClientBytes { c, bytes })
}

pub fn child_bytes(alloc: Global, k: u64, bytes: &[u8]) -> Result<Event, NoMemory> {
    let bytes = Bytes::from_slice(alloc, bytes)?;
    Ok(Event::ChildBytes { k, bytes })
}

pub fn message(alloc: Global, c: u64, bytes: &[u8]) -> Result<Event, NoMemory> {
    let bytes = Bytes::from_slice(alloc, bytes)?;
    Ok(Event::WsText { c, bytes })
}
