// The world, the store and the sink in memory, and their faults.
ghost use Rattle.std.specs.Prelude.{◌<◌};

use super::drive::Heard::{Accepted, Stop, Tick};
use super::drive::{file, outside_of, report_with, world_of_two};
use super::script::same;
use super::words::hears_all;
use host_base::{
    Docs, Hosts, Limits, NoMemory, Sink, SinkFault, Site, SiteStore, StoreFault, Text,
};
use host_trace::{EnterFault, Mode, World};
use memory_world::{MemoryOutside, MemorySink, MemoryStore, MemoryWorld, StoredFile};
use std::alloc::Global;
use std::test::Fail;

fn site(alloc: Global) -> Result<Site, NoMemory> {
    Ok(Site {
        listen: Text::copy_of(alloc, "127.0.0.1")?,
        port: 8080,
        limits: Limits::default(),
        hosts: Hosts::new(alloc),
        docs: Docs::new(alloc),
    })
}

// Two outsides, whose traces can be told apart.
fn world(alloc: Global, limit: u32) -> Result<MemoryWorld, NoMemory> {
    let first = outside_of(alloc, &[Accepted, Stop, Tick], 10, limit)?;
    let second = outside_of(alloc, &[Stop], 10, limit)?;
    world_of_two(alloc, first, second)
}

fn both_hear(alloc: Global, outs: &mut [MemoryOutside]) -> bool {
    match outs {
        [first, second] => {
            hears_all(alloc, first, &[Accepted, Stop, Tick]) && hears_all(alloc, second, &[Stop])
        }
        _ => false,
    }
}

// Whether both outsides are entered and hear their events, after which they are left.
fn runs(alloc: Global, world: &mut MemoryWorld, site: &Site) -> bool {
    match world.enter(Mode::Serve, site, 2) {
        Ok(mut outs) => {
            let heard = both_hear(alloc, outs.as_mut_slice());
            world.leave(outs);
            heard
        }
        Err(_) => false,
    }
}

// Whether traces of three items and of one were given.
fn gave(world: &MemoryWorld) -> bool {
    match world.given() {
        [first, second] => first.len() == 3 && second.len() == 1,
        _ => false,
    }
}

fn tells_of_a_run(alloc: Global, world: &mut MemoryWorld, site: &Site) -> bool {
    world.tells() && runs(alloc, world, site) && world.tells() && gave(world)
}

#[test]
fn traces_come_back_in_order(rt: HostRuntime) -> Result<(), Fail> {
    let site = site(rt.alloc())?;
    let mut world = world(rt.alloc(), 64)?;
    let right = tells_of_a_run(rt.alloc(), &mut world, &site);
    assert!(rt; right);
    Ok(())
}

// Whether entering fails, and is counted.
fn refuses(world: &mut MemoryWorld, site: &Site, loops: u32, faults: u64) -> bool
    requires { 0 < loops }
{
    match world.enter(Mode::Serve, site, loops) {
        Ok(_) => false,
        Err(fault) => fault == EnterFault::Failed && world.faults() == faults,
    }
}

fn is_entered_once(world: &mut MemoryWorld, site: &Site) -> bool {
    refuses(world, site, 1, 1)
        && refuses(world, site, 3, 2)
        && world.enter(Mode::Serve, site, 2).is_ok()
        && refuses(world, site, 2, 3)
}

#[test]
fn a_world_is_entered_once(rt: HostRuntime) -> Result<(), Fail> {
    let site = site(rt.alloc())?;
    let mut world = world(rt.alloc(), 64)?;
    assert!(rt; is_entered_once(&mut world, &site));
    Ok(())
}

#[test]
fn a_world_of_another_limit_is_refused(rt: HostRuntime) -> Result<(), Fail> {
    let site = site(rt.alloc())?;
    let mut world = world(rt.alloc(), 63)?;
    assert!(rt; refuses(&mut world, &site, 2, 1));
    Ok(())
}

fn files(alloc: Global) -> Result<Vec<StoredFile>, NoMemory> {
    let mut files = Vec::new(alloc);
    files.push(file(alloc, "a", b"version = 1")?)?;
    files.push(file(alloc, "b", b"")?)?;
    Ok(files)
}

fn store(alloc: Global) -> Result<MemoryStore, NoMemory> {
    let failing = vec![in alloc; Text::copy_of(alloc, "b")?]?;
    Ok(MemoryStore::new(files(alloc)?, failing))
}

// Whether reading a file fails, and is counted.
fn fails(store: &mut MemoryStore, name: &str, faults: u64) -> bool {
    match store.read(name) {
        Ok(_) => false,
        Err(fault) => fault == StoreFault::Failed && store.faults() == faults,
    }
}

// Whether reading a file gives these bytes.
fn gives(store: &mut MemoryStore, name: &str, bytes: &[u8]) -> bool {
    match store.read(name) {
        Ok(read) => same(read.as_slice(), bytes),
        Err(_) => false,
    }
}

fn has_faults(store: &mut MemoryStore) -> bool {
    let mut right = true;
    for (name, faults) in [("b", 1), ("c", 2), ("", 3), ("b", 4)] {
        right = right && fails(store, name, faults);
    }
    right && gives(store, "a", b"version = 1") && store.faults() == 4
}

#[test]
fn a_store_and_its_faults(rt: HostRuntime) -> Result<(), Fail> {
    let mut store = store(rt.alloc())?;
    let right = has_faults(&mut store);
    assert!(rt; right);
    Ok(())
}

// Whether the second of three puts fails, and is counted.
fn puts(sink: &mut MemorySink) -> bool {
    sink.put(b"ab").is_ok()
        && sink.put(b"cdef") == Err(SinkFault::Failed)
        && sink.faults() == 1
        && sink.put(b"g").is_ok()
        && same(sink.written(), b"abcdg")
        && sink.faults() == 1
}

#[test]
fn a_sink_and_its_faults(rt: HostRuntime) -> Result<(), Fail> {
    let alloc = rt.alloc();
    let mut sink = report_with(alloc, &[1])?;
    let right = puts(&mut sink);
    assert!(rt; right);
    Ok(())
}
