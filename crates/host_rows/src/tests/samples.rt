// Runs of samples, and what is reported of them.
use host_trace::{Act, Event, Item};
use memory_world::MemoryWorld;
use sample_run::{run_sample, sample_report};
use std::alloc::Global;
use std::process::Abort;
use std::test::Fail;

fn reports(rt: &impl Abort, alloc: Global, seed: u64, count: u32, text: &str) -> Result<(), Fail> {
    let report = sample_report(alloc, seed, count)?;
    assert_eq!(rt; report.as_str(), text, "seed {seed}, {count} connections");
    Ok(())
}

// Six connections, one whose script can't be started, nine in two groups, and none.
#[test]
fn reports_of_small_samples(rt: HostRuntime) -> Result<(), Fail> {
    let alloc = rt.alloc();
    let head = "connections 6\nnone 1\nstatus 404 2\nstatus 502 3\nstarts 4\nreaps 4\n";
    reports(&rt, alloc, 1, 6, head)?;
    let one = "connections 1\nnone 0\nstatus 502 1\nstarts 1\nreaps 0\n";
    reports(&rt, alloc, 0, 1, one)?;
    let nine =
        "connections 9\nnone 0\nstatus 200 4\nstatus 404 1\nstatus 502 4\nstarts 8\nreaps 5\n";
    reports(&rt, alloc, 0, 9, nine)?;
    let none = "connections 0\nnone 0\nstarts 0\nreaps 0\n";
    reports(&rt, alloc, 0, 0, none)
}

// How many events come before Stop.
fn heard(items: &[Item]) -> usize {
    let mut count: usize = 0;
    for item in items {
        match item {
            Item::In(Event::Stop) => return count,
            Item::In(_) => count = count.saturating_add(1),
            Item::Out(_) => {}
        }
    }
    count
}

fn shuts(items: &[Item]) -> usize {
    let mut count: usize = 0;
    for item in items {
        if let Item::Out(Act::Shut { .. }) = item {
            count = count.saturating_add(1);
        }
    }
    count
}

// Every event of the list fits, and each connection is shut.
fn has_all(items: &[Item]) -> bool {
    heard(items) == 28 && shuts(items) == 6
}

fn tells_of_all(world: &MemoryWorld) -> bool {
    match world.given() {
        [trace] => world.tells() && has_all(trace.as_slice()),
        _ => false,
    }
}

#[test]
fn the_one_trace_of_a_run(rt: HostRuntime) -> Result<(), Fail> {
    let world = run_sample(rt.alloc(), 1, 6)?;
    assert!(rt; tells_of_all(&world));
    Ok(())
}
