// What a world in memory is told of its loops.
use super::drive::{FIRST, Heard, is_done, is_spent, outside_of, runs, world_of_two};
use super::lines::lines_of;
use super::script::is;
use host_base::NoMemory;
use host_loop::LoopEnd;
use host_run::Status;
use host_trace::Item;
use memory_world::MemoryWorld;
use std::alloc::Global;
use std::test::Fail;
use std::thread::Threads;

// What is told of a GET that a script answers: the events, and the acts of each step below it.
const ANSWERED: &str = "Accepted 192.0.2.1
    WantClient 0
ClientBytes 0: 59
    Start 0 (0, 0, 0) /srv/cgi/hello
Started 0
    EndInput 0
    WantChild 0
ChildBytes 0: 29
    WantChild 0
ChildEof 0
    Write 0: HTTP/1.1 200 OK\r\nContent-Type: text/plain\r\nContent-Length: 3\r\nConnection: close\r\n\r\nhi\n
    Shut 0 Done
Exited 0
Stop
";

// Its first two events.
const BEGUN: &str = "Accepted 192.0.2.1
    WantClient 0
ClientBytes 0: 59
    Start 0 (0, 0, 0) /srv/cgi/hello
";

// Two loops, which hear a GET or nothing, and then Stop.
type Two = [&'static [Heard<'static>]; 2];

const BOTH: Two = [&FIRST, &FIRST];

const ONE: Two = [&FIRST, &[]];

const OTHER: Two = [&[], &FIRST];

fn world(alloc: Global, [one, two]: Two) -> Result<MemoryWorld, NoMemory> {
    let first = outside_of(alloc, one, 64, 64)?;
    let second = outside_of(alloc, two, 64, 64)?;
    world_of_two(alloc, first, second)
}

// Whether a trace has these lines.
fn has_lines(alloc: Global, items: &[Item], text: &str) -> Result<bool, NoMemory> {
    let lines = lines_of(alloc, items)?;
    Ok(is(lines.as_str(), text))
}

// Whether this is told of the two loops.
fn is_told(alloc: Global, world: &MemoryWorld, [one, two]: [&str; 2]) -> Result<bool, NoMemory> {
    match world.given() {
        [first, second] => Ok(
            world.tells()
                && has_lines(alloc, first.as_slice(), one)?
                && has_lines(alloc, second.as_slice(), two)?,
        ),
        _ => Ok(false),
    }
}

fn has_ended(status: &Status, end: LoopEnd) -> bool {
    match end {
        LoopEnd::Done => is_done(status),
        LoopEnd::Spent => is_spent(status),
        LoopEnd::NoMemory => false,
    }
}

// Whether two loops, with so many turns each, end so, and this is told of each.
fn serves<R: Threads + Sync>(
    rt: &R,
    alloc: Global,
    heard: Two,
    turns: &str,
    end: LoopEnd,
    told: [&str; 2],
) -> Result<bool, NoMemory> {
    let mut world = world(alloc, heard)?;
    let site = "/cgi-bin/hello=/srv/cgi/hello";
    let words = ["serve", site, "--loops", "2", "--turns", turns];
    let status = runs(rt, alloc, &words, &mut world)?;
    Ok(has_ended(&status, end) && is_told(alloc, &world, told)?)
}

#[test]
fn each_loop_answers_its_client(rt: HostRuntime) -> Result<(), Fail> {
    let turns = "4611686018427387904";
    let told = [ANSWERED, ANSWERED];
    assert!(rt; serves(&rt, rt.alloc(), BOTH, turns, LoopEnd::Done, told)?);
    Ok(())
}

#[test]
fn loops_end_with_their_turns(rt: HostRuntime) -> Result<(), Fail> {
    let told = [BEGUN, BEGUN];
    assert!(rt; serves(&rt, rt.alloc(), BOTH, "2", LoopEnd::Spent, told)?);
    Ok(())
}

#[test]
fn traces_come_back_in_their_places(rt: HostRuntime) -> Result<(), Fail> {
    let told = [ANSWERED, "Stop\n"];
    assert!(rt; serves(&rt, rt.alloc(), ONE, "7", LoopEnd::Done, told)?);
    let told = ["Stop\n", ANSWERED];
    assert!(rt; serves(&rt, rt.alloc(), OTHER, "7", LoopEnd::Done, told)?);
    Ok(())
}

#[test]
fn one_spent_loop_is_the_end_of_all(rt: HostRuntime) -> Result<(), Fail> {
    let told = ["Stop\n", BEGUN];
    assert!(rt; serves(&rt, rt.alloc(), OTHER, "2", LoopEnd::Spent, told)?);
    let told = [BEGUN, "Stop\n"];
    assert!(rt; serves(&rt, rt.alloc(), ONE, "2", LoopEnd::Spent, told)?);
    Ok(())
}
