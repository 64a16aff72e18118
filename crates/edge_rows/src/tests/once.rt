mod script;

use super::acts::site;
use super::kids;
use super::kids::{FakeSpawner, Plan, Start};
use super::pipes::{Drain, PipeEnd, Source};
use child_edge::{ChildSet, Spawner};
use crossbeam_utils::sync::Parker;
use host_base::{NoMemory, Peer, Sink, Site, Text};
use host_trace::{Mode, World};
use once_edge::{OnceOutside, OnceWorld, StdioSocket};
use pipe_pump::{PipeIn, rings};
use pipe_wait::{PipeWait, PipeWaker};
use pump_pool::{Job, OutHands, OutJob, Station, Worker, start_thread};
use script::{Ran, Script, run};
use std::alloc::Global;
use std::net::Net;
use std::process::{Processes, SystemProcess};
use std::sync::atomic::AtomicBool;
use std::sync::{Arc, Wait};
use std::test::Fail;
use std::thread::Threads;
use std::time::Clock;
use std_spawner::{PumpJob, StartThread, ThreadStarter};

// Whether the world can't serve.
fn refuses<W: World>(world: &mut W, site: &Site) -> bool {
    match world.enter(Mode::Serve, site, 1) {
        Ok(outs) => {
            world.leave(outs);
            false
        }
        Err(_) => true,
    }
}

fn once_refuses<
    R: Processes<Started = SystemProcess> + Wait + Clock + Copy + Drop + Send + 'static,
    T: StartThread + Drop + Send + 'static,
    K: Sink + Drop + Send + 'static,
>(world: OnceWorld<R, T, K>, site: &Site) -> bool {
    let mut world = world;
    refuses(&mut world, site)
}

#[test]
fn it_serves_no_sockets(rt: HostRuntime) -> Result<(), Fail> {
    let alloc = rt.alloc();
    let start: Box<dyn Fn(Station<PumpJob>) -> Option<PipeWaker> + Send> = Box::new(
        alloc,
        move |station: Station<PumpJob>| PumpJob::start_thread(&rt, station),
    )?;
    let starter = ThreadStarter::new(start);
    let world = OnceWorld::new(rt, alloc, starter, rt.stdin(), Drain::new(alloc, 1, 9));
    assert!(rt; once_refuses(world, &site(alloc, 64)?));
    Ok(())
}

// The client whose pump ran on this pipe, at the end of which it is, and this sink.
fn socket<R: Wait, P: PipeIn + Drop, K: Sink + Drop>(
    rt: &R,
    alloc: Global,
    pipe: P,
    sink: K,
) -> Result<StdioSocket<P, K>, NoMemory> {
    let (ring, tap) = rings(alloc, 16)?;
    let (job, pump) = OutHands::new(alloc)?.pump(pipe, ring);
    job.run(rt, &mut PipeWait::none());
    Ok(StdioSocket::new(tap, pump, sink))
}

// A client of this pipe and its sink, beside the children of a spawner.
fn outside<R: Wait + Clock + Copy + Drop, S: Spawner + Drop, P: PipeIn + Drop, K: Sink + Drop>(
    rt: R,
    alloc: Global,
    pipe: P,
    sink: K,
    spawner: S,
) -> Result<OnceOutside<R, S, P, K>, NoMemory> {
    let children = ChildSet::new(alloc, spawner, 2)?;
    OnceOutside::new(
        rt,
        alloc,
        Parker::new(alloc)?,
        Peer(Text::copy_of(alloc, "127.0.0.1")?),
        socket(&rt, alloc, pipe, sink)?,
        children,
        2,
    )
}

// A pipe of so many bytes, and what comes after them.
fn pipe_of(client: (u32, PipeEnd)) -> Source {
    Source {
        bytes: client.0,
        end: client.1,
        gate: None,
        faults: 0,
    }
}

/// What the devices of one run do.
#[derive(Clone, Copy)]
struct Devices {
    /// How many bytes come, and what after them.
    client: (u32, PipeEnd),
    output: (u32, PipeEnd),
    /// How many writes are good.
    input: u32,
    puts: u32,
    start: Start,
    /// So many asks for what became of it are too early.
    starts_after: u32,
    reaps_fail: u32,
}

const GOOD: Devices = Devices {
    client: (1, PipeEnd::Good),
    output: (1, PipeEnd::Good),
    input: 9,
    puts: 9,
    start: Start::Good,
    starts_after: 0,
    reaps_fail: 0,
};

impl Devices {
    // What starts the one program.
    fn spawner<R>(self, rt: R, alloc: Global) -> FakeSpawner<R> {
        let none = Plan {
            start: Start::Refused,
            ..kids::PLAIN
        };
        let plan = Plan {
            start: self.start,
            starts_after: self.starts_after,
            pieces: self.output.0,
            output: self.output.1,
            reaps_fail: self.reaps_fail,
            exits_after: 0,
            ..kids::PLAIN
        };
        FakeSpawner::with_threads(rt, alloc, [plan, none], self.input, None, Vec::new(alloc))
    }

    // What is told of a run, by letters, and how often anything failed.
    fn tell<R: Wait + Clock + Copy + Drop>(self, rt: R, alloc: Global) -> Result<Ran, Fail> {
        let spawner = self.spawner(rt, alloc);
        let sink = Drain::new(alloc, 1, self.puts);
        let outside = outside(rt, alloc, pipe_of(self.client), sink, spawner)?;
        let script = Script::One {
            ends_input: self.input > 1,
        };
        run(alloc, outside, script, &AtomicBool::new(false))
    }
}

/// What the devices do, what is told, how often anything failed.
type Row = (Devices, &'static [u8], u64);

// What the first row that isn't so wants to be told.
fn wrong_row<R: Wait + Clock + Copy + Drop>(
    rt: R,
    alloc: Global,
    rows: &[Row],
) -> Result<Option<&'static [u8]>, Fail> {
    for (devices, told, faults) in rows {
        let ran = devices.tell(rt, alloc)?;
        if ran.letters.as_slice() != *told || ran.faults != *faults {
            return Ok(Some(*told));
        }
    }
    Ok(None)
}

#[test]
fn a_client_and_a_start_fail(rt: HostRuntime) -> Result<(), Fail> {
    let rows: [Row; 6] = [
        (GOOD, b"acstdfbwez", 0),
        (
            Devices {
                client: (0, PipeEnd::Failed),
                ..GOOD
            },
            b"agz",
            1,
        ),
        (
            Devices {
                client: (1, PipeEnd::Failed),
                ..GOOD
            },
            b"acstdgz",
            1,
        ),
        (
            Devices {
                start: Start::Refused,
                ..GOOD
            },
            b"acqz",
            1,
        ),
        (Devices { puts: 0, ..GOOD }, b"acstdfbgz", 1),
        (Devices { puts: 1, ..GOOD }, b"acstdfbwez", 1),
    ];
    assert_eq!(rt; wrong_row(rt, rt.alloc(), &rows)?, None);
    Ok(())
}

// The client is gone while its child is being started, which is killed and given up then.
#[test]
fn a_start_is_told_once_its_client_is_gone(rt: HostRuntime) -> Result<(), Fail> {
    let late = Devices {
        client: (1, PipeEnd::Failed),
        starts_after: 2,
        ..GOOD
    };
    let rows: [Row; 4] = [
        (late, b"acgstdz", 1),
        (
            Devices {
                start: Start::Fails,
                ..late
            },
            b"acgqz",
            2,
        ),
        // .. and while it waits.
        (
            Devices {
                client: (1, PipeEnd::Good),
                ..late
            },
            b"acfstbdwez",
            0,
        ),
        (
            Devices {
                client: (1, PipeEnd::Good),
                start: Start::Fails,
                ..late
            },
            b"acfqz",
            1,
        ),
    ];
    assert_eq!(rt; wrong_row(rt, rt.alloc(), &rows)?, None);
    Ok(())
}

#[test]
fn a_child_fails(rt: HostRuntime) -> Result<(), Fail> {
    let rows: [Row; 7] = [
        (
            Devices {
                output: (0, PipeEnd::Failed),
                ..GOOD
            },
            b"acstdfxz",
            1,
        ),
        (
            Devices {
                output: (1, PipeEnd::Failed),
                ..GOOD
            },
            b"acstdfbwxz",
            1,
        ),
        (Devices { input: 0, ..GOOD }, b"acstidfbwez", 1),
        (Devices { input: 1, ..GOOD }, b"acstidfbwez", 1),
        (
            Devices {
                reaps_fail: 1,
                ..GOOD
            },
            b"acstdfbwez",
            0,
        ),
        (
            Devices {
                reaps_fail: 2,
                ..GOOD
            },
            b"acstfbdwez",
            0,
        ),
        (
            Devices {
                reaps_fail: 4,
                ..GOOD
            },
            b"acstfbwedz",
            0,
        ),
    ];
    assert_eq!(rt; wrong_row(rt, rt.alloc(), &rows)?, None);
    Ok(())
}

// The place of a letter, or how many letters there are.
fn place(letters: &[u8], letter: u8) -> usize {
    let mut at = 0;
    for other in letters {
        if *other == letter {
            return at;
        }
        at = at.saturating_add(1);
    }
    letters.len()
}

// Whether the second child ends before the first gives anything, and then ends too.
fn are_in_order(letters: &[u8]) -> bool {
    let second = place(letters, b'E');
    let given = place(letters, b'b');
    let first = place(letters, b'e');
    second < given && given < first && first < letters.len()
}

fn two_threads<R: Threads + Wait + Net + Copy + Drop + Send + 'static>(
    rt: &R,
    alloc: Global,
) -> Result<Vec<Worker<OutJob<Source>>>, NoMemory> {
    let mut threads = Vec::new(alloc);
    for _ in 0..2 {
        let (worker, station) = Worker::pair(alloc)?;
        if let Some(waker) = start_thread(rt, station) {
            threads.push(worker.woken_by(waker))?;
        }
    }
    Ok(threads)
}

// What starts two children whose outputs are read in threads of their own: that of the first waits for the end of the second.
fn gated<R: Threads + Wait + Net + Copy + Drop + Send + 'static>(
    rt: R,
    alloc: Global,
    gate: &Arc<AtomicBool, Global>,
) -> Result<FakeSpawner<R>, Fail> {
    let plan = Plan {
        pieces: 2,
        exits_after: 0,
        ..kids::PLAIN
    };
    let other = Plan { pieces: 3, ..plan };
    let gate = Some(Arc::try_clone(gate)?);
    let threads = two_threads(&rt, alloc)?;
    Ok(FakeSpawner::with_threads(rt, alloc, [plan, other], 0, gate, threads))
}

#[test]
fn pumps_run_beside_each_other(rt: HostRuntime) -> Result<(), Fail> {
    let alloc = rt.alloc();
    let gate = Arc::new(alloc, AtomicBool::new(false))?;
    let spawner = gated(rt, alloc, &gate)?;
    let sink = Drain::new(alloc, 1, 0);
    let outside = outside(rt, alloc, pipe_of((0, PipeEnd::Good)), sink, spawner)?;
    let ran = run(alloc, outside, Script::Two, &gate)?;
    assert!(rt; are_in_order(ran.letters.as_slice()));
    assert_eq!(rt; ran.faults_at_end, 0);
    Ok(())
}
