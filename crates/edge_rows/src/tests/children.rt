use super::acts::launch;
use super::events::{letter_of_child, number};
use super::kids::{FakeSpawner, PLAIN, Plan, Start};
use super::pipes::PipeEnd;
use super::set::Kids;
use child_edge::{SpawnFault, Spawner};
use host_base::NoMemory;
use host_trace::Event;
use std::alloc::{AllocError, Global};
use std::test::Fail;

// What is told, by a letter, and its number.
fn letter(event: &Option<Event>) -> (u8, u64) {
    match event {
        None => (b'-', 0),
        Some(event) => (letter_of_child(event), number(event)),
    }
}

// What is told at each of so many turns, by letters, while the output of child k is asked for.
fn told_in<S: Spawner + Drop>(
    alloc: Global,
    set: &mut Kids<S>,
    k: u64,
    turns: usize,
) -> Result<Vec<u8>, AllocError> {
    let mut letters = Vec::new(alloc);
    for _ in 0..turns {
        set.want(k);
        let event = set.poll();
        letters.push(letter(&event).0)?;
    }
    Ok(letters)
}

// A set of this spawner and of so much room, in which child k was started for connection c.
fn started<S: Spawner + Drop>(
    alloc: Global,
    spawner: S,
    cap: u32,
    k: u64,
    c: u64,
) -> Result<Kids<S>, Fail> {
    let launch = launch(alloc)?;
    let mut set = Kids::new(alloc, spawner, cap)?;
    set.start(k, c, &launch)?;
    Ok(set)
}

// Whether the next that is told has this letter and number.
fn tells<S: Spawner + Drop>(set: &mut Kids<S>, told: u8, k: u64) -> bool {
    let (heard, child) = letter(&set.poll());
    heard == told && child == k
}

// Whether the next that is told is that child 0 took so many bytes.
fn takes<S: Spawner + Drop>(set: &mut Kids<S>, count: u64) -> bool {
    match set.poll() {
        Some(Event::Took { k, n }) => k == 0 && n == count,
        _ => false,
    }
}

// Whether the next that is told is this output of child 0.
fn gives<S: Spawner + Drop>(set: &mut Kids<S>, output: &[u8]) -> bool {
    match set.poll() {
        Some(Event::ChildBytes { k, bytes }) => k == 0 && bytes.as_slice() == output,
        _ => false,
    }
}

// Whether child 0, whose input was fed and ended, is told of to its end.
fn runs_to_its_end<S: Spawner + Drop>(set: &mut Kids<S>) -> bool {
    let started = tells(set, b's', 0);
    let took = takes(set, 3);
    // Nothing is wanted, and it runs.
    let ran = tells(set, b'-', 0);
    set.want(0);
    let gave = gives(set, b"xxx");
    let exited = tells(set, b'd', 0);
    set.want(0);
    let ended = tells(set, b'e', 0);
    let settled = set.running() == 0;
    let quiet = tells(set, b'-', 0);
    started && took && ran && gave && exited && ended && settled && quiet && set.len() == 0
}

// .. and it was started before.
fn starts_and_ends<S: Spawner + Drop>(alloc: Global, spawner: S) -> Result<bool, Fail> {
    let mut set = started(alloc, spawner, 4, 0, 7)?;
    set.feed(0, b"abc")?;
    set.end_input(0);
    Ok(runs_to_its_end(&mut set))
}

#[test]
fn a_child_from_start_to_exit(rt: HostRuntime) -> Result<(), Fail> {
    let spawner = FakeSpawner::new(rt, rt.alloc(), PLAIN);
    assert!(rt; starts_and_ends(rt.alloc(), spawner)?);
    Ok(())
}

// What is told of child 3 at each of so many turns, whose input is fed or ended.
fn told_of<S: Spawner + Drop>(
    alloc: Global,
    spawner: S,
    feeds: bool,
    turns: usize,
) -> Result<Vec<u8>, Fail> {
    let mut set = started(alloc, spawner, 1, 3, 7)?;
    if feeds {
        set.feed(3, b"a")?;
    } else {
        set.end_input(3);
    }
    Ok(told_in(alloc, &mut set, 3, turns)?)
}

#[test]
fn what_fails_is_told(rt: HostRuntime) -> Result<(), Fail> {
    let alloc = rt.alloc();
    // (what the program does, what is told while its output is asked for at each turn)
    let rows: [(Plan, &[u8]); 7] = [
        (Plan { pieces: 0, ..PLAIN }, b"se-d-"),
        (
            Plan {
                output: PipeEnd::LetGo,
                ..PLAIN
            },
            b"sbxd-",
        ),
        (
            Plan {
                pieces: 0,
                input: PipeEnd::LetGo,
                ..PLAIN
            },
            b"stegd-",
        ),
        (
            Plan {
                pieces: 0,
                output: PipeEnd::Failed,
                ..PLAIN
            },
            b"sx-d-",
        ),
        (
            Plan {
                output: PipeEnd::Failed,
                ..PLAIN
            },
            b"sbxd-",
        ),
        (
            Plan {
                pieces: 0,
                input: PipeEnd::Failed,
                ..PLAIN
            },
            b"stegd-",
        ),
        (
            Plan {
                pieces: 0,
                reaps_fail: 3,
                exits_after: 0,
                ..PLAIN
            },
            b"se--d-",
        ),
    ];
    for (plan, told) in rows {
        let letters = told_of(
            alloc,
            FakeSpawner::new(rt, alloc, plan),
            !matches!(plan.input, PipeEnd::Good),
            told.len(),
        )?;
        assert_eq!(rt; letters.as_slice(), told);
    }
    Ok(())
}

// What is told of child 3 at each of so many turns, which was fed, whose input was ended, and which was killed and given up or
// not before its start was told; and whether it is kept no more.
fn told_of_late<S: Spawner + Drop>(
    alloc: Global,
    spawner: S,
    kills: bool,
    turns: usize,
) -> Result<(Vec<u8>, bool), Fail> {
    let mut set = started(alloc, spawner, 1, 3, 7)?;
    set.feed(3, b"abc")?;
    set.end_input(3);
    if kills {
        set.kill(3);
        set.release(3);
    }
    let told = told_in(alloc, &mut set, 3, turns)?;
    Ok((told, set.is_empty() && set.running() == 0))
}

#[test]
fn a_start_is_told_late(rt: HostRuntime) -> Result<(), Fail> {
    let alloc = rt.alloc();
    let late = Plan {
        starts_after: 2,
        ..PLAIN
    };
    let failing = Plan {
        start: Start::Fails,
        ..late
    };
    // (what becomes of the start, it is killed before that, what is told)
    let rows: [(Plan, bool, &[u8]); 4] = [
        (late, false, b"--stbed-"),
        (late, true, b"--std-"),
        (failing, false, b"--q--"),
        (failing, true, b"--q--"),
    ];
    for (plan, kills, told) in rows {
        let spawner = FakeSpawner::new(rt, alloc, plan);
        let (letters, is_over) = told_of_late(alloc, spawner, kills, told.len())?;
        assert_eq!(rt; letters.as_slice(), told);
        assert!(rt; is_over, "{told:?}");
    }
    Ok(())
}

// Whether a set that started no child keeps none, and tells nothing.
fn keeps_nothing<S: Spawner + Drop>(set: &mut Kids<S>) -> bool {
    let none = set.len() == 0;
    let quiet = tells(set, b'-', 0);
    set.want(0);
    set.kill(0);
    let fed = set.feed(0, b"a").is_ok();
    none && quiet && fed && tells(set, b'-', 0)
}

// What becomes of a start, and whether it keeps nothing.
fn start_fails<S: Spawner + Drop>(
    alloc: Global,
    spawner: S,
) -> Result<(Result<(), SpawnFault>, bool), NoMemory> {
    let launch = launch(alloc)?;
    let mut set = Kids::new(alloc, spawner, 1)?;
    let started = set.start(0, 0, &launch);
    Ok((started, keeps_nothing(&mut set)))
}

#[test]
fn a_start_that_fails_keeps_nothing(rt: HostRuntime) -> Result<(), Fail> {
    let alloc = rt.alloc();
    let plan = Plan {
        start: Start::Refused,
        ..PLAIN
    };
    let (started, is_empty) = start_fails(alloc, FakeSpawner::new(rt, alloc, plan))?;
    assert_eq!(rt; started, Err(SpawnFault::Failed));
    assert!(rt; is_empty);
    Ok(())
}

// Whether child 5, once it is released, is settled by its exit.
fn is_settled_by_exit<S: Spawner + Drop>(set: &mut Kids<S>) -> bool {
    set.want(5);
    set.release(5);
    set.want(5);
    set.kill(5);
    let ran = set.running() == 1;
    let started = tells(set, b's', 5);
    let exited = tells(set, b'd', 5);
    let ended = set.running() == 0;
    let quiet = tells(set, b'-', 0);
    ran && started && exited && ended && quiet && set.len() == 0
}

// .. and it was started before.
fn starts_and_is_released<S: Spawner + Drop>(alloc: Global, spawner: S) -> Result<bool, Fail> {
    let mut set = started(alloc, spawner, 1, 5, 0)?;
    set.end_input(5);
    Ok(is_settled_by_exit(&mut set))
}

#[test]
fn a_released_child_is_settled_by_its_exit(rt: HostRuntime) -> Result<(), Fail> {
    let spawner = FakeSpawner::new(rt, rt.alloc(), PLAIN);
    assert!(rt; starts_and_is_released(rt.alloc(), spawner)?);
    Ok(())
}
