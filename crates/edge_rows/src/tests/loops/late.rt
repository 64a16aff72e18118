// Loops whose starts are told late.
use super::super::kids::Start;
use super::super::pipes::ALL;
use super::super::ports::Ending;
use super::{FakeMaker, PLAIN, Plan, run_loop};
use child_book::Blank;
use edge_loop::Order;
use host_base::NoMemory;
use std::alloc::{AllocError, Global};
use std::marker::Brand;
use std::sync::Wait;
use std::test::Fail;

// Each start is told after some looks.
const LATE: Plan = Plan {
    starts_after: 3,
    ..PLAIN
};

// What is told but for the ticks.
fn without_ticks(alloc: Global, told: &[u8]) -> Result<Vec<u8>, AllocError> {
    let mut rest = Vec::new(alloc);
    for letter in told {
        if *letter != b'.' {
            rest.push(*letter)?;
        }
    }
    Ok(rest)
}

/// What the devices do, how many events are heard, which those are but for ticks, how often anything failed.
type Row = (Plan, u32, &'static [u8], u64);

// Which events the first row that isn't so wants. No child is counted once its loop was left.
fn check_rows<R: Wait + Copy + Drop>(
    rt: R,
    alloc: Global,
    rows: &[Row],
) -> Result<Option<&'static [u8]>, NoMemory> {
    for (plan, events, wanted, faults) in rows {
        let maker = FakeMaker::new(rt, alloc, *plan, 1);
        let ran = run_loop::<_, Brand, _>(rt, alloc, Blank::new(16), maker, *events)?;
        let told = without_ticks(alloc, ran.told.as_slice())?;
        if told.as_slice() != *wanted || ran.faults != *faults || ran.left != 0 {
            return Ok(Some(*wanted));
        }
    }
    Ok(None)
}

// The others are served and the clock goes on, and the loop is left, while a child is being started.
#[test]
fn a_loop_waits_for_no_start(rt: HostRuntime) -> Result<(), Fail> {
    let never = Plan {
        starts_after: ALL,
        ..PLAIN
    };
    let rows: [Row; 3] = [
        (never, 8, b"ac", 0),
        (
            Plan {
                clients: 2,
                ..never
            },
            16,
            b"aaccfw",
            0,
        ),
        (
            Plan {
                order: Some(Order::Stop),
                at: 2,
                ..never
            },
            3,
            b"acz",
            0,
        ),
    ];
    assert_eq!(rt; check_rows(rt, rt.alloc(), &rows)?, None);
    Ok(())
}

#[test]
fn a_start_is_told_late(rt: HostRuntime) -> Result<(), Fail> {
    let failing = Plan {
        start: Start::Fails,
        ..LATE
    };
    let rows: [Row; 5] = [
        (LATE, 32, b"acstbedw", 0),
        (Plan { clients: 2, ..LATE }, 32, b"aaccfwstbedw", 0),
        (failing, 32, b"acqw", 1),
        // The client is gone by then.
        (
            Plan {
                ending: Ending::Failed,
                ..LATE
            },
            32,
            b"acgstd",
            1,
        ),
        (
            Plan {
                ending: Ending::Failed,
                ..failing
            },
            32,
            b"acgq",
            2,
        ),
    ];
    assert_eq!(rt; check_rows(rt, rt.alloc(), &rows)?, None);
    Ok(())
}

#[test]
fn a_start_is_told_at_an_end(rt: HostRuntime) -> Result<(), Fail> {
    let stopped = Plan {
        order: Some(Order::Stop),
        at: 2,
        ..LATE
    };
    let drained = Plan {
        order: Some(Order::Drain),
        ..stopped
    };
    let rows: [Row; 4] = [
        (stopped, 32, b"aczstbedw", 0),
        (
            Plan {
                start: Start::Fails,
                ..stopped
            },
            32,
            b"aczqw",
            1,
        ),
        // A quiet end has the client heard to end, and waits for the start.
        (drained, 32, b"acostbedwz", 0),
        (
            Plan {
                start: Start::Fails,
                ..drained
            },
            32,
            b"acoqwz",
            1,
        ),
    ];
    assert_eq!(rt; check_rows(rt, rt.alloc(), &rows)?, None);
    Ok(())
}
