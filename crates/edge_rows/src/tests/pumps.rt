ghost use Rattle.std.specs.Prelude.{◌≡◌, ◌<◌, true};
ghost use Rattle.pipe_pump.specs.Rings.{IsOtherEnd, is_open};

mod relay;

use super::pipes::{ALL, Drain, Pieces, PipeEnd, Told};
use host_base::NoMemory;
use pipe_pump::*;
use pipe_wait::PipeWait;
use relay::{feed_through, relay};
use std::alloc::Global;
use std::sync::Wait;
use std::test::Fail;
use std::thread::Threads;

// Whether these bytes, four at most, are taken from a tap whose pump has ended: two of them before the tap is finished.
fn has_taken(tap: &mut Tap, ring: RingEnd, taken: &[u8]) -> bool
    requires { IsOtherEnd ring tap.old }
{
    let mut into = [0u8; 2];
    let mut rest = [0u8; 4];
    let standing = tap.look();
    let first = tap.take(&mut into);
    let left = tap.finish(ring);
    let more = tap.take(&mut rest);
    standing == taken.len()
        && first == taken.len().min(2)
        && left == taken.len() - first
        && into[..first] == taken[..first]
        && rest[..more] == taken[first..]
        && tap.take(&mut into) == 0
}

// Whether the pump of a pipe ends so, which gives these pieces and then ends so itself, and what it gave is taken.
fn pumps_out<R: Wait>(
    rt: &R,
    alloc: Global,
    pieces: &'static [&'static [u8]],
    pipe_end: PipeEnd,
    end: PumpEnd,
    taken: &[u8],
) -> Result<bool, NoMemory> {
    let pipe = Pieces {
        pieces,
        end: pipe_end,
        faults: 0,
    };
    let (ring, mut tap) = rings(alloc, 16)?;
    let done = pump_out(rt, pipe, ring, &mut PipeWait::none());
    let ended = done.end == end && done.pipe.faults == pipe_end.faults();
    Ok(has_taken(&mut tap, done.ring, taken) && ended)
}

#[test]
fn what_a_pipe_gives_is_taken(rt: HostRuntime) -> Result<(), Fail> {
    let alloc = rt.alloc();
    // (pieces, what comes after them, the end of the pump, what was taken)
    let rows: [(&'static [&'static [u8]], PipeEnd, PumpEnd, &[u8]); 6] = [
        (&[b"ab", b"c"], PipeEnd::Good, PumpEnd::AtEnd, b"abc"),
        (&[b"ab"], PipeEnd::Failed, PumpEnd::Broken, b"ab"),
        (&[b"ab", b"c"], PipeEnd::LetGo, PumpEnd::LetGo, b"abc"),
        (&[], PipeEnd::Good, PumpEnd::AtEnd, b""),
        (&[], PipeEnd::Failed, PumpEnd::Broken, b""),
        (&[], PipeEnd::LetGo, PumpEnd::LetGo, b""),
    ];
    for (pieces, pipe_end, end, taken) in rows {
        assert!(rt;
            pumps_out(&rt, alloc, pieces, pipe_end, end, taken)?,
            "{pieces:?} {pipe_end:?}"
        );
    }
    Ok(())
}

// Whether a ring of four bytes takes so many, and is closed.
fn is_filled(feeder: &mut Feeder) -> bool
    requires { is_open feeder.old ≡ true }
{
    let fed = feeder.feed(b"abc");
    let left = feeder.left();
    let more = feeder.feed(b"de");
    feeder.finish();
    fed == 3 && left == 3 && more == 1 && !feeder.is_open()
}

// Whether the pump to a pipe ends so, of which so many writes are good before it ends so itself, and the pipe took this.
fn pumps_in<R: Wait>(
    rt: &R,
    alloc: Global,
    writes: u32,
    pipe_end: PipeEnd,
    end: PumpEnd,
    taken: &[u8],
) -> Result<bool, NoMemory> {
    let (mut feeder, ring) = feed_rings(alloc, 4)?;
    let filled = is_filled(&mut feeder);
    let PumpDone {
        end: ended,
        pipe,
        ..
    } = pump_in(
        rt,
        ring,
        Drain::ending(alloc, 2, writes, pipe_end),
        &mut PipeWait::none(),
    );
    Ok(
        filled
            && ended == end
            && pipe.taken.as_slice() == taken
            && pipe.faults == pipe_end.faults()
            && pipe.is_finished == (end == PumpEnd::AtEnd),
    )
}

#[test]
fn what_is_fed_is_taken_by_the_pipe(rt: HostRuntime) -> Result<(), Fail> {
    // (so many writes are good, what becomes of the next, the end of the pump, what the pipe took)
    let rows: [(u32, PipeEnd, PumpEnd, &[u8]); 5] = [
        (9, PipeEnd::Good, PumpEnd::AtEnd, b"abcd"),
        (1, PipeEnd::Failed, PumpEnd::Broken, b"ab"),
        (0, PipeEnd::Failed, PumpEnd::Broken, b""),
        (1, PipeEnd::LetGo, PumpEnd::LetGo, b"ab"),
        (0, PipeEnd::LetGo, PumpEnd::LetGo, b""),
    ];
    for (writes, pipe_end, end, taken) in rows {
        assert!(rt;
            pumps_in(&rt, rt.alloc(), writes, pipe_end, end, taken)?,
            "{writes} {pipe_end:?}"
        );
    }
    Ok(())
}

// How a pump ends whose tap is gone.
fn end_without_tap<R: Wait>(rt: &R, alloc: Global) -> Result<PumpEnd, NoMemory> {
    let pipe = Pieces {
        pieces: &[b"ab", b"c", b"d"],
        end: PipeEnd::Good,
        faults: 0,
    };
    let (ring, tap) = rings(alloc, 2)?;
    drop(tap);
    Ok(pump_out(rt, pipe, ring, &mut PipeWait::none()).end)
}

// Whether a pump whose feeder is gone is abandoned, and its pipe took what was fed.
fn is_abandoned<R: Wait>(rt: &R, alloc: Global) -> Result<bool, NoMemory> {
    let (mut feeder, ring) = feed_rings(alloc, 8)?;
    feeder.feed(b"abc");
    drop(feeder);
    let done = pump_in(rt, ring, Drain::new(alloc, 2, ALL), &mut PipeWait::none());
    Ok(done.end == PumpEnd::Abandoned && done.pipe.taken.as_slice() == b"abc".as_slice())
}

#[test]
fn a_ring_whose_other_end_is_gone(rt: HostRuntime) -> Result<(), Fail> {
    assert_eq!(rt; end_without_tap(&rt, rt.alloc())?, PumpEnd::Abandoned);
    assert!(rt; is_abandoned(&rt, rt.alloc())?);
    Ok(())
}

// Whether bytes come whole through a pump from a pipe.
fn are_relayed<R: Threads + Wait + Copy + Drop + Send + 'static>(
    rt: &R,
    alloc: Global,
    bytes: &[u8],
    size: usize,
) -> Result<bool, Fail>
    requires { 0 < size }
{
    let (taken, end, _) = relay(rt, alloc, Told::new(bytes, usize::MAX, alloc)?, size)?;
    Ok(end == PumpEnd::AtEnd && taken.as_slice() == bytes)
}

// Whether of a pipe that is let go after half of its bytes those come whole through a pump, and the others are left to it.
fn half_is_relayed<R: Threads + Wait + Copy + Drop + Send + 'static>(
    rt: &R,
    alloc: Global,
    bytes: &[u8],
    size: usize,
) -> Result<bool, Fail>
    requires { 0 < size }
{
    let half = bytes.len() / 2;
    let pipe = Told::new(bytes, half, alloc)?;
    let (taken, end, pipe) = relay(rt, alloc, pipe, size)?;
    Ok(
        end == PumpEnd::LetGo
            && taken.as_slice() == &bytes[..half]
            && pipe.bytes.len() == bytes.len() - half,
    )
}

// Whether bytes come whole through a pump to a pipe.
fn are_fed<R: Threads + Wait + Copy + Drop + Send + 'static>(
    rt: &R,
    alloc: Global,
    bytes: &[u8],
    size: usize,
) -> Result<bool, Fail>
    requires { 0 < size }
{
    let (taken, end) = feed_through(rt, alloc, bytes, size)?;
    Ok(end == PumpEnd::AtEnd && taken.as_slice() == bytes)
}

// Whether so many bytes come whole through rings of this size, from a pipe and to one.
fn come_whole<R: Threads + Wait + Copy + Drop + Send + 'static>(
    rt: &R,
    alloc: Global,
    size: usize,
    count: usize,
) -> Result<bool, Fail>
    requires { 0 < size }
{
    let bytes = counted(alloc, count)?;
    Ok(
        are_relayed(rt, alloc, bytes.as_slice(), size)?
            && are_fed(rt, alloc, bytes.as_slice(), size)?,
    )
}

#[test]
fn pumps_in_threads_of_their_own(rt: HostRuntime) -> Result<(), Fail> {
    for (size, count) in [
        (1usize, 300usize),
        (7, 3_000),
        (4_096, 30_000),
        (70_000, 200_000),
    ] {
        assert!(rt; come_whole(&rt, rt.alloc(), size, count)?, "{size}");
    }
    Ok(())
}

#[test]
fn a_pipe_that_is_let_go_keeps_the_rest(rt: HostRuntime) -> Result<(), Fail> {
    let alloc = rt.alloc();
    for (size, count) in [(1usize, 300usize), (7, 3_000), (4_096, 3_000)] {
        let bytes = counted(alloc, count)?;
        assert!(rt;
            half_is_relayed(&rt, alloc, bytes.as_slice(), size)?,
            "{size}"
        );
    }
    Ok(())
}

// Bytes that tell their places.
fn counted(alloc: Global, count: usize) -> Result<Vec<u8>, Fail> {
    let mut bytes = Vec::new(alloc);
    for at in 0..count {
        bytes.push((at % 251) as u8)?;
    }
    Ok(bytes)
}
