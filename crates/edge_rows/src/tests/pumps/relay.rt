// Pumps in threads of their own, and a loop at the other end of each ring.
ghost use Rattle.std.specs.Prelude.{◌≡◌, ◌<◌, IfOk, false};
ghost use Rattle.pipe_pump.specs.Rings.{IsEndOf, IsFreshRing, IsFreshFeed, IsOtherEnd, handed_up, is_finished, put_in, SameTap};
ghost use Rattle.pipe_pump.specs.Moved.{Gives};

use super::super::pipes::{ALL, Drain};
use pipe_pump::{
    FeedRing, PipeIn, PumpDone, PumpEnd, PumpRing, RingEnd, Tap, feed_rings, pump_in, pump_out,
    rings,
};
use pipe_wait::PipeWait;
use std::alloc::{AllocError, Global};
use std::snapshot::Snapshot;
use std::sync::atomic::{AtomicBool, Ordering};
use std::sync::{Arc, Wait};
use std::test::Fail;
use std::thread;
use std::thread::{JoinHandle, Promise, PromisedHandle, Threads};

/// What a pump promises of its ring and of its pipe.
#[derive(Drop)]
pub struct Moved<P> {
    ring: Snapshot<PumpRing>,
    pipe: Snapshot<P>,
}

impl<P: PipeIn> Promise<PumpDone<P>> for Moved<P> {
    ghost use Rattle.std.specs.Prelude.{◌≡◌};
    ghost use Rattle.pipe_pump.specs.Rings.{IsEndOf, put_in};
    ghost use Rattle.pipe_pump.specs.Moved.{Gives};

    ghost kept_by = { λ promise done. IsEndOf promise.ring.value done.ring × Gives done.end (P.left promise.pipe.value) (P.left done.pipe) (put_in done.ring) };
}

// Pumps where nobody waits for pipes.
fn pump<R: Wait, P: PipeIn + Drop>(rt: &R, pipe: P, ring: PumpRing) -> PumpDone<P>
    requires { IsFreshRing ring }
    ensures ring { IsEndOf ring result.ring }
    ensures moved { Gives result.end (P.left pipe) (P.left result.pipe) (put_in result.ring) }
{
    pump_out(rt, pipe, ring, &mut PipeWait::none())
}

fn start<R: Threads + Wait + Copy + Drop + Send + 'static, P: PipeIn + Send + Drop + 'static>(
    rt: &R,
    ended: Arc<AtomicBool, Global>,
    pipe: P,
    ring: PumpRing,
) -> Result<PromisedHandle<PumpDone<P>, Moved<P>>, AllocError>
    requires { IsFreshRing ring }
    ensures ring { IfOk result (λ handle. handle.promise.ring.value ≡ ring) }
    ensures pipe { IfOk result (λ handle. handle.promise.pipe.value ≡ pipe) }
{
    let promise = Moved {
        ring: Snapshot::of(&ring),
        pipe: Snapshot::of(&pipe),
    };
    let theirs = *rt;
    Ok(thread::spawn_with(rt, promise, move || {
        let done = pump(&theirs, pipe, ring);
        ended.store(true, Ordering::SeqCst);
        done
    })?)
}

// Takes what comes until the pump has ended.
fn take_some<R: Wait>(
    rt: &R,
    ended: &AtomicBool,
    tap: &mut Tap,
    all: &mut Vec<u8>,
) -> Result<(), AllocError>
    requires taken { handed_up tap.old ≡ all.old.items }
    requires open { is_finished tap.old ≡ false }
    ensures ring { SameTap tap.old tap.new }
    ensures taken { IfOk result (λ _. handed_up tap.new ≡ all.new.items) }
{
    let mut buffer = [0u8; 100];
    for _ in rt.forever() {
        let count = tap.take(&mut buffer);
        all.extend_from_slice(&buffer[..count])?;
        if count == 0 {
            if ended.load(Ordering::SeqCst) {
                return Ok(());
            }
            thread::yield_now();
        }
    }
    unreachable!()
}

// Takes what still stands in the ring of a pump that has ended.
fn take_rest(
    alloc: Global,
    tap: &mut Tap,
    ring: RingEnd,
    all: &mut Vec<u8>,
) -> Result<(), AllocError>
    requires ring { IsOtherEnd ring tap.old }
    requires taken { handed_up tap.old ≡ all.old.items }
    ensures { IfOk result (λ _. all.new.items ≡ put_in ring) }
{
    let left = tap.finish(ring);
    let mut rest = vec![in alloc; 0u8; left]?;
    let count = tap.take(&mut rest);
    all.extend_from_slice(&rest[..count])?;
    Ok(())
}

/// What came through a ring from a pump in a thread of its own, how the pump ended, and what is left of the
/// pipe.
pub fn relay<R: Threads + Wait + Copy + Drop + Send + 'static, P: PipeIn + Send + Drop + 'static>(
    rt: &R,
    alloc: Global,
    pipe: P,
    size: usize,
) -> Result<(Vec<u8>, PumpEnd, P), Fail>
    requires { 0 < size }
    ensures { IfOk result (λ r. Gives r.1 (P.left pipe) (P.left r.2) r.0.items) }
{
    let (ring, mut tap) = rings(alloc, size)?;
    let ended = Arc::new(alloc, AtomicBool::new(false))?;
    let pump = start(rt, Arc::try_clone(&ended)?, pipe, ring)?;
    let mut all = Vec::new(alloc);
    take_some(rt, &ended, &mut tap, &mut all)?;
    let PumpDone {
        end,
        pipe,
        ring,
        ..
    } = pump.join(rt);
    take_rest(alloc, &mut tap, ring, &mut all)?;
    Ok((all, end, pipe))
}

/// What a thread runs.
trait Task {
    fn run<R: Wait>(self, rt: &R) -> PumpDone<Drain>;
}

/// A pump to a pipe.
#[derive(Drop)]
struct Feeding {
    ring: FeedRing,
    pipe: Drain,
    ghost fresh: { IsFreshFeed ring },
}

impl Task for Feeding {
    fn run<R: Wait>(self, rt: &R) -> PumpDone<Drain> {
        let Feeding { ring, pipe } = self;
        pump_in(rt, ring, pipe, &mut PipeWait::none())
    }
}

fn start_task<R: Threads + Wait + Copy + Drop + Send + 'static, T: Task + Send + Drop + 'static>(
    rt: &R,
    task: T,
) -> Result<JoinHandle<(Vec<u8>, PumpEnd)>, AllocError> {
    let theirs = *rt;
    Ok(thread::spawn(rt, move || {
        let done = task.run(&theirs);
        (done.pipe.taken, done.end)
    })?)
}

/// What a pipe took of bytes that were fed to a pump in a thread of its own, and how the pump ended.
pub fn feed_through<R: Threads + Wait + Copy + Drop + Send + 'static>(
    rt: &R,
    alloc: Global,
    bytes: &[u8],
    size: usize,
) -> Result<(Vec<u8>, PumpEnd), Fail>
    requires { 0 < size }
{
    let (mut feeder, ring) = feed_rings(alloc, size)?;
    let pipe = Drain::new(alloc, 2, ALL);
    let pump = start_task(rt, Feeding { ring, pipe })?;
    let mut rest = bytes;
    for _ in rt.forever() {
        let count = feeder.feed(rest);
        rest = &rest[count..];
        if rest.is_empty() {
            break;
        }
        thread::yield_now();
    }
    feeder.finish();
    Ok(pump.join(rt))
}
