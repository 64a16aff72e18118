// The pump from a pipe to a ring.
ghost use Rattle.std.specs.Prelude.{◌≡◌, ◌≤◌, ◌<◌, ◌^◌, ◌↔◌, ◌++◌, ℕ, Bool, List, [], Option, false, IfOk, length, vec_len};
ghost use Rattle.std.specs.Io.KnownBytes.{Consumes, IsAtEnd};
ghost use Rattle.host_base.specs.Outsides.{Rose};
ghost use Rattle.rtrb.specs.Ring.{SameProducer};
ghost use Rattle.pipe_pump.specs.Rings.{IsFreshRing, IsRingOf, IsEndOf, handed_up, is_finished, put_in, known_room};
ghost use Rattle.pipe_pump.specs.Pipes.{Reads};
ghost use Rattle.pipe_pump.specs.declared.pipe.PipeRead.TheVariants as ReadAs;
ghost use Rattle.pipe_pump.specs.Moved.{Gives, Sends, SendEnds, KnownEnd};
ghost use Rattle.pipe_pump.specs.declared.ends.RingEnd.TheVariants.{Output};

use super::buffer::{Buffer, grow};
use super::tap::Tap;
use super::{PipeIn, PipeRead, PumpDone, PumpEnd, RingEnd};
use crossbeam_utils::sync::Parker;
use host_base::NoMemory;
use pipe_wait::PipeWait;
use rtrb::{Producer, RingBuffer};
use std::alloc::Global;
use std::sync::Wait;

/// How many bytes a pump moves at most.
pub(crate) const MOST: u64 = 0x4000_0000_0000_0000;

/// What a pump from a pipe holds of its ring.
#[derive(Drop)]
pub struct PumpRing {
    producer: Producer<u8>,
    parker: Parker,
    buffer: Buffer,
}

/// A ring with room for `size` bytes: the end of a pump from a pipe, and the end of the loop.
pub fn rings(alloc: Global, size: usize) -> Result<(PumpRing, Tap), NoMemory>
    requires { 0 < size }
    ensures fresh { IfOk result (λ r. IsFreshRing r.0) }
    ensures pair { IfOk result (λ r. IsRingOf r.0 r.1) }
    ensures empty { IfOk result (λ r. handed_up r.1 ≡ []) }
    ensures open { IfOk result (λ r. is_finished r.1 ≡ false) }
{
    let (producer, consumer) = RingBuffer::new(alloc, size)?;
    let parker = Parker::new(alloc)?;
    let pump = parker.unparker().clone()?;
    let buffer = Buffer::new(alloc)?;
    Ok((
        PumpRing {
            producer,
            parker,
            buffer,
        },
        Tap::new(consumer, pump),
    ))
}

/// Moves bytes from a pipe to a ring until the pipe ends or fails or is let go, or the tap is gone. It waits for the pipe,
/// there where its thread waits for pipes, and for room in the ring.
pub fn pump_out<R: Wait, P: PipeIn + Drop>(
    rt: &R,
    pipe: P,
    ring: PumpRing,
    wait: &mut PipeWait,
) -> PumpDone<P>
    requires { IsFreshRing ring }
    ensures ring { IsEndOf ring result.ring }
    ensures moved { Gives result.end (P.left pipe) (P.left result.pipe) (put_in result.ring) }
    ensures end { result.end ≡ PumpEnd.AtEnd → IsAtEnd (P.left result.pipe) }
    ensures count { P.faults pipe ≤ P.faults result.pipe }
    ensures cause { result.end ≡ PumpEnd.Broken → Rose (P.faults pipe) (P.faults result.pipe) }
    ensures spent { result.end ≡ PumpEnd.Spent ↔ (length (put_in result.ring) ≡ 2 ^ 62) }
    ensures full { result.end ≡ PumpEnd.Abandoned → known_room result.ring ≡ 0 }
{
    let PumpRing {
        producer,
        parker,
        buffer,
    } = ring;
    let mut producer = producer;
    let mut buffer = buffer.into_small();
    let mut pipe = pipe;
    let mut total = 0;
    for _ in rt.forever() {
        let room = buffer.len().min((MOST - total) as usize);
        let count = match read_piece(&mut pipe, &mut buffer, room, wait) {
            PipeRead::Bytes(count) => count,
            PipeRead::End => return done(PumpEnd::AtEnd, pipe, producer, buffer),
            PipeRead::Failed => return done(PumpEnd::Broken, pipe, producer, buffer),
            PipeRead::LetGo => return done(PumpEnd::LetGo, pipe, producer, buffer),
        };
        total += count as u64;
        let is_last = total == MOST;
        if let Some(end) = send(
            rt,
            &mut pipe,
            &mut producer,
            &parker,
            &buffer[..count],
            is_last,
            wait,
        ) {
            return done(end, pipe, producer, buffer);
        }
        grow(&mut buffer, count);
    }
    unreachable!()
}

// One read of at most so many bytes.
#[tactic(auto, using(crate::proofs::Gone::reads_back))]
fn read_piece<P: PipeIn>(
    pipe: &mut P,
    buffer: &mut Vec<u8>,
    most: usize,
    wait: &mut PipeWait,
) -> PipeRead
    requires most { (0 < most) × (most ≤ vec_len buffer.old) }
    ensures within { (n : ℕ) → result ≡ ReadAs.Bytes n → (0 < n) × (n ≤ most) }
    ensures room { vec_len buffer.new ≡ vec_len buffer.old }
    ensures bytes { Reads (P.left pipe.old) (P.left pipe.new) buffer.new.items result }
    ensures count { P.faults pipe.old ≤ P.faults pipe.new }
    ensures cause { result ≡ ReadAs.Failed → Rose (P.faults pipe.old) (P.faults pipe.new) }
{
    read_front(pipe, buffer, most, wait)
}

// .. to the front of a slice.
#[tactic(auto, using(crate::proofs::Gone::reads_more))]
fn read_front<P: PipeIn>(
    pipe: &mut P,
    buffer: &mut [u8],
    most: usize,
    wait: &mut PipeWait,
) -> PipeRead
    requires most { (0 < most) × (most ≤ length buffer.old) }
    ensures within { (n : ℕ) → result ≡ ReadAs.Bytes n → (0 < n) × (n ≤ most) }
    ensures room { length buffer.new ≡ length buffer.old }
    ensures bytes { Reads (P.left pipe.old) (P.left pipe.new) buffer.new result }
    ensures count { P.faults pipe.old ≤ P.faults pipe.new }
    ensures cause { result ≡ ReadAs.Failed → Rose (P.faults pipe.old) (P.faults pipe.new) }
{
    pipe.read(&mut buffer[..most], wait)
}

fn done<P>(end: PumpEnd, pipe: P, producer: Producer<u8>, buffer: Vec<u8>) -> PumpDone<P>
    ensures end { result.end ≡ end }
    ensures pipe { result.pipe ≡ pipe }
    ensures ring { result.ring ≡ Output producer }
{
    PumpDone {
        end,
        pipe,
        ring: RingEnd::Output(producer),
        buffer,
    }
}

// How the pump ends after its last piece.
fn known_end(is_last: bool) -> Option<PumpEnd>
    ensures { (after : Option (List ℕ)) (before now : ℕ) → KnownEnd is_last after before now result }
{
    if is_last { Some(PumpEnd::Spent) } else { None }
}

// Puts a piece into the ring, and waits for room. Before it waits the pipe is told, which may end then. It
// answers how the pump ends with this piece, if it does.
fn send<R: Wait, P: PipeIn>(
    rt: &R,
    pipe: &mut P,
    producer: &mut Producer<u8>,
    parker: &Parker,
    piece: &[u8],
    is_last: bool,
    wait: &mut PipeWait,
) -> Option<PumpEnd>
    ensures ring { SameProducer producer.old producer.new }
    ensures sent { Sends result producer.old producer.new piece.now }
    ensures pipe { Consumes (P.left pipe.old) (P.left pipe.new) [] }
    ensures count { P.faults pipe.old ≤ P.faults pipe.new }
    ensures ends { SendEnds is_last (P.left pipe.new) (P.faults pipe.old) (P.faults pipe.new) result }
{
    let mut rest = piece;
    let mut ended = known_end(is_last);
    for _ in rt.forever() {
        let (_, left) = producer.push_partial_slice(rest);
        rest = left;
        if rest.is_empty() {
            return ended;
        }
        let is_gone = producer.is_abandoned();
        if !producer.is_full() {
            continue;
        }
        if is_gone {
            return Some(PumpEnd::Abandoned);
        }
        ended = tell_unless_ended(pipe, ended, wait);
        parker.park(rt);
    }
    unreachable!()
}

// Tells the pipe, where it is not known yet how the pump ends.
fn tell_unless_ended<P: PipeIn>(
    pipe: &mut P,
    ended: Option<PumpEnd>,
    wait: &mut PipeWait,
) -> Option<PumpEnd>
    ensures pipe { Consumes (P.left pipe.old) (P.left pipe.new) [] }
    ensures count { P.faults pipe.old ≤ P.faults pipe.new }
    ensures ends { (is_last : Bool) (before : ℕ) → before ≤ P.faults pipe.old → KnownEnd is_last (P.left pipe.old) before (P.faults pipe.old) ended → KnownEnd is_last (P.left pipe.new) before (P.faults pipe.new) result }
{
    match ended {
        Some(_) => ended,
        None => tell(pipe, wait),
    }
}

// Tells the pipe that its bytes wait in the ring.
fn tell<P: PipeIn>(pipe: &mut P, wait: &mut PipeWait) -> Option<PumpEnd>
    ensures pipe { Consumes (P.left pipe.old) (P.left pipe.new) [] }
    ensures count { P.faults pipe.old ≤ P.faults pipe.new }
    ensures ends { KnownEnd false (P.left pipe.new) (P.faults pipe.old) (P.faults pipe.new) result }
{
    match pipe.read(&mut [], wait) {
        PipeRead::Bytes(_) => None,
        PipeRead::End => Some(PumpEnd::AtEnd),
        PipeRead::Failed => Some(PumpEnd::Broken),
        PipeRead::LetGo => Some(PumpEnd::LetGo),
    }
}
