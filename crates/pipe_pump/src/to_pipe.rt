// The pump from a ring to a pipe.
ghost use Rattle.std.specs.Prelude.{◌≡◌, ◌≤◌, ◌<◌, ◌+◌, ◌^◌, ◌⊎◌, [], true, false, Ok, Some, None, IfOk, IfErr, IfSome, OnOk, OnErr, length, vec_len, take as list_take, drop as list_drop};
ghost use Rattle.std.specs.Io.KnownBytes.{Appends};
ghost use Rattle.host_base.specs.Outsides.{Rose};
ghost use Rattle.rtrb.specs.Ring.{sent, received, known_items, IsPair, SameConsumer};
ghost use Rattle.pipe_pump.specs.Hands.{IsMarkFor};
ghost use Rattle.pipe_pump.specs.Rings.{IsFreshFeed, IsFeedEndOf, IsWholeFeed, popped, known_left};
ghost use Rattle.pipe_pump.specs.declared.ends.RingEnd.TheVariants.{Input};
ghost use Rattle.pipe_pump.specs.Moved.{Takes, Moves, TookFront, Stops, Cuts};

use super::buffer::grow;
use super::feed_ring::FeedRing;
use super::from_pipe::MOST;
use super::hand::{Hand, OneRing};
use super::pop::pop;
use super::{PipeOut, PipeWrite, PumpDone, PumpEnd, RingEnd};
use crossbeam_utils::sync::Parker;
use pipe_wait::PipeWait;
use rtrb::{Consumer, Producer};
use std::alloc::Global;
use std::sync::Wait;

// How long a piece is at most that is written before the pipe is told that the ring is empty.
const SHORT: usize = 4_096;

/// Moves bytes from a ring to a pipe until the feed has ended or the pipe fails or is let go, or the feeder is gone. It
/// waits for the pipe, there where its thread waits for pipes, and for bytes in the ring.
pub fn pump_in<R: Wait, P: PipeOut + Drop>(
    rt: &R,
    ring: FeedRing,
    pipe: P,
    wait: &mut PipeWait,
) -> PumpDone<P>
    requires { IsFreshFeed ring }
    ensures ring { IsFeedEndOf ring result.ring }
    ensures moved { Takes result.end (P.taken pipe) (P.taken result.pipe) (popped result.ring) }
    ensures whole { result.end ≡ PumpEnd.AtEnd → IsWholeFeed result.ring }
    ensures closed { result.end ≡ PumpEnd.AtEnd → P.closed result.pipe ≡ true }
    ensures count { P.faults pipe ≤ P.faults result.pipe }
    ensures cause { result.end ≡ PumpEnd.Broken → Rose (P.faults pipe) (P.faults result.pipe) }
    ensures spent { result.end ≡ PumpEnd.Spent → length (popped result.ring) ≡ 2 ^ 62 }
    ensures most { length (popped result.ring) ≡ 2 ^ 62 → (result.end ≡ PumpEnd.Spent) ⊎ ((result.end ≡ PumpEnd.Broken) ⊎ (result.end ≡ PumpEnd.LetGo)) }
    ensures empty { result.end ≡ PumpEnd.Abandoned → known_left result.ring ≡ [] }
{
    let (consumer, hand, parker, buffer) = ring.parts();
    let mut consumer = consumer;
    let mut hand = hand;
    let mut pipe = pipe;
    let mut total = 0;
    let mut buffer = buffer.into_small();
    match pump_open(
        rt,
        &mut pipe,
        &mut consumer,
        &mut hand,
        &parker,
        &mut total,
        &mut buffer,
        wait,
    ) {
        Err(end) => done(end, pipe, consumer, None, buffer),
        Ok(producer) => {
            let mut producer = producer;
            let end = pump_rest(
                rt,
                &mut pipe,
                &mut consumer,
                &mut producer,
                &mut total,
                &mut buffer,
                wait,
            );
            done(end, pipe, consumer, Some(producer), buffer)
        }
    }
}

fn done<P>(
    end: PumpEnd,
    pipe: P,
    consumer: Consumer<u8>,
    producer: Option<Producer<u8>>,
    buffer: Vec<u8>,
) -> PumpDone<P>
    ensures end { result.end ≡ end }
    ensures pipe { result.pipe ≡ pipe }
    ensures ring { result.ring ≡ Input consumer producer }
{
    PumpDone {
        end,
        pipe,
        ring: RingEnd::Input { consumer, producer },
        buffer,
    }
}

// Moves bytes until the other end of the ring was handed over.
fn pump_open<R: Wait, P: PipeOut>(
    rt: &R,
    pipe: &mut P,
    consumer: &mut Consumer<u8>,
    hand: &mut Consumer<Hand, Global, OneRing>,
    parker: &Parker,
    total: &mut u64,
    buffer: &mut Vec<u8>,
    wait: &mut PipeWait,
) -> Result<Producer<u8>, PumpEnd>
    requires mark { IsMarkFor (received hand.old) consumer.old }
    requires total { length (received consumer.old) ≡ total.old }
    requires most { total.old < 2 ^ 62 }
    requires room { 0 < vec_len buffer.old }
    ensures ring { SameConsumer consumer.old consumer.new }
    ensures moved { OnOk result (Moves (P.taken pipe.old) (P.taken pipe.new) (received consumer.old) (received consumer.new)) }
    ensures pair { IfOk result (λ p. IsPair p consumer.new) }
    ensures count { P.faults pipe.old ≤ P.faults pipe.new }
    ensures stops { IfErr result (λ end. Stops ⊥ (known_items consumer.new ≡ []) end (P.taken pipe.old) (P.taken pipe.new) (P.faults pipe.old) (P.faults pipe.new) (received consumer.old) (received consumer.new)) }
    ensures total { length (received consumer.new) ≡ total.new }
    ensures most { OnOk result (total.new < 2 ^ 62) }
    ensures room { OnOk result (0 < vec_len buffer.new) }
{
    for _ in rt.forever() {
        let is_last = consumer.is_abandoned();
        let count = match move_some(pipe, consumer, total, buffer, wait) {
            Ok(count) => count,
            Err(end) => return Err(end),
        };
        if count > 0 {
            grow(buffer, count);
            continue;
        }
        if let Some(producer) = take_hand(hand, consumer) {
            return Ok(producer);
        }
        if is_last {
            return Err(PumpEnd::Abandoned);
        }
        parker.park(rt);
    }
    unreachable!()
}

// Looks whether the other end of the ring was handed over.
fn take_hand(
    hand: &mut Consumer<Hand, Global, OneRing>,
    consumer: &Consumer<u8>,
) -> Option<Producer<u8>>
    requires { IsMarkFor (received hand.old) consumer.now }
    ensures pair { IfSome result (λ p. IsPair p consumer.now) }
    ensures none { result ≡ None → received hand.new ≡ received hand.old }
{
    let _ = consumer;
    match hand.pop() {
        Ok(Hand::Given(producer)) => Some(producer),
        Ok(Hand::Mark(_)) => unreachable!(),
        Err(_) => None,
    }
}

// Moves what is left in a ring whose other end is at hand.
#[tactic(auto, using(crate::proofs::Fronts::moves_two, crate::proofs::Fronts::stops_two))]
fn pump_rest<R: Wait, P: PipeOut>(
    rt: &R,
    pipe: &mut P,
    consumer: &mut Consumer<u8>,
    producer: &mut Producer<u8>,
    total: &mut u64,
    buffer: &mut Vec<u8>,
    wait: &mut PipeWait,
) -> PumpEnd
    requires pair { IsPair producer.old consumer.old }
    requires total { length (received consumer.old) ≡ total.old }
    requires most { total.old < 2 ^ 62 }
    requires room { 0 < vec_len buffer.old }
    ensures ring { SameConsumer consumer.old consumer.new }
    ensures pair { IsPair producer.new consumer.new }
    ensures closed { result ≡ PumpEnd.AtEnd → P.closed pipe.new ≡ true }
    ensures count { P.faults pipe.old ≤ P.faults pipe.new }
    ensures stops { Stops (received consumer.new ≡ sent producer.new) ⊥ result (P.taken pipe.old) (P.taken pipe.new) (P.faults pipe.old) (P.faults pipe.new) (received consumer.old) (received consumer.new) }
{
    for _ in rt.forever() {
        if consumer.slots_beside(producer) == 0 {
            pipe.finish(wait);
            return PumpEnd::AtEnd;
        }
        match move_some(pipe, consumer, total, buffer, wait) {
            Ok(count) => grow(buffer, count),
            Err(end) => return end,
        }
    }
    unreachable!()
}

// Moves one piece, if there is any, of no more bytes than the pump may still move.
fn move_some<P: PipeOut>(
    pipe: &mut P,
    consumer: &mut Consumer<u8>,
    total: &mut u64,
    buffer: &mut [u8],
    wait: &mut PipeWait,
) -> Result<usize, PumpEnd>
    requires total { length (received consumer.old) ≡ total.old }
    requires most { total.old < 2 ^ 62 }
    requires room { 0 < length buffer.old }
    ensures ring { SameConsumer consumer.old consumer.new }
    ensures moved { OnOk result (Moves (P.taken pipe.old) (P.taken pipe.new) (received consumer.old) (received consumer.new)) }
    ensures none { result ≡ Ok 0 → known_items consumer.new ≡ [] }
    ensures count { P.faults pipe.old ≤ P.faults pipe.new }
    ensures stops { IfErr result (λ end. Stops ⊥ ⊥ end (P.taken pipe.old) (P.taken pipe.new) (P.faults pipe.old) (P.faults pipe.new) (received consumer.old) (received consumer.new)) }
    ensures total { length (received consumer.new) ≡ total.new }
    ensures most { OnOk result (total.new < 2 ^ 62) }
{
    let room = buffer.len().min((MOST - *total) as usize);
    move_piece(pipe, consumer, total, &mut buffer[..room], wait)
}

// .. and no more than the buffer holds. Where that empties the ring the pipe is told.
fn move_piece<P: PipeOut>(
    pipe: &mut P,
    consumer: &mut Consumer<u8>,
    total: &mut u64,
    buffer: &mut [u8],
    wait: &mut PipeWait,
) -> Result<usize, PumpEnd>
    requires total { length (received consumer.old) ≡ total.old }
    requires most { total.old + length buffer.old ≤ 2 ^ 62 }
    requires room { 0 < length buffer.old }
    ensures ring { SameConsumer consumer.old consumer.new }
    ensures moved { OnOk result (Moves (P.taken pipe.old) (P.taken pipe.new) (received consumer.old) (received consumer.new)) }
    ensures none { result ≡ Ok 0 → known_items consumer.new ≡ [] }
    ensures count { P.faults pipe.old ≤ P.faults pipe.new }
    ensures stops { IfErr result (λ end. Stops ⊥ ⊥ end (P.taken pipe.old) (P.taken pipe.new) (P.faults pipe.old) (P.faults pipe.new) (received consumer.old) (received consumer.new)) }
    ensures total { length (received consumer.new) ≡ total.new }
    ensures most { OnOk result (total.new < 2 ^ 62) }
{
    let count = pop(consumer, buffer);
    if count == 0 {
        return Ok(0);
    }
    *total += count as u64;
    if let Err(end) = put_told(pipe, &buffer[..count], consumer.slots() == 0, wait) {
        return Err(end);
    }
    if *total == MOST {
        return Err(PumpEnd::Spent);
    }
    Ok(count)
}

// Writes all of a piece, where the pipe takes it. Where it is the last in the ring the pipe is told: before a
// long one, whose write may have to wait, and behind a short one, which it then has sooner.
fn put_told<P: PipeOut>(
    pipe: &mut P,
    piece: &[u8],
    is_last: bool,
    wait: &mut PipeWait,
) -> Result<(), PumpEnd>
    ensures all { OnOk result (Appends (P.taken pipe.old) (P.taken pipe.new) piece.now) }
    ensures part { TookFront (P.taken pipe.old) (P.taken pipe.new) piece.now }
    ensures count { P.faults pipe.old ≤ P.faults pipe.new }
    ensures cuts { IfErr result (λ end. Cuts end (P.faults pipe.old) (P.faults pipe.new)) }
{
    if !is_last {
        put(pipe, piece, wait)
    } else if piece.len() > SHORT {
        tell_and_put(pipe, piece, wait)
    } else {
        put_and_tell(pipe, piece, wait)
    }
}

#[tactic(auto, using(crate::proofs::Fronts::none_joined, crate::proofs::Fronts::none_front, crate::proofs::Fronts::front_after))]
fn tell_and_put<P: PipeOut>(pipe: &mut P, piece: &[u8], wait: &mut PipeWait) -> Result<(), PumpEnd>
    ensures all { OnOk result (Appends (P.taken pipe.old) (P.taken pipe.new) piece.now) }
    ensures part { TookFront (P.taken pipe.old) (P.taken pipe.new) piece.now }
    ensures count { P.faults pipe.old ≤ P.faults pipe.new }
    ensures cuts { IfErr result (λ end. Cuts end (P.faults pipe.old) (P.faults pipe.new)) }
{
    tell(pipe, wait)?;
    put(pipe, piece, wait)
}

#[tactic(auto, using(crate::proofs::Fronts::joined_none, crate::proofs::Fronts::whole_front))]
fn put_and_tell<P: PipeOut>(pipe: &mut P, piece: &[u8], wait: &mut PipeWait) -> Result<(), PumpEnd>
    ensures all { OnOk result (Appends (P.taken pipe.old) (P.taken pipe.new) piece.now) }
    ensures part { TookFront (P.taken pipe.old) (P.taken pipe.new) piece.now }
    ensures count { P.faults pipe.old ≤ P.faults pipe.new }
    ensures cuts { IfErr result (λ end. Cuts end (P.faults pipe.old) (P.faults pipe.new)) }
{
    put(pipe, piece, wait)?;
    tell(pipe, wait)
}

// Writes all of a piece, where the pipe takes it.
#[tactic(auto, using(crate::proofs::Fronts::taken_more, crate::proofs::Fronts::joined_none))]
fn put<P: PipeOut>(pipe: &mut P, piece: &[u8], wait: &mut PipeWait) -> Result<(), PumpEnd>
    ensures all { OnOk result (Appends (P.taken pipe.old) (P.taken pipe.new) piece.now) }
    ensures part { TookFront (P.taken pipe.old) (P.taken pipe.new) piece.now }
    ensures count { P.faults pipe.old ≤ P.faults pipe.new }
    ensures cuts { IfErr result (λ end. Cuts end (P.faults pipe.old) (P.faults pipe.new)) }
{
    let mut done = 0;
    while done < piece.len() {
        done += put_some(pipe, piece, done, wait)?;
    }
    Ok(())
}

// One write of what comes after the first bytes.
fn put_some<P: PipeOut>(
    pipe: &mut P,
    piece: &[u8],
    done: usize,
    wait: &mut PipeWait,
) -> Result<usize, PumpEnd>
    requires { done < length piece.now }
    ensures within { IfOk result (λ count. (0 < count) × (done + count ≤ length piece.now)) }
    ensures took { IfOk result (λ count. Appends (P.taken pipe.old) (P.taken pipe.new) (list_take count (list_drop done piece.now))) }
    ensures none { OnErr result (Appends (P.taken pipe.old) (P.taken pipe.new) []) }
    ensures count { P.faults pipe.old ≤ P.faults pipe.new }
    ensures cuts { IfErr result (λ end. Cuts end (P.faults pipe.old) (P.faults pipe.new)) }
{
    match pipe.write(&piece[done..], wait) {
        PipeWrite::Took(count) => Ok(count),
        PipeWrite::Failed => Err(PumpEnd::Broken),
        PipeWrite::LetGo => Err(PumpEnd::LetGo),
    }
}

// Tells the pipe that the ring is empty now.
fn tell<P: PipeOut>(pipe: &mut P, wait: &mut PipeWait) -> Result<(), PumpEnd>
    ensures pipe { Appends (P.taken pipe.old) (P.taken pipe.new) [] }
    ensures count { P.faults pipe.old ≤ P.faults pipe.new }
    ensures cuts { IfErr result (λ end. Cuts end (P.faults pipe.old) (P.faults pipe.new)) }
{
    match pipe.write(&[], wait) {
        PipeWrite::Took(_) => Ok(()),
        PipeWrite::Failed => Err(PumpEnd::Broken),
        PipeWrite::LetGo => Err(PumpEnd::LetGo),
    }
}
