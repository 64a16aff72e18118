// The events of a sample.
ghost use Rattle.std.specs.Prelude.{◌≡◌, ◌+◌, ◌/◌, ◌++◌, ◌*◌, ◌<◌, ◌≤◌, IfOk, OnOk, codes, length, option_to_list};
ghost use Rattle.std.specs.List.{flat_map};
ghost use Rattle.std.specs.Fork.{slice_chunk};
ghost use Rattle.sample_parts.specs.Listed.{end_of, exit_of, in_phase, of_group, of_groups, output_of, request_of, sample_events, start_of};

use crate::plan::{Kind, Planned, plan};
use host_base::{Bytes, NoMemory, Peer, Text};
use host_trace::{Event, Events};
use std::alloc::Global;

// How many connections are in a group.
const GROUP: usize = 8;

// What the connections of a group do one after another.
#[derive(Clone, Copy, Debug)]
enum Phase {
    Connect,
    Ask,
    Start,
    Write,
    End,
    Exit,
}

fn request_of(kind: Kind) -> &'static [u8]
    ensures { result.now ≡ request_of kind }
{
    match kind {
        Kind::Missing => b"GET /none HTTP/1.1\r\nHost: a\r\nConnection: close\r\n\r\n",
        Kind::Head => b"HEAD /s HTTP/1.1\r\nHost: a\r\nConnection: close\r\n\r\n",
        _ => b"GET /s HTTP/1.1\r\nHost: a\r\nConnection: close\r\n\r\n",
    }
}

fn accepted(alloc: Global) -> Result<Event, NoMemory>
    ensures { IfOk result (λ event. event ≡ Event.Accepted (record { 0 = codes "192.0.2.1" })) }
{
    let peer = Peer(Text::copy_of(alloc, "192.0.2.1")?);
    Ok(Event::Accepted { peer })
}

fn asked(alloc: Global, c: u64, kind: Kind) -> Result<Event, NoMemory>
    ensures { IfOk result (λ event. event ≡ Event.ClientBytes c (request_of kind)) }
{
    let bytes = Bytes::from_slice(alloc, request_of(kind))?;
    Ok(Event::ClientBytes { c, bytes })
}

fn started(k: u64, kind: Kind) -> Option<Event>
    ensures { option_to_list result ≡ start_of k kind }
{
    match kind {
        Kind::Missing => None,
        Kind::NoStart => Some(Event::StartFailed { k }),
        _ => Some(Event::Started { k }),
    }
}

fn written(alloc: Global, k: u64, output: &[u8]) -> Result<Event, NoMemory>
    ensures { IfOk result (λ event. event ≡ Event.ChildBytes k output.now) }
{
    let bytes = Bytes::from_slice(alloc, output)?;
    Ok(Event::ChildBytes { k, bytes })
}

fn output_of(alloc: Global, k: u64, kind: Kind) -> Result<Option<Event>, NoMemory>
    ensures { IfOk result (λ event. option_to_list event ≡ output_of k kind) }
{
    match kind {
        Kind::Missing | Kind::NoStart => Ok(None),
        Kind::CutHeader => Ok(Some(written(alloc, k, b"Content-Type: text/plain\n")?)),
        _ => Ok(Some(written(alloc, k, b"Content-Type: text/plain\n\nhi\n")?)),
    }
}

fn ended(c: u64, k: u64, kind: Kind) -> Option<Event>
    ensures { option_to_list result ≡ end_of c k kind }
{
    match kind {
        Kind::Missing | Kind::NoStart => None,
        Kind::Leaves => Some(Event::ClientGone { c }),
        _ => Some(Event::ChildEof { k }),
    }
}

fn exited(k: u64, kind: Kind) -> Option<Event>
    ensures { option_to_list result ≡ exit_of k kind }
{
    match kind {
        Kind::Missing | Kind::NoStart => None,
        _ => Some(Event::Exited { k }),
    }
}

// What a connection adds to a phase.
fn in_phase(alloc: Global, phase: Phase, planned: Planned) -> Result<Option<Event>, NoMemory>
    ensures { IfOk result (λ event. option_to_list event ≡ in_phase phase planned) }
{
    let Planned { c, k, kind } = planned;
    match phase {
        Phase::Connect => Ok(Some(accepted(alloc)?)),
        Phase::Ask => Ok(Some(asked(alloc, c, kind)?)),
        Phase::Start => Ok(started(k, kind)),
        Phase::Write => output_of(alloc, k, kind),
        Phase::End => Ok(ended(c, k, kind)),
        Phase::Exit => Ok(exited(k, kind)),
    }
}

// Adds what the connections of a group do in a phase, in their order.
fn push_phase(
    alloc: Global,
    phase: Phase,
    group: &[Planned],
    events: &mut Events,
) -> Result<(), NoMemory>
    ensures { OnOk result (events.new ≡ events.old ++ flat_map (in_phase phase) group.now) }
{
    for planned in group {
        if let Some(event) = in_phase(alloc, phase, *planned)? {
            events.push(event)?;
        }
    }
    Ok(())
}

// Adds what the connections of a group do, one phase after another.
fn push_group(alloc: Global, group: &[Planned], events: &mut Events) -> Result<(), NoMemory>
    ensures { OnOk result (events.new ≡ events.old ++ of_group group.now) }
{
    push_phase(alloc, Phase::Connect, group, events)?;
    push_phase(alloc, Phase::Ask, group, events)?;
    push_phase(alloc, Phase::Start, group, events)?;
    push_phase(alloc, Phase::Write, group, events)?;
    push_phase(alloc, Phase::End, group, events)?;
    push_phase(alloc, Phase::Exit, group, events)
}

// The connections of the group with this number, counted from 0.
fn group_of(planned: &[Planned], number: usize) -> &[Planned]
    requires { number * 8 ≤ length planned.now }
    ensures { result.now ≡ slice_chunk planned.entry.now 8 number }
{
    let from = number * GROUP;
    let left = planned.len() - from;
    if left < GROUP {
        &planned[from..]
    } else {
        &planned[from..from + GROUP]
    }
}

// Adds what all connections do, one group after another.
fn push_groups(alloc: Global, planned: &[Planned], events: &mut Events) -> Result<(), NoMemory>
    ensures { OnOk result (events.new ≡ events.old ++ of_groups planned.now ((length planned.now + 7) / 8)) }
{
    let count = planned.len().div_ceil(GROUP);
    for number in 0..count {
        push_group(alloc, group_of(planned, number), events)?;
    }
    Ok(())
}

/// The events of a sample of so many connections, by its seed, in the order in which they are to come. The last is
/// Stop.
pub fn sample(alloc: Global, seed: u64, count: u32) -> Result<Events, NoMemory>
    ensures { IfOk result (λ events. events ≡ sample_events seed count) }
{
    let planned = plan(alloc, seed, count)?;
    let mut events = Events::new(alloc);
    push_groups(alloc, planned.as_slice(), &mut events)?;
    events.push(Event::Stop)?;
    Ok(events)
}
