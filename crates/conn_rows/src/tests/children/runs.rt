mod cases;
mod flags;
mod plain;
mod seeded;

use super::super::are_right;
use super::super::parts::Parts;
use cases::{
    CGI, Case, EXITS, FEEDS, INPUTS_GONE, LINGERS, OUTPUTS, RUN_TIMES, STARTS, goes, happens,
    run_of,
};
use child_core::*;
use flags::{Mark, Recording};
use host_base::{Cause, NoMemory};
use plain::Rules;
use seeded::list_of;
use std::alloc::Global;
use std::test::Fail;

// Says the name of these cases and the place of the first that goes otherwise than it must.
fn check_cases(
    alloc: Global,
    cases: &[Case],
    name: &str,
    said: &mut Parts,
) -> Result<(), NoMemory> {
    let mut place = 0u64;
    for case in cases {
        if !goes(alloc, case)? {
            said.push(name);
            said.push(" ");
            said.push_number(place);
            return Ok(());
        }
        place = place.saturating_add(1);
    }
    Ok(())
}

fn check_all(alloc: Global, said: &mut Parts) -> Result<(), NoMemory> {
    check_cases(alloc, RUN_TIMES.as_slice(), "run time", said)?;
    check_cases(alloc, LINGERS.as_slice(), "linger", said)?;
    check_cases(alloc, OUTPUTS.as_slice(), "output", said)?;
    check_cases(alloc, INPUTS_GONE.as_slice(), "input gone", said)?;
    check_cases(alloc, FEEDS.as_slice(), "feeds", said)?;
    check_cases(alloc, STARTS.as_slice(), "starts", said)?;
    check_cases(alloc, EXITS.as_slice(), "exits", said)
}

#[test]
fn cases_by_hand(rt: HostRuntime) -> Result<(), Fail> {
    let mut said = Parts::new(rt.alloc());
    check_all(rt.alloc(), &mut said)?;
    are_right(&rt, &said)
}

// What decides a run whose output was asked for, and what it makes of it.
const DECIDERS: [(Mark, Outcome); 9] = [
    (Mark::OutputEnd, Outcome::Output),
    (Mark::Broken, Outcome::Failed(Cause::OutputBroken)),
    (Mark::Output(9), Outcome::Failed(Cause::OutputTooLarge)),
    (Mark::Tick, Outcome::Failed(Cause::RunTime)),
    (Mark::ClientEnd, Outcome::Failed(Cause::Incomplete)),
    (Mark::Stop, Outcome::Stopped),
    (Mark::Gone, Outcome::Gone),
    (Mark::Dropped, Outcome::Dropped),
    (Mark::Refused, Outcome::Dropped),
];

const ONE_TICK: Rules = Rules {
    run_ticks: 1,
    ..CGI
};

// Its output is asked for, and these happen one after another; an exit may come at first or at last.
fn outcome_of(alloc: Global, flags: &[Mark]) -> Result<Option<Outcome>, NoMemory> {
    let mut run = run_of(alloc, &ONE_TICK);
    let mut out = Recording::new();
    for mark in flags {
        let _may = happens(alloc, &mut run, *mark, 0)?;
        out.clear();
        run.act(true, &mut out)?;
    }
    Ok(run.outcome())
}

// Whether each of the others, and an exit, before or after it, changes nothing of what it decides.
fn decides_first(alloc: Global, first: Mark, second: Mark, due: Outcome) -> Result<bool, NoMemory> {
    let alone = outcome_of(alloc, &[Mark::Started, first])?;
    let before = outcome_of(alloc, &[Mark::Started, first, second])?;
    let behind_exit = outcome_of(alloc, &[Mark::Started, Mark::Exited, first, second])?;
    let around_exit = outcome_of(alloc, &[Mark::Started, first, Mark::Exited, second])?;
    let due = Some(due);
    Ok(alone == due && before == due && behind_exit == due && around_exit == due)
}

// Says the places of the first two of which the second changes what the first decides.
fn check_deciders(alloc: Global, said: &mut Parts) -> Result<(), NoMemory> {
    let mut place = 0u64;
    for first in DECIDERS.as_slice() {
        for second in DECIDERS.as_slice() {
            if !decides_first(alloc, first.0, second.0, first.1)? {
                said.push("pair ");
                said.push_number(place);
                return Ok(());
            }
            place = place.saturating_add(1);
        }
    }
    Ok(())
}

#[test]
fn deciders_first_and_second(rt: HostRuntime) -> Result<(), Fail> {
    let mut said = Parts::new(rt.alloc());
    check_deciders(rt.alloc(), &mut said)?;
    are_right(&rt, &said)
}

// Says what differs in the first of the lists in which something does.
fn check_lists(alloc: Global, count: u64, said: &mut Parts) -> Result<(), NoMemory> {
    for seed in 0..count {
        let differs = list_of(alloc, seed)?;
        if !differs.is_empty() {
            said.push(differs);
            said.push(", list ");
            said.push_number(seed);
            return Ok(());
        }
    }
    Ok(())
}

#[test]
fn a_thousand_lists(rt: HostRuntime) -> Result<(), Fail> {
    let mut said = Parts::new(rt.alloc());
    check_lists(rt.alloc(), 1000, &mut said)?;
    are_right(&rt, &said)
}

// The acts of a step, where a Feed may find no room, or too much waits to be sent.
fn acts_are(run: &mut Run, out: &mut Recording, may: bool, acts: &[Mark]) -> bool {
    out.clear();
    let found = run.act(may, out).is_ok();
    found != out.full && out.right && out.has(acts)
}

// It is started, and is fed once there is room.
fn is_fed_once_there_is_room(
    alloc: Global,
    run: &mut Run,
    out: &mut Recording,
) -> Result<bool, NoMemory> {
    let offered = happens(alloc, run, Mark::Started, 0)?
        && happens(alloc, run, Mark::Offered(3, true), 0)?;
    out.full = true;
    let waits = acts_are(run, out, true, &[]);
    out.full = false;
    let feeds = acts_are(run, out, false, &[Mark::Fed(3), Mark::EndInput]);
    Ok(offered && waits && feeds)
}

// Its output is asked for once no more waits to be sent.
fn is_asked(run: &mut Run, out: &mut Recording) -> bool {
    !run.wants_more() && acts_are(run, out, true, &[Mark::Ask])
}

fn drains(run: &mut Run, output: &[u8]) -> bool {
    run.drain().as_slice() == output
}

fn gives_its_output(alloc: Global, run: &mut Run) -> Result<bool, NoMemory> {
    let heard = happens(alloc, run, Mark::Output(3), 0)?;
    let output = [0u8, 1, 2];
    let whole = run.output() == output.as_slice();
    Ok(heard && whole && drains(run, &output) && run.output().is_empty())
}

fn has_room(alloc: Global) -> Result<bool, NoMemory> {
    let mut run = run_of(alloc, &CGI);
    let mut out = Recording::new();
    let fed = is_fed_once_there_is_room(alloc, &mut run, &mut out)?;
    Ok(fed && is_asked(&mut run, &mut out) && gives_its_output(alloc, &mut run)?)
}

#[test]
fn room_for_a_feed_and_for_output(rt: HostRuntime) -> Result<(), Fail> {
    assert!(rt; has_room(rt.alloc())?);
    Ok(())
}
