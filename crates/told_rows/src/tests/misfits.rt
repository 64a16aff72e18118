// What fits is handed up in order, and what doesn't is dropped and counted, in runs over an outside that hands up all.
use super::steps::{Ask, Seen, Step, act_of, event_of};
use Ask::{Child, Client, EndInput, Feed, Release, Says, Shut, Start, Upgrade, Write};
use Seen::{
    Accepted, Bad, Binary, Broken, Bytes, Closed, Eof, Exited, Gone, InputGone, NoRoom, Output,
    OutputEof, StartFailed, StartFull, Started, Stop, Text, Tick, Took, Wrote,
};
use Step::{Does, Fits, Misfits};
use host_base::NoMemory;
use host_trace::{Acted, Events, Outside};
use memory_world::MemoryOutside;
use std::alloc::Global;
use std::sync::Wait;
use std::test::Fail;
use told_outside::ToldOutside;

const LIMIT: u32 = 2;

// A connection that is served by a program, and is shut. What doesn't fit is heard before the next event that does, so no act
// stands between the two.
const SERVED: &[Step] = &[
    Misfits(Eof(0)),
    Misfits(Gone(0)),
    Misfits(NoRoom(0)),
    Misfits(Bytes(0, 1)),
    Fits(Accepted),
    Misfits(Bytes(0, 1)),
    Fits(Tick(0)),
    Does(Client(0)),
    Misfits(Bytes(0, 0)),
    Misfits(Bytes(0, 65_537)),
    Misfits(Text(0)),
    Misfits(Eof(1)),
    Misfits(Started(0)),
    Fits(Bytes(0, 65_536)),
    Misfits(Eof(0)),
    Fits(Tick(0)),
    Does(Start(0, 0)),
    Misfits(Exited(0)),
    Misfits(StartFull(0, 1)),
    Misfits(StartFull(0, 3)),
    Fits(Started(0)),
    Misfits(StartFailed(0)),
    Fits(Tick(0)),
    Does(Feed(0, 10)),
    Misfits(Took(0, 0)),
    Misfits(Took(0, 11)),
    Misfits(Output(0, 1)),
    Fits(Took(0, 4)),
    Misfits(Took(0, 7)),
    Fits(Took(0, 6)),
    Does(Child(0)),
    Does(EndInput(0)),
    Misfits(InputGone(0)),
    Fits(Output(0, 1)),
    Misfits(OutputEof(0)),
    Fits(Tick(0)),
    Does(Child(0)),
    Fits(OutputEof(0)),
    Does(Write(0, 5)),
    Does(Child(0)),
    Misfits(Wrote(0, 6)),
    Misfits(Broken(0)),
    Fits(Wrote(0, 5)),
    Misfits(Wrote(0, 1)),
    Fits(Exited(0)),
    Misfits(Exited(0)),
    Fits(Tick(0)),
    Does(Shut(0)),
    Misfits(Gone(0)),
    Misfits(NoRoom(0)),
    Fits(Tick(253_402_300_799)),
    Misfits(Tick(253_402_300_800)),
    Fits(Stop),
    Misfits(Stop),
    Misfits(Accepted),
];

// Two WebSockets, one of which is refused its program, and then begins a phase of its own.
const TALKED: &[Step] = &[
    Fits(Accepted),
    Fits(Accepted),
    Does(Client(1)),
    Does(Start(0, 1)),
    Fits(StartFull(0, LIMIT)),
    Misfits(Started(0)),
    Does(Start(1, 1)),
    Fits(Started(1)),
    Does(Write(1, 100)),
    Does(Upgrade(1)),
    Misfits(Wrote(1, 1)),
    Misfits(Bytes(1, 1)),
    Fits(Text(1)),
    Misfits(Binary(1)),
    Fits(Tick(0)),
    Does(Client(1)),
    Does(Says(1, 3)),
    Misfits(Wrote(1, 4)),
    Fits(Wrote(1, 3)),
    Fits(InputGone(1)),
    Misfits(InputGone(1)),
    Does(Release(1)),
    Does(Child(1)),
    Misfits(Output(1, 1)),
    Fits(Closed(1)),
    Misfits(Bad(1)),
    Fits(Gone(0)),
    Fits(Gone(1)),
    Does(Shut(0)),
    Fits(Exited(1)),
    Misfits(Took(1, 1)),
    Fits(NoRoom(1)),
];

// All that is handed up, whether it fits or not.
fn listed(alloc: Global, steps: &[Step]) -> Result<Events, NoMemory> {
    let mut events = Events::new(alloc);
    for step in steps {
        match step {
            Fits(seen) | Misfits(seen) => events.push(event_of(alloc, *seen)?)?,
            Does(_) => {}
        }
    }
    Ok(events)
}

// Whether the next event is this one.
fn hears<O: Outside>(alloc: Global, out: &mut O, seen: Seen) -> Result<bool, Fail> {
    let wanted = event_of(alloc, seen)?;
    let heard = out.next();
    let wanted = format!(in alloc; "{wanted:?}")?;
    let heard = format!(in alloc; "{heard:?}")?;
    Ok(wanted.as_str() == heard.as_str())
}

// At how many steps something else was heard, or an act wasn't done.
fn wrong_steps<O: Outside>(alloc: Global, out: &mut O, steps: &[Step]) -> Result<usize, Fail> {
    let mut wrong = 0usize;
    for step in steps {
        let right = match step {
            Fits(seen) => hears(alloc, out, *seen)?,
            Misfits(_) => true,
            Does(ask) => out.act(&act_of(alloc, *ask)?) == Acted::Done,
        };
        if !right {
            wrong = wrong.saturating_add(1);
        }
    }
    Ok(wrong)
}

fn misfits(steps: &[Step]) -> usize {
    steps
        .iter()
        .filter(|step| matches!(step, Misfits(_)))
        .count()
}

// Whether all is as the steps say, and so many rows are kept in the end, of connections and of children.
fn plays<R: Wait + Copy + Drop>(
    rt: R,
    alloc: Global,
    steps: &[Step],
    rows: (usize, usize),
) -> Result<bool, Fail> {
    let wild = MemoryOutside::wild(alloc, listed(alloc, steps)?, Vec::new(alloc), LIMIT)?;
    let mut out = ToldOutside::new(rt, alloc, wild, LIMIT);
    let played = wrong_steps(alloc, &mut out, steps);
    let counts = out.row_counts();
    // Those behind the last that fits are dropped by the next call, which hands up what comes once the list is used up.
    let _ = out.next();
    let dropped = out.dropped();
    let _ = out.into_parts();
    let wrong = played?;
    Ok(wrong == 0 && dropped == misfits(steps) as u64 && counts == rows)
}

#[test]
fn what_fits_is_handed_up(rt: HostRuntime) -> Result<(), Fail> {
    assert!(rt; plays(rt, rt.alloc(), SERVED, (0, 0))?, "served");
    assert!(rt; plays(rt, rt.alloc(), TALKED, (1, 0))?, "talked");
    Ok(())
}
