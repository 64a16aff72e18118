// Lists of what may happen to a child, each made from a number, driven through a run and computed by the plain rules.
use super::super::super::numbers::Numbers;
use super::flags::{Mark, Recording, event_of, give};
use super::plain::{self, Rules};
use child_core::Run;
use host_base::{Limits, NoMemory, ScriptKind};
use std::alloc::Global;

fn rules_of(numbers: &mut Numbers) -> Rules {
    let kind = match numbers.below(3) {
        0 => ScriptKind::Cgi,
        1 => ScriptKind::Nph,
        _ => ScriptKind::WebSocket,
    };
    Rules {
        kind,
        run_ticks: numbers.small(30),
        linger_ticks: numbers.small(4),
        output: numbers.below(60).saturating_add(5),
    }
}

fn limits_of(rules: &Rules) -> Limits {
    Limits {
        output: rules.output,
        run_ticks: rules.run_ticks,
        linger_ticks: rules.linger_ticks,
        children: 64,
        ..Limits::default()
    }
}

fn offer_of(numbers: &mut Numbers) -> Mark {
    let count = match numbers.below(12) {
        0 => 65_536,
        1 => 65_537,
        2 => 131_073,
        _ => numbers.below(50),
    };
    Mark::Offered(count, numbers.below(4) == 0)
}

// What ends a run, or can't be expected.
fn end_of(numbers: &mut Numbers) -> Mark {
    match numbers.below(12) {
        0 => Mark::StartFailed,
        1 => Mark::StartFull,
        2 => Mark::Broken,
        3 => Mark::Stop,
        4 => Mark::Gone,
        5 => Mark::Dropped,
        6 => Mark::Refused,
        7 => Mark::ClientEnd,
        8 => Mark::Closed,
        9 => Mark::InputGone,
        10 => Mark::OutputEnd,
        _ => Mark::Exited,
    }
}

fn mark_of(numbers: &mut Numbers) -> Mark {
    match numbers.below(24) {
        0 | 1 | 2 | 3 | 4 => Mark::Output(numbers.below(14)),
        5 | 6 | 7 => Mark::Started,
        8 | 9 | 10 | 11 | 12 => Mark::Took(numbers.below(60)),
        13 => Mark::Took(65_536),
        14 | 15 => Mark::Tick,
        16 | 17 | 18 | 19 | 20 => offer_of(numbers),
        21 => Mark::OutputEnd,
        22 => Mark::Exited,
        _ => end_of(numbers),
    }
}

// Whether the run and the plain rules agree that it may come next.
fn agrees(alloc: Global, run: &Run, items: &[Mark], mark: Mark) -> Result<bool, NoMemory> {
    match event_of(alloc, mark)? {
        Some(event) => Ok(run.fits(&event) == plain::fits(items, mark)),
        None => Ok(true),
    }
}

// The run hears it, or is given it.
fn hear(alloc: Global, run: &mut Run, items: &[Mark], mark: Mark) -> Result<(), NoMemory> {
    match event_of(alloc, mark)? {
        Some(event) => run.hear(&event),
        None => give(alloc, run, mark, plain::offered(items)),
    }
}

// An item that may come next, mostly.
fn next_of(numbers: &mut Numbers, items: &[Mark]) -> Mark {
    let mut mark = mark_of(numbers);
    for _ in 0..20 {
        let offered = match mark {
            Mark::Offered(_, _) => plain::whole(items),
            _ => false,
        };
        if plain::fits(items, mark) && !offered {
            return mark;
        }
        mark = mark_of(numbers);
    }
    Mark::Tick
}

// What of that which the run tells differs from the plain rules; nothing where all agrees.
fn told(rules: &Rules, run: &Run, items: &[Mark]) -> &'static str {
    let outcome = plain::outcome(plain::decider(rules, items));
    if run.outcome() != outcome {
        return "Outcome";
    }
    if run.settled() != plain::settled(items) {
        return "Settled";
    }
    if run.wants_more() != plain::wants_more(rules, items) {
        return "Wants";
    }
    if run.output().len() as u64 != plain::kept(rules, items) {
        return "Output";
    }
    ""
}

// One step: the mark, and the acts that follow. It gives what differs.
fn step(
    alloc: Global,
    rules: &Rules,
    run: &mut Run,
    out: &mut Recording,
    items: &mut Vec<Mark>,
    mark: Mark,
    may: bool,
) -> Result<&'static str, NoMemory> {
    if !agrees(alloc, run, items.as_slice(), mark)? {
        return Ok("Fits");
    }
    hear(alloc, run, items.as_slice(), mark)?;
    items.push(mark)?;
    let before = items.len();
    plain::add_acts(rules, items, may)?;
    out.clear();
    run.act(may, out)?;
    let acts = items.as_slice().get(before..).unwrap_or(&[]);
    if !out.right || !out.has(acts) {
        return Ok("Acts");
    }
    Ok(told(rules, run, items.as_slice()))
}

/// What first differs in the list of this number, of up to forty events; nothing where nothing does.
pub fn list_of(alloc: Global, seed: u64) -> Result<&'static str, NoMemory> {
    let mut numbers = Numbers::new(seed);
    let rules = rules_of(&mut numbers);
    let limits = limits_of(&rules);
    let mut run = Run::new(alloc, 0, rules.kind, &limits);
    let mut out = Recording::new();
    let mut items = Vec::new(alloc);
    for _ in 0..numbers.small(40) {
        let mark = next_of(&mut numbers, items.as_slice());
        let may = numbers.below(8) != 0;
        let other = mark_of(&mut numbers);
        if !agrees(alloc, &run, items.as_slice(), other)? {
            return Ok("Fits");
        }
        let differs = step(alloc, &rules, &mut run, &mut out, &mut items, mark, may)?;
        if !differs.is_empty() {
            return Ok(differs);
        }
    }
    Ok("")
}
