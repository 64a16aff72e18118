// The rules on a child, computed on the list of all that happened since its Start: slow and simple.
use super::flags::Mark;
use child_core::Outcome;
use host_base::{Cause, NoMemory, ScriptKind};

/// What the child is kept to.
#[derive(Clone, Copy)]
pub struct Rules {
    pub kind: ScriptKind,
    pub run_ticks: u32,
    pub linger_ticks: u32,
    pub output: u64,
}

impl Rules {
    fn talks(&self) -> bool {
        self.kind == ScriptKind::WebSocket
    }
}

// ---- words

fn has(items: &[Mark], mark: Mark) -> bool {
    for item in items {
        if *item == mark {
            return true;
        }
    }
    false
}

fn count(items: &[Mark], mark: Mark) -> u64 {
    let mut sum = 0u64;
    for item in items {
        if *item == mark {
            sum = sum.saturating_add(1);
        }
    }
    sum
}

// what follows the first such item
fn since(items: &[Mark], mark: Mark) -> &[Mark] {
    let mut place = 0usize;
    for item in items {
        if *item == mark {
            return items.get(place..).unwrap_or(&[]);
        }
        place = place.saturating_add(1);
    }
    &[]
}

// What is counted of items.
#[derive(Clone, Copy)]
enum Of {
    Heard,
    Offered,
    Fed,
    Taken,
}

fn amount(of: Of, item: Mark) -> u64 {
    match (of, item) {
        (Of::Heard, Mark::Output(count)) => count,
        (Of::Offered, Mark::Offered(count, _)) => count,
        (Of::Fed, Mark::Fed(count)) => count,
        (Of::Taken, Mark::Took(count)) => count,
        _ => 0,
    }
}

// How many bytes they are in all.
fn sum(of: Of, items: &[Mark]) -> u64 {
    let mut sum = 0u64;
    for item in items {
        sum = sum.saturating_add(amount(of, *item));
    }
    sum
}

fn output(items: &[Mark]) -> u64 {
    sum(Of::Heard, items)
}

pub fn offered(items: &[Mark]) -> u64 {
    sum(Of::Offered, items)
}

fn fed(items: &[Mark]) -> u64 {
    sum(Of::Fed, items)
}

fn taken(items: &[Mark]) -> u64 {
    sum(Of::Taken, items)
}

// all of the body was offered
pub fn whole(items: &[Mark]) -> bool {
    for item in items {
        match item {
            Mark::Offered(_, last) => {
                if *last {
                    return true;
                }
            }
            _ => {}
        }
    }
    false
}

fn input_ended(items: &[Mark]) -> bool {
    has(items, Mark::EndInput) || has(items, Mark::InputGone)
}

fn output_ended(items: &[Mark]) -> bool {
    has(items, Mark::OutputEnd) || has(items, Mark::Broken) || has(items, Mark::Release)
}

fn answers(items: &[Mark]) -> u64 {
    let mut sum = 0u64;
    for item in items {
        match item {
            Mark::Output(_) | Mark::OutputEnd | Mark::Broken => sum = sum.saturating_add(1),
            _ => {}
        }
    }
    sum
}

fn is_asked(items: &[Mark]) -> bool {
    answers(items) < count(items, Mark::Ask)
}

fn is_answered(items: &[Mark]) -> bool {
    has(items, Mark::Started) || has(items, Mark::StartFailed) || has(items, Mark::StartFull)
}

// ---- the decider

fn decides(rules: &Rules, front: &[Mark], item: Mark) -> bool {
    match item {
        Mark::OutputEnd
        | Mark::StartFailed
        | Mark::StartFull
        | Mark::Broken
        | Mark::Stop
        | Mark::Gone
        | Mark::Dropped
        | Mark::Refused => true,
        Mark::Output(count) => {
            !rules.talks() && rules.output < output(front).saturating_add(count)
        }
        Mark::Tick => {
            !rules.talks()
                && count(front, Mark::Tick).saturating_add(1) == u64::from(rules.run_ticks)
        }
        Mark::ClientEnd => !rules.talks() && !whole(front),
        _ => false,
    }
}

/// The first item that decides the run.
pub fn decider(rules: &Rules, items: &[Mark]) -> Option<Mark> {
    let mut place = 0usize;
    for item in items {
        let front = items.get(..place).unwrap_or(&[]);
        if decides(rules, front, *item) {
            return Some(*item);
        }
        place = place.saturating_add(1);
    }
    None
}

pub fn outcome(decider: Option<Mark>) -> Option<Outcome> {
    match decider {
        None => None,
        Some(Mark::OutputEnd) => Some(Outcome::Output),
        Some(Mark::StartFailed) => Some(Outcome::Failed(Cause::StartFailed)),
        Some(Mark::StartFull) => Some(Outcome::Failed(Cause::Full { seen: 64 })),
        Some(Mark::Broken) => Some(Outcome::Failed(Cause::OutputBroken)),
        Some(Mark::Output(_)) => Some(Outcome::Failed(Cause::OutputTooLarge)),
        Some(Mark::Tick) => Some(Outcome::Failed(Cause::RunTime)),
        Some(Mark::ClientEnd) => Some(Outcome::Failed(Cause::Incomplete)),
        Some(Mark::Stop) => Some(Outcome::Stopped),
        Some(Mark::Gone) => Some(Outcome::Gone),
        Some(_) => Some(Outcome::Dropped),
    }
}

fn is_by_other(decider: Option<Mark>) -> bool {
    match decider {
        None | Some(Mark::OutputEnd) => false,
        Some(_) => true,
    }
}

// ---- what is demanded at the end of a step

fn is_hung_up(rules: &Rules, items: &[Mark]) -> bool {
    rules.talks() && has(items, Mark::Closed)
}

fn is_left_alone(rules: &Rules, items: &[Mark]) -> bool {
    let ticks = count(since(items, Mark::Closed), Mark::Tick);
    is_hung_up(rules, items)
        && decider(rules, items).is_none()
        && u64::from(rules.linger_ticks) <= ticks
}

fn nobody_waits(items: &[Mark]) -> bool {
    has(items, Mark::Stop) || has(items, Mark::Gone) || has(items, Mark::Dropped)
}

fn has_lingered(rules: &Rules, items: &[Mark]) -> bool {
    let later = since(items, Mark::OutputEnd);
    decider(rules, items) == Some(Mark::OutputEnd)
        && (u64::from(rules.linger_ticks) <= count(later, Mark::Tick) || nobody_waits(later))
}

fn is_fed_whole(rules: &Rules, items: &[Mark]) -> bool {
    !rules.talks() && whole(items) && fed(items) == offered(items)
}

fn must_end_input(rules: &Rules, items: &[Mark]) -> bool {
    has(items, Mark::Started)
        && (decider(rules, items).is_some()
            || is_hung_up(rules, items)
            || !has(items, Mark::Exited) && is_fed_whole(rules, items))
}

fn must_kill(rules: &Rules, items: &[Mark]) -> bool {
    has(items, Mark::Started)
        && !has(items, Mark::Exited)
        && (is_by_other(decider(rules, items))
            || is_left_alone(rules, items)
            || has_lingered(rules, items))
}

fn must_release(rules: &Rules, items: &[Mark]) -> bool {
    has(items, Mark::Started)
        && has(items, Mark::Exited)
        && (is_by_other(decider(rules, items))
            || is_left_alone(rules, items)
            || has(items, Mark::Kill))
}

fn must_ask(rules: &Rules, items: &[Mark], may: bool) -> bool {
    has(items, Mark::Started)
        && decider(rules, items).is_none()
        && !has(items, Mark::Kill)
        && !output_ended(items)
        && may
}

// how much is to be fed now: a text at once, 65,536 bytes of a body at most
fn next_feed(rules: &Rules, items: &[Mark]) -> u64 {
    let open = has(items, Mark::Started)
        && decider(rules, items).is_none()
        && !has(items, Mark::Exited)
        && !input_ended(items);
    if !open || taken(items) != fed(items) {
        return 0;
    }
    let rest = offered(items).saturating_sub(fed(items));
    if rules.talks() {
        rest
    } else {
        rest.min(65_536)
    }
}

/// Adds the acts that are demanded and not done.
pub fn add_acts(rules: &Rules, items: &mut Vec<Mark>, may: bool) -> Result<(), NoMemory> {
    let piece = next_feed(rules, items.as_slice());
    if piece != 0 {
        items.push(Mark::Fed(piece))?;
    }
    if must_end_input(rules, items.as_slice()) && !input_ended(items.as_slice()) {
        items.push(Mark::EndInput)?;
    }
    if must_kill(rules, items.as_slice()) && !has(items.as_slice(), Mark::Kill) {
        items.push(Mark::Kill)?;
    }
    if must_release(rules, items.as_slice()) && !output_ended(items.as_slice()) {
        items.push(Mark::Release)?;
    }
    if must_ask(rules, items.as_slice(), may) && !is_asked(items.as_slice()) {
        items.push(Mark::Ask)?;
    }
    Ok(())
}

// ---- what is told

pub fn settled(items: &[Mark]) -> bool {
    let refused = has(items, Mark::StartFailed) || has(items, Mark::StartFull);
    refused || has(items, Mark::Exited) && input_ended(items) && output_ended(items)
}

/// More of its client may be heard for it.
pub fn wants_more(rules: &Rules, items: &[Mark]) -> bool {
    taken(items) == fed(items) || rules.talks() && (input_ended(items) || has(items, Mark::Exited))
}

/// How many bytes of output are kept.
pub fn kept(rules: &Rules, items: &[Mark]) -> u64 {
    if rules.talks() || is_by_other(decider(rules, items)) {
        0
    } else {
        output(items)
    }
}

/// Whether the item may be heard next.
pub fn fits(items: &[Mark], item: Mark) -> bool {
    let started = has(items, Mark::Started);
    let open = started && !output_ended(items) && is_asked(items);
    match item {
        Mark::Started | Mark::StartFailed | Mark::StartFull => !is_answered(items),
        Mark::Output(count) => open && 1 <= count && count <= 65_536,
        Mark::OutputEnd | Mark::Broken => open,
        Mark::Took(n) => started && 1 <= n && taken(items).saturating_add(n) <= fed(items),
        Mark::InputGone => started && !input_ended(items),
        Mark::Exited => started && !has(items, Mark::Exited),
        _ => true,
    }
}
