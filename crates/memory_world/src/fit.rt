// Whether an event may come next after a trace.
ghost use Rattle.std.specs.Prelude.{◌≡◌, ◌+◌, ◌-◌, ◌^◌, ◌≤◌, ◌<◌, length, count_by, nat_le, position, if◌then◌else◌};
ghost use Rattle.std.specs.List.{list_any};
ghost use Rattle.host_trace.specs.Kinds.{is_accepted, is_upgrade};
ghost use Rattle.host_trace.specs.First.{since};
ghost use Rattle.host_trace.specs.Projections.{stopped, shut, upgraded, is_known, client_wanted, child_wanted, start_stands, start_answered, started, exited, input_ended, output_ended, sent_of_phase, left_of_phase, child_in, took_sum};
ghost use Rattle.host_trace.specs.Fits.{fits, is_open, is_asked, is_asked_upgraded, may_leave, is_start_open, is_output_asked, may_take};

use super::kinds::{
    is_accepted, is_child_answer, is_client_answer, is_exited, is_input_end, is_output_end,
    is_shut, is_start, is_start_answer, is_started, is_stop, is_upgrade, is_want_child,
    is_want_client,
};
use super::sums::{fed_len, said_len, took_sum, written_len, wrote_sum};
use host_trace::{Event, Item};
use trace_tallies::is_piece;

/// One where it is true.
pub fn one_if(test: bool) -> u64
    ensures { result ≡ (if test then 1 else 0) }
{
    if test { 1 } else { 0 }
}

fn count_accepted(items: &[Item]) -> usize
    ensures { result ≡ count_by is_accepted items.now }
{
    let mut count = 0;
    for item in items {
        if is_accepted(item) {
            count += 1;
        }
    }
    count
}

/// Whether Stop was heard.
pub fn stopped(items: &[Item]) -> bool
    ensures { result ≡ stopped items.now }
{
    items.iter().any(is_stop)
}

fn shut(items: &[Item], c: u64) -> bool
    ensures { result ≡ shut items.now c }
{
    items.iter().any(|item| is_shut(item, c))
}

fn upgraded(items: &[Item], c: u64) -> bool
    ensures { result ≡ upgraded items.now c }
{
    items.iter().any(|item| is_upgrade(item, c))
}

fn start_stands(items: &[Item], k: u64) -> bool
    ensures { result ≡ start_stands items.now k }
{
    items.iter().any(|item| is_start(item, k))
}

/// Whether an event answered the Start of child `k`.
pub fn start_answered(items: &[Item], k: u64) -> bool
    ensures { result ≡ start_answered items.now k }
{
    items.iter().any(|item| is_start_answer(item, k))
}

fn started(items: &[Item], k: u64) -> bool
    ensures { result ≡ started items.now k }
{
    items.iter().any(|item| is_started(item, k))
}

/// Whether child `k` was reaped.
pub fn exited(items: &[Item], k: u64) -> bool
    ensures { result ≡ exited items.now k }
{
    items.iter().any(|item| is_exited(item, k))
}

fn input_ended(items: &[Item], k: u64) -> bool
    ensures { result ≡ input_ended items.now k }
{
    items.iter().any(|item| is_input_end(item, k))
}

fn output_ended(items: &[Item], k: u64) -> bool
    ensures { result ≡ output_ended items.now k }
{
    items.iter().any(|item| is_output_end(item, k))
}

fn upgrade_at(items: &[Item], c: u64) -> Option<usize>
    ensures { result ≡ position (is_upgrade c) items.now }
{
    items.iter().position(|item| is_upgrade(item, c))
}

// The items after Upgrade.
fn since_upgrade(items: &[Item], c: u64) -> &[Item]
    ensures { result.now ≡ since (is_upgrade c) items.now }
{
    match upgrade_at(items, c) {
        Some(at) => &items[at + 1..],
        None => &[],
    }
}

fn is_known(items: &[Item], c: u64) -> bool
    ensures { result ≡ is_known items.now c }
{
    c < count_accepted(items) as u64
}

fn is_open(items: &[Item], c: u64) -> bool
    ensures { result ≡ is_open items.now c }
{
    is_known(items, c) && !shut(items, c)
}

fn client_wanted(items: &[Item], c: u64) -> bool
    ensures { result ≡ client_wanted items.now c }
{
    let mut wants = 0u64;
    let mut answers = 0u64;
    for item in items {
        wants += one_if(is_want_client(item, c));
        answers += one_if(is_client_answer(item, c));
    }
    answers < wants
}

fn child_wanted(items: &[Item], k: u64) -> bool
    ensures { result ≡ child_wanted items.now k }
{
    let mut wants = 0u64;
    let mut answers = 0u64;
    for item in items {
        wants += one_if(is_want_child(item, k));
        answers += one_if(is_child_answer(item, k));
    }
    answers < wants
}

fn is_asked(items: &[Item], c: u64) -> bool
    ensures { result ≡ is_asked items.now c }
{
    !shut(items, c) && !upgraded(items, c) && client_wanted(items, c)
}

fn is_asked_upgraded(items: &[Item], c: u64) -> bool
    ensures { result ≡ is_asked_upgraded items.now c }
{
    !shut(items, c) && upgraded(items, c) && client_wanted(items, c)
}

fn is_start_open(items: &[Item], k: u64) -> bool
    ensures { result ≡ is_start_open items.now k }
{
    start_stands(items, k) && !start_answered(items, k)
}

fn is_output_asked(items: &[Item], k: u64) -> bool
    ensures { result ≡ is_output_asked items.now k }
{
    started(items, k) && !output_ended(items, k) && child_wanted(items, k)
}

// Whether n bytes more can have left of those written or said in this phase.
fn has_left(items: &[Item], c: u64, n: u64) -> bool
    ensures { result ≡ nat_le (left_of_phase items.now c + n) (sent_of_phase items.now c) }
{
    let n = n as u128;
    if upgraded(items, c) {
        let talk = since_upgrade(items, c);
        wrote_sum(talk, c) + n <= said_len(talk, c)
    } else {
        wrote_sum(items, c) + n <= written_len(items, c)
    }
}

fn may_leave(items: &[Item], c: u64, n: u64) -> bool
    ensures { result ≡ may_leave items.now c n }
{
    !shut(items, c) && n >= 1 && has_left(items, c, n)
}

fn has_taken(items: &[Item], k: u64, n: u64) -> bool
    ensures { result ≡ nat_le (took_sum items.now k + n) (length (child_in items.now k)) }
{
    took_sum(items, k) + n as u128 <= fed_len(items, k)
}

fn may_take(items: &[Item], k: u64, n: u64) -> bool
    ensures { result ≡ may_take items.now k n }
{
    started(items, k) && n >= 1 && has_taken(items, k, n)
}

/// Whether the event may come next, where as many children as `limit` may run.
pub fn fits(items: &[Item], event: &Event, limit: u32) -> bool
    ensures { result ≡ fits limit items.now event.now }
{
    match event {
        Event::Accepted { .. } | Event::Stop => !stopped(items),
        Event::ClientBytes { c, bytes } => is_asked(items, *c) && is_piece(bytes),
        Event::ClientEof { c } => is_asked(items, *c),
        Event::ClientGone { c } | Event::NoRoom { c } => is_open(items, *c),
        Event::Wrote { c, n } => may_leave(items, *c, *n),
        Event::Started { k } | Event::StartFailed { k } => is_start_open(items, *k),
        Event::StartFull { k, seen } => is_start_open(items, *k) && *seen == limit,
        Event::ChildBytes { k, bytes } => is_output_asked(items, *k) && is_piece(bytes),
        Event::ChildEof { k } => is_output_asked(items, *k),
        Event::ChildBroken { k } => is_output_asked(items, *k),
        Event::Took { k, n } => may_take(items, *k, *n),
        Event::InputGone { k } => started(items, *k) && !input_ended(items, *k),
        Event::Exited { k } => started(items, *k) && !exited(items, *k),
        Event::WsText { c, .. } => is_asked_upgraded(items, *c),
        Event::WsBinary { c } => is_asked_upgraded(items, *c),
        Event::WsClosed { c } => is_asked_upgraded(items, *c),
        Event::WsBad { c } => is_asked_upgraded(items, *c),
        Event::Tick { secs } => *secs < 253_402_300_800,
    }
}
