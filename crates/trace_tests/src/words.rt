// What items say of a child.
ghost use Rattle.std.specs.Prelude.{◌≡◌, IfOk, count_by};
ghost use Rattle.std.specs.List.{list_any};
ghost use Rattle.host_trace.specs.Account.{is_account, settled, start_refused};
ghost use Rattle.host_trace.specs.Kinds.{is_child_answer, is_end_input, is_exited, is_kill, is_release, is_start, is_start_answer, is_want_child, is_ws_closed};
ghost use Rattle.host_trace.specs.Projections.{child_in, child_out, child_wanted, exited, input_ended, killed, output_ended, shut_for_memory, started, shut, stopped, tick_count};
ghost use Rattle.trace_child.specs.Bodies.{ends_reading};
ghost use Rattle.trace_child.specs.ChildDemands.{ends_waiting};

use crate::kinds;
use host_base::{Bytes, NoMemory};
use host_trace::Item;
use std::alloc::Global;

// ---- what has happened

pub fn started(items: &[Item], k: u64) -> bool
    ensures { result ≡ started items.now k }
{
    items.iter().any(|item| kinds::is_started(item, k))
}

pub fn exited(items: &[Item], k: u64) -> bool
    ensures { result ≡ exited items.now k }
{
    items.iter().any(|item| kinds::is_exited(item, k))
}

pub fn killed(items: &[Item], k: u64) -> bool
    ensures { result ≡ killed items.now k }
{
    items.iter().any(|item| kinds::is_kill(item, k))
}

pub fn input_ended(items: &[Item], k: u64) -> bool
    ensures { result ≡ input_ended items.now k }
{
    items.iter().any(|item| kinds::is_input_end(item, k))
}

pub fn output_ended(items: &[Item], k: u64) -> bool
    ensures { result ≡ output_ended items.now k }
{
    items.iter().any(|item| kinds::is_output_end(item, k))
}

pub fn stopped(items: &[Item]) -> bool
    ensures { result ≡ stopped items.now }
{
    items.iter().any(|item| kinds::is_stop(item))
}

pub fn shut_for_memory(items: &[Item], c: u64) -> bool
    ensures { result ≡ shut_for_memory items.now c }
{
    items.iter().any(|item| kinds::is_shut_for_memory(item, c))
}

pub fn has_ws_closed(items: &[Item], c: u64) -> bool
    ensures { result ≡ list_any (is_ws_closed c) items.now }
{
    items.iter().any(|item| kinds::is_ws_closed(item, c))
}

pub fn has_end_input(items: &[Item], k: u64) -> bool
    ensures { result ≡ list_any (is_end_input k) items.now }
{
    items.iter().any(|item| kinds::is_end_input(item, k))
}

pub fn has_end_of_reading(items: &[Item], k: u64) -> bool
    ensures { result ≡ list_any (ends_reading k) items.now }
{
    items.iter().any(|item| kinds::ends_reading(item, k))
}

pub fn has_end_of_waiting(items: &[Item], c: u64) -> bool
    ensures { result ≡ list_any (ends_waiting c) items.now }
{
    items.iter().any(|item| kinds::ends_waiting(item, c))
}

pub fn shut(items: &[Item], c: u64) -> bool
    ensures { result ≡ shut items.now c }
{
    items.iter().any(|item| kinds::is_shut(item, c))
}

fn start_refused(items: &[Item], k: u64) -> bool
    ensures { result ≡ start_refused items.now k }
{
    items.iter().any(|item| kinds::is_refusal(item, k))
}

/// Nothing of the child is left in the machine.
pub fn settled(items: &[Item], k: u64) -> bool
    ensures { result ≡ settled items.now k }
{
    start_refused(items, k) || exited(items, k) && input_ended(items, k) && output_ended(items, k)
}

// ---- how often

pub fn tick_count(items: &[Item]) -> usize
    ensures { result ≡ tick_count items.now }
{
    let mut count = 0;
    for item in items {
        if kinds::is_tick(item) {
            count += 1;
        }
    }
    count
}

fn starts(items: &[Item], k: u64) -> usize
    ensures { result ≡ count_by (is_start k) items.now }
{
    items.iter().filter(|item| kinds::is_start(item, k)).count()
}

fn start_answers(items: &[Item], k: u64) -> usize
    ensures { result ≡ count_by (is_start_answer k) items.now }
{
    items
        .iter()
        .filter(|item| kinds::is_start_answer(item, k))
        .count()
}

fn exits(items: &[Item], k: u64) -> usize
    ensures { result ≡ count_by (is_exited k) items.now }
{
    items
        .iter()
        .filter(|item| kinds::is_exited(item, k))
        .count()
}

fn child_answers(items: &[Item], k: u64) -> usize
    ensures { result ≡ count_by (is_child_answer k) items.now }
{
    items
        .iter()
        .filter(|item| kinds::is_child_answer(item, k))
        .count()
}

pub fn end_inputs(items: &[Item], k: u64) -> usize
    ensures { result ≡ count_by (is_end_input k) items.now }
{
    items
        .iter()
        .filter(|item| kinds::is_end_input(item, k))
        .count()
}

pub fn kills(items: &[Item], k: u64) -> usize
    ensures { result ≡ count_by (is_kill k) items.now }
{
    items.iter().filter(|item| kinds::is_kill(item, k)).count()
}

pub fn releases(items: &[Item], k: u64) -> usize
    ensures { result ≡ count_by (is_release k) items.now }
{
    items
        .iter()
        .filter(|item| kinds::is_release(item, k))
        .count()
}

pub fn want_childs(items: &[Item], k: u64) -> usize
    ensures { result ≡ count_by (is_want_child k) items.now }
{
    items
        .iter()
        .filter(|item| kinds::is_want_child(item, k))
        .count()
}

pub fn child_wanted(items: &[Item], k: u64) -> bool
    ensures { result ≡ child_wanted items.now k }
{
    child_answers(items, k) < want_childs(items, k)
}

/// The Start stands once, at most one event answers it, and the child was reaped at most once.
pub fn is_account(items: &[Item], k: u64) -> bool
    ensures { result ≡ is_account items.now k }
{
    starts(items, k) == 1 && start_answers(items, k) <= 1 && exits(items, k) <= 1
}

// ---- whole strings

pub fn child_in(alloc: Global, items: &[Item], k: u64) -> Result<Bytes, NoMemory>
    ensures { IfOk result (λ bytes. bytes ≡ child_in items.now k) }
{
    let mut bytes = Bytes::new(alloc);
    for item in items {
        bytes.extend_from_slice(kinds::input_fed(item, k))?;
    }
    Ok(bytes)
}

pub fn child_out(alloc: Global, items: &[Item], k: u64) -> Result<Bytes, NoMemory>
    ensures { IfOk result (λ bytes. bytes ≡ child_out items.now k) }
{
    let mut bytes = Bytes::new(alloc);
    for item in items {
        bytes.extend_from_slice(kinds::output_heard(item, k))?;
    }
    Ok(bytes)
}
