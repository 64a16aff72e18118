// The items behind one, and before one.
ghost use Rattle.std.specs.Prelude.{◌≡◌, position};
ghost use Rattle.host_trace.specs.First.{since};
ghost use Rattle.host_trace.specs.Kinds.{is_child_eof, is_end_input, is_start, is_ws_closed};
ghost use Rattle.trace_child.specs.Words.{until};

use crate::kinds;
use host_trace::Item;

fn start_at(items: &[Item], k: u64) -> Option<usize>
    ensures { result ≡ position (is_start k) items.now }
{
    items.iter().position(|item| kinds::is_start(item, k))
}

fn child_eof_at(items: &[Item], k: u64) -> Option<usize>
    ensures { result ≡ position (is_child_eof k) items.now }
{
    items.iter().position(|item| kinds::is_child_eof(item, k))
}

fn ws_closed_at(items: &[Item], c: u64) -> Option<usize>
    ensures { result ≡ position (is_ws_closed c) items.now }
{
    items.iter().position(|item| kinds::is_ws_closed(item, c))
}

pub fn since_start(items: &[Item], k: u64) -> &[Item]
    ensures { result.now ≡ since (is_start k) items.now }
{
    match start_at(items, k) {
        Some(at) => &items[at + 1..],
        None => &[],
    }
}

pub fn since_child_eof(items: &[Item], k: u64) -> &[Item]
    ensures { result.now ≡ since (is_child_eof k) items.now }
{
    match child_eof_at(items, k) {
        Some(at) => &items[at + 1..],
        None => &[],
    }
}

pub fn since_ws_closed(items: &[Item], c: u64) -> &[Item]
    ensures { result.now ≡ since (is_ws_closed c) items.now }
{
    match ws_closed_at(items, c) {
        Some(at) => &items[at + 1..],
        None => &[],
    }
}

pub fn until_end_input(items: &[Item], k: u64) -> &[Item]
    ensures { result.now ≡ until (is_end_input k) items.now }
{
    for i in 0..items.len() {
        if kinds::is_end_input(&items[i], k) {
            return &items[..i];
        }
    }
    items
}
