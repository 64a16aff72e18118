// Outsides are put under others that tell a log, and taken out again.
ghost use Rattle.std.specs.Prelude.{◌≡◌, ◌≤◌, ◌+◌, [], map, vec_len, vec_capacity};

use crate::{LineQueue, LogOutside};
use host_base::Limits;
use host_trace::Outside;
use std::alloc::Global;
use std::sync::Wait;
use std::time::Clock;

/// Each outside with a queue, as long as there are some, where there is room for them.
pub fn wrap<O: Outside, R: Clock + Copy + Drop>(
    rt: R,
    alloc: Global,
    outs: Vec<LogOutside<O, R>>,
    entered: Vec<O>,
    limits: Limits,
    queues: &mut Vec<LineQueue>,
) -> Vec<LogOutside<O, R>>
    requires empty { outs.items ≡ [] }
    requires room { vec_len outs + vec_len entered ≤ vec_capacity outs }
    ensures len { vec_len result ≡ vec_len outs + vec_len entered }
    ensures those { map (λ o. o.inner) result.items ≡ entered.items }
{
    let mut outs = outs;
    let mut entered = entered.into_iter();
    while let Some(one) = entered.next() {
        outs.push_reserved(LogOutside::new(rt, alloc, one, limits, queues.pop()));
    }
    entered.destroy_empty();
    outs
}

/// Takes all out, where there is room for them.
pub fn unwrap<O: Outside, R: Clock + Copy + Drop>(
    room: Vec<O>,
    outs: Vec<LogOutside<O, R>>,
) -> Vec<O>
    requires empty { room.items ≡ [] }
    requires room { vec_len room + vec_len outs ≤ vec_capacity room }
    ensures len { vec_len result ≡ vec_len room + vec_len outs }
    ensures those { result.items ≡ map (λ o. o.inner) outs.items }
{
    let mut room = room;
    let mut outs = outs.into_iter();
    while let Some(out) = outs.next() {
        room.push_reserved(out.into_inner());
    }
    outs.destroy_empty();
    room
}

/// Room for so many. It waits until there is memory for it.
pub fn find_room<O, R: Wait>(rt: &R, alloc: Global, count: usize) -> Vec<O>
    ensures empty { result.items ≡ [] }
    ensures none { vec_len result ≡ 0 }
    ensures room { count ≤ vec_capacity result }
{
    for _ in rt.forever() {
        if let Ok(room) = Vec::with_capacity(alloc, count) {
            return room;
        }
    }
    unreachable!()
}
