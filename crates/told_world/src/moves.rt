// Outsides are put under others that tell, and taken out again.
ghost use Rattle.std.specs.Prelude.{◌≡◌, ◌≤◌, ◌+◌, ◌++◌, [], All, map, vec_len, vec_capacity};

use host_trace::Outside;
use std::alloc::Global;
use std::sync::Wait;
use told_outside::ToldOutside;
use trace_log::GivenLog;

/// Each outside, with an empty trace, where there is room for them.
pub fn wrap<O: Outside, R: Wait + Copy + Drop>(
    rt: R,
    alloc: Global,
    outs: Vec<ToldOutside<O, R>>,
    entered: Vec<O>,
    limit: u32,
) -> Vec<ToldOutside<O, R>>
    requires room { vec_len outs + vec_len entered ≤ vec_capacity outs }
    requires limited { All (λ o. O.limit o ≡ limit) entered.items }
    requires told { All (λ o. (o.log ≡ []) × (o.limit ≡ limit)) outs.items }
    ensures len { vec_len result ≡ vec_len outs + vec_len entered }
    ensures told { All (λ o. (o.log ≡ []) × (o.limit ≡ limit)) result.items }
{
    let mut outs = outs;
    let mut entered = entered.into_iter();
    while let Some(one) = entered.next() {
        outs.push_reserved(ToldOutside::new(rt, alloc, one, limit));
    }
    entered.destroy_empty();
    outs
}

/// Takes all out, where there is room for them, with their traces in their order, and adds how many events each has
/// dropped.
pub fn unwrap<O: Outside, R: Wait + Copy + Drop>(
    given: &mut GivenLog,
    dropped: &mut u64,
    room: Vec<O>,
    outs: Vec<ToldOutside<O, R>>,
) -> Vec<O>
    requires room { vec_len room + vec_len outs ≤ vec_capacity room }
    ensures given { given.new ≡ given.old ++ map (λ o. o.log) outs.items }
    ensures len { vec_len result ≡ vec_len room + vec_len outs }
{
    let mut room = room;
    let mut outs = outs.into_iter();
    while let Some(out) = outs.next() {
        *dropped = dropped.saturating_add(out.dropped());
        let (inner, log) = out.into_parts();
        *given = given.joined(&log);
        room.push_reserved(inner);
    }
    outs.destroy_empty();
    room
}

/// Room for so many. It waits until there is memory for it.
pub fn find_room<O, R: Wait>(rt: &R, alloc: Global, count: usize) -> Vec<O>
    ensures empty { vec_len result ≡ 0 }
    ensures room { count ≤ vec_capacity result }
{
    for _ in rt.forever() {
        if let Ok(room) = Vec::with_capacity(alloc, count) {
            return room;
        }
    }
    unreachable!()
}
